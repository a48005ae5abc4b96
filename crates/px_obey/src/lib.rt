//! An operator's lines, obeyed over a router.
//!
//! px_view says what an operator's line is, and what texts answer it; px_core says what an operator does to flows and addons. Here the two meet. Whole
//! lines of one connection are obeyed one behind the other (`specs/Obeyed.antt`): `list` is answered with the live flows, `show` with a flow as it was asked
//! about last, `entry` with a part of its entry, `resume`, `kill`, `mark` and `drop` with whether it was done, `quit` with its farewell. What a line is
//! answered hangs on the steps of conversations in front of it, and so on what the lines before it caused. An answer is said behind the steps that its line
//! caused, so whoever reads `ok` behind a `resume` knows that what goes on was said before.
//!
//! What is said to an operator is no step of a conversation: the trace that the router stands for goes on without it (as `px_core::operate_over` says its steps
//! beside what the network tells), and the network tells both.
//!
//! Behind a line that is too long the connection is closed, and behind `quit` the run ends: lines behind them are not obeyed.
#![tactic(auto)]

mod line;
mod lines;
mod order;
mod outcome;
mod text;

pub use lines::obey;
pub use outcome::Outcome;
