//! Rows that are diagrams: conversations and whole runs. docs/rows.md has the notation.
//!
//! `read_diagram` reads the lines of such a row, and `cuts_of` says how it is played. `play_lines` plays a conversation to any layer behind a
//! gate, with the replies of `hooks_of`; `hand` makes what a run is handed, and `show_run` shows what came of it. Who makes the layer and who runs is
//! the program `rows`.
//!
//! This crate serves that program alone: what it does is tested by its rows, and not proved, beyond that it is safe and ends.
#![tactic(auto)]

mod conversation;
mod diagram;
mod outside;
mod replies;
mod runs;
mod told;

pub use conversation::play_lines;
pub use diagram::{Asked, Diagram, cuts_of, read_diagram};
pub use outside::Outside;
pub use replies::{ReplyTurn, hooks_of};
pub use runs::{Handed, hand, show_run};
