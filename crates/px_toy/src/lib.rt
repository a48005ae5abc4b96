//! The worked example of how a layer is written: a server that echoes lines, and asks before each.
//!
//! The client's bytes come in any pieces. Each line of them, up to and with its line feed, is asked about with the hook
//! of a request's head; `Go` echoes the line to the client, `Kill` closes the client and ends, and any other reply drops
//! the line. While a line is asked about the lines behind it wait. When the client closes and no line is left, it is
//! closed too.
//!
//! What is due is stated as a chain of stages over the client's joined bytes (`specs/Echo.antt`), with no piece, queue or
//! buffer in it. The code keeps the bytes that were not used yet, and `IsReading` and `IsOver` say how they relate.
#![tactic(auto)]

mod chained;
mod echo;

pub use echo::LineEcho;
