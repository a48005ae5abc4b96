//! What is shown of flows, and the lines in which an operator talks to a run.
//!
//! A finished flow has a line, `ID METHOD URL CODE SIZE` (`specs/Line.antt`). All else here is for an operator, who says lines over
//! connections of its own and is answered in lines. A line goes through three steps, each a function of what it is given, so each
//! call equals its definition.
//!
//! Bytes become lines at a `Desk`, which keeps for each connection what came behind its last line feed. What a byte completes, and
//! where the connection stands behind it, hangs on that alone (`specs/Desk.antt`). So a piece is taken byte by byte, and where bytes are
//! cut shows nowhere. That this is the same as to cut the joined bytes at their line feeds, up to the first line that is too long, is a
//! law (`specs/DeskLaws.antt`); so is that little is kept.
//!
//! A line becomes an `Order`, by its words (`specs/Commands.antt`). A flow is named by the two numbers that its line has, each in its
//! one spelling: a text is a number exactly where it is what is written for it. So leading zeros need no rule of their own, and a
//! number that was printed is read back.
//!
//! Answers are texts: one line of each kind (`specs/Answers.antt`), and what is shown of a flow, one line of JSON (RFC 8259). It is the
//! text that serde_json writes for a value (`specs/Show.antt`). Bytes are shown as the characters of the same numbers, since a method
//! or a URL is no UTF-8 for sure, and JSON has no bytes: so nothing is lost, and nothing is refused. All of a flow is its entry, of
//! which a line has a part (`specs/Entry.antt`), from the byte on that was asked for.
//!
//! Which flows are live, and what an order does to them, is told elsewhere: this crate knows one flow at a time.
#![tactic(auto)]

mod answer;
mod command;
mod desk;
mod entry;
mod laws;
mod line;
mod show;

pub use answer::{OperatorAnswer, answer_line};
pub use command::{CommandError, Order, read_command};
pub use desk::{Desk, Line};
pub use entry::entry_line;
pub use laws::{
    lines_are_cut_free, lines_are_whole, little_is_kept, rows_hold, written_id_is_read,
};
pub use line::flow_line;
pub use show::show_text;
