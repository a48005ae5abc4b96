//! Rows: what is heard and what is said, written so that a person can copy them. docs/rows.md has the notation.
//!
//! `read_sheet` gives the rows of a file, `read_act` what a line of a diagram is; `cuts` has the cuts at which a row is
//! played, and `show_said` shows what was said in the same notation. Sends to one side that follow each other are shown as
//! one, since nothing is promised of their cut.
//!
//! This crate serves those who play rows alone (`px_plays` and the program `rows`): what it does is tested by their rows, and
//! not proved, beyond that it is safe and ends.
#![tactic(auto)]

mod act;
mod cuts;
mod error;
mod escapes;
mod reports;
mod sheet;
mod show;
mod shown;
mod text;

pub use act::{Act, piece, read_act};
pub use cuts::{Cut, Cuts, add_cuts, cut_piece, plain_cuts};
pub use error::{RowError, Trouble};
pub use escapes::unescape;
pub use reports::report;
pub use sheet::{Line, Row, read_sheet};
pub use show::{
    Peer, end_line, show_address, show_close, show_conversation, show_dial, show_peer, show_said,
    show_send,
};
pub use shown::Shown;
pub use text::read_u32;
