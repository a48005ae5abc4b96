//! Players of rows of one line, `INPUT => ANSWER`, of what only a run shows: heads, messages, filters, rules, trees, flow files. What
//! definitions say by themselves is in the tables of px_examples. docs/rows.md has the notation.
//!
//! `play` plays one such row. The first word of a row's kind says which file has its player (`answers`): a further kind is a file and a line there.
//! Beside it stands what a row may change of a message (`change_request`, `change_response`), which rows of conversations share.
//!
//! This crate serves the program `rows` alone: what it does is tested by its rows, and not proved, beyond that it is safe and ends.
#![tactic(auto)]

mod answers;
mod changes;
mod chunks;
mod filters;
mod flow_files;
mod flows;
mod heads;
mod messages;
mod parts;
mod rules;
mod tables;
mod tree_changes;
mod trees;

pub use changes::change_response;
pub use flows::put_request;
pub use parts::{address_at, status_of};
pub use tables::play;
