//! Players of rows of what is outside: sinks, files and networks in memory, lines over a wire in memory, and options files. docs/rows.md has
//! the notation.
//!
//! `play` plays such a row, which is one line, `INPUT => ANSWER`. An input is a list of calls, each with its answer, played over one value:
//! `sinks`, `files`, `networks` and `wires` each have a file, and `net_calls` what networks and wires share. The input of a row of options is a text.
//!
//! This crate serves the program `rows` alone: what it does is tested by its rows, and not proved, beyond that it is safe and ends.
#![tactic(auto)]

mod files;
mod net_calls;
mod networks;
mod options;
mod parts;
mod sinks;
mod tables;
mod wires;

pub use tables::play;
