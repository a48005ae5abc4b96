//! Generated flows, with which the program measures itself: what a network is to hear, the network that hears it and nothing else, the rules
//! of such a run, what is counted afterwards, and which steps of that run are told.
//!
//! A client comes to the proxy's door, asks for N things one behind the other, and closes; all of them come from one server, which is
//! connected as soon as it is dialled, behind the first request, and whose connection is kept for the others. All of it follows from N
//! alone (`specs/Script.antt`), so a run over a network in memory needs no socket, no clock and no file, and hears the same each time. Sizes are a sum modulo 1,000 whose step has no factor in common with
//! 1,000: so 1,000 flows have each size below 1,000 once. An answer is cut after every 1,000 bytes of head and body, and no piece is empty;
//! that is a law.
//!
//! That network is `Generated`. Its type has N, for proofs alone, and its invariant says of every value what was heard in it: a beginning
//! of the script, with ends behind it (`specs/Heard.antt`). So a function over any network, whose clauses speak of a trace alone, may be
//! handed one, and its caller knows afterwards what was heard. Where the end is heard last, that is the script; a law says so.
//!
//! The rules are read from two texts, which are proved to be rules (`specs/Rules.antt`). What a run prints of its flows may go `Nowhere`.
//!
//! The counts are those of the steps of a run (`specs/Counts.antt`), whoever made it. Where one conversation alone is served, the bytes
//! counted to the client are those of px_event's `sent`, on which what is promised of a run is said; that is a law.
//!
//! Another network, where the program has one, is told what was asked, answered and finished, as if the run had been its own
//! (`specs/Noted.antt`); what was heard and said stays with the network in memory.
#![tactic(auto)]

mod answers;
mod counting;
mod flows;
mod generated;
mod laws;
mod notes;
mod nowhere;
mod places;
mod rule_lists;
mod word;

pub use counting::{Counts, counts_of, counts_text};
pub use flows::script;
pub use generated::{Generated, Scripted};
pub use laws::{
    an_ended_run_heard_the_script, an_unended_run_heard_a_beginning, client_bytes_are_those_sent,
    pieces_are_the_text,
};
pub use notes::note_all;
pub use nowhere::Nowhere;
pub use places::server;
pub use rule_lists::rules;
pub use word::read_count;
