//! The program over a wire of sockets.
//!
//! `run` is `px_app::run` with `px_wire::Lines` as its network, for every wire. What px_app says of the steps of a run is said
//! here of what the wire did: of the bytes that the sockets took, however they cut them.
#![tactic(auto)]

mod program;

pub use program::run;
