//! Real sockets, as a `Wire`.
//!
//! Each slot is a socket that never waits, registered with the system's readiness (epoll, by `mio`). Readiness is told
//! once, when it begins, so that whoever is told it goes on until `Blocked`. A slot gives four rooms and a door accepts 64
//! connections before the system is asked again what else may go on: `get` answers `Blocked` then, and `Readable` is told
//! again. So nobody waits for one that sends without a pause. What a socket carried, and what readiness the
//! system tells, no contract knows: this wire tells no calls. The rules of a wire hold of it all the same, so that a
//! network over it is that over the wire in memory.
//!
//! A socket that fails ends its slot and nothing else: it is `Broken`, or its dial failed. The wire as a whole fails where
//! the system's readiness, its clock or its listening does; why it can't listen is told to people (`MioWire::why`).
#![tactic(auto)]

mod connection;
mod descriptors;
mod doors;
mod listen_fault;
mod listening;
mod name;
mod names;
mod notice;
mod opening;
mod own_door;
mod parting;
mod share;
mod socket;
mod sockets;
mod wire;

pub use listen_fault::ListenFault;
pub use wire::MioWire;
