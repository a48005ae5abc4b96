//! Where the network meets sockets.
//!
//! A `Wire` is a bag of sockets that never wait: a slot for each, bytes put and got in parts, and one call, `ready`, that
//! waits until some slot can go on. `Lines` makes a network of it: what is said waits in a queue for each side until the
//! wire takes it, and what the wire gives is heard. It is one body for sockets and for `MemWire`, the wire in memory,
//! which tells its calls.
//!
//! A fault of `Lines` is the wire's, but for one: where `ready` told something 2^64 - 1 times in a row and nothing was heard,
//! lines give up, since each call has to end. What they keep says that they never do so sooner (`specs/Asked.antt`).
#![tactic(auto)]

mod call;
mod endpoint;
mod endpoints;
mod flush;
mod hear;
mod lines;
mod mem_wire;
mod queue;
mod ready;
mod say;
mod table;
mod wire;

pub use call::WireCall;
pub use endpoint::Flushed;
pub use lines::Lines;
pub use mem_wire::MemWire;
pub use wire::{Got, Put, Ready, Wire};
