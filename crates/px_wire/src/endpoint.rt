//! The slots in use, each with the side whose socket it is and the bytes that wait for it.
ghost use Rattle.std.specs.Prelude.{◌≡◌};
ghost use Rattle.px_wire.specs.Endpoints.{new_endpoint};

use crate::queue::Queue;
use px_event::{Door, Side};
use std::alloc::Global;

/// How the bytes that wait for a slot stand after a flush.
#[derive(Clone, Copy, Debug, PartialEq, Eq)]
pub enum Flushed {
    /// None is left.
    Empty,
    /// The slot takes no more at present.
    Blocked,
    /// The socket failed; its bytes are dropped.
    Broken,
}

/// A side is not read while more bytes than this wait for one that faces it.
pub const READ_MARK: usize = 262_144;

/// A slot in use.
#[derive(Drop)]
pub struct Endpoint {
    pub slot: u32,
    pub conv: u32,
    pub side: Side,
    /// Where it was accepted; none where it was dialled.
    pub door: Option<Door>,
    /// What was said to the side and the wire has not taken.
    pub queue: Queue,
    /// A Close was said to the side.
    pub is_closing: bool,
    /// The socket failed or ended; the close of the side is still to be heard.
    pub is_over: bool,
    /// The wire told that it is readable, and it has not yet given all.
    pub is_readable: bool,
    /// The number of the turn at which it was given or last gave bytes.
    pub turn: u64,
}

impl Endpoint {
    /// A slot that was just given; its turn is still to be set.
    pub fn new(alloc: Global, slot: u32, conv: u32, side: Side, door: Option<Door>) -> Endpoint
        ensures { result ≡ new_endpoint slot conv side door }
    {
        Endpoint {
            slot,
            conv,
            side,
            door,
            queue: Queue::new(alloc),
            is_closing: false,
            is_over: false,
            is_readable: false,
            turn: 0,
        }
    }
}
