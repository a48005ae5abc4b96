//! What is heard from outside.
ghost use Rattle.std.specs.Prelude.{◌≡◌, IfOk};

use crate::{Door, Side};
use px_message::Address;
use px_text::{Bytes, NoMemory};

/// One thing heard from the network.
#[derive(Clone, Debug, Drop, PartialEq, Eq)]
pub enum Heard {
    /// A connection was accepted at this door; its conversation has this number.
    Accepted {
        conv: u32,
        door: Door,
        peer: Address,
    },
    /// Bytes of a side.
    Piece {
        conv: u32,
        side: Side,
        bytes: Bytes,
    },
    /// A side closed, or its socket failed.
    Closed {
        conv: u32,
        side: Side,
    },
    /// A dial ended: the server is connected, or it is not.
    Dialled {
        conv: u32,
        server: u32,
        ok: bool,
    },
    /// Nothing more will be heard.
    End,
}

impl Heard {
    /// A copy of the same thing heard.
    pub fn try_clone(&self) -> Result<Heard, NoMemory>
        ensures { IfOk result (λ copy. copy ≡ self.now) }
    {
        Ok(self.clone()?)
    }
}
