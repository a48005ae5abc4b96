//! What is said to the network.
ghost use Rattle.std.specs.Prelude.{◌≡◌, IfOk};

use crate::Side;
use px_message::Address;
use px_text::{Bytes, NoMemory};

/// One thing said to a side of a conversation.
#[derive(Clone, Debug, Drop, PartialEq, Eq)]
pub enum Said {
    /// Send bytes to a side.
    Send { side: Side, bytes: Bytes },
    /// Close a side.
    Close { side: Side },
    /// Connect to this address; the conversation's server of this number is heard of.
    Dial { server: u32, address: Address },
}

impl Said {
    /// A copy of the same thing said.
    pub fn try_clone(&self) -> Result<Said, NoMemory>
        ensures { IfOk result (λ copy. copy ≡ self.now) }
    {
        Ok(self.clone()?)
    }
}
