//! What a layer gives.
use crate::{Ask, Side};
use px_message::{Address, Flow};
use px_text::Bytes;

/// One command of a layer, to be carried out in the order in which it was given.
#[derive(Clone, Debug, Drop, PartialEq, Eq)]
pub enum Command {
    /// Send bytes to a side.
    Send {
        side: Side,
        bytes: Bytes,
    },
    /// Close a side.
    Close {
        side: Side,
    },
    /// Dial this address as the server of this number, where `inside` is some through the proxy there.
    Dial {
        server: u32,
        address: Address,
        inside: Option<Address>,
    },
    /// Ask a hook about the flow as it stands.
    Ask {
        ask: Ask,
        flow: Flow,
    },
    /// The flow is finished.
    Done {
        flow: Flow,
    },
}
