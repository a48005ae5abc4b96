//! What a layer takes.
use crate::{Ask, Reply, Side};
use px_text::Bytes;

/// One event of a conversation, as its layers see it.
#[derive(Clone, Debug, Drop, PartialEq, Eq)]
pub enum Event {
    /// The conversation begins. It starts a client replay, and has a tunnel or a WebSocket that was just made work off
    /// the bytes it was handed; every other layer ignores it.
    Begun,
    /// Bytes of a side.
    Piece { side: Side, bytes: Bytes },
    /// A side closed.
    Closed { side: Side },
    /// What was asked is answered.
    Answered { ask: Ask, reply: Reply },
}

/// The bytes that a layer did not use, for the layer that follows it.
#[derive(Clone, Debug, Drop, PartialEq, Eq)]
pub struct Rests {
    pub client: Bytes,
    pub server: Bytes,
}
