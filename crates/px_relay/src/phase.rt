//! Where a WebSocket is.
use crate::gathered::Gathered;
use crate::peer::Peer;

/// Where a WebSocket is.
#[derive(Debug, Drop)]
pub(crate) enum Phase {
    /// Nothing waits for an answer.
    Relaying,
    /// A message is asked about.
    Holding(Held),
    /// It has ended.
    Over,
}

/// A message that is asked about: whose it is, its number among those of both sides, the moment at which it was asked about, and the message.
#[derive(Debug, Drop)]
pub(crate) struct Held {
    pub(crate) from: Peer,
    pub(crate) number: u64,
    pub(crate) moment: u64,
    pub(crate) message: Gathered,
}
