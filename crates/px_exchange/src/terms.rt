//! How the flows of a conversation are made.
use crate::Place;
use crate::ending::Used;
use px_message::Address;
use std::alloc::Global;

/// How the flows of a conversation are made: its number, where its client is, where its requests go, and whether bodies are
/// streamed where an answer allows it (those of a request that is sent again are not).
#[derive(Debug, Drop)]
pub struct Terms {
    pub conv: u32,
    pub client: Option<Address>,
    pub place: Place,
    pub streams: bool,
}

/// When a call is made, whether the client has closed by then, and the server's side that is parked, if one is: which an end
/// closes where no flow uses a side of its own.
#[derive(Clone, Copy, Debug)]
pub struct Now {
    pub alloc: Global,
    pub moment: u64,
    pub client_closed: bool,
    pub parked: Used,
}
