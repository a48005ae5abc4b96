//! A response with its moments.
use px_message::{Response, Shared};

/// A response, and when its head was read and when it was whole, in microseconds since 1970.
#[derive(Debug, Drop)]
pub(crate) struct Answered {
    pub response: Shared<Response>,
    pub start: Option<u64>,
    pub end: Option<u64>,
}
