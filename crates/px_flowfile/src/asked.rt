//! A request with its moments.
use px_message::{Request, Shared};

/// A request, and when its head was read and when it was whole, in microseconds since 1970.
#[derive(Debug, Drop)]
pub(crate) struct Asked {
    pub request: Shared<Request>,
    pub start: u64,
    pub end: Option<u64>,
}
