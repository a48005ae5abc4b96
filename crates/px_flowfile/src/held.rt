//! What is held of a body.
use px_message::Body;

/// Whether the body passed by, and the body that is held, which is empty then.
#[derive(Debug, Drop)]
pub(crate) struct Held {
    pub streamed: bool,
    pub body: Body,
}
