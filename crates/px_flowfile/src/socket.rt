//! What is held of a WebSocket.
use px_message::Messages;

/// Whether a flow was upgraded to a WebSocket, and its messages, of which there are none otherwise.
#[derive(Debug, Drop)]
pub(crate) struct Socket {
    pub websocket: bool,
    pub messages: Messages,
}
