//! What became of a flow.

/// What became of a flow, or of the flows of a conversation.
#[derive(Clone, Copy, Debug, PartialEq, Eq)]
pub enum Outcome {
    /// It goes on.
    Going,
    /// The flow is finished, and the client's connection goes on.
    Next,
    /// A CONNECT was read: its server is to be dialled, and what follows is no part of this exchange.
    Connects,
    /// A response of code 101 was sent: what follows on both sides is of another protocol.
    Upgraded,
    /// The conversation has ended.
    Over,
}
