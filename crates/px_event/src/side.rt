//! The sides of a conversation, and the doors at which connections come.

/// A peer of a conversation.
#[derive(Clone, Copy, Debug, PartialEq, Eq)]
pub enum Side {
    /// The client, where there is one.
    Client,
    /// The server of this dial, counted from 0 in its conversation.
    Server(u32),
}

/// Where a connection was accepted.
#[derive(Clone, Copy, Debug, PartialEq, Eq)]
pub enum Door {
    /// Where clients of the proxy come.
    Proxy,
    /// Where operators come.
    Control,
}
