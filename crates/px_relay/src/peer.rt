//! The two peers of a WebSocket.
ghost use Rattle.std.specs.Prelude.{◌≡◌};
ghost use Rattle.px_relay.specs.Peers as spec;

use px_event::Side;

/// A peer of a WebSocket.
#[derive(Clone, Copy, Debug, PartialEq, Eq)]
pub enum Peer {
    /// The client: its frames are masked.
    Client,
    /// The server: its frames are not.
    Server,
}

impl Peer {
    /// The one that its frames go to.
    pub(crate) fn other(self) -> Peer
        ensures { result ≡ spec.other self }
    {
        match self {
            Peer::Client => Peer::Server,
            Peer::Server => Peer::Client,
        }
    }

    /// Whether it is the client: then its frames are masked.
    pub(crate) fn is_client(self) -> bool
        ensures { result ≡ spec.is_client self }
    {
        match self {
            Peer::Client => true,
            Peer::Server => false,
        }
    }

    /// Its side of the conversation, where the server has this number.
    pub(crate) fn side(self, server: u32) -> Side
        ensures { result ≡ spec.side_of server self }
    {
        match self {
            Peer::Client => Side::Client,
            Peer::Server => Side::Server(server),
        }
    }
}
