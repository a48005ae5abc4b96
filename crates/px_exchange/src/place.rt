//! Where the requests of a conversation go.
ghost use Rattle.std.specs.Prelude.{◌≡◌};
ghost use Rattle.px_exchange.specs.Places.{form_at, is_same_address, server_for};

use px_message::{Address, Request};
use px_write::Form;

/// Where the requests of a conversation go, and which targets they may have (RFC 9112 section 3.2).
#[derive(Debug, Drop)]
pub enum Place {
    /// Each request goes where its target says, which is in absolute form. A CONNECT asks for a tunnel to where its target
    /// says, which is in authority form.
    Regular,
    /// Each request goes to this proxy, and its target is sent in absolute form, of the host, the port and the path that its
    /// hooks left. Its target comes in absolute form too. A CONNECT asks for a tunnel through that proxy.
    Upstream(Address),
    /// All requests go to this address, unless their hooks send them elsewhere. Their targets are in origin form, in absolute
    /// form, of which the path alone is used, or `*`; a CONNECT is a bad target. `inside` is the proxy through which each server
    /// is reached, if there is one.
    Fixed {
        address: Address,
        inside: Option<Address>,
    },
}

impl Place {
    /// The form in which the target of a request is sent.
    pub fn form(&self) -> Form
        ensures is { result ≡ form_at self.now }
    {
        match self {
            Place::Upstream(_) => Form::Absolute,
            _ => Form::Origin,
        }
    }

    /// Whether a request goes to this address: to its own host and port, as its hooks left them, or where all requests go to a proxy,
    /// whether that stands there. Hosts are compared byte by byte.
    pub fn goes_to(&self, address: &Address, request: &Request) -> bool
        ensures is { result ≡ is_same_address address.now (server_for self.now request.now) }
    {
        match self {
            Place::Upstream(proxy) => {
                address.host.bytes() == proxy.host.bytes() && address.port == proxy.port
            }
            _ => address.host.bytes() == request.host.bytes() && address.port == request.port,
        }
    }
}
