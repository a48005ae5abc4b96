//! The mode: where requests go.
ghost use Rattle.std.specs.Prelude.{◌≡◌, IfOk};
ghost use Rattle.px_exchange.specs.Places.{place_of};

use crate::Place;
use px_message::Address;
use px_text::NoMemory;

/// Where requests go.
#[derive(Debug, Drop, PartialEq, Eq)]
pub enum Mode {
    /// Each request goes where its target says (mitmproxy's mode `regular`).
    Regular,
    /// All requests go to this server, as if the proxy were that server (mitmproxy's mode `reverse:http://HOST:PORT`).
    Reverse(Address),
    /// Each request goes to this proxy, and its target is sent in absolute form (mitmproxy's mode `upstream:http://HOST:PORT`).
    Upstream(Address),
    /// Each client says by SOCKS5 (RFC 1928) which server it is connected to, and its requests go there (mitmproxy's mode `socks5`).
    Socks,
}

impl Mode {
    /// Where the requests of a conversation go in this mode, with addresses of its own. `None`: its client says so first.
    pub fn place(&self) -> Result<Option<Place>, NoMemory>
        ensures is { IfOk result (λ place. place ≡ place_of self.now) }
    {
        match self {
            Mode::Regular => Ok(Some(Place::Regular)),
            Mode::Reverse(address) => Ok(Some(Place::Fixed {
                address: address.try_clone()?,
                inside: None,
            })),
            Mode::Upstream(proxy) => Ok(Some(Place::Upstream(proxy.try_clone()?))),
            Mode::Socks => Ok(None),
        }
    }
}
