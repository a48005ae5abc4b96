//! Where the client of generated flows is, and where their requests go.
ghost use Rattle.std.specs.Prelude.{◌≡◌, IfOk, codes};
ghost use Rattle.px_message.specs.Host.{IsHost};
ghost use Rattle.px_gen.specs.Peer.{peer, server};

use px_message::{Address, BadHost, Host};
use px_text::NoMemory;
use std::alloc::Global;

/// Where the requests of generated flows go: the host `gen`, port 80.
pub fn server(alloc: Global) -> Result<Address, NoMemory>
    ensures server { IfOk result (λ address. address ≡ server) }
{
    let host = host(alloc, b"gen")?;
    Ok(Address { host, port: 80 })
}

/// Where the client is.
pub(crate) fn peer(alloc: Global) -> Result<Address, NoMemory>
    ensures { IfOk result (λ address. address ≡ peer) }
{
    let host = host(alloc, b"127.0.0.1")?;
    Ok(Address { host, port: 1 })
}

fn host(alloc: Global, text: &[u8]) -> Result<Host, NoMemory>
    requires { IsHost text.now }
    ensures { IfOk result (λ host. host ≡ text.now) }
{
    match Host::try_new(alloc, Vec::from_slice(alloc, text)?) {
        Ok(host) => Ok(host),
        Err(BadHost::NoMemory) => Err(NoMemory),
        Err(BadHost::Malformed(_)) => unreachable!(),
    }
}
