//! Names of hosts, and addresses of peers.
use px_message::{Address, BadHost, Host};
use px_text::{NoMemory, push_decimal};
use std::alloc::Global;
use std::collections::VecDeque;
use std::net::{IpAddr, Net, SocketAddr, ToSocketAddrs};
use std::{format, str};

/// The addresses of `HOST:PORT`, as std looks the text up, at most 32; none where it finds none. The look-up waits.
pub(crate) fn look_up<R: Net>(
    rt: &R,
    alloc: Global,
    address: &Address,
) -> Result<VecDeque<SocketAddr>, NoMemory> {
    let text = text_of(alloc, address)?;
    look_up_text(rt, alloc, &text)
}

/// `HOST:PORT`.
pub(crate) fn text_of(alloc: Global, address: &Address) -> Result<Vec<u8>, NoMemory> {
    let mut text = Vec::from_slice(alloc, address.host.bytes())?;
    text.push(b':')?;
    push_decimal(&mut text, u64::from(address.port))?;
    Ok(text)
}

/// The address that the text is; none for a name.
pub(crate) fn number_of(text: &[u8]) -> Option<SocketAddr> {
    match str::from_utf8(text) {
        Ok(text) => text.parse::<SocketAddr>().ok(),
        Err(_) => None,
    }
}

/// This address alone.
pub(crate) fn one(alloc: Global, address: SocketAddr) -> Result<VecDeque<SocketAddr>, NoMemory> {
    let mut addresses = VecDeque::new(alloc);
    addresses.push_back(address)?;
    Ok(addresses)
}

/// The same addresses.
pub(crate) fn copied(
    alloc: Global,
    found: &VecDeque<SocketAddr>,
) -> Result<VecDeque<SocketAddr>, NoMemory> {
    let mut addresses = VecDeque::new(alloc);
    for address in found {
        addresses.push_back(*address)?;
    }
    Ok(addresses)
}

/// The addresses of the text `HOST:PORT`.
pub(crate) fn look_up_text<R: Net>(
    rt: &R,
    alloc: Global,
    text: &[u8],
) -> Result<VecDeque<SocketAddr>, NoMemory> {
    let mut addresses = VecDeque::new(alloc);
    let Ok(text) = str::from_utf8(text) else {
        return Ok(addresses);
    };
    let Ok(found) = text.to_socket_addrs(rt) else {
        return Ok(addresses);
    };
    for address in found {
        addresses.push_back(address)?;
    }
    Ok(addresses)
}

/// Where a peer is, an IPv6 address in brackets; none for port 0, which no peer has.
pub(crate) fn peer_address(alloc: Global, peer: SocketAddr) -> Result<Option<Address>, NoMemory> {
    let port = peer.port();
    if port == 0 {
        return Ok(None);
    }
    let text = match peer.ip() {
        IpAddr::V4(ip) => format!(in alloc; "{ip}")?,
        IpAddr::V6(ip) => format!(in alloc; "[{ip}]")?,
    };
    match Host::try_new(alloc, text.into_bytes()) {
        Ok(host) => Ok(Some(Address { host, port })),
        Err(BadHost::Malformed(_)) => Ok(None),
        Err(BadHost::NoMemory) => Err(NoMemory),
    }
}
