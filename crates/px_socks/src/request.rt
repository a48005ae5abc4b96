//! A client's request (RFC 1928 sections 4 and 5).
ghost use Rattle.std.specs.Prelude.{◌≡◌, ◌≤◌, IfOk, []};
ghost use Rattle.px_message.specs.TellHost.{tell_host};
ghost use Rattle.px_socks.specs.Request as spec;

use crate::host::{ipv4_text, ipv6_text, pair};
use px_message::{Address, BadHost, Host};
use px_text::NoMemory;
use std::alloc::Global;

/// What bytes of a client are as a request.
#[derive(Debug, Drop)]
pub enum SocksStep {
    /// The bytes begin a request, nothing is wrong so far, and more of it is to come.
    More,
    /// A request to connect to the address. `used`: how many bytes it has.
    Connect { address: Address, used: usize },
    /// The bytes are no request that is served. The code of the answer is 1, 7 or 8.
    Refused(u8),
}

/// What the bytes are as a request, whatever follows it; it stands at their front, behind the greeting.
pub fn read_request(alloc: Global, bytes: &[u8]) -> Result<SocksStep, NoMemory>
    ensures { IfOk result (λ step. spec.heard step ≡ spec.request_of bytes.now) }
{
    match bytes {
        [] => Ok(SocksStep::More),
        [version, rest @ ..] => {
            if *version == 5 {
                read_command(alloc, rest)
            } else {
                Ok(SocksStep::Refused(1))
            }
        }
    }
}

// Behind the version: the command and what follows.
fn read_command(alloc: Global, bytes: &[u8]) -> Result<SocksStep, NoMemory>
    ensures { IfOk result (λ step. spec.heard step ≡ spec.command_step bytes.now) }
{
    match bytes {
        [] => Ok(SocksStep::More),
        [command, rest @ ..] => {
            if *command == 1 {
                read_reserved(alloc, rest)
            } else {
                Ok(SocksStep::Refused(7))
            }
        }
    }
}

// Behind the command: the reserved byte and what follows.
fn read_reserved(alloc: Global, bytes: &[u8]) -> Result<SocksStep, NoMemory>
    ensures { IfOk result (λ step. spec.heard step ≡ spec.reserved_step bytes.now) }
{
    match bytes {
        [] => Ok(SocksStep::More),
        [reserved, rest @ ..] => {
            if *reserved == 0 {
                read_type(alloc, rest)
            } else {
                Ok(SocksStep::Refused(1))
            }
        }
    }
}

// Behind the reserved byte: the type of the address and what follows.
fn read_type(alloc: Global, bytes: &[u8]) -> Result<SocksStep, NoMemory>
    ensures { IfOk result (λ step. spec.heard step ≡ spec.type_step bytes.now) }
{
    match bytes {
        [] => Ok(SocksStep::More),
        [1, rest @ ..] => read_ipv4(alloc, rest),
        [3, rest @ ..] => read_length(alloc, rest),
        [4, rest @ ..] => read_ipv6(alloc, rest),
        _ => Ok(SocksStep::Refused(8)),
    }
}

// An address of four bytes and what follows.
fn read_ipv4(alloc: Global, bytes: &[u8]) -> Result<SocksStep, NoMemory>
    ensures { IfOk result (λ step. spec.heard step ≡ spec.address_step spec.ipv4 4 [] 4 bytes.now) }
{
    if bytes.len() < 4 {
        return Ok(SocksStep::More);
    }
    let host = ipv4_text(alloc, &bytes[..4])?;
    read_port(alloc, host, &bytes[4..], 8)
}

// The length of a name and what follows.
fn read_length(alloc: Global, bytes: &[u8]) -> Result<SocksStep, NoMemory>
    ensures { IfOk result (λ step. spec.heard step ≡ spec.length_step bytes.now) }
{
    match bytes {
        [] => Ok(SocksStep::More),
        [count, rest @ ..] => read_name(alloc, rest, usize::from(*count)),
    }
}

// A name of so many bytes and what follows.
fn read_name(alloc: Global, bytes: &[u8], count: usize) -> Result<SocksStep, NoMemory>
    requires { count ≤ 255 }
    ensures { IfOk result (λ step. spec.heard step ≡ spec.address_step spec.domain count [] 5 bytes.now) }
{
    if bytes.len() < count {
        return Ok(SocksStep::More);
    }
    let host = copy(alloc, &bytes[..count])?;
    read_port(alloc, host, &bytes[count..], 5 + count)
}

fn copy(alloc: Global, bytes: &[u8]) -> Result<Vec<u8>, NoMemory>
    ensures { IfOk result (λ copy. copy.items ≡ bytes.now) }
{
    match bytes.to_vec(alloc) {
        Ok(copy) => Ok(copy),
        Err(_) => Err(NoMemory),
    }
}

// An address of sixteen bytes and what follows.
fn read_ipv6(alloc: Global, bytes: &[u8]) -> Result<SocksStep, NoMemory>
    ensures { IfOk result (λ step. spec.heard step ≡ spec.address_step spec.ipv6 16 [] 4 bytes.now) }
{
    if bytes.len() < 16 {
        return Ok(SocksStep::More);
    }
    let host = ipv6_text(alloc, &bytes[..16])?;
    read_port(alloc, host, &bytes[16..], 20)
}

// Behind the address, whose host this is: the port. `used`: how many bytes came in front.
fn read_port(alloc: Global, host: Vec<u8>, bytes: &[u8], used: usize) -> Result<SocksStep, NoMemory>
    requires { used ≤ 260 }
    ensures { IfOk result (λ step. spec.heard step ≡ spec.port_step host.items used bytes.now) }
{
    match bytes {
        [high, low, ..] => judge(alloc, host, pair(*high, *low), used + 2),
        _ => Ok(SocksStep::More),
    }
}

// A whole request: it is refused where the host is none, or the port is 0.
fn judge(alloc: Global, host: Vec<u8>, port: u16, used: usize) -> Result<SocksStep, NoMemory>
    ensures { IfOk result (λ step. spec.heard step ≡ spec.judged host.items (tell_host host.items) port used) }
{
    if port == 0 {
        return Ok(SocksStep::Refused(1));
    }
    match Host::try_new(alloc, host) {
        Ok(host) => Ok(SocksStep::Connect {
            address: Address { host, port },
            used,
        }),
        Err(BadHost::Malformed(_)) => Ok(SocksStep::Refused(1)),
        Err(BadHost::NoMemory) => Err(NoMemory),
    }
}
