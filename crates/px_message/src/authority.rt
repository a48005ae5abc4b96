//! Authorities: the host and the port that a target or a URL names (RFC 3986 section 3.2).
//!
//! The host stands in front: an address in brackets, or what comes before the first colon. What follows it is nothing,
//! which means port 80, or a colon and a port of one to five digits. `http_uri` decides what a host is. It reads more as
//! an authority than is taken here: userinfo, an empty host, a colon without a port, and bytes between a bracket and its
//! colon, all of which would be lost or guessed at. `address_is_authority` states the relation of the two exactly.
ghost use Rattle.std.specs.Prelude.{◌≡◌, ◌≢◌, ◌≤◌, true, false, length, None, Some, Err, IfOk, IfErr, IfSome, MatchOption};
ghost use Rattle.std.specs.List.{list_all};
ghost use Rattle.std.specs.Char.{is_ascii_digit};
ghost use Rattle.std.specs.Str.Parse.{digits_value};
ghost use Rattle.http_uri.specs.ByteClasses.{index_of};
ghost use Rattle.px_message.specs.Authority.{
  host_of,
  after_host,
  has_port_digits,
  is_port,
  port_of,
  address_of,
  AddressIsAuthority,
};

use crate::{Address, BadHost, Host, TargetError};
use std::alloc::Global;

fn index_of(text: &[u8], byte: u8) -> usize
    ensures value { result ≡ index_of byte text.now }
    ensures within { result ≤ length text.now }
{
    text.iter().take_while(|b| **b != byte).count()
}

// The host at the front of an authority, with its brackets.
fn host_of(authority: &[u8]) -> &[u8]
    ensures { result.now ≡ host_of authority.now }
{
    if authority.first() == Some(&b'[') {
        let end = index_of(authority, b']');
        if end < authority.len() {
            &authority[..end + 1]
        } else {
            authority
        }
    } else {
        &authority[..index_of(authority, b':')]
    }
}

// What follows the host of an authority.
pub(crate) fn after_host(authority: &[u8]) -> &[u8]
    ensures { result.now ≡ after_host authority.now }
{
    &authority[host_of(authority).len()..]
}

// The bytes are one to five digits.
fn has_port_digits(digits: &[u8]) -> bool
    ensures { result ≡ has_port_digits digits.now }
{
    !digits.is_empty() && digits.len() <= 5 && are_digits(digits)
}

fn are_digits(bytes: &[u8]) -> bool
    ensures { result ≡ list_all is_ascii_digit bytes.now }
{
    bytes.iter().all(|b| b.is_ascii_digit())
}

// The number of a port by its digits.
fn read_port_digits(digits: &[u8]) -> Option<u16>
    ensures { MatchOption result (is_port digits.now ≡ false) (λ port. (is_port digits.now ≡ true) × (port ≡ digits_value 10 digits.now)) }
{
    if !has_port_digits(digits) {
        return None;
    }
    match str::from_utf8(digits) {
        Ok(text) => match text.parse::<u16>() {
            Ok(0) => None,
            Ok(port) => Some(port),
            Err(_) => None,
        },
        Err(_) => None,
    }
}

// The port that follows a host.
#[tactic(auto, unfolding(crate::specs::Authority::port_of))]
fn read_port(rest: &[u8]) -> Option<u16>
    ensures value { result ≡ port_of rest.now }
    ensures not_zero { IfSome result (λ port. port ≢ 0) }
{
    match rest.split_first() {
        None => Some(80),
        Some((b':', digits)) => read_port_digits(digits),
        Some(_) => None,
    }
}

pub(crate) fn copy(alloc: Global, bytes: &[u8]) -> Result<Vec<u8>, TargetError>
    ensures ok { IfOk result (λ copy. copy.items ≡ bytes.now) }
    ensures err { IfErr result (λ e. e ≡ TargetError.NoMemory) }
{
    match bytes.to_vec(alloc) {
        Ok(copy) => Ok(copy),
        Err(_) => Err(TargetError::NoMemory),
    }
}

// The host and the port of an authority.
pub(crate) fn read_address(alloc: Global, authority: &[u8]) -> Result<Address, TargetError>
    ensures ok { IfOk result (λ a. address_of authority.now ≡ Some (a.host, a.port)) }
    ensures bad { result ≡ Err TargetError.BadTarget → address_of authority.now ≡ None }
{
    let Some(port) = read_port(after_host(authority)) else {
        return Err(TargetError::BadTarget);
    };
    match Host::try_new(alloc, copy(alloc, host_of(authority))?) {
        Ok(host) => Ok(Address { host, port }),
        Err(BadHost::Malformed(_)) => Err(TargetError::BadTarget),
        Err(BadHost::NoMemory) => Err(TargetError::NoMemory),
    }
}

/// A law: a text has an address exactly where `http_uri` reads it as an authority without userinfo, whose host is not
/// empty and is followed by a port or by nothing; and it is that host and that port.
pub fn address_is_authority()
    ensures { AddressIsAuthority }
{}
