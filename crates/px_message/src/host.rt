//! Hosts of requests (RFC 3986 section 3.2.2).
//!
//! A host is what an authority has in front of its port: a name, an IPv4 address, or an IPv6 address in brackets. Which
//! texts those are `http_uri` decides. A text is a host where it is an authority without userinfo and its own host: so it
//! is not empty, it has no port, and nothing stands behind a closing bracket of an address. Letters keep their case.
//!
//! `http_uri` does not look into brackets, so `[]` and `x[]` are hosts; whether a name can be dialled is told where it is
//! looked up.
ghost use Rattle.std.specs.Prelude.{◌≡◌, ◌≢◌, All, MatchBool, IfOk, IfErr};
ghost use Rattle.http_uri.specs.ByteClasses.{at_sign};
ghost use Rattle.px_message.specs.Host.{IsHost};
ghost use Rattle.px_message.specs.BadHost.{IsRefused};

use http_uri::{Authority, UriError};
use px_text::{Bytes, NoMemory};
use std::alloc::{AllocError, Global};
use std::marker::Model;

/// The host of an authority without its port: a name, an IPv4 address, or an IPv6 address in brackets
/// (RFC 3986 section 3.2.2).
#[derive(Debug, Drop, PartialEq, Eq)]
pub struct Host {
    bytes: Bytes,
}

/// Why a host was refused.
#[derive(Debug, Drop)]
pub enum BadHost {
    /// The bytes that were handed in: they are no host.
    Malformed(Vec<u8>),
    /// Memory ran out; it says nothing of the bytes.
    NoMemory,
}

impl Model for Host {
    ghost use Rattle.std.specs.Prelude.{List, ℕ};
    ghost use Rattle.px_message.specs.Host.{IsHost};

    ghost Value = { List ℕ };

    ghost view = { λ h. h.bytes };

    ghost inverse = { λ text. record { bytes = text } };

    ghost invariant = { λ h. IsHost h.bytes };
}

impl Clone for Host {
    ghost is_clone = { λ x y. y ≡ x };

    fn clone(&self) -> Result<Host, AllocError> {
        Ok(Host {
            bytes: self.bytes.clone()?,
        })
    }
}

impl Host {
    /// The host of these bytes. Refused, with the bytes, exactly where `http_uri` reads them as no authority, or as one
    /// with userinfo, with a port or a colon, or with a byte behind the bracket that closes an address.
    pub fn try_new(alloc: Global, bytes: Vec<u8>) -> Result<Host, BadHost>
        ensures ok { IfOk result (λ host. (host ≡ bytes.items) × IsHost bytes.items) }
        ensures refused { IfErr result (IsRefused bytes.items) }
    {
        match is_host(alloc, &bytes) {
            Ok(true) => match Bytes::new(bytes) {
                Ok(bytes) => Ok(Host { bytes }),
                Err(NoMemory) => Err(BadHost::NoMemory),
            },
            Ok(false) => Err(BadHost::Malformed(bytes)),
            Err(NoMemory) => Err(BadHost::NoMemory),
        }
    }

    /// The bytes.
    pub fn bytes(&self) -> &[u8]
        ensures bytes { result.now ≡ self.now }
        ensures valid { IsHost self.now }
    {
        self.bytes.as_slice()
    }

    /// A copy with the same bytes.
    pub fn try_clone(&self) -> Result<Host, NoMemory>
        ensures { IfOk result (λ copy. copy ≡ self.now) }
    {
        Ok(self.clone()?)
    }
}

fn is_host(alloc: Global, text: &[u8]) -> Result<bool, NoMemory>
    ensures { IfOk result (λ valid. MatchBool valid (IsHost text.now) (¬ (IsHost text.now))) }
{
    match Authority::from_bytes(alloc, text) {
        Ok(authority) => Ok(has_no_at_sign(text) && authority.host().as_bytes() == text),
        Err(UriError::Invalid(_)) => Ok(false),
        Err(UriError::OutOfMemory) => Err(NoMemory),
    }
}

fn has_no_at_sign(text: &[u8]) -> bool
    ensures { MatchBool result (All (λ b. b ≢ at_sign) text.now) (¬ (All (λ b. b ≢ at_sign) text.now)) }
{
    text.iter().all(|b| *b != b'@')
}
