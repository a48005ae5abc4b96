//! Paths of requests.
ghost use Rattle.std.specs.Prelude.{◌≡◌, ◌==◌, true, false, IfOk, IfErr, slice_index};
ghost use Rattle.std.specs.List.{list_all};
ghost use Rattle.px_message.specs.Path.{is_path, is_path_byte};
ghost use Rattle.px_message.specs.Refused.{IsNoPath};

use px_text::{Bytes, NoMemory};
use std::alloc::AllocError;
use std::marker::Model;

/// The path of a request with its query, beginning with `/`; or `*`, which asks about the server as a whole
/// (RFC 9112 sections 3.2.1 and 3.2.4). It has no byte up to the blank and no DEL.
#[derive(Debug, Drop, PartialEq, Eq)]
pub struct Path {
    bytes: Bytes,
}

/// Why a path was refused.
#[derive(Debug, Drop)]
pub enum BadPath {
    /// The bytes that were handed in: they are no path.
    Malformed(Vec<u8>),
    /// Memory ran out; it says nothing of the bytes.
    NoMemory,
}

impl Model for Path {
    ghost use Rattle.std.specs.Prelude.{◌≡◌, List, ℕ, true};
    ghost use Rattle.px_message.specs.Path.{is_path};

    ghost Value = { List ℕ };

    ghost view = { λ p. p.bytes };

    ghost inverse = { λ text. record { bytes = text } };

    ghost invariant = { λ p. is_path p.bytes ≡ true };
}

impl Clone for Path {
    ghost is_clone = { λ x y. y ≡ x };

    fn clone(&self) -> Result<Path, AllocError> {
        Ok(Path {
            bytes: self.bytes.clone()?,
        })
    }
}

impl Path {
    /// The path of these bytes. Refused, with the bytes, exactly where they are neither `*` nor begin with `/` and have
    /// no byte up to 0x20 and no 0x7F.
    pub fn try_new(bytes: Vec<u8>) -> Result<Path, BadPath>
        ensures ok { IfOk result (λ path. (path ≡ bytes.items) × (is_path bytes.items ≡ true)) }
        ensures refused { IfErr result (IsNoPath bytes.items) }
    {
        if !is_path(&bytes) {
            return Err(BadPath::Malformed(bytes));
        }
        match Bytes::new(bytes) {
            Ok(bytes) => Ok(Path { bytes }),
            Err(NoMemory) => Err(BadPath::NoMemory),
        }
    }

    /// The path of these bytes, shared. Refused, with the bytes, exactly where `try_new` refuses them. It takes no memory.
    pub fn from_bytes(bytes: Bytes) -> Result<Path, Bytes>
        ensures ok { IfOk result (λ path. (path ≡ bytes) × (is_path bytes ≡ true)) }
        ensures refused { IfErr result (λ back. (back ≡ bytes) × (is_path bytes ≡ false)) }
    {
        if is_path(bytes.as_slice()) {
            Ok(Path { bytes })
        } else {
            Err(bytes)
        }
    }

    /// The bytes.
    pub fn bytes(&self) -> &[u8]
        ensures bytes { result.now ≡ self.now }
        ensures valid { is_path self.now ≡ true }
    {
        self.bytes.as_slice()
    }

    /// A copy with the same bytes.
    pub fn try_clone(&self) -> Result<Path, NoMemory>
        ensures { IfOk result (λ copy. copy ≡ self.now) }
    {
        Ok(self.clone()?)
    }
}

fn is_path(bytes: &[u8]) -> bool
    ensures { result ≡ is_path bytes.now }
{
    bytes == b"*".as_slice() || begins_with_slash(bytes) && has_path_bytes_only(bytes)
}

fn begins_with_slash(bytes: &[u8]) -> bool
    ensures { result ≡ (slice_index bytes.now 0 == 47) }
{
    match bytes.first() {
        Some(first) => *first == b'/',
        None => false,
    }
}

fn has_path_bytes_only(bytes: &[u8]) -> bool
    ensures { result ≡ list_all is_path_byte bytes.now }
{
    bytes.iter().all(|b| !(*b <= b' ' || *b == 0x7f))
}
