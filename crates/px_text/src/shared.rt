//! A list of bytes that is shared: a copy and a part of it have the same bytes in memory.
ghost use Rattle.std.specs.Prelude.{◌≡◌, ◌≤◌, ◌==◌, ◌++◌, [], length, slice_range, take, drop, nat_eq, IfOk, OnOk, OnErr};
ghost use Rattle.std.specs.Cmp.Lexicographic.{pointwise};
ghost use Rattle.std.proofs.Common.{rules};
ghost use Rattle.std.specs.Cmp.Rules.{comparing};

use crate::NoMemory;
use bytes::BytesMut;
use std::alloc::{AllocError, Global};
use std::marker::Model;

/// Bytes as they stood on the wire, in a file or in a rule. In a contract they are the list of their numbers.
///
/// They are never changed, and those who hold them share them: a copy and a part take the place of a few words, whatever
/// the length, and the bytes go with the last of them. So a small part keeps all the bytes that it was taken from; what
/// is to outlive them by far is copied out (`copied`).
#[derive(Debug, Drop)]
pub struct Bytes {
    shared: bytes::Bytes,
}

impl Model for Bytes {
    ghost use Rattle.std.specs.Prelude.{List, ℕ};

    ghost Value = { List ℕ };

    ghost view = { λ b. b.shared };

    ghost inverse = { λ text. record { shared = text } };
}

impl Bytes {
    /// No bytes, without taking memory.
    pub fn empty() -> Bytes
        ensures { result ≡ [] }
    {
        Bytes {
            shared: bytes::Bytes::new(),
        }
    }

    /// The same bytes. They are not copied; the count of those who share them takes memory.
    pub fn new(bytes: Vec<u8>) -> Result<Bytes, NoMemory>
        ensures { IfOk result (λ made. made ≡ bytes.items) }
    {
        Ok(Bytes {
            shared: bytes::Bytes::from_vec(bytes)?,
        })
    }

    /// A copy of the bytes in memory of its own.
    pub fn copied(alloc: Global, bytes: &[u8]) -> Result<Bytes, NoMemory>
        ensures { IfOk result (λ made. made ≡ bytes.now) }
    {
        Ok(Bytes {
            shared: bytes::Bytes::copy_from_slice(alloc, bytes)?,
        })
    }

    /// The bytes from `start` up to `end`, shared.
    pub fn part(&self, start: usize, end: usize) -> Result<Bytes, NoMemory>
        requires ordered { start ≤ end }
        requires within { end ≤ length self.now }
        ensures { IfOk result (λ made. made ≡ slice_range self.now start end) }
    {
        Ok(Bytes {
            shared: self.shared.slice(start..end)?,
        })
    }

    /// Takes the first `at` bytes off, shared. After `NoMemory` nothing has changed.
    pub fn split_to(&mut self, at: usize) -> Result<Bytes, NoMemory>
        requires { at ≤ length self.old }
        ensures front { IfOk result (λ made. made ≡ take at self.old) }
        ensures rest { OnOk result (self.new ≡ drop at self.old) }
        ensures err { OnErr result (self.new ≡ self.old) }
    {
        Ok(Bytes {
            shared: self.shared.split_to(at)?,
        })
    }

    /// Drops the first `count` bytes.
    pub fn advance(&mut self, count: usize)
        requires { count ≤ length self.old }
        ensures { self.new ≡ drop count self.old }
    {
        self.shared.advance(count);
    }

    /// These bytes with more behind them. Where nobody else has a share in these, they stay where they are as long as there is
    /// room; so adding piece by piece costs a small multiple of the bytes.
    pub fn append(self, alloc: Global, more: &[u8]) -> Result<Bytes, NoMemory>
        ensures { IfOk result (λ made. made ≡ self ++ more.now) }
    {
        let mut own = owned(alloc, self.shared, more.len())?;
        own.extend_from_slice(more)?;
        Ok(Bytes {
            shared: own.freeze()?,
        })
    }

    /// How many bytes there are.
    pub fn len(&self) -> usize
        ensures { result ≡ length self.now }
    {
        self.shared.len()
    }

    /// Whether there are none.
    pub fn is_empty(&self) -> bool
        ensures { result ≡ (length self.now == 0) }
    {
        self.shared.is_empty()
    }

    /// The bytes.
    pub fn as_slice(&self) -> &[u8]
        ensures { result.now ≡ self.now }
    {
        self.shared.as_slice()
    }

    /// A vector of them, copied.
    pub fn into_vec(self, alloc: Global) -> Result<Vec<u8>, NoMemory>
        ensures { IfOk result (λ made. made.items ≡ self) }
    {
        Ok(Vec::from_slice(alloc, self.as_slice())?)
    }

    /// A copy with the same bytes, shared.
    pub fn try_clone(&self) -> Result<Bytes, NoMemory>
        ensures { IfOk result (λ copy. copy ≡ self.now) }
    {
        Ok(self.clone()?)
    }
}

// The bytes to be added to: they themselves where nobody else has a share in them, and else a copy with room for so many
// more.
fn owned(alloc: Global, shared: bytes::Bytes, more: usize) -> Result<BytesMut, NoMemory>
    ensures { IfOk result (λ own. own.items ≡ shared) }
{
    match shared.try_into_mut() {
        Ok(own) => Ok(own),
        Err(shared) => {
            let mut own = BytesMut::with_capacity(alloc, shared.len().saturating_add(more))?;
            own.extend_from_slice(shared.as_slice())?;
            Ok(own)
        }
    }
}

impl Clone for Bytes {
    ghost is_clone = { λ x y. y ≡ x };

    fn clone(&self) -> Result<Bytes, AllocError> {
        Ok(Bytes {
            shared: self.shared.clone()?,
        })
    }
}

impl PartialEq for Bytes {
    ghost eq = { pointwise nat_eq };

    ghost laws = { Prim.search (comparing, rules) };

    fn eq(&self, other: &Bytes) -> bool {
        self.as_slice() == other.as_slice()
    }
}

impl Eq for Bytes {
    ghost laws = { Prim.search (comparing, rules) };
}
