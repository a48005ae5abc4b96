//! A buffer of bytes that wait, with those in front that were used.
//!
//! Bytes that were used are not moved out of the buffer at once: the place behind them is kept, and what is left is moved to
//! the buffer's front as soon as more was used than is left. So the buffer never holds more than twice what waits in it
//! (`specs/Bound.antt`), and each move is of fewer bytes than were used since the one before.
ghost use Rattle.std.specs.Prelude.{◌≡◌, ◌≤◌, ◌++◌, IfOk, OnErr, OnOk, drop, length};
ghost use Rattle.px_head.specs.Bound.{IsBounded};

use px_text::{Bytes, NoMemory};
use std::alloc::Global;
use std::marker::Model;

/// A buffer. In a contract it is the bytes that wait.
#[derive(Debug, Drop)]
pub struct Buffer {
    bytes: Vec<u8>,
    used: usize,
}

impl Model for Buffer {
    ghost use Rattle.std.specs.Prelude.{List, ℕ, drop};
    ghost use Rattle.px_head.specs.Bound.{IsBounded};

    ghost Value = { List ℕ };

    ghost view = { λ b. drop b.used b.bytes.items };

    ghost invariant = { λ b. IsBounded b.used b.bytes.items };
}

impl Buffer {
    /// A copy of these bytes, with more behind them.
    pub fn joined(alloc: Global, front: &[u8], more: &[u8]) -> Result<Buffer, NoMemory>
        ensures { IfOk result (λ made. made ≡ front.now ++ more.now) }
    {
        let mut bytes = Vec::with_capacity(alloc, front.len().saturating_add(more.len()))?;
        bytes.extend_from_slice(front)?;
        bytes.extend_from_slice(more)?;
        Ok(Buffer { bytes, used: 0 })
    }

    /// Adds bytes behind the others.
    pub fn feed(&mut self, bytes: &[u8]) -> Result<(), NoMemory>
        ensures ok { OnOk result (self.new ≡ self.old ++ bytes.now) }
        ensures err { OnErr result (self.new ≡ self.old) }
    {
        self.bytes.extend_from_slice(bytes)?;
        Ok(())
    }

    /// The bytes that wait.
    pub fn as_slice(&self) -> &[u8]
        ensures { result.now ≡ self.now }
    {
        &self.bytes[self.used..]
    }

    /// How many bytes wait.
    pub fn len(&self) -> usize
        ensures { result ≡ length self.now }
    {
        self.bytes.len() - self.used
    }

    /// Uses so many bytes.
    pub fn skip(&mut self, count: usize)
        requires { count ≤ length self.old }
        ensures { self.new ≡ drop count self.old }
    {
        self.used = compact(&mut self.bytes, self.used + count);
    }

    /// The bytes that wait, which are not moved; the count of those who share them takes memory.
    pub fn into_bytes(self) -> Result<Bytes, NoMemory>
        ensures { IfOk result (λ rest. rest ≡ self) }
    {
        let Buffer { bytes, used } = self;
        let mut rest = Bytes::new(bytes)?;
        rest.advance(used);
        Ok(rest)
    }
}

// Moves what is left to the front of the buffer where it is shorter than what was used, and says where it begins.
fn compact(buffer: &mut Vec<u8>, used: usize) -> usize
    requires { used ≤ length buffer.old.items }
    ensures rest { drop result buffer.new.items ≡ drop used buffer.old.items }
    ensures bound { IsBounded result buffer.new.items }
{
    if used <= buffer.len() - used {
        return used;
    }
    move_to_front(buffer, used);
    0
}

fn move_to_front(buffer: &mut Vec<u8>, used: usize)
    requires { used ≤ length buffer.old.items }
    ensures { buffer.new.items ≡ drop used buffer.old.items }
{
    let rest = buffer.len() - used;
    buffer.copy_within(used.., 0);
    buffer.truncate(rest);
}
