//! The bytes that a reader was fed and has not used.
//!
//! A piece that comes when nothing waits is kept as it is, shared with who fed it, and so is what a head leaves of it: no
//! byte is moved. What waits when more comes, or when no head stands in it, is copied into a buffer of the reader's own. A piece
//! that is used up is let go of, so that none keeps the memory of who fed it for nothing (`specs/Held.antt`, `IsNeeded`).
ghost use Rattle.std.specs.Prelude.{◌≡◌, ◌≤◌, ◌++◌, [], IfOk, OnErr, OnOk, drop, length};
ghost use Rattle.px_head.specs.Held.{IsNeeded, bytes_of};

use crate::buffer::Buffer;
use px_text::{Bytes, NoMemory};
use std::alloc::Global;
use std::marker::Model;

/// Where the bytes are: there are none, or they are in a piece that was fed, or in a buffer.
#[derive(Debug, Drop)]
pub enum Waiting {
    Nothing,
    Shared(Bytes),
    Own(Buffer),
}

/// Bytes that were fed and not used. In a contract they are the list of them.
#[derive(Debug, Drop)]
pub struct Held {
    alloc: Global,
    waiting: Waiting,
}

impl Model for Held {
    ghost use Rattle.std.specs.Prelude.{List, ℕ};
    ghost use Rattle.px_head.specs.Held.{IsNeeded, bytes_of};

    ghost Value = { List ℕ };

    ghost view = { λ h. bytes_of h.waiting };

    ghost invariant = { λ h. IsNeeded h.waiting };
}

impl Held {
    /// No bytes.
    pub fn new(alloc: Global) -> Held
        ensures { result ≡ [] }
    {
        Held {
            alloc,
            waiting: Waiting::Nothing,
        }
    }

    /// What else takes memory for the reader takes it from here.
    pub fn allocator(&self) -> Global {
        self.alloc
    }

    /// Adds bytes behind the others.
    pub fn feed(&mut self, bytes: &[u8]) -> Result<(), NoMemory>
        ensures ok { OnOk result (self.new ≡ self.old ++ bytes.now) }
        ensures err { OnErr result (self.new ≡ self.old) }
    {
        if let Waiting::Own(buffer) = &mut self.waiting {
            return buffer.feed(bytes);
        }
        let buffer = Buffer::joined(self.alloc, self.as_slice(), bytes)?;
        self.waiting = Waiting::Own(buffer);
        Ok(())
    }

    /// Adds bytes behind the others: shared, where there are no others.
    pub fn feed_shared(&mut self, bytes: &Bytes) -> Result<(), NoMemory>
        ensures ok { OnOk result (self.new ≡ self.old ++ bytes.now) }
        ensures err { OnErr result (self.new ≡ self.old) }
    {
        if self.len() > 0 {
            return self.feed(bytes.as_slice());
        }
        self.waiting = share(bytes)?;
        Ok(())
    }

    /// The bytes.
    pub fn as_slice(&self) -> &[u8]
        ensures { result.now ≡ self.now }
    {
        match &self.waiting {
            Waiting::Nothing => &[],
            Waiting::Shared(bytes) => bytes.as_slice(),
            Waiting::Own(buffer) => buffer.as_slice(),
        }
    }

    /// How many bytes there are.
    pub fn len(&self) -> usize
        ensures { result ≡ length self.now }
    {
        match &self.waiting {
            Waiting::Nothing => 0,
            Waiting::Shared(bytes) => bytes.len(),
            Waiting::Own(buffer) => buffer.len(),
        }
    }

    /// Uses so many bytes. A piece of which all are used is held no more.
    pub fn skip(&mut self, count: usize)
        requires { count ≤ length self.old }
        ensures { self.new ≡ drop count self.old }
    {
        match &mut self.waiting {
            Waiting::Nothing => {}
            Waiting::Shared(bytes) => {
                if count < bytes.len() {
                    bytes.advance(count);
                } else {
                    self.waiting = Waiting::Nothing;
                }
            }
            Waiting::Own(buffer) => buffer.skip(count),
        }
    }

    /// Lets go of a piece that is shared: what is left of it is copied.
    pub fn own(&mut self) -> Result<(), NoMemory>
        ensures { self.new ≡ self.old }
    {
        self.feed(&[])
    }

    /// The bytes, which are not moved.
    pub fn into_bytes(self) -> Result<Bytes, NoMemory>
        ensures { IfOk result (λ rest. rest ≡ self) }
    {
        match self.waiting {
            Waiting::Nothing => Ok(Bytes::empty()),
            Waiting::Shared(bytes) => Ok(bytes),
            Waiting::Own(buffer) => buffer.into_bytes(),
        }
    }
}

// The piece, shared; nothing of one that has no bytes.
fn share(piece: &Bytes) -> Result<Waiting, NoMemory>
    ensures bytes { IfOk result (λ waiting. bytes_of waiting ≡ piece.now) }
    ensures needed { IfOk result (λ waiting. IsNeeded waiting) }
{
    if piece.is_empty() {
        return Ok(Waiting::Nothing);
    }
    Ok(Waiting::Shared(piece.try_clone()?))
}
