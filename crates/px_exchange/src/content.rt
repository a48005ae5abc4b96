//! The content of a message, as far as it has come.
ghost use Rattle.std.specs.Prelude.{◌≡◌, [], ◌++◌, length, IfOk, OnOk};

use px_message::Body;
use px_text::{Bytes, NoMemory};
use std::alloc::Global;
use std::marker::Model;
use std::mem;

/// The content of a message, as far as it has come. In a contract it is the list of its bytes.
///
/// The first piece is shared with who gave it. Where a second one comes, the content gets bytes of its own, which all that
/// follow are added to.
#[derive(Debug, Drop)]
pub struct Content {
    alloc: Global,
    bytes: Bytes,
}

impl Model for Content {
    ghost use Rattle.std.specs.Prelude.{List, ℕ};

    ghost Value = { List ℕ };

    ghost view = { λ c. c.bytes };
}

impl Content {
    /// None of it.
    pub fn new(alloc: Global) -> Content
        ensures { result ≡ [] }
    {
        Content {
            alloc,
            bytes: Bytes::empty(),
        }
    }

    /// Adds what came behind the rest. After `NoMemory` the content may only be dropped.
    pub fn push(&mut self, piece: &Bytes) -> Result<(), NoMemory>
        ensures { OnOk result (self.new ≡ self.old ++ piece.now) }
    {
        let had = mem::replace(&mut self.bytes, Bytes::empty());
        self.bytes = joined(self.alloc, had, piece)?;
        Ok(())
    }

    /// How many bytes there are.
    pub fn len(&self) -> usize
        ensures { result ≡ length self.now }
    {
        self.bytes.len()
    }

    /// The body of a message with this content.
    pub fn into_body(self) -> Body
        ensures { result ≡ self }
    {
        Body::from_bytes(self.bytes)
    }
}

// The bytes with the piece behind them: the piece itself where there are none.
fn joined(alloc: Global, had: Bytes, piece: &Bytes) -> Result<Bytes, NoMemory>
    ensures { IfOk result (λ all. all ≡ had ++ piece.now) }
{
    if had.is_empty() {
        return piece.try_clone();
    }
    had.append(alloc, piece.as_slice())
}
