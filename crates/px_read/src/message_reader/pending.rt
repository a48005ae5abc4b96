//! Bytes that were fed and not used.
//!
//! A piece that comes when all before it was used is kept as it is, shared with who fed it; any other is added behind the
//! bytes that wait, which stay where they are as long as nobody else has a share in them and there is room. Of a piece that is
//! used up no share is kept.
ghost use Rattle.std.specs.Prelude.{◌≡◌, ◌≤◌, ◌++◌, take, drop, length, IfOk, OnOk};

use px_text::{Bytes, NoMemory};
use std::alloc::Global;
use std::marker::Model;
use std::mem;

/// Bytes that were fed and not used. In a contract they are the list of them.
#[derive(Debug, Drop)]
pub struct Pending {
    waiting: Bytes,
}

impl Model for Pending {
    ghost use Rattle.std.specs.Prelude.{List, ℕ};

    ghost Value = { List ℕ };

    ghost view = { λ p. p.waiting };

    ghost inverse = { λ text. record { waiting = text } };
}

impl Pending {
    /// These bytes.
    pub fn new(bytes: Bytes) -> Pending
        ensures { result ≡ bytes }
    {
        Pending {
            waiting: unless_used(bytes),
        }
    }

    /// Adds bytes behind the others.
    pub fn feed(&mut self, alloc: Global, bytes: &Bytes) -> Result<(), NoMemory>
        ensures { OnOk result (self.new ≡ self.old ++ bytes.now) }
    {
        let before = mem::replace(&mut self.waiting, Bytes::empty());
        self.waiting = joined(alloc, before, bytes)?;
        Ok(())
    }

    /// The bytes.
    pub fn bytes(&self) -> &Bytes
        ensures { result.now ≡ self.now }
    {
        &self.waiting
    }

    /// How many bytes there are.
    pub fn len(&self) -> usize
        ensures { result ≡ length self.now }
    {
        self.waiting.len()
    }

    /// Takes the first `count` bytes off, shared.
    pub fn split(&mut self, count: usize) -> Result<Bytes, NoMemory>
        requires { count ≤ length self.old }
        ensures front { IfOk result (λ made. made ≡ take count self.old) }
        ensures rest { OnOk result (self.new ≡ drop count self.old) }
    {
        self.waiting.split_to(count)
    }

    /// Uses so many bytes.
    pub fn skip(&mut self, count: usize)
        requires { count ≤ length self.old }
        ensures { self.new ≡ drop count self.old }
    {
        if count < self.waiting.len() {
            self.waiting.advance(count);
        } else {
            self.waiting = Bytes::empty();
        }
    }

    /// The bytes.
    pub fn into_bytes(self) -> Bytes
        ensures { result ≡ self }
    {
        self.waiting
    }
}

// These bytes: without a share in any where there are none.
fn unless_used(bytes: Bytes) -> Bytes
    ensures { result ≡ bytes }
{
    if bytes.is_empty() {
        Bytes::empty()
    } else {
        bytes
    }
}

// These bytes with others behind them: the others themselves, shared, where there are no bytes before them.
fn joined(alloc: Global, before: Bytes, bytes: &Bytes) -> Result<Bytes, NoMemory>
    ensures { IfOk result (λ made. made ≡ before ++ bytes.now) }
{
    if before.is_empty() {
        return bytes.try_clone();
    }
    before.append(alloc, bytes.as_slice())
}
