//! A buffer of bytes whose room is for at most twice as many.
//!
//! A buffer that is only emptied keeps the room of the largest frame that ever lay in it. Here each change ends with room for at most twice the
//! bytes (`specs/Room.antt`): where there is more, they are copied into room of their own, and the old one is let go. They are then fewer than half of what
//! there was room for, so this costs no more than what was added before. Without bytes there is no room.
ghost use Rattle.std.specs.Prelude.{◌≡◌, ◌≤◌, ◌+◌, ◌++◌, ◌==◌, [], IfOk, OnOk, drop, length, vec_capacity};
ghost use Rattle.px_frame.specs.Room.{IsSnug};

use px_text::NoMemory;
use std::alloc::Global;
use std::marker::Model;
use std::mem;

/// Bytes in room for at most twice as many. In a contract they are the list of them.
///
/// After `NoMemory` they are lost in part or whole; what is left keeps to the bound.
#[derive(Debug, Drop)]
pub struct SnugBytes {
    bytes: Vec<u8>,
}

impl Model for SnugBytes {
    ghost use Rattle.std.specs.Prelude.{List, ℕ, vec_capacity};
    ghost use Rattle.px_frame.specs.Room.{IsSnug};

    ghost Value = { List ℕ };

    ghost view = { λ b. b.bytes.items };

    ghost invariant = { λ b. IsSnug (vec_capacity b.bytes) b.bytes.items };
}

impl SnugBytes {
    /// None, without room.
    pub fn new(alloc: Global) -> SnugBytes
        ensures { result ≡ [] }
    {
        SnugBytes {
            bytes: Vec::new(alloc),
        }
    }

    /// The bytes.
    pub fn as_slice(&self) -> &[u8]
        ensures { result.now ≡ self.now }
    {
        &self.bytes
    }

    /// How many there are.
    pub fn len(&self) -> usize
        ensures { result ≡ length self.now }
    {
        self.bytes.len()
    }

    /// How many bytes there is room for.
    pub fn room(&self) -> usize
        ensures { result ≤ length self.now + length self.now }
    {
        self.bytes.capacity()
    }

    /// The allocator that their room is taken from.
    pub fn allocator(&self) -> Global {
        *self.bytes.allocator()
    }

    /// Adds bytes behind the others.
    pub fn add(&mut self, more: &[u8]) -> Result<(), NoMemory>
        ensures { OnOk result (self.new ≡ self.old ++ more.now) }
    {
        let alloc = self.allocator();
        let mut bytes = mem::replace(&mut self.bytes, Vec::new(alloc));
        bytes.extend_from_slice(more)?;
        self.bytes = snug(alloc, bytes)?;
        Ok(())
    }

    /// Takes so many away from the front.
    pub fn skip(&mut self, count: usize) -> Result<(), NoMemory>
        requires { count ≤ length self.old }
        ensures { OnOk result (self.new ≡ drop count self.old) }
    {
        let alloc = self.allocator();
        let mut bytes = mem::replace(&mut self.bytes, Vec::new(alloc));
        move_to_front(&mut bytes, count);
        self.bytes = snug(alloc, bytes)?;
        Ok(())
    }

    /// Takes all away.
    pub fn clear(&mut self)
        ensures { self.new ≡ [] }
    {
        let alloc = self.allocator();
        self.bytes = Vec::new(alloc);
    }
}

// The same bytes, where they stand if their room is not too large.
fn snug(alloc: Global, bytes: Vec<u8>) -> Result<Vec<u8>, NoMemory>
    ensures items { IfOk result (λ made. made.items ≡ bytes.items) }
    ensures room { IfOk result (λ made. IsSnug (vec_capacity made) made.items) }
{
    let count = bytes.len();
    if bytes.capacity().saturating_sub(count) <= count {
        return Ok(bytes);
    }
    exact(alloc, &bytes)
}

// A copy of the bytes in room for just so many.
fn exact(alloc: Global, bytes: &[u8]) -> Result<Vec<u8>, NoMemory>
    ensures items { IfOk result (λ made. made.items ≡ bytes.now) }
    ensures room { IfOk result (λ made. vec_capacity made ≡ length bytes.now) }
{
    let mut made = Vec::with_capacity(alloc, bytes.len())?;
    let mut at = 0;
    'bytes: while at < bytes.len() {
        made.push_reserved(bytes[at]);
        at += 1;
    }
    Ok(made)
}

fn move_to_front(buffer: &mut Vec<u8>, used: usize)
    requires { used ≤ length buffer.old.items }
    ensures { buffer.new.items ≡ drop used buffer.old.items }
{
    if used == 0 {
        return;
    }
    let rest = buffer.len() - used;
    buffer.copy_within(used.., 0);
    buffer.truncate(rest);
}
