//! Bytes that wait.
ghost use Rattle.std.specs.Prelude.{◌≡◌, ◌≤◌, ◌<◌, [], ◌++◌, length, take, drop, OnOk, OnErr};
ghost use Rattle.px_outside.specs.Net.{Adds};
ghost use Rattle.px_wire.specs.declared.call.WireCall.TheVariants.{Noted};
ghost use Rattle.px_wire.specs.Calls.{Tells};

use crate::Wire;
use px_event::Step;
use px_text::{Bytes, NoMemory};
use std::alloc::Global;
use std::collections::VecDeque;
use std::marker::Model;

/// Bytes that wait to be taken, in their order. They are kept in the pieces in which they came, shared. The pieces joined are
/// the bytes that wait, and no piece is empty: a piece of which all was taken is held no longer.
#[derive(Drop)]
pub struct Queue {
    pieces: VecDeque<Bytes>,
    // How many bytes there are in all pieces.
    len: usize,
}

impl Model for Queue {
    ghost use Rattle.std.specs.Prelude.{◌≡◌, List, ℕ, ◌<◌, length, All};
    ghost use Rattle.std.specs.List.{concat};

    ghost Value = { List ℕ };

    ghost view = { λ q. concat q.pieces.items };

    ghost invariant = { λ q. (q.len ≡ length (concat q.pieces.items)) × All (λ piece. 0 < length piece) q.pieces.items };
}

impl Queue {
    /// Nothing waits.
    pub fn new(alloc: Global) -> Queue
        ensures { result ≡ [] }
    {
        Queue {
            pieces: VecDeque::new(alloc),
            len: 0,
        }
    }

    /// How many bytes wait.
    pub fn len(&self) -> usize
        ensures { result ≡ length self.now }
    {
        self.len
    }

    /// The first of the bytes that wait: those of the first piece.
    pub fn front(&self) -> &[u8]
        ensures begins { result.now ≡ take (length result.now) self.now }
        ensures within { length result.now ≤ length self.now }
        ensures some { 0 < length self.now → 0 < length result.now }
    {
        match self.pieces.front() {
            Some(piece) => piece.as_slice(),
            None => &[],
        }
    }

    /// Appends the bytes, shared, and hands the wire the step that says them: both or neither.
    pub fn push_noted<W: Wire>(
        &mut self,
        wire: &mut W,
        bytes: &Bytes,
        step: &Step,
    ) -> Result<(), NoMemory>
        ensures steps { OnOk result (Adds (W.steps wire.old) (W.steps wire.new) step.now) }
        ensures told { OnOk result (Tells (Noted step.now) (W.calls wire.old) (W.calls wire.new)) }
        ensures ok { OnOk result (self.new ≡ self.old ++ bytes.now) }
        ensures err { OnErr result (self.new ≡ self.old) }
        ensures calls_err { OnErr result (W.calls wire.new ≡ W.calls wire.old) }
        ensures steps_err { OnErr result (W.steps wire.new ≡ W.steps wire.old) }
        ensures listening { W.listening wire.new ≡ W.listening wire.old }
        ensures faults { W.faults wire.new ≡ W.faults wire.old }
        ensures asks { W.asks wire.new ≡ W.asks wire.old }
    {
        if bytes.is_empty() {
            return wire.note(step);
        }
        let Some(len) = self.len.checked_add(bytes.len()) else {
            return Err(NoMemory);
        };
        self.pieces.try_reserve(1)?;
        let piece = bytes.try_clone()?;
        match wire.note(step) {
            Ok(()) => {
                self.pieces.push_back_reserved(piece);
                self.len = len;
                Ok(())
            }
            Err(error) => {
                drop(piece);
                Err(error)
            }
        }
    }

    /// Takes this many bytes off the front.
    pub fn take_off(&mut self, count: usize)
        requires { count ≤ length self.old }
        ensures { self.new ≡ drop count self.old }
    {
        let mut left = count;
        while left > 0 {
            left -= self.take_first(left);
        }
    }

    /// Nothing waits any more.
    pub fn clear(&mut self)
        ensures { self.new ≡ [] }
    {
        self.pieces.clear();
        self.len = 0;
    }

    // Takes at most this many bytes off, all of the first piece, and tells how many.
    fn take_first(&mut self, most: usize) -> usize
        requires some { 0 < most }
        requires within { most ≤ length self.old }
        ensures count { (0 < result) × (result ≤ most) }
        ensures rest { self.new ≡ drop result self.old }
    {
        let Some(mut first) = self.pieces.pop_front() else {
            unreachable!()
        };
        let taken = most.min(first.len());
        first.advance(taken);
        if first.is_empty() {
            drop(first);
        } else {
            self.pieces.push_front_reserved(first);
        }
        self.len -= taken;
        taken
    }
}
