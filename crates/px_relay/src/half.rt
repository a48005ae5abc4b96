//! One side of a WebSocket: the reader of its frames, those that wait to be worked off, and its message that has begun.
ghost use Rattle.std.specs.Prelude.{◌≡◌, ◌≤◌, ◌+◌, ◌-◌, ◌^◌, [], None, OnOk, length, min};
ghost use Rattle.std.specs.VecDeque.{deque_capacity};
ghost use Rattle.px_relay.specs.Calls.{AllWritable, Hears, IsFresh, Pops};
ghost use Rattle.px_relay.specs.Kept.{begun_keeps, half_keeps, half_size};

use crate::gathered::Gathered;
use crate::peer::Peer;
use px_frame::{Frame, FrameError, FrameFault, FrameReader};
use px_text::NoMemory;
use std::alloc::Global;
use std::collections::VecDeque;

/// What a WebSocket keeps of one side.
#[derive(Debug, Drop)]
pub(crate) struct Half {
    pub(crate) reader: FrameReader,
    // frames that wait to be worked off, and the fault behind them
    pub(crate) queue: VecDeque<Frame>,
    pub(crate) fault: Option<FrameFault>,
    pub(crate) begun: Option<Gathered>,
}

impl Half {
    /// One of which nothing has come.
    pub(crate) fn new(alloc: Global, peer: Peer) -> Half
        ensures { IsFresh peer result }
    {
        Half {
            reader: FrameReader::new(alloc, peer.is_client()),
            queue: VecDeque::new(alloc),
            fault: None,
            begun: None,
        }
    }

    /// Hears bytes, where no frame waits; `left` says how many messages may still be completed.
    pub(crate) fn hear(&mut self, alloc: Global, bytes: &[u8], left: u64) -> Result<(), NoMemory>
        ensures hears { OnOk result (Hears self.old bytes.now left self.new) }
        ensures writable { OnOk result (AllWritable self.new) }
        ensures few { OnOk result (half_size self.new ≤ half_size self.old + length bytes.now) }
    {
        self.feed(alloc, bytes, left)
    }

    fn feed(&mut self, alloc: Global, bytes: &[u8], left: u64) -> Result<(), NoMemory>
        ensures { OnOk result (Hears self.old bytes.now left self.new) }
    {
        let mut frames = Vec::new(alloc);
        match self.reader.feed(bytes, left, &mut frames) {
            Ok(()) => self.fault = None,
            Err(FrameError::Fault(fault)) => self.fault = Some(fault),
            Err(FrameError::NoMemory) => return Err(NoMemory),
        }
        self.queue = VecDeque::from(frames);
        Ok(())
    }

    /// Takes the next frame that waits. Where none does, the room of the queue is let go.
    pub(crate) fn pop(&mut self) -> Option<Frame>
        ensures pops { Pops self.old self.new result }
        ensures room { result ≡ None → deque_capacity self.new.queue ≡ 0 }
    {
        if self.queue.is_empty() {
            self.queue.shrink_to_fit();
            return None;
        }
        self.queue.pop_front()
    }

    /// How many bytes it keeps, or 2^64 - 1 where that is more.
    pub(crate) fn size(&self) -> usize
        ensures { result ≡ min (half_keeps self.now) (2 ^ 64 - 1) }
    {
        so_far(&self.begun).saturating_add(self.reader.kept())
    }
}

// How many bytes have come of a message that has begun.
fn so_far(begun: &Option<Gathered>) -> usize
    ensures { result ≡ begun_keeps begun.now }
{
    match begun {
        Some(message) => message.payload.len(),
        None => 0,
    }
}
