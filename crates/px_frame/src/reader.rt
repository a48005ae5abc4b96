//! A reader that is fed the bytes of one side of a connection and gives the frames that stand in them.
//!
//! It keeps the bytes of a frame that has begun, in room for at most twice as many (`SnugBytes`). Where none wait, the frames of a call are read from its bytes,
//! and only what is left behind them is kept. Else they are joined to those that wait: where the call then gave frames, what is left behind these is moved to the
//! front of the buffer once, and that is no more than the call brought; where it gave none, nothing is moved. So each byte is moved a bounded number of times.
ghost use Rattle.std.specs.Prelude.{◌≡◌, ◌≤◌, ◌+◌, ◌++◌, [], None, Some, IfOk, OnOk, drop, length};
ghost use Rattle.px_text.specs.Prefix.{IsPrefixOf};
ghost use Rattle.px_frame.specs.Head.{most, so_far};
ghost use Rattle.px_frame.specs.Endings.{IsEnding, IsLeft, IsWithin};

use crate::fault::{FrameError, FrameFault};
use crate::frame::{Frame, Front, Standing, read_front};
use crate::head::has_length;
use crate::snug::SnugBytes;
use px_text::NoMemory;
use std::alloc::Global;
use std::marker::Model;

/// A reader of the frames of one side. In a contract it is whether frames are to be masked, the payload so far of a message that has
/// begun, the bytes of a frame that has begun, and the fault that was met (`specs/Reader.antt`). Its room is for at most twice those bytes.
///
/// After `NoMemory` it may only be dropped.
#[derive(Debug, Drop)]
pub struct FrameReader {
    masked: bool,
    begun: Option<u64>,
    rest: SnugBytes,
    failed: Option<FrameFault>,
}

impl Model for FrameReader {
    ghost use Rattle.std.specs.Prelude.{◌≤◌};
    ghost use Rattle.px_frame.specs.Head.{most, so_far};
    ghost use Rattle.px_frame.specs.Reader.{Reading};

    ghost Value = { Reading };

    ghost view = { λ r. record { masked = r.masked; begun = r.begun; rest = r.rest; failed = r.failed } };

    ghost invariant = { λ r. so_far r.begun ≤ most };
}

/// How bytes end behind their frames: with a rest that begins at a place, or with a fault.
#[derive(Clone, Copy, Debug)]
pub enum Ending {
    Rest(usize),
    Fault(FrameFault),
}

impl FrameReader {
    ghost use Rattle.px_frame.specs.Reader.{Feeds, UnlessNoMemory};

    /// A reader of no bytes. `masked` says whether frames are to be masked: those of a client are, those of a server are not (RFC 6455 section 5.1).
    pub fn new(alloc: Global, masked: bool) -> FrameReader
        ensures made { result ≡ record { masked = masked; begun = None; rest = []; failed = None } }
    {
        FrameReader {
            masked,
            begun: None,
            rest: SnugBytes::new(alloc),
            failed: None,
        }
    }

    /// How many bytes it keeps: those of a frame that has begun.
    pub fn kept(&self) -> usize
        ensures { result ≡ length self.now.rest }
    {
        self.rest.len()
    }

    /// How many bytes its room is for: at most twice those that it keeps, so none where it keeps none.
    pub fn room(&self) -> usize
        ensures { result ≤ length self.now.rest + length self.now.rest }
    {
        self.rest.room()
    }

    /// Hears the bytes behind those that came before, and adds the frames that they complete.
    ///
    /// `left` says how many messages may still be completed, in this call and later; a frame of data behind them is `TooBig`. It is asked
    /// when the last byte of a frame's length is heard. `Fault` comes with the frames before it, and again for ever. After `NoMemory`
    /// some frames may have been added, and the reader may only be dropped.
    pub fn feed(&mut self, bytes: &[u8], left: u64, out: &mut Vec<Frame>) -> Result<(), FrameError>
        ensures kept { IsPrefixOf out.old.items out.new.items }
        ensures frames { UnlessNoMemory result (Feeds self.old bytes.now left (drop (length out.old.items) out.new.items) result self.new) }
    {
        if let Some(fault) = self.failed {
            return Err(FrameError::Fault(fault));
        }
        let mut at = Standing {
            begun: self.begun,
            left,
            judged: has_length(self.rest.as_slice()),
        };
        match read_on(&mut self.rest, bytes, self.masked, &mut at, out)? {
            Ending::Rest(_) => {
                self.begun = at.begun;
                Ok(())
            }
            Ending::Fault(fault) => {
                self.begun = None;
                self.failed = Some(fault);
                Err(FrameError::Fault(fault))
            }
        }
    }
}

// Adds the frames of the bytes that wait and of these behind them; then those wait that are left.
fn read_on(
    waiting: &mut SnugBytes,
    bytes: &[u8],
    masked: bool,
    at: &mut Standing,
    out: &mut Vec<Frame>,
) -> Result<Ending, NoMemory>
    requires { so_far at.old.begun ≤ most }
    ensures kept { IsPrefixOf out.old.items out.new.items }
    ensures ending { IfOk result (λ end. IsEnding masked at.old (waiting.old ++ bytes.now) (drop (length out.old.items) out.new.items) end at.new) }
    ensures left { IfOk result (λ end. IsLeft (waiting.old ++ bytes.now) end waiting.new) }
{
    if waiting.len() == 0 {
        return read_piece(waiting, bytes, masked, at, out);
    }
    waiting.add(bytes)?;
    let ending = read_frames(waiting.allocator(), waiting.as_slice(), masked, at, out)?;
    keep(waiting, ending)?;
    Ok(ending)
}

// The same where none wait: the bytes that are used are not copied.
fn read_piece(
    waiting: &mut SnugBytes,
    bytes: &[u8],
    masked: bool,
    at: &mut Standing,
    out: &mut Vec<Frame>,
) -> Result<Ending, NoMemory>
    requires begun { so_far at.old.begun ≤ most }
    requires none { length waiting.old ≡ 0 }
    ensures kept { IsPrefixOf out.old.items out.new.items }
    ensures ending { IfOk result (λ end. IsEnding masked at.old bytes.now (drop (length out.old.items) out.new.items) end at.new) }
    ensures left { IfOk result (λ end. IsLeft bytes.now end waiting.new) }
{
    let ending = read_frames(waiting.allocator(), bytes, masked, at, out)?;
    if let Ending::Rest(used) = ending {
        waiting.add(&bytes[used..])?;
    }
    Ok(ending)
}

// Takes away what was used: all, where there is a fault.
fn keep(waiting: &mut SnugBytes, ending: Ending) -> Result<(), NoMemory>
    requires { IsWithin (length waiting.old) ending }
    ensures { OnOk result (IsLeft waiting.old ending waiting.new) }
{
    match ending {
        Ending::Rest(used) => waiting.skip(used),
        Ending::Fault(_) => {
            waiting.clear();
            Ok(())
        }
    }
}

// Adds the frames of the bytes, from where the first of them stands, and says how the bytes end.
fn read_frames(
    alloc: Global,
    bytes: &[u8],
    masked: bool,
    at: &mut Standing,
    out: &mut Vec<Frame>,
) -> Result<Ending, NoMemory>
    requires { so_far at.old.begun ≤ most }
    ensures kept { IsPrefixOf out.old.items out.new.items }
    ensures ending { IfOk result (λ end. IsEnding masked at.old bytes.now (drop (length out.old.items) out.new.items) end at.new) }
{
    let mut used = 0;
    'frames: loop {
        match read_front(alloc, &bytes[used..], masked, *at)? {
            Front::Nothing => return Ok(Ending::Rest(used)),
            Front::Refused(fault) => return Ok(Ending::Fault(fault)),
            Front::Stands(frame, count) => {
                *at = at.behind(&frame);
                used += count;
                out.push(frame)?;
            }
        }
    }
}
