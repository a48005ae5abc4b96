//! A reader that is fed the bytes of a chunked body and gives its parts (RFC 9112 section 7.1).
//!
//! It keeps of the body a chunk line that has not ended, of at most 1,024 bytes, or the trailers so far, of at most
//! 65,536 bytes, and no content. It hears one stage of the body after the other: a line up to its LF, a content as far as
//! the bytes go, its CR, its LF, the trailers a line at a time. Each stage is a function of what it has and of the bytes,
//! so the definition is met stage by stage (`specs/Chunks.antt`): where the bytes of a stage end, those behind them are
//! heard from the place that it led to.
ghost use Rattle.std.specs.Prelude.{◌≡◌, ◌<◌, ◌≤◌, ◌^◌, ◌-◌, min, [], IfOk, drop, length};

mod content;
mod line;
mod stage;
mod trailers;

use crate::ChunkPart;
use crate::kept::fields_kept;
use px_text::{Bytes, NoMemory};
use stage::{ChunkStage, ChunkTurn, hear};
use std::alloc::{AllocError, AllocFailed, Global};
use std::marker::Model;
use std::mem;

/// Why no further part is given.
#[derive(Clone, Copy, Debug, PartialEq, Eq)]
pub enum ChunkError {
    /// The body is malformed: a chunk line is none or has more than 1,024 bytes, a content has no CRLF behind it, or the
    /// trailers are none or have more than 65,536 bytes (RFC 9112 section 7.1). It is answered again for ever.
    BadChunk,
    /// Memory ran out. It says nothing of the body, and the reader may only be dropped.
    NoMemory,
}

impl From<NoMemory> for ChunkError {
    ghost use Rattle.px_read.specs.declared.chunk_reader.ChunkError.TheVariants as errors;

    ghost from_gives = { λ _ error. error ≡ errors.NoMemory };

    fn from(_: NoMemory) -> ChunkError {
        ChunkError::NoMemory
    }
}

impl From<AllocError> for ChunkError {
    ghost use Rattle.px_read.specs.declared.chunk_reader.ChunkError.TheVariants as errors;

    ghost from_gives = { λ _ error. error ≡ errors.NoMemory };

    fn from(_: AllocError) -> ChunkError {
        ChunkError::NoMemory
    }
}

impl<T: Drop> From<AllocFailed<T>> for ChunkError {
    ghost use Rattle.px_read.specs.declared.chunk_reader.ChunkError.TheVariants as errors;

    ghost from_gives = { λ _ error. error ≡ errors.NoMemory };

    fn from(_: AllocFailed<T>) -> ChunkError {
        ChunkError::NoMemory
    }
}

/// The bytes up to a part, or all bytes and no part.
#[derive(Debug, Drop)]
pub struct ChunkStep {
    pub used: usize,
    pub part: Option<ChunkPart>,
}

/// A reader of one chunked body. It holds no more than `kept` tells, and of trailers that have begun at most twice that. In a contract it is the place in the body where the next byte stands, or the trailers
/// with which the body ended, or that it was refused (`specs/Chunking.antt`).
///
/// After `NoMemory` it may only be dropped.
#[derive(Debug, Drop)]
pub struct ChunkReader {
    line: Vec<u8>,
    stage: ChunkStage,
}

impl Model for ChunkReader {
    ghost use Rattle.px_read.specs.Chunking.{Chunking};
    ghost use Rattle.px_read.specs.ChunkStages.{IsStage, seen_as};

    ghost Value = { Chunking };

    ghost view = { λ r. seen_as r.line.items r.stage };

    ghost invariant = { λ r. IsStage r.line.items r.stage };
}

impl ChunkReader {
    ghost use Rattle.px_text.specs.Prefix.{IsPrefixOf};
    ghost use Rattle.px_read.specs.Chunks.{in_line};
    ghost use Rattle.px_read.specs.Chunking.{ChunkingHasRoom, chunking_keeps, reads};
    ghost use Rattle.px_read.specs.ChunkSteps.{Added, IsOpen, Steps, UnlessNoMemory, after_feed, feed_answer};
    ghost use Rattle.px_read.specs.ChunkTurns.{IsGoing, Moves};

    /// A reader at the front of a body.
    pub fn new(alloc: Global) -> ChunkReader
        ensures { result ≡ reads (in_line []) }
    {
        ChunkReader {
            line: Vec::new(alloc),
            stage: ChunkStage::Line,
        }
    }

    /// How many bytes it keeps, or 2^64 - 1 where that is more: those of a chunk line or of trailers that have begun, or of
    /// the trailers with which the body ended.
    pub fn kept(&self) -> usize
        ensures kept { result ≡ min (chunking_keeps self.now) (2 ^ 64 - 1) }
        ensures room { ChunkingHasRoom self.now }
    {
        match &self.stage {
            ChunkStage::Line => self.line.len(),
            ChunkStage::Content(_) => 0,
            ChunkStage::LineFeed => 0,
            ChunkStage::Trailers(reader) => reader.unused(),
            ChunkStage::Ended(trailers) => fields_kept(trailers),
            ChunkStage::Refused => 0,
        }
    }

    /// Hears the bytes, and adds the parts that they give. Returns how many bytes the body used: all of them, but where it ends.
    ///
    /// After its end, and where it has ended, nothing is used. `BadChunk` comes with the parts before it, and again for
    /// ever.
    pub fn feed(&mut self, bytes: &Bytes, out: &mut Vec<ChunkPart>) -> Result<usize, ChunkError>
        ensures kept { IsPrefixOf out.old.items out.new.items }
        ensures parts { UnlessNoMemory result (Added self.old bytes.now (drop (length out.old.items) out.new.items)) }
        ensures answer { UnlessNoMemory result (result ≡ feed_answer self.old bytes.now) }
        ensures state { UnlessNoMemory result (self.new ≡ after_feed self.old bytes.now) }
    {
        let mut at = 0;
        loop {
            let step = self.step_at(bytes, at)?;
            at += step.used;
            match step.part {
                Some(part) => out.push(part)?,
                None => return Ok(at),
            }
        }
    }

    // Hears the bytes from a place on, up to the next part.
    fn step_at(&mut self, bytes: &Bytes, at: usize) -> Result<ChunkStep, ChunkError>
        requires { at ≤ length bytes.now }
        ensures going { UnlessNoMemory result (IsOpen self.old) }
        ensures within { IfOk result (λ step. step.used ≤ length (drop at bytes.now)) }
        ensures small { length bytes.now < 2 ^ 64 }
        ensures step { UnlessNoMemory result (Steps self.old (drop at bytes.now) result self.new) }
    {
        let rest = bytes_from(bytes, at)?;
        self.step(&rest)
    }

    /// Hears the bytes up to the next part.
    pub(crate) fn step(&mut self, bytes: &Bytes) -> Result<ChunkStep, ChunkError>
        ensures going { IsOpen self.old }
        ensures within { IfOk result (λ step. step.used ≤ length bytes.now) }
        ensures step { Steps self.old bytes.now result self.new }
    {
        match &self.stage {
            ChunkStage::Ended(_) => {
                return Ok(ChunkStep {
                    used: 0,
                    part: None,
                });
            }
            ChunkStage::Refused => return Err(ChunkError::BadChunk),
            _ => {}
        }
        let mut at = 0;
        while at < bytes.len() {
            let turn = self.turn(bytes, at)?;
            at += turn.used;
            if turn.part.is_some() {
                return Ok(ChunkStep {
                    used: at,
                    part: turn.part,
                });
            }
        }
        Ok(ChunkStep {
            used: at,
            part: None,
        })
    }

    // Hears the bytes of the stage from a place on, at least one.
    fn turn(&mut self, bytes: &Bytes, at: usize) -> Result<ChunkStep, ChunkError>
        requires going { IsGoing self.old }
        requires some { at < length bytes.now }
        ensures { Moves self.old (drop at bytes.now) result self.new }
    {
        let rest = bytes_from(bytes, at)?;
        let stage = mem::replace(&mut self.stage, ChunkStage::Refused);
        let turn = match hear(stage, &mut self.line, &rest) {
            Ok(turn) => turn,
            Err(error) => {
                self.line.clear();
                return Err(error);
            }
        };
        self.stage = turn.stage;
        Ok(ChunkStep {
            used: turn.used,
            part: turn.part,
        })
    }
}

// The bytes from a place on, shared.
fn bytes_from(bytes: &Bytes, at: usize) -> Result<Bytes, NoMemory>
    requires { at ≤ length bytes.now }
    ensures rest { IfOk result (λ rest. rest ≡ drop at bytes.now) }
    ensures small { length bytes.now < 2 ^ 64 }
{
    bytes.part(at, bytes.len())
}
