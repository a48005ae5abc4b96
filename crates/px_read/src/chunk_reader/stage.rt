//! The stages of a chunked body.
ghost use Rattle.std.specs.Prelude.{◌<◌, length};
ghost use Rattle.px_read.specs.ChunkStages.{IsStage, seen_as};
ghost use Rattle.px_read.specs.ChunkTurns.{IsGoing, TurnsFrom};

use super::ChunkError;
use super::content::{hear_content, hear_line_feed, hear_return};
use super::line::hear_line;
use super::trailers::hear_trailers;
use crate::ChunkPart;
use px_head::HeadReader;
use px_message::Fields;
use px_text::Bytes;

/// What the next byte belongs to.
#[derive(Debug, Drop)]
pub enum ChunkStage {
    /// A chunk line, whose bytes so far the reader keeps.
    Line,
    /// A content of which so many bytes are to come; with none, the CR behind it.
    Content(u64),
    /// The LF behind a content.
    LineFeed,
    /// The trailers, whose bytes so far their reader keeps.
    Trailers(HeadReader),
    /// Nothing: the body has ended, with these trailers.
    Ended(Fields),
    /// Nothing: the body was refused.
    Refused,
}

/// The bytes that a stage took, the part that they gave, and the stage behind them.
#[derive(Debug, Drop)]
pub struct ChunkTurn {
    pub used: usize,
    pub part: Option<ChunkPart>,
    pub stage: ChunkStage,
}

/// Hears the bytes of a stage, at least one.
pub fn hear(stage: ChunkStage, line: &mut Vec<u8>, bytes: &Bytes) -> Result<ChunkTurn, ChunkError>
    requires going { IsGoing (seen_as line.old.items stage) }
    requires stage { IsStage line.old.items stage }
    requires some { 0 < length bytes.now }
    ensures { TurnsFrom (seen_as line.old.items stage) bytes.now line.new.items result }
{
    let alloc = *line.allocator();
    match stage {
        ChunkStage::Line => hear_line(line, bytes.as_slice()),
        ChunkStage::Content(0) => hear_return(bytes.as_slice()),
        ChunkStage::Content(left) => hear_content(left, bytes),
        ChunkStage::LineFeed => hear_line_feed(bytes.as_slice()),
        ChunkStage::Trailers(reader) => hear_trailers(alloc, reader, bytes.as_slice()),
        ChunkStage::Ended(_) | ChunkStage::Refused => unreachable!(),
    }
}
