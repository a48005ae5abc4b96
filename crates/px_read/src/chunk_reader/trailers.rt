//! The trailers, a line at a time, so that no byte behind them is kept.
ghost use Rattle.std.specs.Prelude.{◌≡◌, ◌<◌, ◌≤◌, None, [], length};
ghost use Rattle.px_head.specs.declared.front.Front.TheVariants.{Nothing};
ghost use Rattle.px_head.specs.Front.{trailer_front};
ghost use Rattle.px_read.specs.Chunks.{in_trailers};
ghost use Rattle.px_read.specs.ChunkTurns.{Turns};

use super::ChunkError;
use super::line::find_line_feed;
use super::stage::{ChunkStage, ChunkTurn};
use crate::ChunkPart;
use crate::parts::read_trailers;
use px_head::{Found, HeadReader};
use std::alloc::Global;

/// Hears the bytes of the trailers up to the end of a line.
pub fn hear_trailers(
    alloc: Global,
    mut reader: HeadReader,
    bytes: &[u8],
) -> Result<ChunkTurn, ChunkError>
    requires going { (reader.failed ≡ None) × (trailer_front reader.rest ≡ Nothing) }
    requires some { 0 < length bytes.now }
    ensures { Turns (in_trailers reader.rest) bytes.now [] result }
{
    let count = line_length(bytes);
    reader.feed(&bytes[..count])?;
    match reader.take_trailers()? {
        Found::Partial => Ok(ChunkTurn {
            used: count,
            part: None,
            stage: ChunkStage::Trailers(reader),
        }),
        Found::TooLong | Found::BadHead => Err(ChunkError::BadChunk),
        Found::Head(raw) => {
            let trailers = read_trailers(alloc, raw)?;
            let kept = trailers.try_clone()?;
            Ok(ChunkTurn {
                used: count - reader.unused(),
                part: Some(ChunkPart::Trailers(trailers)),
                stage: ChunkStage::Ended(kept),
            })
        }
    }
}

// Up to the first LF, or all.
fn line_length(bytes: &[u8]) -> usize
    ensures within { result ≤ length bytes.now }
    ensures some { 0 < length bytes.now → 0 < result }
{
    match find_line_feed(bytes) {
        Some(end) => end + 1,
        None => bytes.len(),
    }
}
