//! The content of a chunk, as far as the bytes go, and the CRLF behind it.
ghost use Rattle.std.specs.Prelude.{◌≡◌, ◌<◌, ◌≤◌, min, [], length};
ghost use Rattle.px_read.specs.Chunks.{at_cr, at_lf, behind_content};
ghost use Rattle.px_read.specs.ChunkTurns.{Turns};

use super::ChunkError;
use super::stage::{ChunkStage, ChunkTurn};
use crate::ChunkPart;
use px_text::Bytes;

/// Hears bytes of a content of which so many are to come.
pub fn hear_content(left: u64, bytes: &Bytes) -> Result<ChunkTurn, ChunkError>
    requires left { 0 < left }
    requires some { 0 < length bytes.now }
    ensures { Turns (behind_content left) bytes.now [] result }
{
    let count = piece_length(left, bytes.len());
    let piece = bytes.part(0, count)?;
    Ok(ChunkTurn {
        used: count,
        part: Some(ChunkPart::Piece(piece)),
        stage: ChunkStage::Content(left - count as u64),
    })
}

fn piece_length(left: u64, there: usize) -> usize
    ensures least { result ≡ min left there }
    ensures left { result ≤ left }
    ensures within { result ≤ there }
    ensures some { 0 < left → 0 < there → 0 < result }
{
    if there as u64 <= left {
        there
    } else {
        left as usize
    }
}

/// Hears the CR behind a content.
pub fn hear_return(bytes: &[u8]) -> Result<ChunkTurn, ChunkError>
    requires { 0 < length bytes.now }
    ensures { Turns at_cr bytes.now [] result }
{
    if bytes[0] != b'\r' {
        return Err(ChunkError::BadChunk);
    }
    Ok(ChunkTurn {
        used: 1,
        part: None,
        stage: ChunkStage::LineFeed,
    })
}

/// Hears the LF behind a content and its CR.
pub fn hear_line_feed(bytes: &[u8]) -> Result<ChunkTurn, ChunkError>
    requires { 0 < length bytes.now }
    ensures { Turns at_lf bytes.now [] result }
{
    if bytes[0] != b'\n' {
        return Err(ChunkError::BadChunk);
    }
    Ok(ChunkTurn {
        used: 1,
        part: Some(ChunkPart::EndOfChunk),
        stage: ChunkStage::Line,
    })
}
