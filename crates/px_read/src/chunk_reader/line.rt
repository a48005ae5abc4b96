//! Chunk lines: each is kept up to its LF, and is then judged by `httparse`.
ghost use Rattle.std.specs.Prelude.{◌≡◌, ◌==◌, ◌<◌, ◌≤◌, [], length, position, IfSome};
ghost use Rattle.px_read.specs.ChunkLine.{size_in};
ghost use Rattle.px_read.specs.Chunks.{in_line};
ghost use Rattle.px_read.specs.ChunkTurns.{Turns, line_turn};

use super::ChunkError;
use super::stage::{ChunkStage, ChunkTurn};
use crate::ChunkPart;
use httparse::{Status, parse_chunk_size};
use px_head::HeadReader;

/// The most bytes that a chunk line may have.
const LIMIT: usize = 1_024;

/// Hears the bytes of a chunk line up to its LF or its limit.
pub fn hear_line(line: &mut Vec<u8>, bytes: &[u8]) -> Result<ChunkTurn, ChunkError>
    requires room { length line.old.items < 1024 }
    requires some { 0 < length bytes.now }
    ensures { Turns (in_line line.old.items) bytes.now line.new.items result }
{
    let count = bytes.len().min(LIMIT - line.len());
    let near = &bytes[..count];
    if let Some(end) = find_line_feed(near) {
        line.extend_from_slice(&near[..=end])?;
        return end_line(line, end + 1);
    }
    if line.len() + count == LIMIT {
        return Err(ChunkError::BadChunk);
    }
    line.extend_from_slice(near)?;
    Ok(ChunkTurn {
        used: count,
        part: None,
        stage: ChunkStage::Line,
    })
}

// Judges a line, and leaves room for the next one.
fn end_line(line: &mut Vec<u8>, used: usize) -> Result<ChunkTurn, ChunkError>
    requires { length line.old.items ≤ 1024 }
    ensures turn { result ≡ line_turn used (size_in line.old.items) }
    ensures line { line.new.items ≡ [] }
{
    let size = read_size(line);
    line.clear();
    let Some(size) = size else {
        return Err(ChunkError::BadChunk);
    };
    if size == 0 {
        return Ok(ChunkTurn {
            used,
            part: None,
            stage: ChunkStage::Trailers(HeadReader::new(*line.allocator())),
        });
    }
    Ok(ChunkTurn {
        used,
        part: Some(ChunkPart::Size(size)),
        stage: ChunkStage::Content(size),
    })
}

// The size that the line states.
fn read_size(line: &[u8]) -> Option<u64>
    requires { length line.now ≤ 1024 }
    ensures { result ≡ size_in line.now }
{
    match parse_chunk_size(line) {
        Ok(Status::Complete((end, size))) => { if end == line.len() { Some(size) } else { None } }
        Ok(Status::Partial) => None,
        Err(_) => None,
    }
}

/// The place of the first LF.
pub fn find_line_feed(bytes: &[u8]) -> Option<usize>
    ensures at { result ≡ position (λ byte. byte == 10) bytes.now }
    ensures within { IfSome result (λ at. at < length bytes.now) }
{
    bytes.iter().position(|byte| *byte == b'\n')
}
