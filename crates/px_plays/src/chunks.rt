//! Chunked bodies, part by part.
use crate::heads::show_rest;
use crate::messages::show_trailers;
use px_read::{ChunkError, ChunkPart, ChunkReader};
use px_rows::{Cut, RowError, Shown, cut_piece};
use px_text::Bytes;
use std::alloc::Global;

/// A chunked body as it was heard so far.
#[derive(Drop)]
struct Heard {
    reader: ChunkReader,
    used: usize,
    refused: bool,
}

/// The parts of a chunked body, and what is left behind it. A refusal is shown as `!`.
pub(crate) fn answer(
    alloc: Global,
    bytes: &[u8],
    cut: Cut,
    out: &mut Shown,
) -> Result<(), RowError> {
    let parts = cut_piece(alloc, cut, 0, bytes)?;
    let mut heard = Heard {
        reader: ChunkReader::new(alloc),
        used: 0,
        refused: false,
    };
    let answer = hear_all(alloc, &mut heard, parts.as_slice(), bytes, out);
    drop(heard);
    answer
}

fn hear_all(
    alloc: Global,
    heard: &mut Heard,
    parts: &[Vec<u8>],
    bytes: &[u8],
    out: &mut Shown,
) -> Result<(), RowError> {
    for part in parts {
        hear(alloc, heard, part.as_slice(), out)?;
    }
    if !heard.refused {
        show_left(heard.used, bytes, out);
    }
    Ok(())
}

fn show_left(used: usize, bytes: &[u8], out: &mut Shown) {
    if let Some(rest) = bytes.get(used..) {
        show_rest(out, rest);
    }
}

// A refusal is shown once, and `?` where a call after it is not refused.
fn hear(alloc: Global, heard: &mut Heard, bytes: &[u8], out: &mut Shown) -> Result<(), RowError> {
    let bytes = Bytes::copied(alloc, bytes)?;
    let mut parts = Vec::new(alloc);
    let answer = heard.reader.feed(&bytes, &mut parts);
    for part in &parts {
        show_part(out, part);
    }
    go_on(heard, answer, out)
}

fn go_on(
    heard: &mut Heard,
    answer: Result<usize, ChunkError>,
    out: &mut Shown,
) -> Result<(), RowError> {
    match answer {
        Ok(used) => {
            heard.used = heard.used.saturating_add(used);
            if heard.refused {
                out.text("?");
            }
            Ok(())
        }
        Err(ChunkError::BadChunk) => {
            if !heard.refused {
                out.text("!");
            }
            heard.refused = true;
            Ok(())
        }
        Err(ChunkError::NoMemory) => Err(RowError::NoMemory),
    }
}

// A size as `<5>`, bytes as they are, the end of a chunk as `.`, and trailers behind `|`.
fn show_part(out: &mut Shown, part: &ChunkPart) {
    match part {
        ChunkPart::Size(size) => {
            out.text("<");
            out.number(*size);
            out.text(">");
        }
        ChunkPart::Piece(bytes) => out.bytes(bytes.as_slice()),
        ChunkPart::EndOfChunk => out.text("."),
        ChunkPart::Trailers(trailers) => {
            out.text("|");
            show_trailers(out, trailers);
        }
    }
}
