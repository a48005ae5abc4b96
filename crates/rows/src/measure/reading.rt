//! Heads and bodies that are read by themselves.
ghost use Rattle.std.specs.Prelude.{◌≡◌, false, OnOk};

use crate::measure::framing::{Framing, make_framed, make_piece};
use crate::measure::order::Pieces;
use px_head::{Found, HeadReader};
use px_read::{MessageReader, Part};
use px_text::{Bytes, NoMemory};
use std::alloc::Global;

/// Reads a head with so many fields so often, and tells how many fields were found.
pub(crate) fn measure_head(
    alloc: Global,
    pieces: Pieces,
    fields: u64,
    times: u64,
) -> Result<String, NoMemory> {
    let head = make_head(alloc, fields)?;
    let count = count_fields(alloc, pieces, times, head.as_slice())?;
    let len = head.len();
    Ok(format!(in alloc; "{len} bytes, read {times} times: {count} fields")?)
}

/// Reads a response with a body of so many pieces of this size, and tells how many bytes it had.
pub(crate) fn measure_body(
    alloc: Global,
    framing: Framing,
    size: u64,
    pieces: u64,
) -> Result<String, NoMemory> {
    let total = size.saturating_mul(pieces);
    let head = Bytes::new(make_framed(alloc, b"HTTP/1.1 200 OK\r\n", framing, total)?)?;
    let piece = Bytes::new(make_piece(alloc, framing, size)?)?;
    let count = count_body(alloc, &head, &piece, pieces)?;
    Ok(format!(in alloc; "{pieces} pieces of {size} bytes: {count} bytes")?)
}

// A request's head with fields of 1,000 bytes.
fn make_head(alloc: Global, fields: u64) -> Result<Vec<u8>, NoMemory> {
    let mut head = Vec::from_slice(alloc, b"GET / HTTP/1.1\r\n")?;
    for _ in 0..fields {
        head.extend_from_slice(b"A: ")?;
        head.extend_from_slice(&[b'x'; 995])?;
        head.extend_from_slice(b"\r\n")?;
    }
    head.extend_from_slice(b"\r\n")?;
    Ok(head)
}

fn read_whole(alloc: Global, head: &[u8]) -> Result<Found, NoMemory> {
    let mut reader = HeadReader::new(alloc);
    let found = take_fed(&mut reader, head);
    drop(reader);
    found
}

fn take_fed(reader: &mut HeadReader, bytes: &[u8]) -> Result<Found, NoMemory> {
    reader.feed(bytes)?;
    reader.take_request()
}

fn read_by_bytes(alloc: Global, head: &[u8]) -> Result<Found, NoMemory> {
    let mut reader = HeadReader::new(alloc);
    let found = take_by_bytes(&mut reader, head);
    drop(reader);
    found
}

fn take_by_bytes(reader: &mut HeadReader, head: &[u8]) -> Result<Found, NoMemory> {
    for byte in head {
        match take_fed(reader, &[*byte]) {
            Ok(Found::Partial) => {}
            taken => return taken,
        }
    }
    Ok(Found::Partial)
}

// How many fields all the heads that were read have together.
fn count_fields(alloc: Global, pieces: Pieces, times: u64, head: &[u8]) -> Result<u64, NoMemory> {
    let mut count = 0u64;
    for _ in 0..times {
        count = count.saturating_add(count_once(alloc, pieces, head)?);
    }
    Ok(count)
}

fn count_once(alloc: Global, pieces: Pieces, head: &[u8]) -> Result<u64, NoMemory> {
    match pieces {
        Pieces::Whole => fields_in(read_whole(alloc, head)),
        Pieces::Bytes => fields_in(read_by_bytes(alloc, head)),
    }
}

fn fields_in(found: Result<Found, NoMemory>) -> Result<u64, NoMemory> {
    match found {
        Ok(Found::Head(raw)) => {
            let count = raw.pairs.len() as u64;
            drop(raw);
            Ok(count)
        }
        Ok(other) => {
            drop(other);
            Ok(0)
        }
        Err(error) => Err(error),
    }
}

// How many bytes of a body the reader gives of what it was fed.
fn count_given(reader: &mut MessageReader) -> Result<u64, NoMemory>
    ensures { OnOk result (reader.new.closed ≡ reader.old.closed) }
{
    let mut count = 0u64;
    for _ in 0..8 {
        match count_next(reader)? {
            Some(len) => count = count.saturating_add(len),
            None => return Ok(count),
        }
    }
    Ok(count)
}

// How many bytes of a body the next part has; none where no part follows it.
fn count_next(reader: &mut MessageReader) -> Result<Option<u64>, NoMemory>
    ensures { OnOk result (reader.new.closed ≡ reader.old.closed) }
{
    match reader.next() {
        Ok(part) => Ok(count_part(part)),
        Err(error) => Err(error),
    }
}

fn count_part(part: Part) -> Option<u64> {
    let count = bytes_in(&part);
    drop(part);
    count
}

fn bytes_in(part: &Part) -> Option<u64> {
    match part {
        Part::More | Part::End(_) | Part::Bad(_) => None,
        Part::Piece(bytes) => Some(bytes.len() as u64),
        _ => Some(0),
    }
}

// How many bytes the body has that was read.
fn count_body(alloc: Global, head: &Bytes, piece: &Bytes, pieces: u64) -> Result<u64, NoMemory> {
    let mut reader = MessageReader::response(alloc, false);
    let count = count_fed(&mut reader, head, piece, pieces);
    drop(reader);
    count
}

fn count_fed(
    reader: &mut MessageReader,
    head: &Bytes,
    piece: &Bytes,
    pieces: u64,
) -> Result<u64, NoMemory>
    requires { reader.old.closed ≡ false }
{
    reader.feed(head)?;
    let mut count = 0u64;
    for _ in 0..pieces {
        reader.feed(piece)?;
        count = count.saturating_add(count_given(reader)?);
    }
    Ok(count)
}
