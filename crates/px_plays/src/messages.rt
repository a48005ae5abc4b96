//! Messages, part by part.
ghost use Rattle.std.specs.Prelude.{◌≡◌, false, IfOk, OnOk};

use crate::heads::show_rest;
use px_message::Fields;
use px_read::{MessageReader, Part};
use px_rows::{Cut, RowError, Shown, cut_piece};
use px_text::{Bytes, NoMemory};
use std::alloc::Global;

/// The parts of a message of this kind, how it stands, and what is left: `request`, `response` or `response to HEAD`, and
/// ` closes` where its sender closes behind it.
pub(crate) fn answer(
    alloc: Global,
    of: &str,
    bytes: &[u8],
    cut: Cut,
    out: &mut Shown,
) -> Result<(), RowError> {
    let (of, closes) = match of.strip_suffix(" closes") {
        Some(of) => (of, true),
        None => (of, false),
    };
    let parts = cut_piece(alloc, cut, 0, bytes)?;
    let reader = new_reader(alloc, of)?;
    read_all(alloc, reader, out, parts.as_slice(), closes)
}

// Shows what the reader gives of these pieces, and how it stands behind them.
fn read_all(
    alloc: Global,
    reader: MessageReader,
    out: &mut Shown,
    parts: &[Vec<u8>],
    closes: bool,
) -> Result<(), RowError>
    requires { reader.closed ≡ false }
{
    let mut reader = reader;
    match show_all(alloc, &mut reader, out, parts, closes) {
        Ok(()) => show_left(reader, out),
        Err(error) => {
            drop(reader);
            Err(error)
        }
    }
}

fn show_all(
    alloc: Global,
    reader: &mut MessageReader,
    out: &mut Shown,
    parts: &[Vec<u8>],
    closes: bool,
) -> Result<(), RowError>
    requires { reader.old.closed ≡ false }
{
    feed_all(alloc, reader, out, parts)?;
    show_end(reader, out, closes)
}

fn feed_all(
    alloc: Global,
    reader: &mut MessageReader,
    out: &mut Shown,
    parts: &[Vec<u8>],
) -> Result<(), RowError>
    requires { reader.old.closed ≡ false }
    ensures { OnOk result (reader.new.closed ≡ false) }
{
    for part in parts {
        feed(alloc, reader, out, part.as_slice())?;
    }
    Ok(())
}

fn new_reader(alloc: Global, of: &str) -> Result<MessageReader, RowError>
    ensures { IfOk result (λ reader. reader.closed ≡ false) }
{
    match of {
        "request" => Ok(MessageReader::request(alloc)),
        "response" => Ok(MessageReader::response(alloc, false)),
        "response to HEAD" => Ok(MessageReader::response(alloc, true)),
        _ => Err(RowError::Bad),
    }
}

fn feed(
    alloc: Global,
    reader: &mut MessageReader,
    out: &mut Shown,
    bytes: &[u8],
) -> Result<(), RowError>
    requires { reader.old.closed ≡ false }
    ensures { OnOk result (reader.new.closed ≡ false) }
{
    let bytes = Bytes::copied(alloc, bytes)?;
    reader.feed(&bytes)?;
    read_parts(reader, out)
}

// Closes where the row does, and shows the last parts, and how it stands.
fn show_end(reader: &mut MessageReader, out: &mut Shown, closes: bool) -> Result<(), RowError> {
    if closes {
        reader.close();
    }
    read_parts(reader, out)?;
    show_last(out, reader.next())
}

fn show_last(out: &mut Shown, last: Result<Part, NoMemory>) -> Result<(), RowError> {
    match last {
        Ok(part) => {
            show(out, &part);
            drop(part);
            Ok(())
        }
        Err(NoMemory) => Err(RowError::NoMemory),
    }
}

fn show_left(reader: MessageReader, out: &mut Shown) -> Result<(), RowError> {
    let rest = reader.into_rest()?;
    show_rest(out, rest.as_slice());
    Ok(())
}

// Shows the parts up to the first that is none.
fn read_parts(reader: &mut MessageReader, out: &mut Shown) -> Result<(), RowError>
    ensures { OnOk result (reader.new.closed ≡ reader.old.closed) }
{
    for _ in 0..100 {
        let is_last = read_part(reader, out)?;
        if is_last {
            return Ok(());
        }
    }
    Ok(())
}

// Shows the next part, if one follows it; and whether none does.
fn read_part(reader: &mut MessageReader, out: &mut Shown) -> Result<bool, RowError>
    ensures { OnOk result (reader.new.closed ≡ reader.old.closed) }
{
    match reader.next() {
        Ok(part) => Ok(is_last(out, part)),
        Err(NoMemory) => Err(RowError::NoMemory),
    }
}

fn is_last(out: &mut Shown, part: Part) -> bool {
    let is_last = is_end(&part);
    if !is_last {
        show(out, &part);
    }
    drop(part);
    is_last
}

fn is_end(part: &Part) -> bool {
    match part {
        Part::More | Part::End(_) | Part::Bad(_) => true,
        _ => false,
    }
}

// A head up to a stroke, a chunk between its size and an angle, bytes as they are, `End` or the fault in brackets.
fn show(out: &mut Shown, part: &Part) {
    match part {
        Part::More => out.text("[More]"),
        Part::Request(head) => show_start(out, head.method.bytes(), head.target.as_slice()),
        Part::Response(head) => show_status(out, head.code, head.reason.bytes()),
        Part::Piece(bytes) => out.bytes(bytes.as_slice()),
        Part::ChunkStart(size) => {
            out.number(*size);
            out.text("<");
        }
        Part::ChunkEnd => out.text(">"),
        Part::End(trailers) => {
            out.text("[End");
            show_trailers(out, trailers);
            out.text("]");
        }
        Part::Bad(fault) => {
            out.text("[");
            out.debug(fault);
            out.text("]");
        }
    }
}

fn show_start(out: &mut Shown, first: &[u8], second: &[u8]) {
    out.bytes(first);
    out.text(" ");
    out.bytes(second);
    out.text("|");
}

fn show_status(out: &mut Shown, code: u16, reason: &[u8]) {
    out.number(u64::from(code));
    out.text(" ");
    out.bytes(reason);
    out.text("|");
}

/// Shows trailers, each as ` name=value`.
pub(crate) fn show_trailers(out: &mut Shown, trailers: &Fields) {
    for i in 0..trailers.len() {
        let (name, value) = trailers.pair(i);
        out.text(" ");
        out.bytes(name.bytes());
        out.text("=");
        out.bytes(value.bytes());
    }
}
