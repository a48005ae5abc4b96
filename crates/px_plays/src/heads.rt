//! Heads that are taken, one after the other.
use px_head::{Found, HeadReader, RawHead};
use px_rows::{Cut, RowError, Shown, cut_piece};
use px_text::NoMemory;
use std::alloc::Global;

/// The heads that are taken of these bytes by the words `request`, `response` and `trailers`, and what is left.
pub(crate) fn answer(
    alloc: Global,
    takes: &str,
    bytes: &[u8],
    cut: Cut,
    out: &mut Shown,
) -> Result<(), RowError> {
    let mut words = Vec::new(alloc);
    for word in takes.split(' ') {
        words.push(word)?;
    }
    take_all(alloc, words.as_slice(), bytes, cut, out)
}

fn take_all(
    alloc: Global,
    words: &[&str],
    bytes: &[u8],
    cut: Cut,
    out: &mut Shown,
) -> Result<(), RowError> {
    let parts = cut_piece(alloc, cut, 0, bytes)?;
    let mut reader = HeadReader::new(alloc);
    match take_parts(&mut reader, out, words, parts.as_slice()) {
        Ok(()) => show_left(reader, out),
        Err(error) => {
            drop(reader);
            Err(error)
        }
    }
}

fn take_parts(
    reader: &mut HeadReader,
    out: &mut Shown,
    words: &[&str],
    parts: &[Vec<u8>],
) -> Result<(), RowError> {
    let mut taken = 0usize;
    for part in parts {
        reader.feed(part.as_slice())?;
        taken = take_more(reader, out, words, taken)?;
    }
    if taken < words.len() {
        show_answer(out, "Partial");
    }
    Ok(())
}

fn show_left(reader: HeadReader, out: &mut Shown) -> Result<(), RowError> {
    let rest = reader.into_rest()?;
    show_rest(out, rest.as_slice());
    Ok(())
}

/// Shows the bytes that are left, if any.
pub(crate) fn show_rest(out: &mut Shown, rest: &[u8]) {
    if !rest.is_empty() {
        out.text(" + ");
        out.bytes(rest);
    }
}

fn show_answer(out: &mut Shown, text: &str) {
    if !out.is_empty() {
        out.text(", ");
    }
    out.text(text);
}

// Takes heads up to the first that is not whole. The answer is how many were taken in all.
fn take_more(
    reader: &mut HeadReader,
    out: &mut Shown,
    words: &[&str],
    taken: usize,
) -> Result<usize, RowError> {
    let mut taken = taken;
    for _ in 0..words.len() {
        let Some(word) = words.get(taken) else {
            return Ok(taken);
        };
        if !take_one(reader, out, *word)? {
            return Ok(taken);
        }
        taken = taken.saturating_add(1);
    }
    Ok(taken)
}

// Whether a head was taken or refused.
fn take_one(reader: &mut HeadReader, out: &mut Shown, word: &str) -> Result<bool, RowError> {
    match word {
        "request" => show_taken(out, reader.take_request()),
        "response" => show_taken(out, reader.take_response()),
        "trailers" => show_taken(out, reader.take_trailers()),
        _ => Err(RowError::Bad),
    }
}

fn show_taken(out: &mut Shown, taken: Result<Found, NoMemory>) -> Result<bool, RowError> {
    match taken {
        Ok(found) => {
            let is_taken = show_found(out, &found);
            drop(found);
            Ok(is_taken)
        }
        Err(NoMemory) => Err(RowError::NoMemory),
    }
}

fn show_found(out: &mut Shown, found: &Found) -> bool {
    match found {
        Found::Partial => return false,
        Found::TooLong => show_answer(out, "TooLong"),
        Found::BadHead => show_answer(out, "BadHead"),
        Found::Head(head) => {
            show_answer(out, "");
            show_head(out, head);
        }
    }
    true
}

// The parts between strokes, then each field as `name=value;`.
fn show_head(out: &mut Shown, head: &RawHead) {
    for part in [&head.first, &head.second, &head.third] {
        out.bytes(part.as_slice());
        out.text("|");
    }
    for i in 0..head.pairs.len() {
        let (name, value) = head.pairs.pair(i);
        out.bytes(name.as_slice());
        out.text("=");
        out.bytes(value.as_slice());
        out.text(";");
    }
}
