//! What comes of a row's input, by the first word of its kind.
use crate::{chunks, filters, flow_files, heads, messages, rules, trees};
use px_rows::{Cut, RowError, Shown};
use std::alloc::Global;

/// What comes of these bytes in a row of this kind.
pub(crate) fn answer(
    alloc: Global,
    kind: &str,
    bytes: &[u8],
    cut: Cut,
    out: &mut Shown,
) -> Result<(), RowError> {
    let (word, more) = word_of(kind);
    match (word, more) {
        ("chunks", "") => chunks::answer(alloc, bytes, cut, out),
        ("heads", _) => heads::answer(alloc, more, bytes, cut, out),
        ("messages", _) => messages::answer(alloc, more, bytes, cut, out),
        _ => answer_whole(alloc, word, more, bytes, out),
    }
}

/// Whether the bytes of rows of this kind come in pieces.
pub(crate) fn is_cut(kind: &str) -> bool {
    match word_of(kind) {
        ("chunks" | "heads" | "messages", _) => true,
        _ => false,
    }
}

// The first word of a kind, and the rest.
fn word_of(kind: &str) -> (&str, &str) {
    match kind.split_once(' ') {
        Some(halves) => halves,
        None => (kind, ""),
    }
}

// Of bytes that do not come in pieces.
fn answer_whole(
    alloc: Global,
    word: &str,
    more: &str,
    bytes: &[u8],
    out: &mut Shown,
) -> Result<(), RowError> {
    match word {
        "filters" => filters::answer(alloc, more, bytes, out),
        "flow" => flow_files::answer(alloc, more, bytes, out),
        "trees" => trees::answer(alloc, bytes, out),
        "rules" => rules::answer(alloc, more, bytes, out),
        _ => Err(RowError::Bad),
    }
}
