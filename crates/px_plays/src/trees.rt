//! Tnetstrings: trees and their texts.
use crate::heads::show_rest;
use px_rows::{RowError, Shown};
use px_text::Bytes;
use px_tnet::{Tnet, TnetError, WriteError, read, write};
use std::alloc::Global;

/// The tree that the text begins with and what stands behind it, or its refusal; and that the tree has the text that was
/// read.
pub(crate) fn answer(alloc: Global, bytes: &[u8], out: &mut Shown) -> Result<(), RowError> {
    let text = Bytes::copied(alloc, bytes)?;
    match read(alloc, &text) {
        Ok((tree, used)) => {
            let shown = show_front(alloc, out, &tree, bytes, used);
            drop(tree);
            shown
        }
        Err(error) => show_refusal(out, error),
    }
}

fn show_refusal(out: &mut Shown, error: TnetError) -> Result<(), RowError> {
    if let TnetError::NoMemory = error {
        return Err(RowError::NoMemory);
    }
    out.debug(&error);
    Ok(())
}

fn show_front(
    alloc: Global,
    out: &mut Shown,
    tree: &Tnet,
    bytes: &[u8],
    used: usize,
) -> Result<(), RowError> {
    let Some((front, rest)) = bytes.split_at_checked(used) else {
        return Err(RowError::Bad);
    };
    show_tree(out, tree);
    let text = text_of(alloc, tree)?;
    if text.as_slice() != front {
        out.text(" but written otherwise");
    }
    show_rest(out, rest);
    Ok(())
}

// The text of a tree.
fn text_of(alloc: Global, tree: &Tnet) -> Result<Vec<u8>, RowError> {
    let mut text = Vec::new(alloc);
    match write(tree, &mut text) {
        Ok(()) => Ok(text),
        Err(WriteError::NoMemory) => Err(RowError::NoMemory),
        Err(WriteError::TooLong) => Err(RowError::Bad),
    }
}

// A blob in `'`, a text in `"`, a float behind `^`, and of a list or a dictionary how many items or pairs it has.
fn show_tree(out: &mut Shown, tree: &Tnet) {
    match tree {
        Tnet::Blob(bytes) => show_quoted(out, "'", bytes.as_slice()),
        Tnet::Text(bytes) => show_quoted(out, "\"", bytes.as_slice()),
        Tnet::Float(bytes) => {
            out.text("^");
            out.bytes(bytes.as_slice());
        }
        Tnet::List(list) => show_count(out, "list of ", list.as_slice().len()),
        Tnet::Dict(dict) => show_count(out, "dictionary of ", dict.as_slice().len()),
        Tnet::Int(number) => out.debug(number),
        Tnet::Bool(truth) => out.debug(truth),
        Tnet::Null => out.text("null"),
    }
}

fn show_quoted(out: &mut Shown, quote: &str, bytes: &[u8]) {
    out.text(quote);
    out.bytes(bytes);
    out.text(quote);
}

fn show_count(out: &mut Shown, what: &str, count: usize) {
    out.text(what);
    out.number(count as u64);
}
