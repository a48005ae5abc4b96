//! Flow files: what is written of a flow, and what is read of a file that was changed.
use crate::flows::flow_of;
use crate::parts::utf8_of;
use crate::tree_changes::change_tree;
use px_flowfile::{Entry, FlowReader, Others, ReadFault, write_flow};
use px_message::Flow;
use px_rows::{RowError, Shown};
use px_text::Bytes;
use px_tnet::WriteError;
use std::alloc::Global;

/// Of rows `flow files`, `flow files of FLOW` and `flow texts of FLOW`.
pub(crate) fn answer(
    alloc: Global,
    what: &str,
    bytes: &[u8],
    out: &mut Shown,
) -> Result<(), RowError> {
    if what == "files" {
        return show_flows(alloc, bytes, out);
    }
    if let Some(flow) = what.strip_prefix("files of ") {
        return changed_file(alloc, flow, utf8_of(bytes)?, out);
    }
    match what.strip_prefix("texts of ") {
        Some(flow) => show_text(alloc, flow, out),
        None => Err(RowError::Bad),
    }
}

// The text of a file with this flow.
fn show_text(alloc: Global, flow: &str, out: &mut Shown) -> Result<(), RowError> {
    let text = text_of(alloc, flow)?;
    out.bytes(text.as_slice());
    Ok(())
}

fn text_of(alloc: Global, flow: &str) -> Result<Vec<u8>, RowError> {
    let entry = entry_of(alloc, flow)?;
    let text = write_entry(alloc, &entry);
    drop(entry);
    text
}

// The flow without other pairs.
fn entry_of(alloc: Global, flow: &str) -> Result<Entry, RowError> {
    match flow_of(alloc, flow) {
        Ok(flow) => Ok(Entry {
            flow,
            others: Others::new(alloc),
        }),
        Err(error) => Err(error),
    }
}

// What is read of a file with this flow whose tree was changed, and whether that is written as it was read; or the fault.
fn changed_file(alloc: Global, flow: &str, changes: &str, out: &mut Shown) -> Result<(), RowError> {
    let entry = entry_of(alloc, flow)?;
    let answer = change_file(alloc, &entry, changes, out);
    drop(entry);
    answer
}

fn change_file(
    alloc: Global,
    entry: &Entry,
    changes: &str,
    out: &mut Shown,
) -> Result<(), RowError> {
    let mut text = write_entry(alloc, entry)?;
    for change in changes.split("; ") {
        text = change_tree(alloc, text.as_slice(), change)?;
    }
    show_file(alloc, &entry.flow, text.as_slice(), out)
}

// The lines of the flows of a file, and the fault where it has one.
fn show_flows(alloc: Global, bytes: &[u8], out: &mut Shown) -> Result<(), RowError> {
    let text = Bytes::copied(alloc, bytes)?;
    let mut reader = FlowReader::new(alloc, text);
    let shown = show_all(&mut reader, bytes.len(), out);
    drop(reader);
    shown
}

// Shows so many at most.
fn show_all(reader: &mut FlowReader, most: usize, out: &mut Shown) -> Result<(), RowError> {
    for _ in 0..most {
        if !show_next(reader, out)? {
            return Ok(());
        }
    }
    Ok(())
}

// Shows what comes next, and whether that is a flow.
fn show_next(reader: &mut FlowReader, out: &mut Shown) -> Result<bool, RowError> {
    match reader.next() {
        Ok(Some(entry)) => {
            let shown = show_line(out, &entry.flow);
            drop(entry);
            shown
        }
        Ok(None) => Ok(false),
        Err(fault) => {
            show_fault(out, fault);
            Ok(false)
        }
    }
}

fn show_fault(out: &mut Shown, fault: ReadFault) {
    out.text("at ");
    out.number(fault.offset as u64);
    out.text(" ");
    out.debug(&fault.cause);
}

fn show_line(out: &mut Shown, flow: &Flow) -> Result<bool, RowError> {
    let request = flow.request.get();
    let url = request.url()?;
    out.bytes(request.method.bytes());
    out.text(" ");
    out.bytes(url.as_slice());
    if let Some(response) = &flow.response {
        out.text(" ");
        out.number(u64::from(response.get().status.code()));
    }
    out.text(", ");
    Ok(true)
}

fn write_entry(alloc: Global, entry: &Entry) -> Result<Vec<u8>, RowError> {
    let mut text = Vec::new(alloc);
    match write_flow(alloc, entry, &mut text) {
        Ok(()) => Ok(text),
        Err(WriteError::NoMemory) => Err(RowError::NoMemory),
        Err(WriteError::TooLong) => Err(RowError::Bad),
    }
}

fn show_file(alloc: Global, flow: &Flow, text: &[u8], out: &mut Shown) -> Result<(), RowError> {
    let bytes = Bytes::copied(alloc, text)?;
    let mut reader = FlowReader::new(alloc, bytes);
    let shown = show_first(alloc, &mut reader, flow, text, out);
    drop(reader);
    shown
}

fn show_first(
    alloc: Global,
    reader: &mut FlowReader,
    flow: &Flow,
    text: &[u8],
    out: &mut Shown,
) -> Result<(), RowError> {
    match reader.next() {
        Ok(Some(entry)) => {
            let answer = show_entry(alloc, flow, &entry, text, out);
            drop(entry);
            answer
        }
        Ok(None) => {
            out.text("nothing");
            Ok(())
        }
        Err(fault) => {
            out.debug(&fault.cause);
            Ok(())
        }
    }
}

fn show_entry(
    alloc: Global,
    flow: &Flow,
    entry: &Entry,
    text: &[u8],
    out: &mut Shown,
) -> Result<(), RowError> {
    let written = write_entry(alloc, entry)?;
    out.text(if is_same(&entry.flow, flow) {
        "loads"
    } else {
        "loads another"
    });
    if written.as_slice() != text {
        out.text(", written otherwise");
    }
    Ok(())
}

fn is_same(one: &Flow, other: &Flow) -> bool {
    one == other
}
