//! Files in memory.
use crate::parts::{begin_answer, halves, push_numbers, show_bytes, word_of};
use px_outside::{FileCall, FileError, Files, MemFiles};
use px_rows::{RowError, Shown, read_u32, unescape};
use std::alloc::Global;

/// What the calls of files answer.
pub(crate) fn answer(alloc: Global, input: &str, out: &mut Shown) -> Result<(), RowError> {
    let (given, calls) = halves(input);
    let mut files = new_files(alloc, given)?;
    let answer = play_calls(alloc, &mut files, calls, out);
    drop(files);
    answer
}

fn play_calls(
    alloc: Global,
    files: &mut MemFiles,
    calls: &str,
    out: &mut Shown,
) -> Result<(), RowError> {
    for call in calls.split("; ") {
        begin_answer(out);
        play_call(alloc, files, call, out)?;
    }
    Ok(())
}

fn new_files(alloc: Global, given: &str) -> Result<MemFiles, RowError> {
    let mut files = Vec::new(alloc);
    let mut fails = Vec::new(alloc);
    for part in given.split("; ") {
        match part.strip_prefix("file ") {
            Some(file) => push_file(alloc, file, &mut files)?,
            None => push_fails(part, &mut fails)?,
        }
    }
    Ok(MemFiles::new(alloc, files, fails))
}

fn push_file(
    alloc: Global,
    file: &str,
    files: &mut Vec<(String, Vec<u8>)>,
) -> Result<(), RowError> {
    let (path, text) = word_of(file);
    let bytes = unescape(alloc, text)?;
    files.push((String::from_str(alloc, path)?, bytes))?;
    Ok(())
}

fn push_fails(part: &str, fails: &mut Vec<u64>) -> Result<(), RowError> {
    match part.strip_prefix("fails at ") {
        Some(numbers) => push_numbers(numbers, fails),
        None => Err(RowError::Bad),
    }
}

fn play_call(
    alloc: Global,
    files: &mut MemFiles,
    call: &str,
    out: &mut Shown,
) -> Result<(), RowError> {
    match word_of(call) {
        ("read", path) => read(files, path, out),
        ("append", rest) => append(alloc, files, rest, out),
        ("calls", "") => {
            out.number(files.calls().len() as u64);
            Ok(())
        }
        ("call", number) => show_call(out, files.calls(), number),
        _ => Err(RowError::Bad),
    }
}

fn read<F: Files>(files: &mut F, path: &str, out: &mut Shown) -> Result<(), RowError> {
    match files.read(path) {
        Ok(bytes) => {
            show_bytes(out, &bytes);
            Ok(())
        }
        Err(error) => show_error(out, error),
    }
}

fn append<F: Files>(
    alloc: Global,
    files: &mut F,
    text: &str,
    out: &mut Shown,
) -> Result<(), RowError> {
    let (path, text) = word_of(text);
    let bytes = unescape(alloc, text)?;
    match files.append(path, &bytes) {
        Ok(()) => {
            out.text("ok");
            Ok(())
        }
        Err(error) => show_error(out, error),
    }
}

fn show_error(out: &mut Shown, error: FileError) -> Result<(), RowError> {
    match error {
        FileError::Absent => out.text("absent"),
        FileError::Failed => out.text("failed"),
        FileError::NoMemory => return Err(RowError::NoMemory),
    }
    Ok(())
}

// The call of this number, counted from 0, as it is listed.
fn show_call(out: &mut Shown, calls: &[FileCall], number: &str) -> Result<(), RowError> {
    let number = read_u32(number)?;
    match calls.get(number as usize) {
        Some(call) => {
            show_listed(out, call);
            Ok(())
        }
        None => Err(RowError::Bad),
    }
}

fn show_listed(out: &mut Shown, call: &FileCall) {
    match call {
        FileCall::Read { path, .. } => show_path(out, "reads ", path.as_slice()),
        FileCall::Missed { path } => show_path(out, "misses ", path.as_slice()),
        FileCall::ReadFailed { path } => show_path(out, "cannot read ", path.as_slice()),
        FileCall::Appended { path, .. } => show_path(out, "appends to ", path.as_slice()),
        FileCall::AppendFailed { path } => show_path(out, "cannot append to ", path.as_slice()),
    }
}

fn show_path(out: &mut Shown, front: &str, path: &[u8]) {
    out.text(front);
    out.bytes(path);
}
