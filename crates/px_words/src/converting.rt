//! The entries of a file written anew: the words `convert FILE OUT`; and what `pick FILE FILTER OUT` does once it has its filter.
//!
//! The file is read, once, and judged whole: at a bad place nothing is appended. Then its entries are gone through once more from the front, and the text of each that is taken is put at the
//! end of the other file in one append, with the pairs that the program does not know; so memory is the file and one flow. The two files may be one. Without a filter each entry is taken.
ghost use Rattle.std.specs.Prelude.{◌≡◌, ◌≤◌, None, IfOk, option_map};
ghost use Rattle.px_outside.specs.Count.{Rose};
ghost use Rattle.px_outside.specs.Files.{Told};
ghost use Rattle.px_core.specs.Answers.{files_meaning};
ghost use Rattle.px_filter.specs.View.{expression};
ghost use Rattle.px_words.specs.Appends.{piece_at};
ghost use Rattle.px_words.specs.Converts.{ConvertsFile, Copies, CopiesFile, Taken, entry_texts};
ghost use Rattle.px_words.specs.ConvertTurns.{AppendsSo, CopiesAll, CopiesOne, is_chosen, texts_in};
ghost use Rattle.px_words.specs.Keeps.{KeepsFront};
ghost use Rattle.px_words.specs.Outside.{outside};
ghost use Rattle.px_words.specs.Whole.{IsWhole};

use crate::flows::refuse_place;
use crate::stop::NO_MEMORY;
use crate::take::take_file;
use crate::whole::{NotWhole, Unfinished, judge, next_of_whole, status_of};
use px_filter::Filter;
use px_flowfile::{Entry, FlowReader, write_flow};
use px_message::Flow;
use px_outside::{FileError, Files, Net, Sink};
use px_text::{Bytes, NoMemory};
use px_tnet::WriteError;
use std::alloc::Global;

/// Puts the text of each entry of the file at `path` at the end of the file at `to`, in their order, each with the pairs that no table has; an entry whose text is too long for a
/// length adds nothing. The file is read whole and judged first: behind a place that has no entry nothing is appended, and its line is printed. Whatever comes of the run, what stood in
/// the file at `to` stays in front, and no other file is changed. Nothing is asked of `net`. Answers
/// the exit status: 0; 3 where the file was not read; 4 at a place of the file that has no entry; 7 where an append failed, behind which nothing more is appended; 8 where memory ran
/// out.
pub fn convert<N: Net, F: Files, S: Sink, T: Sink>(
    alloc: Global,
    path: &str,
    to: &str,
    net: &N,
    files: &mut F,
    out: &mut S,
    notes: &mut T,
) -> u8
    ensures converts { (what : Taken) × ConvertsFile (net.now ≡ net.now) (Rose (S.faults out.old) (S.faults out.new)) (Rose (F.losses files.old) (F.losses files.new)) (Rose (T.faults notes.old) (T.faults notes.new)) path.now to.now what
        (outside N.trace N.listening F.contents F.calls F.misses F.faults F.losses S.written T.written net.now files.old out.old notes.old)
        (outside N.trace N.listening F.contents F.calls F.misses F.faults F.losses S.written T.written net.now files.new out.new notes.new) result }
    ensures keeps { Told (KeepsFront to.now) (F.contents files.old) (F.contents files.new) }
{
    let all: Option<Filter> = None;
    copy_file(alloc, path, &all, to, net, files, out, notes)
}

/// Reads the file at `path`, and puts the text of each of its entries that the filter takes at the end of the file at `to`, as `convert` does it of all.
pub(crate) fn copy_file<N: Net, F: Files, S: Sink, T: Sink>(
    alloc: Global,
    path: &str,
    filter: &Option<Filter>,
    to: &str,
    net: &N,
    files: &mut F,
    out: &mut S,
    notes: &mut T,
) -> u8
    ensures copies { (what : Taken) × CopiesFile (net.now ≡ net.now) (Rose (S.faults out.old) (S.faults out.new)) (Rose (F.losses files.old) (F.losses files.new)) (Rose (T.faults notes.old) (T.faults notes.new))
        (option_map expression filter.now) path.now to.now what
        (outside N.trace N.listening F.contents F.calls F.misses F.faults F.losses S.written T.written net.now files.old out.old notes.old)
        (outside N.trace N.listening F.contents F.calls F.misses F.faults F.losses S.written T.written net.now files.new out.new notes.new) result }
{
    match take_file(alloc, path, net, files, out, notes) {
        Ok(bytes) => copy_bytes(alloc, path, filter, to, bytes, files, out),
        Err(status) => status,
    }
}

// Copies from a file of these bytes, which are not copied themselves.
fn copy_bytes<F: Files, S: Sink>(
    alloc: Global,
    path: &str,
    filter: &Option<Filter>,
    to: &str,
    bytes: Vec<u8>,
    files: &mut F,
    out: &mut S,
) -> u8
    ensures copies { Copies (Rose (S.faults out.old) (S.faults out.new)) (Rose (F.losses files.old) (F.losses files.new)) (option_map expression filter.now) path.now to.now bytes.items
        (files_meaning F.contents F.calls F.misses F.faults F.losses files.old) (files_meaning F.contents F.calls F.misses F.faults F.losses files.new)
        (S.written out.old) (S.written out.new) result }
{
    match Bytes::new(bytes) {
        Ok(bytes) => copy_judged(alloc, path, filter, to, bytes, files, out),
        Err(NoMemory) => NO_MEMORY,
    }
}

// Judges a file whole, and then copies from it.
fn copy_judged<F: Files, S: Sink>(
    alloc: Global,
    path: &str,
    filter: &Option<Filter>,
    to: &str,
    bytes: Bytes,
    files: &mut F,
    out: &mut S,
) -> u8
    ensures copies { Copies (Rose (S.faults out.old) (S.faults out.new)) (Rose (F.losses files.old) (F.losses files.new)) (option_map expression filter.now) path.now to.now bytes
        (files_meaning F.contents F.calls F.misses F.faults F.losses files.old) (files_meaning F.contents F.calls F.misses F.faults F.losses files.new)
        (S.written out.old) (S.written out.new) result }
{
    match judge(alloc, &bytes) {
        Ok(()) => status_of(copy_entries(alloc, filter, to, bytes, files)),
        Err(NotWhole::BadPlace(offset)) => refuse_place(alloc, path, offset, out),
        Err(NotWhole::NoMemory) => NO_MEMORY,
    }
}

// Puts the texts of the entries of a file that is whole, of those that the filter takes.
fn copy_entries<F: Files>(
    alloc: Global,
    filter: &Option<Filter>,
    to: &str,
    bytes: Bytes,
    files: &mut F,
) -> Result<(), Unfinished>
    requires whole { IsWhole bytes }
    ensures copies { CopiesAll (Rose (F.losses files.old) (F.losses files.new)) (option_map expression filter.now) to.now bytes
        (files_meaning F.contents F.calls F.misses F.faults F.losses files.old) (files_meaning F.contents F.calls F.misses F.faults F.losses files.new) result }
{
    let mut reader = FlowReader::new(alloc, bytes);
    while let Some(entry) = next_of_whole(&mut reader)? {
        copy_entry(alloc, filter, to, entry, files)?;
    }
    Ok(())
}

// Puts the text of an entry, if the filter takes it and it has one.
fn copy_entry<F: Files>(
    alloc: Global,
    filter: &Option<Filter>,
    to: &str,
    entry: Entry,
    files: &mut F,
) -> Result<(), Unfinished>
    ensures copies { CopiesOne (Rose (F.losses files.old) (F.losses files.new)) (option_map expression filter.now) to.now entry
        (files_meaning F.contents F.calls F.misses F.faults F.losses files.old) (files_meaning F.contents F.calls F.misses F.faults F.losses files.new) result }
    ensures later { F.losses files.old ≤ F.losses files.new }
{
    match takes(filter, &entry.flow) {
        Ok(true) => copy_chosen(alloc, to, entry, files),
        Ok(false) => {
            drop(entry);
            Ok(())
        }
        Err(NoMemory) => {
            drop(entry);
            Err(Unfinished::NoMemory)
        }
    }
}

// Whether the filter takes a flow; without one each is taken.
fn takes(filter: &Option<Filter>, flow: &Flow) -> Result<bool, NoMemory>
    ensures chosen { IfOk result (λ answer. answer ≡ is_chosen (option_map expression filter.now) flow.now) }
{
    match filter {
        None => Ok(true),
        Some(filter) => filter.matches(flow),
    }
}

// Puts the text of an entry, if it has one.
fn copy_chosen<F: Files>(
    alloc: Global,
    to: &str,
    entry: Entry,
    files: &mut F,
) -> Result<(), Unfinished>
    ensures copies { CopiesOne (Rose (F.losses files.old) (F.losses files.new)) None to.now entry
        (files_meaning F.contents F.calls F.misses F.faults F.losses files.old) (files_meaning F.contents F.calls F.misses F.faults F.losses files.new) result }
    ensures later { F.losses files.old ≤ F.losses files.new }
{
    match entry_text(alloc, entry) {
        Ok(Some(text)) => append(files, to, &text),
        Ok(None) => Ok(()),
        Err(NoMemory) => Err(Unfinished::NoMemory),
    }
}

// The text of an entry with its other pairs; none where it is too long for a length.
fn entry_text(alloc: Global, entry: Entry) -> Result<Option<Vec<u8>>, NoMemory>
    ensures text { IfOk result (λ text. entry_texts entry ≡ texts_in text) }
{
    let mut text = Vec::new(alloc);
    match write_flow(alloc, &entry, &mut text) {
        Ok(()) => Ok(Some(text)),
        Err(WriteError::TooLong) => Ok(None),
        Err(WriteError::NoMemory) => Err(NoMemory),
    }
}

// Puts the text at the end of the file of this path.
fn append<F: Files>(files: &mut F, path: &str, text: &[u8]) -> Result<(), Unfinished>
    ensures came { AppendsSo (Rose (F.losses files.old) (F.losses files.new)) (piece_at path.now text.now)
        (files_meaning F.contents F.calls F.misses F.faults F.losses files.old) (files_meaning F.contents F.calls F.misses F.faults F.losses files.new) result }
    ensures later { F.losses files.old ≤ F.losses files.new }
{
    match files.append(path, text) {
        Ok(()) => Ok(()),
        Err(FileError::Failed) => Err(Unfinished::Failed),
        Err(FileError::NoMemory) => Err(Unfinished::NoMemory),
        Err(FileError::Absent) => unreachable!(),
    }
}
