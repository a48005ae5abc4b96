//! The flows of a file: the words `flows FILE FILTER`.
//!
//! The filter is judged first, then the file is read, once. Its entries are gone through from the front, one at a time, and of each flow on
//! which the filter holds the line is printed in one write; so memory is the file and one flow.
ghost use Rattle.std.specs.Prelude.{◌≡◌, ◌≤◌, ◌⊎◌, ◌==◌, if◌then◌else◌, ℕ, List, [], None, Ok, Err, IfOk, true, false};
ghost use Rattle.px_outside.specs.Count.{Rose};
ghost use Rattle.px_filter.specs.Parsing.{parse as parse_text, place_of};
ghost use Rattle.px_filter.specs.Shown.{shown};
ghost use Rattle.px_filter.specs.View.{expression};
ghost use Rattle.px_flowfile.specs.Reader.{IsNoEntry};
ghost use Rattle.px_view.specs.Line.{flow_line as line_of_flow};
ghost use Rattle.px_words.specs.FlowFile.{BeginsWithNone};
ghost use Rattle.px_words.specs.Flows.{Fetched, ListsFile, Shows};
ghost use Rattle.px_words.specs.FlowTurns.{PrintsSo, IsFaultTurn, Turns, line_where};
ghost use Rattle.px_words.specs.Lines.{bad_filter as text_of_bad_filter, bad_flow_file as text_of_bad_flow_file};
ghost use Rattle.px_words.specs.Outside.{IsTold, outside};

use crate::stop::{NO_MEMORY, Stop, bad_flow_file, stop_with, tell};
use crate::take::take_file;
use px_filter::{Filter, FilterError, show_refusal};
use px_flowfile::{Entry, FlowFileError, FlowReader, ReadCause, ReadFault};
use px_message::Flow;
use px_outside::{Files, Net, Sink, SinkError};
use px_text::{Bytes, NoMemory, push_decimal};
use px_tnet::TnetError;
use px_view::flow_line;
use std::alloc::Global;

// The status where a place of the file has no flow.
const BAD_FLOW_FILE: u8 = 4;

// The status where a line was not printed whole.
const NOT_PRINTED: u8 = 7;

/// What one turn through a file came to.
#[derive(Clone, Copy, Debug, PartialEq, Eq)]
pub enum FlowTurn {
    /// A flow was gone past, and its line is printed where the filter holds on it.
    Went,
    /// That was the file's end.
    AtEnd,
    /// No flow stands behind so many bytes.
    AtBadPlace(usize),
    /// A line was not printed whole.
    NotPrinted,
    /// Memory ran out.
    NoMemory,
}

/// Prints the line of each flow of the file on which the filter holds. The text is judged before the file is read; a text that is no
/// filter is told by a line with its place, and by a note that shows it. Nothing is asked of `net`. Answers the exit status: 0; 2 where the
/// text is no filter; 3 where the file was not read; 4 at a place of the file that has no flow; 7 where a line was not printed whole; 8
/// where memory ran out.
pub fn list_flows<N: Net, F: Files, S: Sink, T: Sink>(
    alloc: Global,
    path: &str,
    text: &str,
    net: &N,
    files: &mut F,
    out: &mut S,
    notes: &mut T,
) -> u8
    ensures lists { (what : Fetched) × ListsFile (net.now ≡ net.now) (Rose (S.faults out.old) (S.faults out.new)) (Rose (T.faults notes.old) (T.faults notes.new)) path.now text.now what
        (outside N.trace N.listening F.contents F.calls F.misses F.faults F.losses S.written T.written net.now files.old out.old notes.old)
        (outside N.trace N.listening F.contents F.calls F.misses F.faults F.losses S.written T.written net.now files.new out.new notes.new) result }
{
    match Filter::parse(alloc, text) {
        Ok(filter) => list_file(alloc, path, &filter, net, files, out, notes),
        Err(error) => refuse_filter(alloc, text, error, out, notes),
    }
}

/// Prints why there is no filter; nothing, where memory ran out.
pub(crate) fn refuse_filter<S: Sink, T: Sink>(
    alloc: Global,
    text: &str,
    error: FilterError,
    out: &mut S,
    notes: &mut T,
) -> u8
    ensures status { (result ≡ 2) ⊎ (result ≡ 8) }
    ensures memory { error ≡ FilterError.NoMemory → (result ≡ 8) × ((S.written out.new ≡ S.written out.old) × (T.written notes.new ≡ T.written notes.old)) }
    ensures prints { IsTold (Rose (S.faults out.old) (S.faults out.new)) result (text_of_bad_filter (place_of error)) (S.written out.old) (S.written out.new) }
    ensures notes { IsTold (Rose (T.faults notes.old) (T.faults notes.new)) result (shown text.now (place_of error)) (T.written notes.old) (T.written notes.new) }
{
    if error == FilterError::NoMemory {
        return NO_MEMORY;
    }
    show_bad_filter(alloc, text, &error, out, notes)
}

// Prints where a text is no filter, and shows it.
fn show_bad_filter<S: Sink, T: Sink>(
    alloc: Global,
    text: &str,
    error: &FilterError,
    out: &mut S,
    notes: &mut T,
) -> u8
    ensures status { (result ≡ 2) ⊎ (result ≡ 8) }
    ensures prints { IsTold (Rose (S.faults out.old) (S.faults out.new)) result (text_of_bad_filter (place_of error.now)) (S.written out.old) (S.written out.new) }
    ensures notes { IsTold (Rose (T.faults notes.old) (T.faults notes.new)) result (shown text.now (place_of error.now)) (T.written notes.old) (T.written notes.new) }
{
    let Ok(line) = bad_filter(alloc, error.place()) else {
        return NO_MEMORY;
    };
    let mut note = Vec::new(alloc);
    if show_refusal(text, error, &mut note).is_err() {
        return NO_MEMORY;
    }
    stop_with(out, notes, Stop::Refused, &line, &note)
}

// The line of a text that is no filter.
#[tactic(auto, unfolding(crate::specs::Lines::bad_filter))]
fn bad_filter(alloc: Global, place: usize) -> Result<Vec<u8>, NoMemory>
    ensures line { IfOk result (λ line. line.items ≡ text_of_bad_filter place) }
{
    let mut line = Vec::from_slice(alloc, b"bad filter at ")?;
    push_decimal(&mut line, place as u64)?;
    line.push(b'\n')?;
    Ok(line)
}

// Reads the file of this path, and prints its flows by the filter.
fn list_file<N: Net, F: Files, S: Sink, T: Sink>(
    alloc: Global,
    path: &str,
    filter: &Filter,
    net: &N,
    files: &mut F,
    out: &mut S,
    notes: &mut T,
) -> u8
    ensures lists { (text : List ℕ) → parse_text text ≡ Ok (expression filter.now) → (what : Fetched) × ListsFile (net.now ≡ net.now) (Rose (S.faults out.old) (S.faults out.new)) (Rose (T.faults notes.old) (T.faults notes.new)) path.now text what
        (outside N.trace N.listening F.contents F.calls F.misses F.faults F.losses S.written T.written net.now files.old out.old notes.old)
        (outside N.trace N.listening F.contents F.calls F.misses F.faults F.losses S.written T.written net.now files.new out.new notes.new) result }
{
    match take_file(alloc, path, net, files, out, notes) {
        Ok(bytes) => list_bytes(alloc, path, filter, bytes, out),
        Err(status) => status,
    }
}

// Prints the flows of a file of these bytes, which are not copied.
fn list_bytes<S: Sink>(
    alloc: Global,
    path: &str,
    filter: &Filter,
    bytes: Vec<u8>,
    out: &mut S,
) -> u8
    ensures shows { Shows (Rose (S.faults out.old) (S.faults out.new)) path.now bytes.items (expression filter.now) (S.written out.old) (S.written out.new) result }
{
    match Bytes::new(bytes) {
        Ok(bytes) => show_flows(alloc, path, filter, bytes, out),
        Err(NoMemory) => NO_MEMORY,
    }
}

// Goes through the flows of a file from its front, and prints those on which the filter holds.
fn show_flows<S: Sink>(alloc: Global, path: &str, filter: &Filter, bytes: Bytes, out: &mut S) -> u8
    ensures shows { Shows (Rose (S.faults out.old) (S.faults out.new)) path.now bytes (expression filter.now) (S.written out.old) (S.written out.new) result }
{
    let mut reader = FlowReader::new(alloc, bytes);
    'flows: loop {
        match show_next(alloc, filter, &mut reader, out) {
            FlowTurn::Went => {}
            FlowTurn::AtEnd => return 0,
            FlowTurn::AtBadPlace(offset) => return refuse_place(alloc, path, offset, out),
            FlowTurn::NotPrinted => return NOT_PRINTED,
            FlowTurn::NoMemory => return NO_MEMORY,
        }
    }
}

// Reads the next flow, and prints it if the filter holds on it.
fn show_next<S: Sink>(
    alloc: Global,
    filter: &Filter,
    reader: &mut FlowReader,
    out: &mut S,
) -> FlowTurn
    requires going { reader.old.fault ≡ None }
    ensures turns { Turns (Rose (S.faults out.old) (S.faults out.new)) (expression filter.now) reader.old.len reader.old.rest reader.new.rest (S.written out.old) (S.written out.new) result }
    ensures going { result ≡ FlowTurn.Went → reader.new.fault ≡ None }
    ensures len { reader.new.len ≡ reader.old.len }
    ensures later { S.faults out.old ≤ S.faults out.new }
{
    match reader.next() {
        Ok(Some(entry)) => show_entry(alloc, filter, entry, out),
        Ok(None) => FlowTurn::AtEnd,
        Err(fault) => turn_of(fault),
    }
}

// Prints the flow of an entry if the filter holds on it, and lets go of it.
fn show_entry<S: Sink>(alloc: Global, filter: &Filter, entry: Entry, out: &mut S) -> FlowTurn
    ensures prints { PrintsSo (Rose (S.faults out.old) (S.faults out.new)) (line_where (expression filter.now) entry.flow) (S.written out.old) (S.written out.new) result }
    ensures later { S.faults out.old ≤ S.faults out.new }
{
    let turn = show_flow(alloc, filter, &entry.flow, out);
    drop(entry);
    turn
}

// Prints the line of a flow if the filter holds on it.
fn show_flow<S: Sink>(alloc: Global, filter: &Filter, flow: &Flow, out: &mut S) -> FlowTurn
    ensures prints { PrintsSo (Rose (S.faults out.old) (S.faults out.new)) (line_where (expression filter.now) flow.now) (S.written out.old) (S.written out.new) result }
    ensures later { S.faults out.old ≤ S.faults out.new }
{
    match filter.matches(flow) {
        Ok(true) => print_line(alloc, flow, out),
        Ok(false) => FlowTurn::Went,
        Err(NoMemory) => FlowTurn::NoMemory,
    }
}

// Prints the line of a flow, in one write.
fn print_line<S: Sink>(alloc: Global, flow: &Flow, out: &mut S) -> FlowTurn
    ensures prints { PrintsSo (Rose (S.faults out.old) (S.faults out.new)) (line_of_flow flow.now) (S.written out.old) (S.written out.new) result }
    ensures later { S.faults out.old ≤ S.faults out.new }
{
    let mut line = Vec::new(alloc);
    if flow_line(alloc, flow, &mut line).is_err() {
        return FlowTurn::NoMemory;
    }
    match out.write(&line) {
        Ok(()) => FlowTurn::Went,
        Err(SinkError::Failed) => FlowTurn::NotPrinted,
        Err(SinkError::NoMemory) => FlowTurn::NoMemory,
    }
}

// What a fault of the reader is: a bad place, or out of memory.
fn turn_of(fault: ReadFault) -> FlowTurn
    ensures stops { (rest : List ℕ) → IsNoEntry rest fault.cause → IsFaultTurn rest fault.offset result }
{
    if wants_memory(fault.cause) {
        return FlowTurn::NoMemory;
    }
    FlowTurn::AtBadPlace(fault.offset)
}

/// Whether the cause of a fault is out of memory.
pub fn wants_memory(cause: ReadCause) -> bool
    ensures told { (rest : List ℕ) → IsNoEntry rest cause → result ≡ false → BeginsWithNone rest }
{
    match cause {
        ReadCause::Tnet(error) => error == TnetError::NoMemory,
        ReadCause::Flow(error) => error == FlowFileError::NoMemory,
    }
}

/// Prints that no flow stands at a place of the file, behind so many bytes. A sink that fails changes no status.
pub(crate) fn refuse_place<S: Sink>(alloc: Global, path: &str, offset: usize, out: &mut S) -> u8
    ensures status { (result ≡ 4) ⊎ (result ≡ 8) }
    ensures prints { IsTold (Rose (S.faults out.old) (S.faults out.new)) result (if result == 4 then text_of_bad_flow_file path.now offset else []) (S.written out.old) (S.written out.new) }
    ensures later { S.faults out.old ≤ S.faults out.new }
{
    let Ok(line) = bad_flow_file(alloc, path, offset) else {
        return NO_MEMORY;
    };
    match tell(out, &line) {
        Ok(()) => BAD_FLOW_FILE,
        Err(NoMemory) => NO_MEMORY,
    }
}
