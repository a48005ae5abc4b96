//! The flows of a file as an export in the format HAR 1.2: the words `har FILE FILTER`.
//!
//! The filter is judged first, then the file is read, once, and judged whole: at a bad place its line alone is printed. Then the flows are gone through once more from the front, and of each on
//! which the filter holds the entry is printed in one write; what stands in front of the entries is another, and what stands behind them, with a line feed, the last. So memory is the file
//! and one flow.
ghost use Rattle.std.specs.Prelude.{◌≡◌, ◌≤◌, ◌++◌, ◌∷◌, ℕ, List, [], Ok, IfErr, IfOk, OnOk};
ghost use Rattle.px_outside.specs.Count.{Rose};
ghost use Rattle.px_outside.specs.Sink.{Writes};
ghost use Rattle.px_filter.specs.Parsing.{parse as parse_text};
ghost use Rattle.px_filter.specs.View.{expression};
ghost use Rattle.px_har.specs.Export.{begin_text, end_text, placed_text};
ghost use Rattle.px_words.specs.Exports.{Exports, ExportsFile};
ghost use Rattle.px_words.specs.ExportTurns.{PrintsAll, PrintsEntries, PrintsExport, place_where, text_where};
ghost use Rattle.px_words.specs.Flows.{Fetched};
ghost use Rattle.px_words.specs.Outside.{outside};
ghost use Rattle.px_words.specs.Whole.{IsWhole};

use crate::flows::{refuse_filter, refuse_place};
use crate::stop::NO_MEMORY;
use crate::take::take_file;
use crate::whole::{NotWhole, Unfinished, judge, next_of_whole, status_of};
use px_filter::Filter;
use px_flowfile::{Entry, FlowReader};
use px_har::{Place, begin_har, end_har, parts_make_the_export, write_entry_at};
use px_message::Flow;
use px_outside::{Files, Net, Sink, SinkError};
use px_text::{Bytes, NoMemory};
use std::alloc::Global;

/// Prints the export, in the format HAR 1.2, of the flows of the file on which the filter holds, in their order, and a line feed behind it. The text is judged before the file is read, and the
/// file is judged whole before anything of its flows is printed. A text that is no filter is told by a line with its place, and by a note that shows it. Nothing is asked of `net`. Answers the
/// exit status: 0; 2 where the text is no filter; 3 where the file was not read; 4 at a place of the file that has no entry, whose line alone is printed; 7 where a write failed; 8 where
/// memory ran out.
pub fn export<N: Net, F: Files, S: Sink, T: Sink>(
    alloc: Global,
    path: &str,
    text: &str,
    net: &N,
    files: &mut F,
    out: &mut S,
    notes: &mut T,
) -> u8
    ensures exports { (what : Fetched) × ExportsFile (net.now ≡ net.now) (Rose (S.faults out.old) (S.faults out.new)) (Rose (T.faults notes.old) (T.faults notes.new)) path.now text.now what
        (outside N.trace N.listening F.contents F.calls F.misses F.faults F.losses S.written T.written net.now files.old out.old notes.old)
        (outside N.trace N.listening F.contents F.calls F.misses F.faults F.losses S.written T.written net.now files.new out.new notes.new) result }
{
    match Filter::parse(alloc, text) {
        Ok(filter) => export_file(alloc, path, &filter, net, files, out, notes),
        Err(error) => refuse_filter(alloc, text, error, out, notes),
    }
}

// Reads the file of this path, and prints the export of its flows by the filter.
fn export_file<N: Net, F: Files, S: Sink, T: Sink>(
    alloc: Global,
    path: &str,
    filter: &Filter,
    net: &N,
    files: &mut F,
    out: &mut S,
    notes: &mut T,
) -> u8
    ensures exports { (text : List ℕ) → parse_text text ≡ Ok (expression filter.now) → (what : Fetched) × ExportsFile (net.now ≡ net.now) (Rose (S.faults out.old) (S.faults out.new)) (Rose (T.faults notes.old) (T.faults notes.new)) path.now text what
        (outside N.trace N.listening F.contents F.calls F.misses F.faults F.losses S.written T.written net.now files.old out.old notes.old)
        (outside N.trace N.listening F.contents F.calls F.misses F.faults F.losses S.written T.written net.now files.new out.new notes.new) result }
{
    match take_file(alloc, path, net, files, out, notes) {
        Ok(bytes) => export_bytes(alloc, path, filter, bytes, out),
        Err(status) => status,
    }
}

// Prints the export of a file of these bytes, which are not copied.
fn export_bytes<S: Sink>(
    alloc: Global,
    path: &str,
    filter: &Filter,
    bytes: Vec<u8>,
    out: &mut S,
) -> u8
    ensures exports { Exports (Rose (S.faults out.old) (S.faults out.new)) path.now bytes.items (expression filter.now) (S.written out.old) (S.written out.new) result }
{
    match Bytes::new(bytes) {
        Ok(bytes) => export_flows(alloc, path, filter, bytes, out),
        Err(NoMemory) => NO_MEMORY,
    }
}

// Judges a file whole, and then prints its export.
fn export_flows<S: Sink>(
    alloc: Global,
    path: &str,
    filter: &Filter,
    bytes: Bytes,
    out: &mut S,
) -> u8
    ensures exports { Exports (Rose (S.faults out.old) (S.faults out.new)) path.now bytes (expression filter.now) (S.written out.old) (S.written out.new) result }
{
    match judge(alloc, &bytes) {
        Ok(()) => status_of(print_export(alloc, filter, bytes, out)),
        Err(NotWhole::BadPlace(offset)) => refuse_place(alloc, path, offset, out),
        Err(NotWhole::NoMemory) => NO_MEMORY,
    }
}

// Prints the export of a file that is whole.
fn print_export<S: Sink>(
    alloc: Global,
    filter: &Filter,
    bytes: Bytes,
    out: &mut S,
) -> Result<(), Unfinished>
    requires whole { IsWhole bytes }
    ensures exports { PrintsExport (Rose (S.faults out.old) (S.faults out.new)) (expression filter.now) bytes (S.written out.old) (S.written out.new) result }
{
    parts_make_the_export();
    print_begin(alloc, out)?;
    print_entries(alloc, filter, bytes, out)?;
    print_end(alloc, out)
}

// Prints what stands in front of the entries.
fn print_begin<S: Sink>(alloc: Global, out: &mut S) -> Result<(), Unfinished>
    ensures prints { PrintsAll (Rose (S.faults out.old) (S.faults out.new)) begin_text (S.written out.old) (S.written out.new) result }
    ensures later { S.faults out.old ≤ S.faults out.new }
{
    let mut text = Vec::new(alloc);
    begin_har(&mut text)?;
    print(out, &text)
}

// Prints the entries of a file that is whole.
fn print_entries<S: Sink>(
    alloc: Global,
    filter: &Filter,
    bytes: Bytes,
    out: &mut S,
) -> Result<(), Unfinished>
    requires whole { IsWhole bytes }
    ensures prints { PrintsEntries (Rose (S.faults out.old) (S.faults out.new)) (expression filter.now) bytes (S.written out.old) (S.written out.new) result }
    ensures later { S.faults out.old ≤ S.faults out.new }
{
    parts_make_the_export();
    let mut reader = FlowReader::new(alloc, bytes);
    let mut place = Place::First;
    while let Some(entry) = next_of_whole(&mut reader)? {
        place = print_entry(alloc, filter, place, entry, out)?;
    }
    Ok(())
}

// Prints the entry of a flow at this place, if the filter holds on it, and lets go of it. Answers the place of the next one.
fn print_entry<S: Sink>(
    alloc: Global,
    filter: &Filter,
    place: Place,
    entry: Entry,
    out: &mut S,
) -> Result<Place, Unfinished>
    ensures prints { PrintsAll (Rose (S.faults out.old) (S.faults out.new)) (text_where (expression filter.now) place entry.flow) (S.written out.old) (S.written out.new) result }
    ensures place { IfOk result (λ next. next ≡ place_where (expression filter.now) place entry.flow) }
    ensures later { S.faults out.old ≤ S.faults out.new }
{
    let printed = print_flow(alloc, filter, place, &entry.flow, out);
    drop(entry);
    printed
}

// Prints the entry of a flow at this place, if the filter holds on it.
fn print_flow<S: Sink>(
    alloc: Global,
    filter: &Filter,
    place: Place,
    flow: &Flow,
    out: &mut S,
) -> Result<Place, Unfinished>
    ensures prints { PrintsAll (Rose (S.faults out.old) (S.faults out.new)) (text_where (expression filter.now) place flow.now) (S.written out.old) (S.written out.new) result }
    ensures place { IfOk result (λ next. next ≡ place_where (expression filter.now) place flow.now) }
    ensures later { S.faults out.old ≤ S.faults out.new }
{
    match filter.matches(flow) {
        Ok(true) => print_placed(alloc, place, flow, out),
        Ok(false) => Ok(place),
        Err(NoMemory) => Err(Unfinished::NoMemory),
    }
}

// Prints the entry of a flow at this place, in one write.
fn print_placed<S: Sink>(
    alloc: Global,
    place: Place,
    flow: &Flow,
    out: &mut S,
) -> Result<Place, Unfinished>
    ensures prints { PrintsAll (Rose (S.faults out.old) (S.faults out.new)) (placed_text place flow.now) (S.written out.old) (S.written out.new) result }
    ensures place { IfOk result (λ next. next ≡ Place.Later) }
    ensures later { S.faults out.old ≤ S.faults out.new }
{
    let mut text = Vec::new(alloc);
    write_entry_at(place, flow, &mut text)?;
    print(out, &text)?;
    Ok(Place::Later)
}

// Prints what stands behind the entries, and a line feed.
fn print_end<S: Sink>(alloc: Global, out: &mut S) -> Result<(), Unfinished>
    ensures prints { PrintsAll (Rose (S.faults out.old) (S.faults out.new)) (end_text ++ 10 ∷ []) (S.written out.old) (S.written out.new) result }
    ensures later { S.faults out.old ≤ S.faults out.new }
{
    let text = end_of_export(alloc)?;
    print(out, &text)
}

fn end_of_export(alloc: Global) -> Result<Vec<u8>, NoMemory>
    ensures text { IfOk result (λ text. text.items ≡ end_text ++ 10 ∷ []) }
{
    let mut text = Vec::new(alloc);
    end_har(&mut text)?;
    text.push(b'\n')?;
    Ok(text)
}

// Prints the text, in one write.
fn print<S: Sink>(out: &mut S, text: &[u8]) -> Result<(), Unfinished>
    ensures prints { PrintsAll (Rose (S.faults out.old) (S.faults out.new)) text.now (S.written out.old) (S.written out.new) result }
    ensures later { S.faults out.old ≤ S.faults out.new }
{
    match out.write(text) {
        Ok(()) => Ok(()),
        Err(SinkError::Failed) => Err(Unfinished::Failed),
        Err(SinkError::NoMemory) => Err(Unfinished::NoMemory),
    }
}
