//! The flows that a run answers with: those of the files that the options name.
//!
//! The files are read in their order, each once, and each is gone through to its end before the next one is read. The first that is absent, that is not
//! read or that has a place without a flow ends it. The bytes of a file are not copied: its flows share them.
ghost use Rattle.std.specs.Prelude.{◌≡◌, ◌≢◌, ◌⊎◌, ◌-◌, ◌++◌, ◌∷◌, [], ℕ, List, None, Ok, length, map, IfErr, IfOk, OnOk};
ghost use Rattle.px_outside.specs.Count.{Rose};
ghost use Rattle.px_outside.specs.declared.files.FileCall.TheVariants.{Read as WasRead};
ghost use Rattle.px_outside.specs.declared.files.FileCall.{FileCall};
ghost use Rattle.px_flowfile.specs.Reader.{ComesNext, IsNoEntry};
ghost use Rattle.px_map.specs.Reads.{Made, seen};
ghost use Rattle.px_options.specs.View.{path_view};
ghost use Rattle.px_app.specs.Loaded.{LoadsFiles, unloaded};
ghost use Rattle.px_app.specs.Loading.{AddsAll, IsLoaded, IsNoNext, LoadsNoMore, came_of, load_code, load_line, stop_of};
ghost use Rattle.px_words.specs.Outside.{IsTold};

use px_flowfile::{Entry, FlowReader, ReadFault};
use px_message::Flow;
use px_options::FilePath;
use px_outside::{FileError, Files, Sink};
use px_text::{Bytes, NoMemory};
use px_words::{NO_MEMORY, refuse_bad_place, refuse_file, wants_memory};
use std::alloc::Global;

/// Why the flows of files are not all there.
#[derive(Clone, Copy, Debug)]
pub(crate) enum LoadError<'a> {
    /// Nothing stands under this path.
    Absent(&'a str),
    /// The file of this path was not read.
    NotRead(&'a str),
    /// Behind so many bytes of the file of this path no flow stands.
    BadPlace(&'a str, usize),
    /// Memory ran out.
    NoMemory,
}

/// The flows of the files of these paths, one file behind the other.
pub(crate) fn load_flows<'a, F: Files>(
    alloc: Global,
    paths: &'a [FilePath],
    files: &mut F,
) -> Result<Vec<Flow>, LoadError<'a>>
    ensures came { (calls : List FileCall) × LoadsFiles (map path_view paths.now) calls (came_of result)
        × Made calls (seen F.contents F.calls F.misses F.faults F.losses files.old) (seen F.contents F.calls F.misses F.faults F.losses files.new) }
{
    let mut flows = Vec::new(alloc);
    for path in paths {
        load_file(alloc, path.as_str(), files, &mut flows)?;
    }
    Ok(flows)
}

// Adds the flows of the file of this path, which is read once.
fn load_file<'a, F: Files>(
    alloc: Global,
    path: &'a str,
    files: &mut F,
    flows: &mut Vec<Flow>,
) -> Result<(), LoadError<'a>>
    ensures ok { OnOk result (IsLoaded path.now (seen F.contents F.calls F.misses F.faults F.losses files.old) (seen F.contents F.calls F.misses F.faults F.losses files.new) flows.old.items flows.new.items) }
    ensures err { IfErr result (λ e. LoadsNoMore path.now (seen F.contents F.calls F.misses F.faults F.losses files.old) (seen F.contents F.calls F.misses F.faults F.losses files.new) (stop_of e)) }
{
    match files.read(path) {
        Ok(bytes) => load_bytes(alloc, path, bytes, flows),
        Err(FileError::Absent) => Err(LoadError::Absent(path)),
        Err(FileError::Failed) => Err(LoadError::NotRead(path)),
        Err(FileError::NoMemory) => Err(LoadError::NoMemory),
    }
}

// Adds the flows of a file of these bytes.
fn load_bytes<'a>(
    alloc: Global,
    path: &'a str,
    bytes: Vec<u8>,
    flows: &mut Vec<Flow>,
) -> Result<(), LoadError<'a>>
    ensures ok { OnOk result (AddsAll bytes.items flows.old.items flows.new.items) }
    ensures err { IfErr result (λ e. (others : List (List ℕ)) → LoadsFiles (path.now ∷ others) (WasRead path.now bytes.items ∷ []) (stop_of e)) }
{
    match Bytes::new(bytes) {
        Ok(bytes) => add_flows(alloc, path, bytes, flows),
        Err(NoMemory) => Err(LoadError::NoMemory),
    }
}

// Goes through a file of these bytes from its front, and adds its flows.
fn add_flows<'a>(
    alloc: Global,
    path: &'a str,
    bytes: Bytes,
    flows: &mut Vec<Flow>,
) -> Result<(), LoadError<'a>>
    ensures ok { OnOk result (AddsAll bytes flows.old.items flows.new.items) }
    ensures err { IfErr result (λ e. (others : List (List ℕ)) → LoadsFiles (path.now ∷ others) (WasRead path.now bytes ∷ []) (stop_of e)) }
{
    let mut reader = FlowReader::new(alloc, bytes);
    while let Some(entry) = next_entry(path, &mut reader)? {
        add_flow(entry, flows)?;
    }
    Ok(())
}

// The next entry, or none at the end.
fn next_entry<'a>(path: &'a str, reader: &mut FlowReader) -> Result<Option<Entry>, LoadError<'a>>
    requires going { reader.old.fault ≡ None }
    ensures ok { IfOk result (λ entry. ComesNext reader.old.rest (Ok entry) reader.new.rest) }
    ensures err { IfErr result (λ e. IsNoNext path.now reader.old.len reader.old.rest (stop_of e)) }
    ensures going { OnOk result (reader.new.fault ≡ None) }
    ensures len { reader.new.len ≡ reader.old.len }
{
    match reader.next() {
        Ok(entry) => Ok(entry),
        Err(fault) => Err(no_flow(path, fault)),
    }
}

// What a fault of the reader is: a bad place, or out of memory.
fn no_flow<'a>(path: &'a str, fault: ReadFault) -> LoadError<'a>
    ensures stops { (len : ℕ) (rest : List ℕ) → IsNoEntry rest fault.cause → rest ≢ [] → fault.offset ≡ len - length rest → IsNoNext path.now len rest (stop_of result) }
{
    if wants_memory(fault.cause) {
        return LoadError::NoMemory;
    }
    LoadError::BadPlace(path, fault.offset)
}

// Adds the flow of an entry, and lets go of what else it has.
fn add_flow<'a>(entry: Entry, flows: &mut Vec<Flow>) -> Result<(), LoadError<'a>>
    ensures ok { OnOk result (flows.new.items ≡ flows.old.items ++ entry.flow ∷ []) }
    ensures err { IfErr result (λ e. stop_of e ≡ unloaded) }
{
    let Entry { flow, others } = entry;
    drop(others);
    match flows.push(flow) {
        Ok(()) => Ok(()),
        Err(_) => Err(LoadError::NoMemory),
    }
}

/// Prints why the flows are not all there, and answers the exit status.
pub(crate) fn refuse_load<S: Sink, T: Sink>(
    alloc: Global,
    error: &LoadError<'_>,
    out: &mut S,
    notes: &mut T,
) -> u8
    ensures status { (result ≡ load_code error.now) ⊎ (result ≡ 8) }
    ensures prints { IsTold (Rose (S.faults out.old) (S.faults out.new)) result (load_line error.now) (S.written out.old) (S.written out.new) }
    ensures notes { IsTold (Rose (T.faults notes.old) (T.faults notes.new)) result [] (T.written notes.old) (T.written notes.new) }
{
    match error {
        LoadError::Absent(path) => refuse_file(alloc, path, out, notes),
        LoadError::NotRead(path) => refuse_file(alloc, path, out, notes),
        LoadError::BadPlace(path, offset) => refuse_bad_place(alloc, path, *offset, out, notes),
        LoadError::NoMemory => NO_MEMORY,
    }
}
