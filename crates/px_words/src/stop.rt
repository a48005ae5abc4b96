//! A run that stops before it serves: its line is printed and its note told, and the network is asked nothing.
ghost use Rattle.std.specs.Prelude.{◌≡◌, ◌≤◌, ◌⊎◌, [], IfOk, OnOk, OnErr};
ghost use Rattle.px_outside.specs.Count.{Rose};
ghost use Rattle.px_outside.specs.Sink.{Writes, WritesPart};
ghost use Rattle.px_words.specs.Lines.{bad_flow_file as text_of_bad_flow_file, cannot_read as text_of_cannot_read};
ghost use Rattle.px_words.specs.Outside.{IsTold};
ghost use Rattle.px_words.specs.Stops.{stop_code};

use px_outside::{Sink, SinkError};
use px_text::{NoMemory, push_decimal};
use std::alloc::Global;

/// The status when out of memory.
pub const NO_MEMORY: u8 = 8;

/// Why a run does not serve.
#[derive(Clone, Copy, Debug, PartialEq, Eq)]
pub enum Stop {
    /// The words have no form.
    Usage,
    /// The options file is none.
    Refused,
    /// A file was not read.
    NotRead,
    /// A place of a flow file has no flow.
    BadPlace,
}

impl Stop {
    /// The exit status.
    pub fn code(self) -> u8
        ensures code { result ≡ stop_code self }
    {
        match self {
            Stop::Usage => 1,
            Stop::Refused => 2,
            Stop::NotRead => 3,
            Stop::BadPlace => 4,
        }
    }
}

/// Prints the line and tells the note. A sink that fails changes no status. Answers the exit status, which is 8 where memory ran out.
pub fn stop_with<S: Sink, T: Sink>(
    out: &mut S,
    notes: &mut T,
    why: Stop,
    line: &[u8],
    note: &[u8],
) -> u8
    ensures status { (result ≡ stop_code why) ⊎ (result ≡ 8) }
    ensures prints { IsTold (Rose (S.faults out.old) (S.faults out.new)) result line.now (S.written out.old) (S.written out.new) }
    ensures notes { IsTold (Rose (T.faults notes.old) (T.faults notes.new)) result note.now (T.written notes.old) (T.written notes.new) }
{
    match tell_both(out, notes, line, note) {
        Ok(()) => why.code(),
        Err(NoMemory) => NO_MEMORY,
    }
}

// Writes the line, and then the note.
fn tell_both<S: Sink, T: Sink>(
    out: &mut S,
    notes: &mut T,
    line: &[u8],
    note: &[u8],
) -> Result<(), NoMemory>
    ensures prints { OnOk result (Writes line.now (S.written out.old) (S.written out.new) ⊎ (Rose (S.faults out.old) (S.faults out.new) × WritesPart line.now (S.written out.old) (S.written out.new))) }
    ensures notes { OnOk result (Writes note.now (T.written notes.old) (T.written notes.new) ⊎ (Rose (T.faults notes.old) (T.faults notes.new) × WritesPart note.now (T.written notes.old) (T.written notes.new))) }
    ensures prints_part { OnErr result (WritesPart line.now (S.written out.old) (S.written out.new)) }
    ensures notes_none { OnErr result (T.written notes.new ≡ T.written notes.old) }
{
    tell(out, line)?;
    tell(notes, note)
}

/// Writes the text. That the sink fails is told by its count alone. After `NoMemory` nothing of it is written.
pub fn tell<S: Sink>(sink: &mut S, text: &[u8]) -> Result<(), NoMemory>
    ensures told { OnOk result (Writes text.now (S.written sink.old) (S.written sink.new) ⊎ (Rose (S.faults sink.old) (S.faults sink.new) × WritesPart text.now (S.written sink.old) (S.written sink.new))) }
    ensures err { OnErr result (S.written sink.new ≡ S.written sink.old) }
    ensures later { S.faults sink.old ≤ S.faults sink.new }
{
    match sink.write(text) {
        Ok(()) | Err(SinkError::Failed) => Ok(()),
        Err(SinkError::NoMemory) => Err(NoMemory),
    }
}

/// The line of a file that was not read.
#[tactic(auto, unfolding(crate::specs::Lines::cannot_read))]
pub fn cannot_read(alloc: Global, path: &str) -> Result<Vec<u8>, NoMemory>
    ensures { IfOk result (λ line. line.items ≡ text_of_cannot_read path.now) }
{
    let mut line = Vec::from_slice(alloc, b"cannot read ")?;
    line.extend_from_slice(path.as_bytes())?;
    line.push(b'\n')?;
    Ok(line)
}

/// The line of a place of a flow file that has no flow, behind so many bytes.
#[tactic(auto, unfolding(crate::specs::Lines::bad_flow_file))]
pub fn bad_flow_file(alloc: Global, path: &str, offset: usize) -> Result<Vec<u8>, NoMemory>
    ensures line { IfOk result (λ line. line.items ≡ text_of_bad_flow_file path.now offset) }
{
    let mut line = Vec::from_slice(alloc, b"bad flow file ")?;
    line.extend_from_slice(path.as_bytes())?;
    line.extend_from_slice(b" at ")?;
    push_decimal(&mut line, offset as u64)?;
    line.push(b'\n')?;
    Ok(line)
}

/// Prints that the file of this path was not read, and answers the exit status.
pub fn refuse_file<S: Sink, T: Sink>(alloc: Global, path: &str, out: &mut S, notes: &mut T) -> u8
    ensures status { (result ≡ 3) ⊎ (result ≡ 8) }
    ensures prints { IsTold (Rose (S.faults out.old) (S.faults out.new)) result (text_of_cannot_read path.now) (S.written out.old) (S.written out.new) }
    ensures notes { IsTold (Rose (T.faults notes.old) (T.faults notes.new)) result [] (T.written notes.old) (T.written notes.new) }
{
    match cannot_read(alloc, path) {
        Ok(line) => stop_with(out, notes, Stop::NotRead, &line, b""),
        Err(NoMemory) => NO_MEMORY,
    }
}

/// Prints that no flow stands in the flow file of this path behind so many bytes, and answers the exit status.
pub fn refuse_bad_place<S: Sink, T: Sink>(
    alloc: Global,
    path: &str,
    offset: usize,
    out: &mut S,
    notes: &mut T,
) -> u8
    ensures status { (result ≡ 4) ⊎ (result ≡ 8) }
    ensures prints { IsTold (Rose (S.faults out.old) (S.faults out.new)) result (text_of_bad_flow_file path.now offset) (S.written out.old) (S.written out.new) }
    ensures notes { IsTold (Rose (T.faults notes.old) (T.faults notes.new)) result [] (T.written notes.old) (T.written notes.new) }
{
    match bad_flow_file(alloc, path, offset) {
        Ok(line) => stop_with(out, notes, Stop::BadPlace, &line, b""),
        Err(NoMemory) => NO_MEMORY,
    }
}
