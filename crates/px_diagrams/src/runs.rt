//! Whole runs: what is outside of one, and what came of it.
ghost use Rattle.std.specs.Prelude.{◌≡◌, IfOk};
ghost use Rattle.px_outside.specs.Net.{idle};

use crate::diagram::{Asked, Diagram, Heed};
use crate::outside::{Outside, push_file};
use px_event::{Heard, Side, Step};
use px_outside::{FileCall, FileError, Files, MemFiles, ScriptNet, VecSink};
use px_rows::{Act, Cut, Peer, RowError, Shown, cut_piece, end_line, piece, show_said};
use std::alloc::Global;

/// What is outside of a run.
#[derive(Drop)]
pub struct Handed {
    pub net: ScriptNet,
    pub files: MemFiles,
    pub out: VecSink,
    pub notes: VecSink,
    // Of each thing that is heard, the line that it begins, if any.
    begins: Vec<Option<usize>>,
}

// What is heard, each with the line that it begins, if any.
#[derive(Drop)]
struct Script {
    // The moment behind which all is heard.
    moment: u64,
    heard: Vec<(u64, Heard)>,
    begins: Vec<Option<usize>>,
}

/// What a run of the diagram is handed, with its pieces cut so.
pub fn hand(alloc: Global, diagram: &Diagram, cut: Cut) -> Result<Handed, RowError>
    ensures { IfOk result (λ handed. handed.net.listening ≡ idle) }
{
    let outside = &diagram.outside;
    let net_fails = Vec::from_slice(alloc, outside.net_fails.as_slice())?;
    let sink_fails = Vec::from_slice(alloc, outside.sink_fails.as_slice())?;
    let note_fails = Vec::from_slice(alloc, outside.note_fails.as_slice())?;
    let script = make_script(alloc, diagram.script.as_slice(), outside.moment, cut)?;
    let files = make_files(alloc, outside)?;
    Ok(Handed {
        net: ScriptNet::new(alloc, script.heard, net_fails),
        files,
        out: VecSink::new(alloc, sink_fails),
        notes: VecSink::new(alloc, note_fails),
        begins: script.begins,
    })
}

// The options file, unless it is absent, and the others.
fn make_files(alloc: Global, outside: &Outside) -> Result<MemFiles, RowError> {
    let fails = Vec::from_slice(alloc, outside.file_fails.as_slice())?;
    let mut files = Vec::new(alloc);
    copy_files(alloc, &mut files, outside)?;
    Ok(MemFiles::new(alloc, files, fails))
}

fn copy_files(
    alloc: Global,
    files: &mut Vec<(String, Vec<u8>)>,
    outside: &Outside,
) -> Result<(), RowError> {
    if !outside.is_absent {
        copy_file(alloc, files, "o", outside.options.as_slice())?;
    }
    for (path, bytes) in &outside.files {
        copy_file(alloc, files, path.as_str(), bytes.as_slice())?;
    }
    Ok(())
}

fn copy_file(
    alloc: Global,
    files: &mut Vec<(String, Vec<u8>)>,
    path: &str,
    bytes: &[u8],
) -> Result<(), RowError> {
    let bytes = Vec::from_slice(alloc, bytes)?;
    push_file(alloc, files, path, bytes)
}

// The script, cut, each line a microsecond behind the one before it, and the first one behind that moment.
fn make_script(alloc: Global, lines: &[Heed], moment: u64, cut: Cut) -> Result<Script, RowError> {
    let mut script = Script {
        moment,
        heard: Vec::new(alloc),
        begins: Vec::new(alloc),
    };
    match add_acts(alloc, &mut script, lines, cut) {
        Ok(()) => Ok(script),
        Err(error) => {
            drop(script);
            Err(error)
        }
    }
}

fn add_acts(alloc: Global, script: &mut Script, lines: &[Heed], cut: Cut) -> Result<(), RowError> {
    let mut number = 0usize;
    for line in lines {
        number = number.saturating_add(1);
        add_act(alloc, script, number, &line.act, cut)?;
    }
    Ok(())
}

fn add_act(
    alloc: Global,
    script: &mut Script,
    number: usize,
    act: &Act,
    cut: Cut,
) -> Result<(), RowError> {
    match act {
        Act::Heard(heard) => copy_heard(script, number, heard),
        Act::Piece(conv, side, bytes) => {
            let parts = cut_piece(alloc, cut, number, bytes)?;
            add_parts(alloc, script, number, *conv, *side, parts.as_slice())
        }
        _ => Err(RowError::Bad),
    }
}

fn copy_heard(script: &mut Script, number: usize, heard: &Heard) -> Result<(), RowError> {
    script.begins.push(Some(number))?;
    let heard = heard.clone()?;
    let moment = moment_of(script.moment, number);
    script.heard.push((moment, heard))?;
    Ok(())
}

fn add_parts(
    alloc: Global,
    script: &mut Script,
    number: usize,
    conv: u32,
    side: Side,
    parts: &[Vec<u8>],
) -> Result<(), RowError> {
    let moment = moment_of(script.moment, number);
    let mut begins = Some(number);
    for part in parts {
        script.begins.push(begins)?;
        begins = None;
        add_part(
            alloc,
            &mut script.heard,
            moment,
            conv,
            side,
            part.as_slice(),
        )?;
    }
    Ok(())
}

// When the line of this number is heard, counted from 1.
fn moment_of(first: u64, number: usize) -> u64 {
    first.saturating_add(number as u64)
}

fn add_part(
    alloc: Global,
    heard: &mut Vec<(u64, Heard)>,
    moment: u64,
    conv: u32,
    side: Side,
    part: &[u8],
) -> Result<(), RowError> {
    let piece = piece(alloc, conv, side, part)?;
    heard.push((moment, piece))?;
    Ok(())
}

/// Shows what came of a run of the diagram with this status: what was heard and said, what was printed, and what its row wants.
pub fn show_run(
    diagram: &Diagram,
    handed: &mut Handed,
    status: u8,
    out: &mut Shown,
) -> Result<(), RowError> {
    show_trace(
        out,
        diagram.script.as_slice(),
        handed.begins.as_slice(),
        handed.net.trace(),
    );
    show_lines(out, "prints ", handed.out.written());
    show_asked(diagram.asked, handed, status, out);
    if diagram.asked.held {
        return show_held(out, &mut handed.files);
    }
    Ok(())
}

fn show_asked(asked: Asked, handed: &Handed, status: u8, out: &mut Shown) {
    if asked.notes {
        show_notes(out, handed.notes.written());
    }
    if asked.calls {
        show_calls(out, handed.files.calls());
    }
    out.text("status ");
    out.number(u64::from(status));
    out.text("\n");
    if asked.steps {
        show_steps(out, handed.net.trace());
    }
}

// Shows what was said, with each line that was heard in front of what was said behind it.
fn show_trace(out: &mut Shown, lines: &[Heed], begins: &[Option<usize>], trace: &[Step]) {
    let mut sending: Option<Peer> = None;
    let mut heard = 0usize;
    for step in trace {
        sending = show_step(out, lines, begins, heard, sending, step);
        heard = heard.saturating_add(count_heard(step));
    }
    end_line(out, sending);
}

// Shows the step, behind so many in which something was heard. The answer is the peer to which bytes are being sent.
fn show_step(
    out: &mut Shown,
    lines: &[Heed],
    begins: &[Option<usize>],
    heard: usize,
    sending: Option<Peer>,
    step: &Step,
) -> Option<Peer> {
    match step {
        Step::Heard { .. } => show_line(out, line_of(lines, begins, heard), sending),
        Step::Said { conv, said } => show_said(out, sending, *conv, said),
        _ => sending,
    }
}

fn show_line(out: &mut Shown, line: Option<&str>, sending: Option<Peer>) -> Option<Peer> {
    match line {
        Some(text) => {
            end_line(out, sending);
            out.text(text);
            out.text("\n");
            None
        }
        None => sending,
    }
}

fn count_heard(step: &Step) -> usize {
    match step {
        Step::Heard { .. } => 1,
        _ => 0,
    }
}

// The line that the thing begins which is heard with this number from 0 on.
fn line_of<'a>(lines: &'a [Heed], begins: &[Option<usize>], heard: usize) -> Option<&'a str> {
    match begins.get(heard) {
        Some(Some(number)) => text_of(lines.get(number.saturating_sub(1))),
        _ => None,
    }
}

fn text_of(line: Option<&Heed>) -> Option<&str> {
    match line {
        Some(line) => Some(line.text.as_str()),
        None => None,
    }
}

// Each line of the text that is not empty, behind this front.
fn show_lines(out: &mut Shown, front: &str, text: &[u8]) {
    for line in text.split(|byte| *byte == b'\n') {
        if !line.is_empty() {
            show_bytes(out, front, line);
        }
    }
}

fn show_bytes(out: &mut Shown, front: &str, bytes: &[u8]) {
    out.text(front);
    out.bytes(bytes);
    out.text("\n");
}

fn show_notes(out: &mut Shown, notes: &[u8]) {
    if notes.is_empty() {
        out.text("notes nothing\n");
    } else {
        show_lines(out, "notes ", notes);
    }
}

fn show_calls(out: &mut Shown, calls: &[FileCall]) {
    if calls.is_empty() {
        out.text("reads nothing\n");
    }
    for call in calls {
        show_call(out, call);
    }
}

fn show_call(out: &mut Shown, call: &FileCall) {
    match call {
        FileCall::Read { path, .. } => show_bytes(out, "reads ", path.as_slice()),
        FileCall::Missed { path } => show_bytes(out, "misses ", path.as_slice()),
        FileCall::ReadFailed { path } => show_bytes(out, "cannot read ", path.as_slice()),
        FileCall::Appended { path, bytes } => {
            out.text("appends to ");
            out.bytes(path.as_slice());
            show_bytes(out, " ", bytes.as_slice());
        }
        FileCall::AppendFailed { path } => {
            show_bytes(out, "cannot append to ", path.as_slice());
        }
    }
}

// What the file `s` holds at the end, if it is there.
fn show_held(out: &mut Shown, files: &mut MemFiles) -> Result<(), RowError> {
    match files.read("s") {
        Ok(bytes) => {
            show_bytes(out, "s holds ", &bytes);
            Ok(())
        }
        Err(FileError::NoMemory) => Err(RowError::NoMemory),
        Err(_) => Ok(()),
    }
}

// How many steps of each kind a trace has.
#[derive(Clone, Copy)]
struct Counts {
    heard: u64,
    begun: u64,
    said: u64,
    asked: u64,
    answered: u64,
    done: u64,
}

fn count_steps(trace: &[Step]) -> Counts {
    let mut counts = Counts {
        heard: 0,
        begun: 0,
        said: 0,
        asked: 0,
        answered: 0,
        done: 0,
    };
    for step in trace {
        count_step(&mut counts, step);
    }
    counts
}

fn count_step(counts: &mut Counts, step: &Step) {
    let kind = match step {
        Step::Heard { .. } => &mut counts.heard,
        Step::Said { .. } => &mut counts.said,
        Step::Begun { .. } => &mut counts.begun,
        Step::Asked { .. } => &mut counts.asked,
        Step::Answered { .. } => &mut counts.answered,
        Step::Done { .. } => &mut counts.done,
    };
    *kind = kind.saturating_add(1);
}

fn show_steps(out: &mut Shown, trace: &[Step]) {
    let counts = count_steps(trace);
    show_count(out, "steps ", counts.heard, " heard");
    show_count(out, ", ", counts.said, " said");
    show_count(out, ", ", counts.asked, " asked");
    show_count(out, ", ", counts.answered, " answered");
    show_count(out, ", ", counts.done, " done");
    if counts.begun > 0 {
        show_count(out, ", ", counts.begun, " begun");
    }
    out.text("\n");
}

fn show_count(out: &mut Shown, front: &str, count: u64, what: &str) {
    out.text(front);
    out.number(count);
    out.text(what);
}
