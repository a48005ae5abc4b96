//! The lines of a diagram: what a row begins with, what is heard, and what is wanted.
use crate::outside::{Outside, new_outside, read_outside};
use px_rows::{
    Act, Cut, Cuts, Line, Row, RowError, Trouble, add_cuts, plain_cuts, read_act, read_u32,
};
use std::alloc::Global;

/// One thing heard, and its line.
#[derive(Drop)]
pub(crate) struct Heed {
    pub(crate) number: usize,
    pub(crate) text: String,
    pub(crate) act: Act,
}

/// A line `hook NAME: REPLY`.
#[derive(Drop)]
pub(crate) struct HookLine {
    pub(crate) number: usize,
    pub(crate) hook: String,
    pub(crate) reply: String,
}

/// A row as it is played.
#[derive(Drop)]
pub struct Diagram {
    pub(crate) script: Vec<Heed>,
    /// The lines that are wanted, each with its line feed, those heard among them.
    pub wanted: String,
    pub(crate) hooks: Vec<HookLine>,
    /// The hooks at each of which the row is played, and the reply there.
    pub at: Vec<String>,
    pub(crate) at_reply: String,
    /// Of which flow and which server the numbers are that come first.
    pub first_flow: u32,
    pub next_server: u32,
    pub(crate) in_full: bool,
    /// What a whole run is handed.
    pub outside: Outside,
    /// What is shown where a row wants it.
    pub asked: Asked,
}

/// What is shown where a row wants it: the outcome of a conversation; of a run the notes, the calls of its files, the
/// count of the steps, and what the file `s` holds.
#[derive(Clone, Copy)]
pub struct Asked {
    pub outcome: bool,
    pub(crate) notes: bool,
    pub(crate) calls: bool,
    pub(crate) steps: bool,
    pub(crate) held: bool,
}

/// The row's lines.
pub fn read_diagram(alloc: Global, row: &Row) -> Result<Diagram, Trouble> {
    let mut diagram = match new_diagram(alloc) {
        Ok(diagram) => diagram,
        Err(error) => return Err(error.in_line(row.number)),
    };
    match read_lines(alloc, &mut diagram, row.lines.as_slice()) {
        Ok(()) => Ok(diagram),
        Err(trouble) => {
            drop(diagram);
            Err(trouble)
        }
    }
}

fn read_lines(alloc: Global, diagram: &mut Diagram, lines: &[Line]) -> Result<(), Trouble> {
    for line in lines {
        match read_line(alloc, diagram, line.number, line.text.as_str()) {
            Ok(()) => {}
            Err(error) => return Err(error.in_line(line.number)),
        }
    }
    Ok(())
}

fn new_diagram(alloc: Global) -> Result<Diagram, RowError> {
    let outside = new_outside(alloc)?;
    let asked = Asked {
        outcome: false,
        notes: false,
        calls: false,
        steps: false,
        held: false,
    };
    Ok(Diagram {
        script: Vec::new(alloc),
        wanted: String::new(alloc),
        hooks: Vec::new(alloc),
        at: Vec::new(alloc),
        at_reply: String::new(alloc),
        first_flow: 0,
        next_server: 0,
        in_full: false,
        outside,
        asked,
    })
}

fn read_line(
    alloc: Global,
    diagram: &mut Diagram,
    number: usize,
    text: &str,
) -> Result<(), RowError> {
    if let Some(hook) = text.strip_prefix("hook ") {
        return read_hook(alloc, diagram, number, hook);
    }
    if let Some(at) = text.strip_prefix("at ") {
        return read_at(alloc, diagram, at);
    }
    if let Some(numbers) = text.strip_prefix("begins at flow ") {
        return read_numbers(diagram, numbers);
    }
    read_shown(alloc, diagram, number, text)
}

fn read_shown(
    alloc: Global,
    diagram: &mut Diagram,
    number: usize,
    text: &str,
) -> Result<(), RowError> {
    if matches!(text, "in full") {
        diagram.in_full = true;
        return Ok(());
    }
    if read_outside(alloc, &mut diagram.outside, text)? {
        return Ok(());
    }
    if note_saved(&mut diagram.asked, text) {
        return add_wanted(&mut diagram.wanted, text);
    }
    add_act(alloc, diagram, number, text)
}

fn read_hook(
    alloc: Global,
    diagram: &mut Diagram,
    number: usize,
    text: &str,
) -> Result<(), RowError> {
    match text.split_once(": ") {
        Some((hook, reply)) => {
            let line = hook_line(alloc, number, hook, reply)?;
            diagram.hooks.push(line)?;
            Ok(())
        }
        None => Err(RowError::Bad),
    }
}

fn hook_line(alloc: Global, number: usize, hook: &str, reply: &str) -> Result<HookLine, RowError> {
    let hook = String::from_str(alloc, hook)?;
    let reply = String::from_str(alloc, reply)?;
    Ok(HookLine {
        number,
        hook,
        reply,
    })
}

fn read_at(alloc: Global, diagram: &mut Diagram, text: &str) -> Result<(), RowError> {
    match text.split_once(": ") {
        Some((hooks, reply)) => {
            diagram.at_reply = String::from_str(alloc, reply)?;
            add_names(alloc, &mut diagram.at, hooks)
        }
        None => Err(RowError::Bad),
    }
}

fn add_names(alloc: Global, names: &mut Vec<String>, text: &str) -> Result<(), RowError> {
    for name in text.split(", ") {
        let name = String::from_str(alloc, name)?;
        names.push(name)?;
    }
    Ok(())
}

fn read_numbers(diagram: &mut Diagram, text: &str) -> Result<(), RowError> {
    match text.split_once(", server ") {
        Some((flow, server)) => {
            diagram.first_flow = read_u32(flow)?;
            diagram.next_server = read_u32(server)?;
            Ok(())
        }
        None => Err(RowError::Bad),
    }
}

// A line of what is heard or said. Both are wanted.
fn add_act(
    alloc: Global,
    diagram: &mut Diagram,
    number: usize,
    text: &str,
) -> Result<(), RowError> {
    add_wanted(&mut diagram.wanted, text)?;
    match read_act(alloc, text) {
        Ok(act) => add_read(alloc, diagram, number, text, act),
        Err(error) => Err(error),
    }
}

fn add_read(
    alloc: Global,
    diagram: &mut Diagram,
    number: usize,
    text: &str,
    act: Act,
) -> Result<(), RowError> {
    if is_said(&act) {
        drop(act);
        note_asked(&mut diagram.asked, text);
        return Ok(());
    }
    add_heed(alloc, &mut diagram.script, number, text, act)
}

fn is_said(act: &Act) -> bool {
    matches!(act, Act::Said)
}

fn add_wanted(wanted: &mut String, text: &str) -> Result<(), RowError> {
    wanted.push_str(text)?;
    wanted.push('\n')?;
    Ok(())
}

// Notes what a line of what was saved wants shown, and whether it is one.
fn note_saved(asked: &mut Asked, text: &str) -> bool {
    if text.starts_with("s holds ") {
        asked.held = true;
        return true;
    }
    let is_append = begins_with(text, &["appends to ", "cannot append to "]);
    if is_append {
        asked.calls = true;
    }
    is_append
}

fn begins_with(text: &str, fronts: &[&str]) -> bool {
    for front in fronts {
        if text.starts_with(*front) {
            return true;
        }
    }
    false
}

// Notes what the line wants shown.
fn note_asked(asked: &mut Asked, text: &str) {
    if matches!(text, "going" | "over" | "upgraded") {
        asked.outcome = true;
    }
    if text.starts_with("notes ") {
        asked.notes = true;
    }
    if begins_with(text, &["reads ", "misses ", "cannot read "]) {
        asked.calls = true;
    }
    if text.starts_with("steps ") {
        asked.steps = true;
    }
}

fn add_heed(
    alloc: Global,
    script: &mut Vec<Heed>,
    number: usize,
    text: &str,
    act: Act,
) -> Result<(), RowError> {
    match String::from_str(alloc, text) {
        Ok(text) => push_heed(script, Heed { number, text, act }),
        Err(_) => {
            drop(act);
            Err(RowError::NoMemory)
        }
    }
}

fn push_heed(script: &mut Vec<Heed>, heed: Heed) -> Result<(), RowError> {
    script.push(heed)?;
    Ok(())
}

/// How the row is played: whole, and cut as its file says.
pub fn cuts_of(alloc: Global, row: &Row, diagram: &Diagram) -> Result<Vec<Cut>, Trouble> {
    match all_cuts(alloc, row.cuts, diagram.script.as_slice()) {
        Ok(cuts) => Ok(cuts),
        Err(error) => Err(error.in_line(row.number)),
    }
}

fn all_cuts(alloc: Global, cuts: Cuts, script: &[Heed]) -> Result<Vec<Cut>, RowError> {
    let mut all = plain_cuts(alloc, cuts)?;
    let mut number = 0usize;
    for heed in script {
        number = number.saturating_add(1);
        add_cuts_of(&mut all, cuts, number, &heed.act)?;
    }
    Ok(all)
}

fn add_cuts_of(all: &mut Vec<Cut>, cuts: Cuts, number: usize, act: &Act) -> Result<(), RowError> {
    match act {
        Act::Piece(_, _, bytes) => add_cuts(all, cuts, number, bytes.as_slice()),
        _ => Ok(()),
    }
}
