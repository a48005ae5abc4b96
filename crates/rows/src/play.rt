//! A row of any kind, played at its cuts and compared.
use crate::conversation::play_conversation;
use crate::run::play_run;
use px_diagrams::{Diagram, cuts_of, hooks_of, read_diagram};
use px_rows::{Cut, Row, RowError, Shown, Trouble, report};
use std::alloc::Global;

/// Plays the row at all of its cuts. Where it differs the answer is what was wanted and what came.
pub(crate) fn play_row(alloc: Global, row: &Row) -> Result<Option<String>, Trouble> {
    match row.kind.as_str() {
        "conversations" | "runs" => play_diagram(alloc, row),
        "sinks" | "files" | "networks" | "wires" | "options" | "options in full" => {
            px_scenarios::play(alloc, row)
        }
        _ => px_plays::play(alloc, row),
    }
}

fn play_diagram(alloc: Global, row: &Row) -> Result<Option<String>, Trouble> {
    let diagram = read_diagram(alloc, row)?;
    let report = play_hooks(alloc, row, &diagram);
    drop(diagram);
    report
}

// Plays the diagram once, or once at each hook of its line `at`.
fn play_hooks(alloc: Global, row: &Row, diagram: &Diagram) -> Result<Option<String>, Trouble> {
    if diagram.at.is_empty() {
        return play_cuts(alloc, row, diagram, "");
    }
    for hook in &diagram.at {
        let report = play_cuts(alloc, row, diagram, hook.as_str())?;
        if report.is_some() {
            return Ok(report);
        }
    }
    Ok(None)
}

fn play_cuts(
    alloc: Global,
    row: &Row,
    diagram: &Diagram,
    at: &str,
) -> Result<Option<String>, Trouble> {
    let cuts = cuts_of(alloc, row, diagram)?;
    for cut in &cuts {
        let report = play_cut(alloc, row, diagram, at, *cut)?;
        if report.is_some() {
            return Ok(report);
        }
    }
    Ok(None)
}

fn play_cut(
    alloc: Global,
    row: &Row,
    diagram: &Diagram,
    at: &str,
    cut: Cut,
) -> Result<Option<String>, Trouble> {
    let mut out = Shown::new(alloc);
    play_once(alloc, row, diagram, at, cut, &mut out)?;
    match compare(alloc, diagram, at, cut, out) {
        Ok(report) => Ok(report),
        Err(error) => Err(error.in_line(row.number)),
    }
}

fn compare(
    alloc: Global,
    diagram: &Diagram,
    at: &str,
    cut: Cut,
    out: Shown,
) -> Result<Option<String>, RowError> {
    let came = out.finish()?;
    let wanted = diagram.wanted.as_str();
    if came.as_str() == wanted {
        return Ok(None);
    }
    let report = report(alloc, at, cut, wanted, came.as_str())?;
    Ok(Some(report))
}

fn play_once(
    alloc: Global,
    row: &Row,
    diagram: &Diagram,
    at: &str,
    cut: Cut,
    out: &mut Shown,
) -> Result<(), Trouble> {
    match row.kind.as_str() {
        "runs" => match play_run(alloc, diagram, cut, out) {
            Ok(()) => Ok(()),
            Err(error) => Err(error.in_line(row.number)),
        },
        _ => {
            let hooks = hooks_of(alloc, diagram, at)?;
            let played = play_conversation(alloc, row.number, diagram, hooks.as_slice(), cut, out);
            drop(hooks);
            played
        }
    }
}
