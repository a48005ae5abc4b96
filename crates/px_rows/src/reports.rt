//! What is shown of a row that differs.
use crate::{Cut, RowError, Shown};
use std::alloc::Global;

/// How the row was played, what was wanted, and what came: at this cut, and at the hook of this name, if any.
pub fn report(
    alloc: Global,
    at: &str,
    cut: Cut,
    wanted: &str,
    came: &str,
) -> Result<String, RowError> {
    let mut out = Shown::new(alloc);
    show_cut(&mut out, cut);
    if !at.is_empty() {
        out.text(", at ");
        out.text(at);
    }
    out.text("\nwanted:\n");
    show_indented(&mut out, wanted);
    out.text("came:\n");
    show_indented(&mut out, came);
    out.finish()
}

fn show_cut(out: &mut Shown, cut: Cut) {
    match cut {
        Cut::Whole => out.text("played whole"),
        Cut::Bytes => out.text("played byte by byte"),
        Cut::At(line, place) => {
            out.text("played with piece ");
            out.number(line as u64);
            out.text(" cut at ");
            out.number(place as u64);
        }
    }
}

fn show_indented(out: &mut Shown, text: &str) {
    for line in text.lines() {
        out.text("  ");
        show_shortened(out, line);
        out.text("\n");
    }
}

// The line. Where it is very long, its two ends.
fn show_shortened(out: &mut Shown, line: &str) {
    let len = line.len();
    let ends = (line.get(..500), line.get(len.saturating_sub(500)..));
    match ends {
        (Some(front), Some(back)) if len > 2000 => {
            out.text(front);
            out.text(" .. of ");
            out.number(len as u64);
            out.text(" bytes .. ");
            out.text(back);
        }
        _ => out.text(line),
    }
}
