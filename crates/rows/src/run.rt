//! Whole runs of the program: its words, what it hears and says, what it prints, and its status.
use px_app::run;
use px_diagrams::{Diagram, hand, show_run};
use px_rows::{Cut, RowError, Shown};
use std::alloc::Global;

/// Shows what comes of the diagram.
pub(crate) fn play_run(
    alloc: Global,
    diagram: &Diagram,
    cut: Cut,
    out: &mut Shown,
) -> Result<(), RowError> {
    let mut handed = hand(alloc, diagram, cut)?;
    let status = run(
        alloc,
        &diagram.outside.words,
        &mut handed.net,
        &mut handed.files,
        &mut handed.out,
        &mut handed.notes,
        Vec::new(alloc),
        [0; 32],
    );
    let shown = show_run(diagram, &mut handed, status, out);
    drop(handed);
    shown
}
