//! A row of one line, played and compared.
use crate::{files, networks, options, sinks, wires};
use px_rows::{Cut, Row, RowError, Shown, Trouble, report};
use std::alloc::Global;

/// Plays the row. Where it differs the answer is what was wanted and what came. The row's line is in trouble where it has no form of a row of its kind,
/// and where no player here has that kind.
pub fn play(alloc: Global, row: &Row) -> Result<Option<String>, Trouble> {
    match play_line(alloc, row) {
        Ok(answer) => Ok(answer),
        Err(error) => Err(error.in_line(row.number)),
    }
}

fn play_line(alloc: Global, row: &Row) -> Result<Option<String>, RowError> {
    let [line] = row.lines.as_slice() else {
        return Err(RowError::Bad);
    };
    match line.text.as_str().split_once("=> ") {
        Some((input, wanted)) => compare(alloc, row.kind.as_str(), input.trim_end(), wanted),
        None => Err(RowError::Bad),
    }
}

fn compare(
    alloc: Global,
    kind: &str,
    input: &str,
    wanted: &str,
) -> Result<Option<String>, RowError> {
    let mut out = Shown::new(alloc);
    answer(alloc, kind, input, &mut out)?;
    let came = out.finish()?;
    if came.as_str() == wanted {
        return Ok(None);
    }
    Ok(Some(report(alloc, "", Cut::Whole, wanted, came.as_str())?))
}

// What comes of the input of a row of this kind.
fn answer(alloc: Global, kind: &str, input: &str, out: &mut Shown) -> Result<(), RowError> {
    match kind {
        "sinks" => sinks::answer(alloc, input, out),
        "files" => files::answer(alloc, input, out),
        "networks" => networks::answer(alloc, input, out),
        "wires" => wires::answer(alloc, input, out),
        "options" => options::answer(alloc, input, false, out),
        "options in full" => options::answer(alloc, input, true, out),
        _ => Err(RowError::Bad),
    }
}
