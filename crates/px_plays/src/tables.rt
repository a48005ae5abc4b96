//! A row of one line, played at its cuts and compared.
use crate::answers::{answer, is_cut};
use px_rows::{Cut, Cuts, Row, RowError, Shown, Trouble, add_cuts, plain_cuts, report, unescape};
use std::alloc::Global;

/// Plays the row of one line at all of its cuts. Where it differs the answer is what was wanted and what came. The row's line is in trouble where it has
/// no form of a row of its kind, and where no player here has that kind.
pub fn play(alloc: Global, row: &Row) -> Result<Option<String>, Trouble> {
    match play_line(alloc, row) {
        Ok(answer) => Ok(answer),
        Err(error) => Err(error.in_line(row.number)),
    }
}

fn play_line(alloc: Global, row: &Row) -> Result<Option<String>, RowError> {
    let [line] = row.lines.as_slice() else {
        return Err(RowError::Bad);
    };
    let (input, wanted) = halves(line.text.as_str())?;
    let bytes = unescape(alloc, input)?;
    let kind = row.kind.as_str();
    let cuts = cuts_of(alloc, kind, row.cuts, bytes.as_slice())?;
    play_cuts(alloc, kind, bytes.as_slice(), wanted, cuts.as_slice())
}

// The two halves of a row of one line.
fn halves(text: &str) -> Result<(&str, &str), RowError> {
    if let Some(answer) = text.strip_prefix("=>") {
        return Ok(("", answer.trim_start()));
    }
    if let Some(halves) = text.split_once(" => ") {
        return Ok(halves);
    }
    match text.strip_suffix(" =>") {
        Some(input) => Ok((input, "")),
        None => Err(RowError::Bad),
    }
}

fn cuts_of(alloc: Global, kind: &str, cuts: Cuts, bytes: &[u8]) -> Result<Vec<Cut>, RowError> {
    if !is_cut(kind) {
        return plain_cuts(alloc, Cuts::Nowhere);
    }
    let mut all = plain_cuts(alloc, cuts)?;
    add_cuts(&mut all, cuts, 0, bytes)?;
    Ok(all)
}

fn play_cuts(
    alloc: Global,
    kind: &str,
    bytes: &[u8],
    wanted: &str,
    cuts: &[Cut],
) -> Result<Option<String>, RowError> {
    for cut in cuts {
        if let Some(report) = play_cut(alloc, kind, bytes, wanted, *cut)? {
            return Ok(Some(report));
        }
    }
    Ok(None)
}

fn play_cut(
    alloc: Global,
    kind: &str,
    bytes: &[u8],
    wanted: &str,
    cut: Cut,
) -> Result<Option<String>, RowError> {
    let mut out = Shown::new(alloc);
    answer(alloc, kind, bytes, cut, &mut out)?;
    let came = out.finish()?;
    if came.as_str() == wanted {
        return Ok(None);
    }
    Ok(Some(report(alloc, "", cut, wanted, came.as_str())?))
}
