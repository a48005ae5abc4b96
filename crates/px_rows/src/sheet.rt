//! The rows of a file, read from its lines.
use crate::text::{fill, fill_number, read_usize, repeat};
use crate::{Cuts, RowError, Trouble};
use std::alloc::Global;

/// A line of a row, and its number in the file, counted from 1.
#[derive(Drop)]
pub struct Line {
    pub number: usize,
    pub text: String,
}

/// A row: its name, the number of its first line, what kind it is of, how it is cut, and its lines.
#[derive(Drop)]
pub struct Row {
    pub name: String,
    pub number: usize,
    pub kind: String,
    pub cuts: Cuts,
    pub lines: Vec<Line>,
}

// The numbers for each of which a block of lines is written, and the block.
#[derive(Drop)]
struct Block {
    first: usize,
    last: usize,
    lines: Vec<Line>,
}

// What was read so far.
#[derive(Drop)]
struct Reader {
    alloc: Global,
    kind: String,
    cuts: Cuts,
    // The texts that `{}` and `{2}` stand for.
    repeats: Vec<String>,
    block: Option<Block>,
    rows: Vec<Row>,
}

/// The rows that stand in this text.
pub fn read_sheet(alloc: Global, text: &str) -> Result<Vec<Row>, Trouble> {
    let mut reader = Reader {
        alloc,
        kind: String::new(alloc),
        cuts: Cuts::Bytes,
        repeats: Vec::new(alloc),
        block: None,
        rows: Vec::new(alloc),
    };
    match read_lines(&mut reader, text) {
        Ok(()) => Ok(reader.rows),
        Err(trouble) => {
            drop(reader);
            Err(trouble)
        }
    }
}

fn read_lines(reader: &mut Reader, text: &str) -> Result<(), Trouble> {
    let mut number = 0usize;
    for line in text.lines() {
        number = number.saturating_add(1);
        match read_line(reader, number, line) {
            Ok(()) => {}
            Err(error) => return Err(error.in_line(number)),
        }
    }
    if reader.block.is_some() {
        return Err(Trouble::Line(number));
    }
    Ok(())
}

fn read_line(reader: &mut Reader, number: usize, line: &str) -> Result<(), RowError> {
    let text = line.trim_start();
    if text.is_empty() || text.starts_with("#") {
        return Ok(());
    }
    if let Some(kind) = line.strip_prefix("kind ") {
        return begin_kind(reader, kind);
    }
    if let Some(cuts) = line.strip_prefix("cuts ") {
        return set_cuts(reader, cuts);
    }
    if is_diagram(reader.kind.as_str()) {
        return read_of_diagram(reader, number, line, text);
    }
    read_of_table(reader, number, text)
}

fn begin_kind(reader: &mut Reader, kind: &str) -> Result<(), RowError> {
    if reader.block.is_some() {
        return Err(RowError::Bad);
    }
    reader.kind = String::from_str(reader.alloc, kind)?;
    reader.repeats.clear();
    Ok(())
}

fn set_cuts(reader: &mut Reader, text: &str) -> Result<(), RowError> {
    reader.cuts = read_cuts(text)?;
    Ok(())
}

fn read_cuts(text: &str) -> Result<Cuts, RowError> {
    match text {
        "nowhere" => Ok(Cuts::Nowhere),
        "bytes" => Ok(Cuts::Bytes),
        "everywhere" => Ok(Cuts::Everywhere),
        _ => read_near(text),
    }
}

fn read_near(text: &str) -> Result<Cuts, RowError> {
    match text.strip_prefix("near ") {
        Some(near) => {
            let near = read_usize(near)?;
            Ok(Cuts::Near(near))
        }
        None => Err(RowError::Bad),
    }
}

// Whether a row of this kind is a diagram of many lines. One of any other kind is a line.
fn is_diagram(kind: &str) -> bool {
    matches!(kind, "conversations" | "runs")
}

fn read_of_diagram(
    reader: &mut Reader,
    number: usize,
    line: &str,
    text: &str,
) -> Result<(), RowError> {
    if let Some(name) = line.strip_prefix("row ") {
        return begin_diagram(reader, number, name);
    }
    if let Some(name) = text.strip_prefix("like ") {
        return add_like(reader, name);
    }
    if let Some(repeated) = text.strip_prefix("repeat ") {
        return add_repeat(reader, repeated);
    }
    read_in_diagram(reader, number, text)
}

fn read_in_diagram(reader: &mut Reader, number: usize, text: &str) -> Result<(), RowError> {
    if let Some(numbers) = text.strip_prefix("each ") {
        return begin_block(reader, numbers);
    }
    match text {
        "end each" => end_block(reader),
        _ => add_line(reader, number, text),
    }
}

fn begin_diagram(reader: &mut Reader, number: usize, name: &str) -> Result<(), RowError> {
    if reader.block.is_some() {
        return Err(RowError::Bad);
    }
    reader.repeats.clear();
    begin_row(reader, number, name)
}

fn begin_row(reader: &mut Reader, number: usize, name: &str) -> Result<(), RowError> {
    let row = new_row(
        reader.alloc,
        number,
        name,
        reader.kind.as_str(),
        reader.cuts,
    )?;
    reader.rows.push(row)?;
    Ok(())
}

fn new_row(
    alloc: Global,
    number: usize,
    name: &str,
    kind: &str,
    cuts: Cuts,
) -> Result<Row, RowError> {
    let name = String::from_str(alloc, name)?;
    let kind = String::from_str(alloc, kind)?;
    Ok(Row {
        name,
        number,
        kind,
        cuts,
        lines: Vec::new(alloc),
    })
}

fn add_line(reader: &mut Reader, number: usize, text: &str) -> Result<(), RowError> {
    match &mut reader.block {
        Some(block) => {
            let text = String::from_str(reader.alloc, text)?;
            push_line(&mut block.lines, number, text)
        }
        None => add_filled(reader, number, text),
    }
}

fn push_line(lines: &mut Vec<Line>, number: usize, text: String) -> Result<(), RowError> {
    lines.push(Line { number, text })?;
    Ok(())
}

fn add_filled(reader: &mut Reader, number: usize, text: &str) -> Result<(), RowError> {
    let text = fill_all(reader.alloc, text, reader.repeats.as_slice())?;
    match reader.rows.last_mut() {
        Some(row) => push_line(&mut row.lines, number, text),
        None => Err(RowError::Bad),
    }
}

fn fill_all(alloc: Global, text: &str, repeats: &[String]) -> Result<String, RowError> {
    match repeats {
        [] => Ok(String::from_str(alloc, text)?),
        [first] => fill(alloc, text, "{}", first.as_str()),
        [first, second, ..] => fill_both(alloc, text, first.as_str(), second.as_str()),
    }
}

fn fill_both(alloc: Global, text: &str, first: &str, second: &str) -> Result<String, RowError> {
    let text = fill(alloc, text, "{}", first)?;
    fill(alloc, text.as_str(), "{2}", second)
}

fn add_repeat(reader: &mut Reader, text: &str) -> Result<(), RowError> {
    let repeated = read_repeat(reader.alloc, text)?;
    reader.repeats.push(repeated)?;
    Ok(())
}

fn read_repeat(alloc: Global, text: &str) -> Result<String, RowError> {
    match text.rsplit_once(' ') {
        Some((unit, count)) => {
            let count = read_usize(count)?;
            repeat(alloc, unit, count)
        }
        None => Err(RowError::Bad),
    }
}

// The lines of the row of this name, which stands above, but for what it says of hooks.
fn add_like(reader: &mut Reader, name: &str) -> Result<(), RowError> {
    let lines = lines_of(reader.alloc, reader.rows.as_slice(), name)?;
    add_lines(&mut reader.rows, lines)
}

// Adds the lines to the last row.
fn add_lines(rows: &mut Vec<Row>, lines: Vec<Line>) -> Result<(), RowError> {
    match rows.last_mut() {
        Some(row) => Ok(row.lines.extend(lines)?),
        None => {
            drop(lines);
            Err(RowError::Bad)
        }
    }
}

fn lines_of(alloc: Global, rows: &[Row], name: &str) -> Result<Vec<Line>, RowError> {
    for row in rows {
        if row.name.as_str() == name {
            return copy_lines(alloc, row.lines.as_slice());
        }
    }
    Err(RowError::Bad)
}

fn copy_lines(alloc: Global, lines: &[Line]) -> Result<Vec<Line>, RowError> {
    let mut copies = Vec::new(alloc);
    for line in lines {
        let text = line.text.as_str();
        if !is_of_hooks(text) {
            copy_line(alloc, &mut copies, line.number, text)?;
        }
    }
    Ok(copies)
}

fn copy_line(
    alloc: Global,
    lines: &mut Vec<Line>,
    number: usize,
    text: &str,
) -> Result<(), RowError> {
    let text = String::from_str(alloc, text)?;
    push_line(lines, number, text)
}

fn is_of_hooks(text: &str) -> bool {
    text.starts_with("hook ") || text.starts_with("at ")
}

fn begin_block(reader: &mut Reader, numbers: &str) -> Result<(), RowError> {
    if reader.block.is_some() {
        return Err(RowError::Bad);
    }
    let block = read_block(reader.alloc, numbers)?;
    reader.block = Some(block);
    Ok(())
}

fn read_block(alloc: Global, numbers: &str) -> Result<Block, RowError> {
    match numbers.split_once(' ') {
        Some((first, last)) => new_block(alloc, read_usize(first), read_usize(last)),
        None => Err(RowError::Bad),
    }
}

fn new_block(
    alloc: Global,
    first: Result<usize, RowError>,
    last: Result<usize, RowError>,
) -> Result<Block, RowError> {
    match (first, last) {
        (Ok(first), Ok(last)) => Ok(Block {
            first,
            last,
            lines: Vec::new(alloc),
        }),
        _ => Err(RowError::Bad),
    }
}

fn end_block(reader: &mut Reader) -> Result<(), RowError> {
    match reader.block.take() {
        Some(block) => {
            let lines = write_block(reader.alloc, &block);
            drop(block);
            add_lines(&mut reader.rows, lines?)
        }
        None => Err(RowError::Bad),
    }
}

fn write_block(alloc: Global, block: &Block) -> Result<Vec<Line>, RowError> {
    let mut lines = Vec::new(alloc);
    for number in block.first..block.last.saturating_add(1) {
        write_lines(alloc, block.lines.as_slice(), number, &mut lines)?;
    }
    Ok(lines)
}

fn write_lines(
    alloc: Global,
    block: &[Line],
    number: usize,
    lines: &mut Vec<Line>,
) -> Result<(), RowError> {
    for line in block {
        let text = fill_number(alloc, line.text.as_str(), number)?;
        push_line(lines, line.number, text)?;
    }
    Ok(())
}

// A row of one line. What is repeated is so in this line alone.
fn read_of_table(reader: &mut Reader, number: usize, text: &str) -> Result<(), RowError> {
    if let Some(repeated) = text.strip_prefix("repeat ") {
        return add_repeat(reader, repeated);
    }
    begin_row(reader, number, text)?;
    add_filled(reader, number, text)?;
    reader.repeats.clear();
    Ok(())
}
