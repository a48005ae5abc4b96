//! Plays rows: conversations, runs, messages and values that stand in files, with what is to come of them.
//!
//! With words it plays the files of these names, else all files `*.rows` of the folder that it runs in. It prints a line
//! for each file and each row that differs, whole, and fails where there is no file, where a row differs and where a line
//! has no form of a row. docs/rows.md has the notation.
//!
//! With `measure` as its first word it plays nothing: it does what the other words ask, and prints a line that tells it, so that
//! what the core costs can be taken from outside. docs/measured.md has the words. A file of that name is `./measure`.
#![tactic(auto)]

mod conversation;
mod measure;
mod play;
mod run;

use measure::measure_by;
use play::play_row;
use px_rows::{Row, Trouble, read_sheet};
use std::alloc::Global;
use std::process::ExitCode;
use std::{env, fs, io};

// What may stand behind the word `measure`.
const MEASURE_FORMS: &str =
    "rows measure whole|bytes FIELDS TIMES, [conversation] counted|chunked SIZE PIECES, pipelined COUNT, or clients COUNT";

/// How a file was played.
#[derive(Clone, Copy)]
enum Verdict {
    Same,
    Differs,
    NoMemory,
}

fn read_words(rt: &HostRuntime) -> io::Result<Vec<String>> {
    let mut words = Vec::new(rt.alloc());
    for word in env::args(rt)?.skip(1) {
        words.push(word)?;
    }
    Ok(words)
}

// All files of rows in the folder, sorted.
fn list_folder(rt: &HostRuntime) -> io::Result<Vec<String>> {
    let mut names = Vec::new(rt.alloc());
    for entry in fs::read_dir(rt, ".")? {
        let entry = entry?;
        if entry.file_name().ends_with(".rows") {
            names.push(String::from_str(rt.alloc(), entry.file_name())?)?;
        }
    }
    names.sort_unstable();
    Ok(names)
}

// The name of a file without its folder and its ending.
fn title_of(path: &str) -> &str {
    let name = match path.rsplit_once('/') {
        Some((_, name)) => name,
        None => path,
    };
    match name.strip_suffix(".rows") {
        Some(title) => title,
        None => name,
    }
}

// Plays the rows, and prints those that differ and a line for all.
fn play_rows(rt: &HostRuntime, title: &str, rows: &[Row]) -> io::Result<Verdict> {
    let mut differ = 0usize;
    for row in rows {
        match play_row(rt.alloc(), row) {
            Ok(None) => {}
            Ok(Some(report)) => {
                differ = differ.saturating_add(1);
                print_report(rt, title, row, report.as_str())?;
            }
            Err(trouble) => return print_trouble(rt, title, trouble),
        }
    }
    let count = rows.len();
    println!(rt; "{title}: {count} rows, {differ} differ")?;
    Ok(if differ == 0 {
        Verdict::Same
    } else {
        Verdict::Differs
    })
}

fn print_report(rt: &HostRuntime, title: &str, row: &Row, report: &str) -> io::Result<()> {
    let number = row.number;
    let name = row.name.as_str();
    println!(rt; "{title}, line {number}: {name}")?;
    println!(rt; "{report}")?;
    Ok(())
}

fn print_trouble(rt: &HostRuntime, title: &str, trouble: Trouble) -> io::Result<Verdict> {
    match trouble {
        Trouble::Line(number) => {
            println!(rt; "{title}, line {number}: no line of a row")?;
            Ok(Verdict::Differs)
        }
        Trouble::NoMemory => Ok(Verdict::NoMemory),
    }
}

fn play_file(rt: &HostRuntime, path: &str) -> io::Result<Verdict> {
    let text = match fs::read_to_string(rt, path) {
        Ok(text) => text,
        Err(_) => {
            println!(rt; "{path}: not read")?;
            return Ok(Verdict::Differs);
        }
    };
    let title = title_of(path);
    match read_sheet(rt.alloc(), text.as_str()) {
        Ok(rows) => play_rows(rt, title, rows.as_slice()),
        Err(trouble) => print_trouble(rt, title, trouble),
    }
}

// The worse of two verdicts.
fn worse(first: Verdict, second: Verdict) -> Verdict {
    match first {
        Verdict::Same => second,
        Verdict::Differs => match second {
            Verdict::NoMemory => second,
            _ => first,
        },
        Verdict::NoMemory => first,
    }
}

fn status_of(verdict: Verdict) -> u8 {
    match verdict {
        Verdict::Same => 0,
        Verdict::Differs => 1,
        Verdict::NoMemory => 8,
    }
}

// Plays the files of these names.
fn play_files(rt: &HostRuntime, names: &[String]) -> io::Result<ExitCode> {
    if names.is_empty() {
        println!(rt; "no file *.rows")?;
        return Ok(ExitCode::from(2));
    }
    let mut verdict = Verdict::Same;
    for name in names {
        verdict = worse(verdict, play_file(rt, name.as_str())?);
    }
    Ok(ExitCode::from(status_of(verdict)))
}

fn play_folder(rt: &HostRuntime) -> io::Result<ExitCode> {
    let names = list_folder(rt)?;
    play_files(rt, names.as_slice())
}

// Does what the words behind `measure` ask, and prints the line that tells it.
fn print_measure(rt: &HostRuntime, words: &[String]) -> io::Result<ExitCode> {
    match measure_by(rt.alloc(), words) {
        Ok(Some(line)) => {
            println!(rt; "{line}")?;
            Ok(ExitCode::SUCCESS)
        }
        Ok(None) => {
            println!(rt; "{MEASURE_FORMS}")?;
            Ok(ExitCode::from(2))
        }
        Err(_) => Ok(ExitCode::from(8)),
    }
}

fn main(rt: HostRuntime) -> io::Result<ExitCode> {
    let words = read_words(&rt)?;
    match words.as_slice() {
        [] => play_folder(&rt),
        [mode, rest @ ..] if mode.as_str() == "measure" => print_measure(&rt, rest),
        names => play_files(&rt, names),
    }
}
