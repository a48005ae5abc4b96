//! What a whole run is handed: its words, its files, and which calls of what is outside fail.
use px_rows::{RowError, read_u32, unescape};
use std::alloc::Global;

/// What a run is handed.
#[derive(Drop)]
pub struct Outside {
    /// The words of the command line.
    pub words: Vec<String>,
    /// The options file `o`, and whether there is none.
    pub(crate) options: Vec<u8>,
    pub(crate) is_absent: bool,
    /// The other files.
    pub(crate) files: Vec<(String, Vec<u8>)>,
    pub(crate) net_fails: Vec<u64>,
    pub(crate) file_fails: Vec<u64>,
    pub(crate) sink_fails: Vec<u64>,
    pub(crate) note_fails: Vec<u64>,
    /// The moment behind which all is heard.
    pub(crate) moment: u64,
}

/// The words `serve o`, an options file with a mode alone, and calls that do not fail.
pub(crate) fn new_outside(alloc: Global) -> Result<Outside, RowError> {
    let words = split_words(alloc, "serve o")?;
    let options = Vec::from_slice(alloc, b"mode = \"reverse:http://h\"\n")?;
    Ok(Outside {
        words,
        options,
        is_absent: false,
        files: Vec::new(alloc),
        net_fails: Vec::new(alloc),
        file_fails: Vec::new(alloc),
        sink_fails: Vec::new(alloc),
        note_fails: Vec::new(alloc),
        moment: 0,
    })
}

fn split_words(alloc: Global, text: &str) -> Result<Vec<String>, RowError> {
    let mut words = Vec::new(alloc);
    for word in text.split(' ') {
        if !word.is_empty() {
            add_word(alloc, &mut words, word)?;
        }
    }
    Ok(words)
}

fn add_word(alloc: Global, words: &mut Vec<String>, text: &str) -> Result<(), RowError> {
    let word = read_word(alloc, text)?;
    words.push(word)?;
    Ok(())
}

// A word, in which escapes stand for bytes: so `\x20` stands for a blank.
fn read_word(alloc: Global, text: &str) -> Result<String, RowError> {
    let bytes = unescape(alloc, text)?;
    match str::from_utf8(&bytes) {
        Ok(word) => Ok(String::from_str(alloc, word)?),
        Err(_) => Err(RowError::Bad),
    }
}

/// Reads the line where it says what a run is handed, and whether it does.
pub(crate) fn read_outside(
    alloc: Global,
    outside: &mut Outside,
    text: &str,
) -> Result<bool, RowError> {
    if let Some(words) = behind(text, "words") {
        outside.words = split_words(alloc, words)?;
        return Ok(true);
    }
    if let Some(file) = text.strip_prefix("file ") {
        add_file(alloc, &mut outside.files, file)?;
        return Ok(true);
    }
    if matches!(text, "no options") {
        outside.is_absent = true;
        return Ok(true);
    }
    if read_options(alloc, &mut outside.options, text)? {
        return Ok(true);
    }
    if let Some(moment) = text.strip_prefix("begins at moment ") {
        outside.moment = read_moment(moment)?;
        return Ok(true);
    }
    read_fails(outside, text)
}

// What stands behind the word and a blank, which may be nothing.
fn behind<'a>(text: &'a str, word: &str) -> Option<&'a str> {
    match text.strip_prefix(word) {
        Some("") => Some(""),
        Some(rest) => rest.strip_prefix(" "),
        None => None,
    }
}

// `options TEXT` is the whole file, and `option TEXT` a further line of it, as it is.
fn read_options(alloc: Global, options: &mut Vec<u8>, text: &str) -> Result<bool, RowError> {
    if let Some(text) = behind(text, "options") {
        *options = unescape(alloc, text)?;
        return Ok(true);
    }
    match text.strip_prefix("option ") {
        Some(line) => {
            options.extend_from_slice(line.as_bytes())?;
            options.push(b'\n')?;
            Ok(true)
        }
        None => Ok(false),
    }
}

// `PATH TEXT`, or a path alone for an empty file.
fn add_file(alloc: Global, files: &mut Vec<(String, Vec<u8>)>, file: &str) -> Result<(), RowError> {
    match file.split_once(' ') {
        Some((path, text)) => {
            let bytes = unescape(alloc, text)?;
            push_file(alloc, files, path, bytes)
        }
        None => push_file(alloc, files, file, Vec::new(alloc)),
    }
}

/// Adds a file of this path and these bytes.
pub(crate) fn push_file(
    alloc: Global,
    files: &mut Vec<(String, Vec<u8>)>,
    path: &str,
    bytes: Vec<u8>,
) -> Result<(), RowError> {
    let path = String::from_str(alloc, path)?;
    files.push((path, bytes))?;
    Ok(())
}

fn read_moment(text: &str) -> Result<u64, RowError> {
    match text.parse::<u64>() {
        Ok(moment) => Ok(moment),
        Err(_) => Err(RowError::Bad),
    }
}

fn read_fails(outside: &mut Outside, text: &str) -> Result<bool, RowError> {
    if let Some(calls) = text.strip_prefix("net fails at ") {
        return read_calls(calls, &mut outside.net_fails);
    }
    if let Some(calls) = text.strip_prefix("files fail at ") {
        return read_calls(calls, &mut outside.file_fails);
    }
    if let Some(calls) = text.strip_prefix("sink fails at ") {
        return read_calls(calls, &mut outside.sink_fails);
    }
    match text.strip_prefix("notes fail at ") {
        Some(calls) => read_calls(calls, &mut outside.note_fails),
        None => Ok(false),
    }
}

fn read_calls(text: &str, calls: &mut Vec<u64>) -> Result<bool, RowError> {
    for number in text.split(", ") {
        let number = read_u32(number)?;
        calls.push(u64::from(number))?;
    }
    Ok(true)
}
