//! Which file a rule of map local means.
//!
//! A rule whose path ends with a slash means a file below that directory, by what follows its match in the URL: without the
//! query, without slashes in front, and with `_` in the place of what no file's name should have. So no byte of a request
//! becomes a file's name but letters, digits and `-_.=(),/`, and a path with the segment `..` is read never.
ghost use Rattle.std.specs.Prelude.{◌≡◌, ◌<◌, ◌++◌, ◌∷◌, [], true, map, option_map, string_bytes, bytes_eq, codes, IfOk, OnOk};
ghost use Rattle.px_map.specs.Served.{below, climbs, ends_path, ends_with_slash, file_below, file_of, is_kept, is_letter_or_digit, is_open, kept, unrooted, without_query};

use px_text::NoMemory;
use std::alloc::Global;

// The file that a rule with this path means where this follows its match; none where its path would lead up.
pub(crate) fn file_of(alloc: Global, path: &str, tail: &[u8]) -> Result<Option<String>, NoMemory>
    ensures { IfOk result (λ file. option_map string_bytes file ≡ file_of path.now tail.now) }
{
    if !ends_with_slash(path.as_bytes()) {
        return Ok(Some(String::from_str(alloc, path)?));
    }
    let name = below(alloc, tail)?;
    file_below(alloc, path, name.as_str())
}

// The file of that name below the directory, unless its path leads up.
fn file_below(alloc: Global, directory: &str, name: &str) -> Result<Option<String>, NoMemory>
    ensures { IfOk result (λ file. option_map string_bytes file ≡ file_below directory.now name.now) }
{
    if climbs(name.as_bytes()) {
        return Ok(None);
    }
    let mut file = String::from_str(alloc, directory)?;
    file.push_str(name)?;
    Ok(Some(file))
}

// The file below a rule's directory that is meant by what follows its match in the URL.
fn below(alloc: Global, tail: &[u8]) -> Result<String, NoMemory>
    ensures { IfOk result (λ name. string_bytes name ≡ below tail.now) }
{
    let mut name = String::new(alloc);
    push_kept(&mut name, unrooted(without_query(tail)))?;
    if is_open(name.as_bytes()) {
        name.push_str("index.html")?;
    }
    Ok(name)
}

// Appends the text, with `_` in the place of what a file's name may not have.
fn push_kept(name: &mut String, text: &[u8]) -> Result<(), NoMemory>
    ensures { OnOk result (string_bytes name.new ≡ string_bytes name.old ++ map kept text.now) }
{
    for byte in text {
        push_byte(name, kept(*byte))?;
    }
    Ok(())
}

fn push_byte(name: &mut String, byte: u8) -> Result<(), NoMemory>
    requires { byte < 128 }
    ensures { OnOk result (string_bytes name.new ≡ string_bytes name.old ++ byte ∷ []) }
{
    name.push(char::from(byte))?;
    Ok(())
}

// The byte, or `_` in its place.
fn kept(byte: u8) -> u8
    ensures value { result ≡ kept byte }
    ensures ascii { result < 128 }
{
    if is_kept(byte) { byte } else { b'_' }
}

fn is_kept(byte: u8) -> bool
    ensures value { result ≡ is_kept byte }
    ensures ascii { result ≡ true → byte < 128 }
{
    is_letter_or_digit(byte)
        || matches!(byte, b'-' | b'_' | b'.' | b'=' | b'(' | b')' | b',' | b'/')
}

fn is_letter_or_digit(byte: u8) -> bool
    ensures value { result ≡ is_letter_or_digit byte }
    ensures ascii { result ≡ true → byte < 128 }
{
    matches!(byte, b'0'..=b'9' | b'A'..=b'Z' | b'a'..=b'z')
}

// The text names a directory.
fn is_open(text: &[u8]) -> bool
    ensures { result ≡ is_open text.now }
{
    text.is_empty() || ends_with_slash(text)
}

// The last byte is a slash.
fn ends_with_slash(text: &[u8]) -> bool
    ensures { result ≡ ends_with_slash text.now }
{
    match text.last() {
        Some(last) => *last == b'/',
        None => false,
    }
}

// A segment of the path is `..`.
fn climbs(text: &[u8]) -> bool
    ensures { result ≡ climbs text.now }
{
    text.split(|b| *b == b'/').any(|segment| leads_up(segment))
}

fn leads_up(segment: &[u8]) -> bool
    ensures { result ≡ bytes_eq segment.now (codes "..") }
{
    segment == b"..".as_slice()
}

// The text up to the query or the fragment.
fn without_query(text: &[u8]) -> &[u8]
    ensures { result.now ≡ without_query text.now }
{
    for end in 0..text.len() {
        if ends_path(text[end]) {
            return &text[..end];
        }
    }
    text
}

// The byte begins a query or a fragment.
fn ends_path(byte: u8) -> bool
    ensures { result ≡ ends_path byte }
{
    matches!(byte, b'?' | b'#')
}

// The text without the slashes at its start.
fn unrooted(text: &[u8]) -> &[u8]
    ensures { result.now ≡ unrooted text.now }
{
    let mut rest = text;
    while let [b'/', more @ ..] = rest {
        rest = more;
    }
    rest
}
