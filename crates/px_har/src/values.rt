//! Values of JSON that several parts of an entry have, and members of objects.
ghost use Rattle.std.specs.Prelude.{◌≡◌, IfOk, IfSome, string_bytes};
ghost use Rattle.serde_json.specs.Data.{string};
ghost use Rattle.px_har.specs.Entry.{characters, count_value, empty_list, named_value, text_value, unknown_size};
ghost use Rattle.px_har.specs.Puts.{Puts, PutsMember};

use json::Writer;
use px_text::NoMemory;
use std::alloc::Global;
use std::str;

/// Bytes as text: each is the character of the same number.
pub(crate) fn put_text(alloc: Global, writer: &mut Writer, bytes: &[u8]) -> Result<(), NoMemory>
    ensures { Puts result writer.old writer.new (text_value bytes.now) }
{
    match ascii_text(bytes) {
        Some(text) => put_string(writer, text),
        None => put_characters(alloc, writer, bytes),
    }
}

pub(crate) fn put_string(writer: &mut Writer, text: &str) -> Result<(), NoMemory>
    ensures { Puts result writer.old writer.new (string text.now) }
{
    writer.string(text)?;
    Ok(())
}

// The bytes themselves where each is ASCII, and so its own text.
fn ascii_text(bytes: &[u8]) -> Option<&str>
    ensures { IfSome result (λ text. text.now ≡ characters bytes.now) }
{
    if !bytes.is_ascii() {
        return None;
    }
    match str::from_utf8(bytes) {
        Ok(text) => Some(text),
        Err(_) => None,
    }
}

fn put_characters(alloc: Global, writer: &mut Writer, bytes: &[u8]) -> Result<(), NoMemory>
    ensures { Puts result writer.old writer.new (text_value bytes.now) }
{
    let text = characters(alloc, bytes)?;
    put_string(writer, &text)
}

// The characters of the same numbers.
#[tactic(auto, unfolding(crate::specs::Entry::characters))]
fn characters(alloc: Global, bytes: &[u8]) -> Result<String, NoMemory>
    ensures { IfOk result (λ text. string_bytes text ≡ characters bytes.now) }
{
    let mut text = String::with_capacity(alloc, bytes.len())?;
    for byte in bytes {
        text.push(char::from(*byte))?;
    }
    Ok(text)
}

pub(crate) fn put_count(writer: &mut Writer, n: u64) -> Result<(), NoMemory>
    ensures { Puts result writer.old writer.new (count_value n) }
{
    writer.u64(n)?;
    Ok(())
}

/// A size that is not known.
pub(crate) fn put_unknown_size(writer: &mut Writer) -> Result<(), NoMemory>
    ensures { Puts result writer.old writer.new unknown_size }
{
    writer.i64(-1)?;
    Ok(())
}

/// An object with a name and a value.
pub(crate) fn put_named(writer: &mut Writer, name: &str, value: &str) -> Result<(), NoMemory>
    ensures { Puts result writer.old writer.new (named_value name.now value.now) }
{
    writer.begin_object()?;
    writer.key("name")?;
    writer.string(name)?;
    writer.key("value")?;
    writer.string(value)?;
    writer.end_object()?;
    Ok(())
}

pub(crate) fn put_text_member(
    alloc: Global,
    writer: &mut Writer,
    name: &str,
    bytes: &[u8],
) -> Result<(), NoMemory>
    ensures { PutsMember result writer.old writer.new name.now (text_value bytes.now) }
{
    writer.key(name)?;
    put_text(alloc, writer, bytes)?;
    Ok(())
}

pub(crate) fn put_string_member(writer: &mut Writer, name: &str, text: &str) -> Result<(), NoMemory>
    ensures { PutsMember result writer.old writer.new name.now (string text.now) }
{
    writer.key(name)?;
    writer.string(text)?;
    Ok(())
}

pub(crate) fn put_count_member(writer: &mut Writer, name: &str, n: u64) -> Result<(), NoMemory>
    ensures { PutsMember result writer.old writer.new name.now (count_value n) }
{
    writer.key(name)?;
    writer.u64(n)?;
    Ok(())
}

/// A list without items.
pub(crate) fn put_empty_list_member(writer: &mut Writer, name: &str) -> Result<(), NoMemory>
    ensures { PutsMember result writer.old writer.new name.now empty_list }
{
    writer.key(name)?;
    writer.begin_array()?;
    writer.end_array()?;
    Ok(())
}
