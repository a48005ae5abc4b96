//! A refusal as people see it: the text, and a mark under the place.
ghost use Rattle.std.specs.Prelude.{◌≡◌, ◌≤◌, ◌++◌, ◌∷◌, [], length, reverse, OnOk, OnErr};
ghost use Rattle.px_text.specs.Prefix.{IsPrefixOf};
ghost use Rattle.px_filter.specs.Parsing.{place_of};
ghost use Rattle.px_filter.specs.Shown as specs;
ghost use Rattle.px_filter.specs.Tokens.{run};

use crate::FilterError;
use crate::lexing::behind_bytes;
use px_text::NoMemory;

/// Appends two lines: the text, and a `^` under the place of its refusal. Columns are characters; of a text of several lines it
/// is the one with the place. Out of memory is about no place and is shown at 0. After `NoMemory` nothing is appended.
pub fn show_refusal(text: &str, error: &FilterError, out: &mut Vec<u8>) -> Result<(), NoMemory>
    ensures ok { OnOk result (out.new.items ≡ out.old.items ++ specs.shown text.now (place_of error.now)) }
    ensures err { OnErr result (out.new.items ≡ out.old.items) }
{
    let bytes = text.as_bytes();
    let place = error.place().min(bytes.len());
    let length = out.len();
    match push_marked(last_line(&bytes[..place]), first_line(&bytes[place..]), out) {
        Ok(()) => Ok(()),
        Err(NoMemory) => {
            out.truncate(length);
            Err(NoMemory)
        }
    }
}

fn push_marked(before: &[u8], behind: &[u8], out: &mut Vec<u8>) -> Result<(), NoMemory>
    ensures ok { OnOk result (out.new.items ≡ out.old.items ++ specs.marked before.now behind.now) }
    ensures kept { IsPrefixOf out.old.items out.new.items }
{
    out.extend_from_slice(before)?;
    out.extend_from_slice(behind)?;
    out.push(b'\n')?;
    push_blanks(before, out)?;
    out.extend_from_slice(b"^\n")?;
    Ok(())
}

// A blank for each character.
fn push_blanks(text: &[u8], out: &mut Vec<u8>) -> Result<(), NoMemory>
    ensures ok { OnOk result (out.new.items ≡ out.old.items ++ specs.blanks text.now) }
    ensures kept { IsPrefixOf out.old.items out.new.items }
{
    for i in 0..text.len() {
        push_blank(text[i], out)?;
    }
    Ok(())
}

fn push_blank(c: u8, out: &mut Vec<u8>) -> Result<(), NoMemory>
    ensures ok { OnOk result (out.new.items ≡ out.old.items ++ specs.blanks (c ∷ [])) }
    ensures kept { OnErr result (out.new.items ≡ out.old.items) }
{
    if c < 128 || 192 <= c {
        out.push(b' ')?;
    }
    Ok(())
}

fn last_line(text: &[u8]) -> &[u8]
    ensures { result.now ≡ specs.last_line text.now }
{
    behind_bytes(text, text.len() - length_of_last(text))
}

fn first_line(text: &[u8]) -> &[u8]
    ensures { result.now ≡ specs.first_line text.now }
{
    &text[..length_of_first(text)]
}

fn length_of_last(text: &[u8]) -> usize
    ensures value { result ≡ run specs.is_no_feed (reverse text.now) }
    ensures within { result ≤ length text.now }
{
    text.iter().rev().take_while(|c| is_no_feed(**c)).count()
}

fn length_of_first(text: &[u8]) -> usize
    ensures value { result ≡ run specs.is_no_feed text.now }
    ensures within { result ≤ length text.now }
{
    text.iter().take_while(|c| is_no_feed(**c)).count()
}

fn is_no_feed(c: u8) -> bool
    ensures { result ≡ specs.is_no_feed c }
{
    c != b'\n'
}
