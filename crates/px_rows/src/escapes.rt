//! Texts in which escapes stand for bytes.
ghost use Rattle.std.specs.Prelude.{◌≡◌, ◌<◌, ◌≤◌, length, IfSome};

use crate::RowError;
use std::alloc::Global;

/// The bytes of a text in which `\r`, `\n`, `\t`, `\\` and `\xHH` stand for bytes.
pub fn unescape(alloc: Global, text: &str) -> Result<Vec<u8>, RowError> {
    let mut bytes = Vec::new(alloc);
    let mut rest = text.as_bytes();
    while !rest.is_empty() {
        let Some((byte, others)) = next_byte(rest) else {
            return Err(RowError::Bad);
        };
        bytes.push(byte)?;
        rest = others;
    }
    Ok(bytes)
}

// The byte at the front of a text that is not empty, and the rest.
fn next_byte(text: &[u8]) -> Option<(u8, &[u8])>
    ensures { IfSome result (λ r. length r.1.now < length text.now) }
{
    match text {
        [b'\\', b'x', after @ ..] => hex_byte(after),
        [b'\\', letter, after @ ..] => behind(escaped(*letter), after),
        [b'\\'] => None,
        [first, after @ ..] => Some((*first, after)),
        [] => None,
    }
}

// The byte, where there is one, and the rest.
fn behind(byte: Option<u8>, rest: &[u8]) -> Option<(u8, &[u8])>
    ensures { IfSome result (λ r. r.1.now ≡ rest.now) }
{
    match byte {
        Some(byte) => Some((byte, rest)),
        None => None,
    }
}

// The byte that the letter stands for behind a backslash.
fn escaped(letter: u8) -> Option<u8> {
    match letter {
        b'r' => Some(b'\r'),
        b'n' => Some(b'\n'),
        b't' => Some(b'\t'),
        b'\\' => Some(b'\\'),
        _ => None,
    }
}

// The byte of the two digits at the front of the text, and the rest.
fn hex_byte(text: &[u8]) -> Option<(u8, &[u8])>
    ensures { IfSome result (λ r. length r.1.now ≤ length text.now) }
{
    match text {
        [high, low, after @ ..] => behind(joined(hex(*high), hex(*low)), after),
        _ => None,
    }
}

fn joined(high: Option<u8>, low: Option<u8>) -> Option<u8> {
    match (high, low) {
        (Some(high), Some(low)) => Some(high.wrapping_mul(16).wrapping_add(low)),
        _ => None,
    }
}

fn hex(digit: u8) -> Option<u8> {
    match digit {
        b'0'..=b'9' => Some(digit - b'0'),
        b'A'..=b'F' => Some(digit - b'A' + 10),
        b'a'..=b'f' => Some(digit - b'a' + 10),
        _ => None,
    }
}
