//! The texts of generated flows: requests, and answers in pieces.
ghost use Rattle.std.specs.Prelude.{◌≡◌, ℕ, ◌<◌, ◌≤◌, ◌*◌, ◌++◌, IfOk, OnOk, length};
ghost use Rattle.px_gen.specs.Script.{answer_of, body_text, head_text, letter_at, piece_at, request_of, request_text, size_of};

use px_text::{NoMemory, push_decimal};
use std::alloc::Global;

/// The longest piece of an answer.
pub(crate) const PIECE: usize = 1000;

/// The request of a flow.
pub(crate) fn request(alloc: Global, flow: u32) -> Result<Vec<u8>, NoMemory>
    requires { flow ≤ 10000 }
    ensures { IfOk result (λ text. text.items ≡ request_of flow) }
{
    let mut text = Vec::new(alloc);
    push_request(u64::from(flow), size(flow), &mut text)?;
    Ok(text)
}

/// The answer to a flow.
pub(crate) fn answer(alloc: Global, flow: u32) -> Result<Vec<u8>, NoMemory>
    requires { flow ≤ 10000 }
    ensures { IfOk result (λ text. text.items ≡ answer_of flow) }
{
    let mut text = Vec::new(alloc);
    let size = size(flow);
    push_head(size, &mut text)?;
    push_body(u64::from(flow), size, &mut text)?;
    Ok(text)
}

/// The piece of a text that has this place among its pieces.
pub(crate) fn piece_at(text: &[u8], place: usize) -> &[u8]
    requires { 1000 * place ≤ length text.now }
    ensures { result.now ≡ piece_at 1000 text.now place }
{
    let rest = &text[PIECE * place..];
    &rest[..rest.len().min(PIECE)]
}

// How many bytes the body of a flow has.
#[tactic(auto, unfolding(crate::specs::Script::size_of))]
fn size(flow: u32) -> u64
    requires { flow ≤ 10000 }
    ensures size { result ≡ size_of flow }
    ensures small { result < 1000 }
{
    (7919 * u64::from(flow) + 13) % 1000
}

#[tactic(auto, unfolding(crate::specs::Script::request_text))]
fn push_request(flow: u64, size: u64, text: &mut Vec<u8>) -> Result<(), NoMemory>
    ensures { OnOk result (text.new.items ≡ text.old.items ++ request_text flow size) }
{
    text.extend_from_slice(b"GET /")?;
    push_decimal(text, flow)?;
    text.extend_from_slice(b" HTTP/1.1\r\nHost: gen\r\nX-Size: ")?;
    push_decimal(text, size)?;
    text.extend_from_slice(b"\r\n\r\n")?;
    Ok(())
}

#[tactic(auto, unfolding(crate::specs::Script::head_text))]
fn push_head(size: u64, text: &mut Vec<u8>) -> Result<(), NoMemory>
    ensures { OnOk result (text.new.items ≡ text.old.items ++ head_text size) }
{
    text.extend_from_slice(b"HTTP/1.1 200 OK\r\n")?;
    text.extend_from_slice(b"Content-Length: ")?;
    push_decimal(text, size)?;
    text.extend_from_slice(b"\r\n\r\n")?;
    Ok(())
}

fn push_body(flow: u64, size: u64, text: &mut Vec<u8>) -> Result<(), NoMemory>
    requires flow { flow ≤ 10000 }
    requires size { size ≤ 1000 }
    ensures { OnOk result (text.new.items ≡ text.old.items ++ body_text flow size) }
{
    for place in 0..size {
        text.push(letter(flow, place))?;
    }
    Ok(())
}

// A byte of the body of a flow.
fn letter(flow: u64, place: u64) -> u8
    requires flow { flow ≤ 10000 }
    requires place { place ≤ 1000 }
    ensures { result ≡ letter_at flow place }
{
    97 + ((flow + place) % 26) as u8
}
