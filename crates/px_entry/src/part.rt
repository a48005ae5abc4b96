//! A part of the entry of a flow.
ghost use Rattle.std.specs.Prelude.{◌≡◌, ◌++◌, take, OnOk, OnErr};
ghost use Rattle.px_entry.specs.Parts.{message_text, most, part, part_of, payload_text, shown_text};

use px_har::{push_base64, write_entry};
use px_message::{Flow, Shared, WsMessage};
use px_text::NoMemory;
use std::alloc::Global;

// A part has so many bytes at most.
const MOST: usize = 65_536;

/// Appends the part of the flow's entry from that byte on, counted from 0: at most 65,536 bytes, and none at its end or behind it. It has
/// no line feed. It takes the memory of the whole entry. After `NoMemory` nothing was appended.
pub fn write_part(alloc: Global, flow: &Flow, from: u64, out: &mut Vec<u8>) -> Result<(), NoMemory>
    ensures ok { OnOk result (out.new.items ≡ out.old.items ++ part from flow.now) }
    ensures err { OnErr result (out.new.items ≡ out.old.items) }
{
    let mut text = Vec::new(alloc);
    push_shown(flow, &mut text)?;
    out.extend_from_slice(part_of(&text, from))?;
    Ok(())
}

// The part of a text from that byte on.
#[tactic(auto, using(crate::proofs::PartLemmas::past_end, crate::proofs::PartLemmas::tail_part))]
fn part_of(text: &[u8], from: u64) -> &[u8]
    ensures { result.now ≡ part_of from text.now }
{
    if text.len() as u64 <= from {
        return &[];
    }
    front(&text[from as usize..])
}

// The first bytes, as many as a part has at most.
#[tactic(auto, using(crate::proofs::PartLemmas::short_part))]
fn front(text: &[u8]) -> &[u8]
    ensures { result.now ≡ take most text.now }
{
    if text.len() <= MOST {
        text
    } else {
        &text[..MOST]
    }
}

fn push_shown(flow: &Flow, text: &mut Vec<u8>) -> Result<(), NoMemory>
    ensures { OnOk result (text.new.items ≡ text.old.items ++ shown_text flow.now) }
{
    write_entry(flow, text)?;
    push_message(&flow.message, text)
}

fn push_message(message: &Option<Shared<WsMessage>>, text: &mut Vec<u8>) -> Result<(), NoMemory>
    ensures { OnOk result (text.new.items ≡ text.old.items ++ message_text message.now) }
{
    match message {
        Some(message) => push_payload(message.get(), text),
        None => Ok(()),
    }
}

fn push_payload(message: &WsMessage, text: &mut Vec<u8>) -> Result<(), NoMemory>
    ensures { OnOk result (text.new.items ≡ text.old.items ++ payload_text message.now) }
{
    text.push(b' ')?;
    push_base64(message.payload.as_slice(), text)
}
