//! A frame written in the shortest form (RFC 6455 section 5.2).
ghost use Rattle.std.specs.Prelude.{◌≡◌, ◌<◌, ◌++◌, OnErr, OnOk, length};
ghost use Rattle.px_text.specs.Prefix.{AddsPrefixOf};
ghost use Rattle.px_frame.specs.Text.{MayWrite, frame_text, head_text, length_text};
ghost use Rattle.px_frame.specs.Text as spec;

use crate::mask::push_under_key;
use px_text::NoMemory;

/// The most bytes of a head: two, eight of the length and four of the key.
const MOST_HEAD: usize = 14;

/// Appends the frame: its head with the length in the shortest form, the key, and the payload under it; without a key the payload as it is.
///
/// The opcode is 0, 1, 2, 8, 9 or 10; a control frame, of 8 or more, has FIN and a payload of at most 125 bytes. After `NoMemory` a
/// prefix of the frame's bytes may have been appended.
pub fn write_frame(
    fin: bool,
    opcode: u8,
    key: Option<[u8; 4]>,
    payload: &[u8],
    out: &mut Vec<u8>,
) -> Result<(), NoMemory>
    requires may { MayWrite fin opcode (length payload.now) }
    ensures ok { OnOk result (out.new.items ≡ out.old.items ++ frame_text fin opcode key payload.now) }
    ensures err { OnErr result (AddsPrefixOf (frame_text fin opcode key payload.now) out.old.items out.new.items) }
{
    out.reserve(payload.len().saturating_add(MOST_HEAD))?;
    push_frame(fin, opcode, key, payload, out)
}

fn push_frame(
    fin: bool,
    opcode: u8,
    key: Option<[u8; 4]>,
    payload: &[u8],
    out: &mut Vec<u8>,
) -> Result<(), NoMemory>
    requires may { MayWrite fin opcode (length payload.now) }
    ensures ok { OnOk result (out.new.items ≡ out.old.items ++ frame_text fin opcode key payload.now) }
    ensures err { OnErr result (AddsPrefixOf (frame_text fin opcode key payload.now) out.old.items out.new.items) }
{
    push_head(fin, opcode, key, payload.len(), out)?;
    push_under_key(out, key, payload)
}

fn push_head(
    fin: bool,
    opcode: u8,
    key: Option<[u8; 4]>,
    count: usize,
    out: &mut Vec<u8>,
) -> Result<(), NoMemory>
    requires { opcode < 16 }
    ensures ok { OnOk result (out.new.items ≡ out.old.items ++ head_text fin opcode key count) }
    ensures err { OnErr result (AddsPrefixOf (head_text fin opcode key count) out.old.items out.new.items) }
{
    out.push(high(fin) + opcode)?;
    push_length(key.is_some(), count, out)?;
    push_key(key, out)
}

fn push_key(key: Option<[u8; 4]>, out: &mut Vec<u8>) -> Result<(), NoMemory>
    ensures ok { OnOk result (out.new.items ≡ out.old.items ++ spec.key_bytes key) }
    ensures err { OnErr result (AddsPrefixOf (spec.key_bytes key) out.old.items out.new.items) }
{
    match key {
        Some(key) => {
            out.extend_from_slice(&key)?;
            Ok(())
        }
        None => Ok(()),
    }
}

// The mask bit and the length.
fn push_length(masked: bool, count: usize, out: &mut Vec<u8>) -> Result<(), NoMemory>
    ensures ok { OnOk result (out.new.items ≡ out.old.items ++ length_text masked count) }
    ensures err { OnErr result (AddsPrefixOf (length_text masked count) out.old.items out.new.items) }
{
    if count <= 125 {
        out.push(high(masked) + count as u8)?;
        return Ok(());
    }
    if count <= 65_535 {
        out.push(high(masked) + 126)?;
        out.extend_from_slice(&(count as u16).to_be_bytes())?;
        return Ok(());
    }
    out.push(high(masked) + 127)?;
    out.extend_from_slice(&(count as u64).to_be_bytes())?;
    Ok(())
}

// A bit as the highest of a byte.
fn high(bit: bool) -> u8
    ensures value { result ≡ spec.high bit }
{
    if bit { 128 } else { 0 }
}
