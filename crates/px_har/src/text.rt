//! Bytes as base64.
ghost use Rattle.std.specs.Prelude.{◌≡◌, ◌++◌, IfOk, OnOk, OnErr, string_bytes};
ghost use Rattle.px_har.specs.Text.{base64_text};

use base64::engine::general_purpose::STANDARD;
use px_text::NoMemory;
use std::alloc::Global;

/// Appends the base64 of the bytes, with padding (RFC 4648 section 4). After `NoMemory` nothing was appended.
pub fn push_base64(bytes: &[u8], out: &mut Vec<u8>) -> Result<(), NoMemory>
    ensures ok { OnOk result (out.new.items ≡ out.old.items ++ base64_text bytes.now) }
    ensures err { OnErr result (out.new.items ≡ out.old.items) }
{
    let text = base64_of(*out.allocator(), bytes)?;
    out.extend_from_slice(text.as_bytes())?;
    Ok(())
}

/// The base64 of the bytes.
pub(crate) fn base64_of(alloc: Global, bytes: &[u8]) -> Result<String, NoMemory>
    ensures { IfOk result (λ text. string_bytes text ≡ base64_text bytes.now) }
{
    Ok(STANDARD.encode(alloc, bytes)?)
}
