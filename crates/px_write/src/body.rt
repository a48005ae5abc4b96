//! Bodies: as they are, or in chunks (RFC 9112 section 7.1).
//!
//! A chunk is its size in hexadecimal digits, in lower case and without leading zeros, an end of line, its content and an
//! end of line. A chunk of size 0 ends the body, so an empty content makes no chunk. Behind the last chunk stand the
//! trailers and an empty line.
ghost use Rattle.std.specs.Prelude.{◌≡◌, ◌++◌, OnOk, OnErr};
ghost use Rattle.px_text.specs.Number.{hexadecimal};
ghost use Rattle.px_text.specs.Prefix.{AddsPrefixOf};
ghost use Rattle.px_text.specs.Blank.{crlf};
ghost use Rattle.px_write.specs.Text.{body_text, chunk_text, last_chunk_text};

use crate::append::{CRLF, append};
use crate::fields::write_fields;
use px_message::{Body, Fields, is_framed_in_chunks};
use px_text::{NoMemory, push_hex};

/// Appends the line that begins a chunk of that size: the size in hexadecimal digits, and CRLF.
pub fn write_chunk_start(size: u64, out: &mut Vec<u8>) -> Result<(), NoMemory>
    ensures ok { OnOk result (out.new.items ≡ out.old.items ++ (hexadecimal size ++ crlf)) }
    ensures err { OnErr result (AddsPrefixOf (hexadecimal size ++ crlf) out.old.items out.new.items) }
{
    push_hex(out, size)?;
    append(out, &[CRLF])
}

/// Appends what ends a chunk's content: CRLF.
pub fn write_chunk_end(out: &mut Vec<u8>) -> Result<(), NoMemory>
    ensures ok { OnOk result (out.new.items ≡ out.old.items ++ crlf) }
    ensures err { OnErr result (AddsPrefixOf crlf out.old.items out.new.items) }
{
    append(out, &[CRLF])
}

/// Appends the last chunk, the trailers and the empty line behind them.
pub fn write_last_chunk(trailers: &Fields, out: &mut Vec<u8>) -> Result<(), NoMemory>
    ensures ok { OnOk result (out.new.items ≡ out.old.items ++ last_chunk_text trailers.now) }
    ensures err { OnErr result (AddsPrefixOf (last_chunk_text trailers.now) out.old.items out.new.items) }
{
    append(out, &[b"0", CRLF])?;
    write_fields(trailers, out)
}

/// Appends a whole body, with its trailers where the fields frame it in chunks.
pub(crate) fn write_body(
    fields: &Fields,
    body: &Body,
    trailers: &Fields,
    out: &mut Vec<u8>,
) -> Result<(), NoMemory>
    ensures ok { OnOk result (out.new.items ≡ out.old.items ++ body_text fields.now body.now trailers.now) }
    ensures err { OnErr result (AddsPrefixOf (body_text fields.now body.now trailers.now) out.old.items out.new.items) }
{
    if is_framed_in_chunks(fields) {
        write_chunked(body.bytes(), trailers, out)
    } else {
        append(out, &[body.bytes()])
    }
}

fn write_chunked(content: &[u8], trailers: &Fields, out: &mut Vec<u8>) -> Result<(), NoMemory>
    ensures ok { OnOk result (out.new.items ≡ out.old.items ++ (chunk_text content.now ++ last_chunk_text trailers.now)) }
    ensures err { OnErr result (AddsPrefixOf (chunk_text content.now ++ last_chunk_text trailers.now) out.old.items out.new.items) }
{
    write_chunk(content, out)?;
    write_last_chunk(trailers, out)
}

// A chunk of that content, or none where it is empty.
fn write_chunk(content: &[u8], out: &mut Vec<u8>) -> Result<(), NoMemory>
    ensures ok { OnOk result (out.new.items ≡ out.old.items ++ chunk_text content.now) }
    ensures err { OnErr result (AddsPrefixOf (chunk_text content.now) out.old.items out.new.items) }
{
    if content.is_empty() {
        return Ok(());
    }
    write_chunk_start(content.len() as u64, out)?;
    append(out, &[content, CRLF])
}
