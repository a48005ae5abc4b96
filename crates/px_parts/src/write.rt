//! The parts of a message's body, as they are sent on.
//!
//! A part is sent when it is heard, and never before: the line of a chunk when the sender's line was read, bytes as they come, the
//! CRLF behind a chunk when the sender's was read, and the end when the trailers were read (RFC 9112 section 7.1).
ghost use Rattle.std.specs.Prelude.{◌≡◌, ◌++◌, OnOk, OnErr};
ghost use Rattle.px_text.specs.Prefix.{AddsPrefixOf};
ghost use Rattle.px_parts.specs.Texts.{last_text, part_text};

use px_message::{Fields, is_framed_in_chunks};
use px_read::Part;
use px_text::{Bytes, NoMemory};
use px_write::{write_chunk_end, write_chunk_start, write_last_chunk};

/// Appends what the part says of a message that is sent with these fields: the sender's bytes as they are, the size of a chunk in
/// lower-case hexadecimal digits without leading zeros, CRLF behind a chunk, and the last chunk with the trailers where the fields
/// frame the body in chunks. A head, `More` and `Bad` say nothing: a head is sent as it was settled, by px_write.
///
/// A piece is copied once, into the vector; its bytes are its text, so they may as well be sent by themselves. After `NoMemory` the
/// vector ends in the first bytes of the part's text.
pub fn write_part(fields: &Fields, part: &Part, out: &mut Vec<u8>) -> Result<(), NoMemory>
    ensures ok { OnOk result (out.new.items ≡ out.old.items ++ part_text fields.now part.now) }
    ensures err { OnErr result (AddsPrefixOf (part_text fields.now part.now) out.old.items out.new.items) }
{
    match part {
        Part::Piece(bytes) => write_bytes(bytes, out),
        Part::ChunkStart(size) => write_chunk_start(*size, out),
        Part::ChunkEnd => write_chunk_end(out),
        Part::End(trailers) => write_end(fields, trailers, out),
        Part::More | Part::Request(_) | Part::Response(_) | Part::Bad(_) => Ok(()),
    }
}

/// Appends what ends a body behind a head with these fields: the last chunk, the trailers and an empty line where they frame it in
/// chunks, and else nothing. After `NoMemory` the vector ends in the first bytes of it.
pub fn write_end(fields: &Fields, trailers: &Fields, out: &mut Vec<u8>) -> Result<(), NoMemory>
    ensures ok { OnOk result (out.new.items ≡ out.old.items ++ last_text fields.now trailers.now) }
    ensures err { OnErr result (AddsPrefixOf (last_text fields.now trailers.now) out.old.items out.new.items) }
{
    if is_framed_in_chunks(fields) {
        write_last_chunk(trailers, out)
    } else {
        Ok(())
    }
}

// Bytes of the body, as they are.
fn write_bytes(bytes: &Bytes, out: &mut Vec<u8>) -> Result<(), NoMemory>
    ensures ok { OnOk result (out.new.items ≡ out.old.items ++ bytes.now) }
    ensures err { OnErr result (AddsPrefixOf bytes.now out.old.items out.new.items) }
{
    out.extend_from_slice(bytes.as_slice())?;
    Ok(())
}
