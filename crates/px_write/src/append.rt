//! Appending pieces of a text, in their order.
//!
//! Every text of this crate is written by this one loop. It never takes back: where memory runs out, the pieces before
//! stand.
ghost use Rattle.std.specs.Prelude.{◌≡◌, ◌++◌, OnOk, OnErr};
ghost use Rattle.px_text.specs.Prefix.{AddsPrefixOf};
ghost use Rattle.px_write.specs.Text.{joined};

use px_text::NoMemory;

/// The end of a line (RFC 9112 section 2.1).
pub(crate) const CRLF: &[u8] = b"\r\n";

/// Appends the pieces.
pub(crate) fn append(out: &mut Vec<u8>, pieces: &[&[u8]]) -> Result<(), NoMemory>
    ensures ok { OnOk result (out.new.items ≡ out.old.items ++ joined pieces.now) }
    ensures err { OnErr result (AddsPrefixOf (joined pieces.now) out.old.items out.new.items) }
{
    for piece in pieces {
        out.extend_from_slice(piece)?;
    }
    Ok(())
}
