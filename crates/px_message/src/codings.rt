//! The transfer codings of a message (RFC 9112 section 6.1): the elements of all its Transfer-Encoding values, in order.
//!
//! Codings frame a body where `chunked` is the last of them and no other is `chunked`: only then its end shows in its own
//! bytes. They are walked value by value and part by part, without a list of them, and remembered as the place at which
//! `chunked` stands among those that were read.
ghost use Rattle.std.specs.Prelude.{◌≡◌, fold};
ghost use Rattle.px_message.specs.Codings.{chunking_after, chunking_with, is_last};
ghost use Rattle.px_message.specs.Length.{is_framed_in_chunks, transfer_encoding};
ghost use Rattle.px_message.specs.Fields.{values_of};

use crate::Fields;
use crate::elements::{is_same_name, trim_blanks};

/// The name of the field of the codings.
pub(crate) const TRANSFER_ENCODING: &[u8] = b"Transfer-Encoding";

/// Whether the message's codings, taken alone, frame its body in chunks: the last is `chunked`, in any case, and no other
/// is. It takes no memory.
pub fn is_framed_in_chunks(fields: &Fields) -> bool
    ensures { result ≡ is_framed_in_chunks fields.now }
{
    chunking_of(fields).is_last()
}

// Where `chunked` stands among codings.
#[derive(Clone, Copy)]
enum Chunking {
    // Nowhere.
    Absent,
    // At the end, and nowhere else.
    Last,
    // Before another coding.
    Early,
}

impl Chunking {
    fn is_last(self) -> bool
        ensures { result ≡ is_last self }
    {
        matches!(self, Chunking::Last)
    }

    // The same with one coding more at the end. An empty part of a comma list is no coding.
    fn with(self, coding: &[u8]) -> Chunking
        ensures { result ≡ chunking_with self coding.now }
    {
        if coding.is_empty() {
            return self;
        }
        match self {
            Chunking::Absent if is_same_name(coding, b"chunked") => Chunking::Last,
            Chunking::Absent => Chunking::Absent,
            Chunking::Last | Chunking::Early => Chunking::Early,
        }
    }

    // The same with the codings of one value more at the end.
    fn after(self, value: &[u8]) -> Chunking
        ensures { result ≡ chunking_after self value.now }
    {
        value
            .split(|b| *b == b',')
            .fold(self, |seen, part| seen.with(trim_blanks(part)))
    }
}

fn chunking_of(fields: &Fields) -> Chunking
    ensures { result ≡ fold chunking_after Chunking.Absent (values_of transfer_encoding fields.now) }
{
    fields
        .get_all(TRANSFER_ENCODING)
        .fold(Chunking::Absent, |seen, value| seen.after(value.bytes()))
}
