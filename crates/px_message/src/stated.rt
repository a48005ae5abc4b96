//! The length that a message's Content-Length fields state (RFC 9110 section 8.6).
//!
//! Each value is split at its commas, and every part is to be digits of the same number below 2^64: a list of equal
//! lengths is taken as that length, and all else is refused (RFC 9112 section 6.3).
ghost use Rattle.std.specs.Prelude.{◌≡◌, fold};
ghost use Rattle.px_message.specs.Stated.{number_of, stated_after, stated_with};
ghost use Rattle.px_message.specs.Length.{content_length, stated_length};
ghost use Rattle.px_message.specs.Fields.{values_of};
ghost use Rattle.px_text.specs.Number.{decimal_value};

use crate::Fields;
use crate::elements::trim_blanks;
use px_text::read_decimal;

/// The name of the field of the length.
pub(crate) const CONTENT_LENGTH: &[u8] = b"Content-Length";

/// The one number that every part of every Content-Length value is, or none.
pub(crate) fn stated_length(fields: &Fields) -> Option<u64>
    ensures { result ≡ stated_length fields.now }
{
    stated_by(fields).number()
}

// What the parts say together.
#[derive(Clone, Copy)]
enum Stated {
    // There are none.
    Nothing,
    // All are this number.
    Number(u64),
    // One is no number, or two differ.
    Unclear,
}

impl Stated {
    fn number(self) -> Option<u64>
        ensures { result ≡ number_of self }
    {
        match self {
            Stated::Number(n) => Some(n),
            Stated::Nothing | Stated::Unclear => None,
        }
    }

    // The same with one part more.
    fn with(self, part: &[u8]) -> Stated
        ensures { result ≡ stated_with self (decimal_value part.now) }
    {
        match (self, read_decimal(part)) {
            (Stated::Nothing, Some(n)) => Stated::Number(n),
            (Stated::Number(stated), Some(n)) if stated == n => self,
            _ => Stated::Unclear,
        }
    }

    // The same with the parts of one value more.
    fn after(self, value: &[u8]) -> Stated
        ensures { result ≡ stated_after self value.now }
    {
        value
            .split(|b| *b == b',')
            .fold(self, |stated, part| stated.with(trim_blanks(part)))
    }
}

fn stated_by(fields: &Fields) -> Stated
    ensures { result ≡ fold stated_after Stated.Nothing (values_of content_length fields.now) }
{
    fields.get_all(CONTENT_LENGTH).fold(
        Stated::Nothing,
        |stated, value| stated.after(value.bytes()),
    )
}
