//! Content-Length made true (RFC 9110 section 8.6).
//!
//! A list of fields that states the length already, be it once or several times, is left as the sender wrote it. Any other
//! Content-Length is replaced by one field with the length in decimal digits.
ghost use Rattle.std.specs.Prelude.{◌≡◌, ◌==◌, ◌||◌, not, Some, OnOk};
ghost use Rattle.px_message.specs.Length.{agree, content_length, stands, stated_length};
ghost use Rattle.px_message.specs.Settle.{measured, measured_request, measured_response};

use crate::length::stands;
use crate::stated::{CONTENT_LENGTH, stated_length};
use crate::{Fields, Name, Value};
use px_text::NoMemory;

/// Makes the fields of a request without codings state this length of its body. A request without a body needs no
/// Content-Length: one that has none stays so.
pub(crate) fn measure_request(fields: &mut Fields, length: u64) -> Result<(), NoMemory>
    ensures { OnOk result (fields.new ≡ measured_request length fields.old) }
{
    if needs_length(fields, length) {
        measure(fields, length)
    } else {
        Ok(())
    }
}

/// Makes the fields of a response without codings state this length of its body, where they state one. A response
/// without Content-Length runs to the close.
pub(crate) fn measure_response(fields: &mut Fields, length: u64) -> Result<(), NoMemory>
    ensures { OnOk result (fields.new ≡ measured_response length fields.old) }
{
    if stands(CONTENT_LENGTH, fields) {
        measure(fields, length)
    } else {
        Ok(())
    }
}

// Whether a request with a body of this length has, or has to get, a Content-Length.
fn needs_length(fields: &Fields, length: u64) -> bool
    ensures { result ≡ (stands content_length fields.now || not (length == 0)) }
{
    stands(CONTENT_LENGTH, fields) || length != 0
}

fn measure(fields: &mut Fields, length: u64) -> Result<(), NoMemory>
    ensures { OnOk result (fields.new ≡ measured length fields.old) }
{
    if states(fields, length) {
        return Ok(());
    }
    let alloc = fields.allocator();
    let name = Name::of_token(alloc, CONTENT_LENGTH)?;
    let value = Value::of_number(alloc, length)?;
    fields.set(name, value)
}

// Whether every part of every Content-Length value is this number.
fn states(fields: &Fields, length: u64) -> bool
    ensures { result ≡ agree (stated_length fields.now) (Some length) }
{
    match stated_length(fields) {
        Some(stated) => stated == length,
        None => false,
    }
}
