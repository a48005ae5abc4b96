//! Requests that ask for an answer as it is: not one that is kept elsewhere, and in no coding.
ghost use Rattle.std.specs.Prelude.{◌≡◌, ◌⊎◌, codes, OnOk, OnErr};
ghost use Rattle.px_message.specs.Fields.{without};
ghost use Rattle.px_rule.specs.Requests.{uncached, uncoded};

use px_message::{Fields, Name, Value};
use px_text::NoMemory;
use std::alloc::Global;

/// Takes away the fields `If-None-Match` and `If-Modified-Since`, so that the server answers whole and not that nothing has
/// changed (RFC 9110 section 13.1; mitmproxy's option `anticache`). After `NoMemory` the fields are as before, or without the
/// first of the two names.
pub fn anticache(fields: &mut Fields) -> Result<(), NoMemory>
    ensures changed { OnOk result (fields.new ≡ uncached fields.old) }
    ensures stopped { OnErr result ((fields.new ≡ fields.old) ⊎ (fields.new ≡ without (codes "If-None-Match") fields.old)) }
{
    fields.remove(b"If-None-Match")?;
    fields.remove(b"If-Modified-Since")
}

/// Puts `Accept-Encoding: identity` at the place of the first such field, and takes the others away, so that the server answers
/// without a coding (RFC 9110 section 12.5.3; mitmproxy's option `anticomp`). After `NoMemory` the fields are as before.
pub fn anticomp(alloc: Global, fields: &mut Fields) -> Result<(), NoMemory>
    ensures changed { OnOk result (fields.new ≡ uncoded fields.old) }
    ensures unchanged { OnErr result (fields.new ≡ fields.old) }
{
    let name = Name::of_token(alloc, b"Accept-Encoding")?;
    let value = Value::of_text(alloc, b"identity")?;
    fields.set(name, value)
}
