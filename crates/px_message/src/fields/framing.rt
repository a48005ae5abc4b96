//! The framing fields of a message whose body passes by: they are those that were read.
//!
//! Such a body is sent on as it comes, in the sender's own framing. So the fields Transfer-Encoding and Content-Length of
//! its head are to be those of the head that was read, byte by byte and in their order; where a change touched them they
//! are put back, at the end.
ghost use Rattle.std.specs.Prelude.{◌≡◌, ◌++◌, ◌||◌, IfOk, OnOk};
ghost use Rattle.px_message.specs.Fields.{is_same_name, without};
ghost use Rattle.px_message.specs.Length.{content_length, transfer_encoding};
ghost use Rattle.px_message.specs.Settle.{are_same, framing, settled_streamed};

use super::Fields;
use crate::Name;
use crate::codings::TRANSFER_ENCODING;
use crate::elements::is_same_name;
use crate::stated::CONTENT_LENGTH;
use px_text::NoMemory;

/// Makes the framing fields those that were read. Where they are, the list stays as it is; else they are taken away and
/// the read ones are put at the end in their order. After `NoMemory` the list may only be dropped.
pub fn settle_streamed(fields: &mut Fields, read: &Fields) -> Result<(), NoMemory>
    ensures { OnOk result (fields.new ≡ settled_streamed read.now fields.old) }
{
    let wanted = framing_of(read)?;
    if is_framed_by(fields, &wanted)? {
        return Ok(());
    }
    fields.remove(TRANSFER_ENCODING)?;
    fields.remove(CONTENT_LENGTH)?;
    append(fields, wanted)
}

// Whether the list's framing fields are these.
fn is_framed_by(fields: &Fields, wanted: &Fields) -> Result<bool, NoMemory>
    ensures { IfOk result (λ same. same ≡ are_same (framing fields.now) wanted.now) }
{
    Ok(framing_of(fields)? == *wanted)
}

// A copy of the framing fields.
fn framing_of(fields: &Fields) -> Result<Fields, NoMemory>
    ensures { IfOk result (λ kept. kept ≡ framing fields.now) }
{
    let mut kept = Fields::new(fields.allocator());
    for (name, value) in fields.pairs() {
        if is_framing(name) {
            kept.add(name.try_clone()?, value.try_clone()?)?;
        }
    }
    Ok(kept)
}

fn is_framing(name: &Name) -> bool
    ensures { result ≡ (is_same_name name.now transfer_encoding || is_same_name name.now content_length) }
{
    is_same_name(name.bytes(), TRANSFER_ENCODING) || is_same_name(name.bytes(), CONTENT_LENGTH)
}

// Puts the others at the end.
fn append(fields: &mut Fields, others: Fields) -> Result<(), NoMemory>
    ensures { OnOk result (fields.new ≡ fields.old ++ others) }
{
    for (name, value) in others.pairs() {
        fields.add(name.try_clone()?, value.try_clone()?)?;
    }
    Ok(())
}
