//! What the words of a change are worth.
ghost use Rattle.std.specs.Prelude.{◌≡◌, ◌⊎◌, Some, None, IfOk, IfErr};
ghost use Rattle.px_draft.specs.Edits.{IsRefusal};
ghost use Rattle.px_draft.specs.Words.{bytes_of, checked_status, name_of, status_of, value_of};

use crate::EditError;
use crate::given::OpenValue;
use base64::DecodeAllocError;
use base64::engine::general_purpose::STANDARD;
use px_message::{Name, Status};
use px_text::{Bytes, read_decimal};
use std::alloc::Global;

/// The bytes whose base64 the text is, with padding (RFC 4648 section 4). `BadValue` exactly where it is that of none.
#[tactic(auto, unfolding(crate::specs::Words::bytes_of))]
pub(crate) fn bytes_of(alloc: Global, text: &[u8]) -> Result<Vec<u8>, EditError>
    ensures ok { IfOk result (λ bytes. bytes_of text.now ≡ Some bytes.items) }
    ensures refused { IfErr result (IsRefusal (bytes_of text.now)) }
{
    match STANDARD.decode(alloc, text) {
        Ok(bytes) => Ok(bytes),
        Err(DecodeAllocError::DecodeError(_)) => Err(EditError::BadValue),
        Err(DecodeAllocError::OutOfMemory) => Err(EditError::NoMemory),
    }
}

/// The value of a field whose base64 the text is.
pub(crate) fn value_of(alloc: Global, text: &[u8]) -> Result<OpenValue, EditError>
    ensures ok { IfOk result (λ value. value_of text.now ≡ Some value) }
    ensures refused { IfErr result (IsRefusal (value_of text.now)) }
{
    let bytes = bytes_of(alloc, text)?;
    match OpenValue::new(bytes) {
        Some(value) => Ok(value),
        None => Err(EditError::BadValue),
    }
}

/// The name that the text is.
pub(crate) fn name_of(alloc: Global, text: &[u8]) -> Result<Name, EditError>
    ensures ok { IfOk result (λ name. name_of text.now ≡ Some name) }
    ensures refused { IfErr result (IsRefusal (name_of text.now)) }
{
    match Name::from_bytes(Bytes::copied(alloc, text)?) {
        Ok(name) => Ok(name),
        Err(_) => Err(EditError::BadValue),
    }
}

/// The status of three digits.
pub(crate) fn status_of(text: &[u8]) -> Option<Status>
    ensures { result ≡ status_of text.now }
{
    if text.len() != 3 {
        return None;
    }
    match read_decimal(text) {
        Some(number) => status_at(number),
        None => None,
    }
}

fn status_at(number: u64) -> Option<Status>
    ensures { result ≡ checked_status number }
{
    if number > 999 {
        return None;
    }
    Status::try_new(number as u16)
}
