//! The parts of a head that was read, as the types of messages.
//!
//! The grammar has told already that a name is a token, that a value has no CR, LF or NUL, that a code has three digits and
//! that a version is 1.0 or 1.1 (RFC 9112 sections 2.3, 4 and 5). So no part is refused here, and each is the same bytes.
ghost use Rattle.std.specs.Prelude.{◌≡◌, ◌≤◌, All, IfOk, true};
ghost use Rattle.std.specs.Str.Parse.{digits_value};
ghost use Rattle.httparse.specs.Grammar.{is_token};
ghost use Rattle.px_head.specs.Laws.{IsPair, IsRequestParts, IsResponseParts, IsTrailerParts, IsValueText};
ghost use Rattle.px_read.specs.Heads.{IsCodeText, request_head, response_head, version_named};

use crate::{RequestHead, ResponseHead};
use px_head::{RawHead, RawPairs};
use px_message::{Fields, Name, Value, Version};
use px_text::{Bytes, NoMemory, read_decimal};
use std::alloc::Global;

/// The head of a request.
pub fn read_request_head(alloc: Global, raw: RawHead) -> Result<RequestHead, NoMemory>
    requires { IsRequestParts raw }
    ensures { IfOk result (λ head. head ≡ request_head raw) }
{
    let RawHead {
        first,
        second,
        third,
        pairs,
    } = raw;
    Ok(RequestHead {
        method: read_name(first),
        target: second,
        version: read_version(&third),
        fields: read_fields(alloc, pairs)?,
    })
}

/// The head of a response.
pub fn read_response_head(alloc: Global, raw: RawHead) -> Result<ResponseHead, NoMemory>
    requires { IsResponseParts raw }
    ensures { IfOk result (λ head. head ≡ response_head raw) }
{
    let RawHead {
        first,
        second,
        third,
        pairs,
    } = raw;
    Ok(ResponseHead {
        version: read_version(&first),
        code: read_code(&second),
        reason: read_value(third),
        fields: read_fields(alloc, pairs)?,
    })
}

/// The fields of trailers.
pub fn read_trailers(alloc: Global, raw: RawHead) -> Result<Fields, NoMemory>
    requires { IsTrailerParts raw }
    ensures { IfOk result (λ fields. fields ≡ raw.pairs) }
{
    read_fields(alloc, raw.pairs)
}

// A method, or the name of a field.
fn read_name(bytes: Bytes) -> Name
    requires { is_token bytes ≡ true }
    ensures { result ≡ bytes }
{
    match Name::from_bytes(bytes) {
        Ok(name) => name,
        Err(_) => unreachable!(),
    }
}

// The value of a field, or a reason.
fn read_value(bytes: Bytes) -> Value
    requires { IsValueText bytes }
    ensures { result ≡ bytes }
{
    match Value::from_bytes(bytes) {
        Ok(value) => value,
        Err(_) => unreachable!(),
    }
}

fn read_version(bytes: &Bytes) -> Version
    ensures { result ≡ version_named bytes.now }
{
    if bytes.as_slice() == b"HTTP/1.0".as_slice() {
        Version::Http10
    } else {
        Version::Http11
    }
}

// The code of a response, by its three digits.
fn read_code(digits: &Bytes) -> u16
    requires { IsCodeText digits.now }
    ensures { result ≡ digits_value 10 digits.now }
{
    match read_decimal(digits.as_slice()) {
        Some(code) => code as u16,
        None => unreachable!(),
    }
}

fn read_fields(alloc: Global, pairs: RawPairs) -> Result<Fields, NoMemory>
    requires { All IsPair pairs }
    ensures { IfOk result (λ fields. fields ≡ pairs) }
{
    let mut fields = Fields::new(alloc);
    for (name, value) in pairs.into_vec() {
        fields.add(read_name(name), read_value(value))?;
    }
    Ok(fields)
}
