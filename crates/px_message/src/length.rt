//! How long a message's body is (RFC 9112 section 6.3).
//!
//! Two fields tell it: Transfer-Encoding and Content-Length. A message that has both is refused, since two readers could
//! cut it at two places (section 6.1); so is one whose lengths differ or are no numbers, and one whose codings name
//! `chunked` anywhere but alone at their end. A request without either field has no body, and a response without either
//! goes on to the server's close. Some responses have no body whatever their fields say: it would have been the one that
//! answers another method, or there is none at all (RFC 9110 section 6.4.1). The version plays no part.
ghost use Rattle.std.specs.Prelude.{◌≡◌};
ghost use Rattle.px_message.specs.Length.{by_stated, coded_length, framed_length, has_no_body, request_length, response_length, stands, stated_length};

use crate::codings::{TRANSFER_ENCODING, is_framed_in_chunks};
use crate::stated::{CONTENT_LENGTH, stated_length};
use crate::{Fault, Fields};

/// The length of a message's body, by its own head (RFC 9112 section 6.3).
#[derive(Clone, Copy, Debug, PartialEq, Eq)]
pub enum Length {
    /// There is no body.
    None,
    /// So many bytes.
    Bytes(u64),
    /// In chunks (RFC 9112 section 7.1).
    Chunked,
    /// Up to the server's close.
    ToClose,
}

/// The length of a request's body. It takes no memory, and only three faults come of it: `BothLengths` where
/// Transfer-Encoding and Content-Length both stand, `BadCoding` where the codings are not `chunked` once, at their end,
/// and `BadLength` where the parts of the Content-Length values are not all the same number.
pub fn length_of_request(fields: &Fields) -> Result<Length, Fault>
    ensures { result ≡ request_length fields.now }
{
    let is_coded = stands(TRANSFER_ENCODING, fields);
    let is_measured = stands(CONTENT_LENGTH, fields);
    match (is_coded, is_measured) {
        (true, true) => Err(Fault::BothLengths), // Neither is trusted.
        (true, false) if is_framed_in_chunks(fields) => Ok(Length::Chunked),
        (true, false) => Err(Fault::BadCoding),
        (false, true) => by_stated(fields),
        (false, false) => Ok(Length::None),
    }
}

/// The length of the body of a response of this status code, to a HEAD or not. It takes no memory. Where the response
/// can have no body it is `None`, whatever the fields. Otherwise the faults are those of a request, but for codings
/// without `chunked`: with them the body goes on to the close.
pub fn length_of_response(code: u16, asked_head: bool, fields: &Fields) -> Result<Length, Fault>
    ensures { result ≡ response_length code asked_head fields.now }
{
    if has_no_body(code, asked_head) {
        Ok(Length::None)
    } else {
        framed_length(fields)
    }
}

/// Whether a response of this status code, to a HEAD or not, has no body whatever its fields: an interim one, 204 and
/// 304, and each to a HEAD (RFC 9110 section 6.4.1).
pub fn has_no_body(code: u16, asked_head: bool) -> bool
    ensures { result ≡ has_no_body code asked_head }
{
    asked_head || code / 100 == 1 || code == 204 || code == 304
}

// The length of the body of a response that can have one.
fn framed_length(fields: &Fields) -> Result<Length, Fault>
    ensures { result ≡ framed_length fields.now }
{
    let is_coded = stands(TRANSFER_ENCODING, fields);
    let is_measured = stands(CONTENT_LENGTH, fields);
    match (is_coded, is_measured) {
        (true, true) => Err(Fault::BothLengths),
        (true, false) => by_codings(fields),
        (false, true) => by_stated(fields),
        (false, false) => Ok(Length::ToClose),
    }
}

/// The length of a response's body by its codings.
pub(crate) fn by_codings(fields: &Fields) -> Result<Length, Fault>
    ensures { result ≡ coded_length fields.now }
{
    if !fields.has_element(TRANSFER_ENCODING, b"chunked") {
        Ok(Length::ToClose)
    } else if is_framed_in_chunks(fields) {
        Ok(Length::Chunked)
    } else {
        Err(Fault::BadCoding)
    }
}

// The length that the Content-Length fields state.
fn by_stated(fields: &Fields) -> Result<Length, Fault>
    ensures { result ≡ by_stated (stated_length fields.now) }
{
    match stated_length(fields) {
        Some(length) => Ok(Length::Bytes(length)),
        None => Err(Fault::BadLength),
    }
}

/// Whether a field of that name stands.
pub(crate) fn stands(name: &[u8], fields: &Fields) -> bool
    ensures { result ≡ stands name.now fields.now }
{
    fields.get_all(name).next().is_some()
}
