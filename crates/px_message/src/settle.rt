//! Messages with framing fields that are true to their bodies (RFC 9112 section 6).
//!
//! A message that was changed may say another length than its body has, or say it in two ways; whoever reads it then
//! takes the rest of it for another message. Settling makes the fields true to the body and never the body to the fields,
//! with one exception: a response that can have no body loses what it holds of one. Codings that frame the body in chunks
//! stay, and are all that frames it. Other codings of a request, and those of a response that are refused, go. Without
//! codings Content-Length is made true.
//!
//! What is settled is whole: its own head tells its body's length. A whole message is not touched, so a message that
//! nobody changed goes on as it was read.
ghost use Rattle.std.specs.Prelude.{◌≡◌, [], OnOk};
ghost use Rattle.px_message.specs.Settle.{settled_request, settled_request_fields, settled_response, settled_response_fields, settled_trailers};

use crate::codings::{TRANSFER_ENCODING, is_framed_in_chunks};
use crate::length::{by_codings, has_no_body, stands};
use crate::measured::{measure_request, measure_response};
use crate::stated::CONTENT_LENGTH;
use crate::{Body, Fields, Request, Response};
use px_text::NoMemory;

/// Makes the request's framing fields true to its body. Chunks stay chunks, without Content-Length; other codings are
/// taken away, and Content-Length is the body's length: none at all where the body is empty and none stood. Trailers of a
/// request that is not in chunks are dropped. After `NoMemory` the request may only be dropped.
pub fn settle_request(request: &mut Request) -> Result<(), NoMemory>
    ensures { OnOk result (request.new ≡ settled_request request.old) }
{
    settle_trailers(&request.fields, &mut request.trailers);
    let length = request.body.bytes().len() as u64;
    settle_request_fields(&mut request.fields, length)
}

/// Makes the framing fields of the response, to HEAD or to another method, true to its body. A response that can have no
/// body loses body and trailers, and its fields stay. Codings stay without Content-Length, unless `chunked` stands among
/// them and is not the last: such are taken away. Without codings a Content-Length is made the body's length, and where
/// none stands the body runs to the close. Trailers of a response that is not in chunks are dropped. After `NoMemory` the
/// response may only be dropped.
pub fn settle_response(response: &mut Response, asked_head: bool) -> Result<(), NoMemory>
    ensures { OnOk result (response.new ≡ settled_response asked_head response.old) }
{
    if has_no_body(response.status.code(), asked_head) {
        let alloc = response.fields.allocator();
        response.body = Body::empty();
        response.trailers = Fields::new(alloc);
        return Ok(());
    }
    settle_trailers(&response.fields, &mut response.trailers);
    let length = response.body.bytes().len() as u64;
    settle_response_fields(&mut response.fields, length)
}

// The fields of a request with a body of this length.
fn settle_request_fields(fields: &mut Fields, length: u64) -> Result<(), NoMemory>
    ensures { OnOk result (fields.new ≡ settled_request_fields length fields.old) }
{
    if is_framed_in_chunks(fields) {
        return fields.remove(CONTENT_LENGTH);
    }
    fields.remove(TRANSFER_ENCODING)?;
    measure_request(fields, length)
}

// The fields of a response with a body of this length.
fn settle_response_fields(fields: &mut Fields, length: u64) -> Result<(), NoMemory>
    ensures { OnOk result (fields.new ≡ settled_response_fields length fields.old) }
{
    if !stands(TRANSFER_ENCODING, fields) {
        return measure_response(fields, length);
    }
    match by_codings(fields) {
        Ok(_) => fields.remove(CONTENT_LENGTH),
        Err(_) => {
            fields.remove(TRANSFER_ENCODING)?;
            measure_response(fields, length)
        }
    }
}

// Trailers stand behind chunks alone.
fn settle_trailers(fields: &Fields, trailers: &mut Fields)
    ensures { trailers.new ≡ settled_trailers fields.now trailers.old }
{
    if !is_framed_in_chunks(fields) {
        *trailers = Fields::new(trailers.allocator());
    }
}
