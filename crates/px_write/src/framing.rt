//! Laws of framing: the head of a written message ends where it was written.
//!
//! A reader takes the block of lines up to the first empty line for the head (RFC 9112 section 2.1). No name, no value, no
//! path and no host holds the end of a line, by their types; so whatever a message's fields hold, nobody reads its head as
//! shorter or longer than it was written, and its body as fields or its fields as a body. Each law is the contract of a
//! function that does nothing but look at the parts.
ghost use Rattle.std.specs.Prelude.{◌<◌, ◌^◌};
ghost use Rattle.px_write.specs.Framing.{HeadEnds};
ghost use Rattle.px_write.specs.Text.{interim_text, request_head_text, request_text, response_head_text, response_text};

use crate::Form;
use px_message::{Fields, Request, Response, Value, Version, fields_are_valid};

/// The head of a request ends where it was written, in its own text and in that of the whole request.
pub fn request_head_ends(request: &Request, form: Form)
    ensures head { HeadEnds (request_head_text request.now form) (request_head_text request.now form) }
    ensures whole { HeadEnds (request_head_text request.now form) (request_text request.now form) }
{
    let _method = request.method.bytes();
    fits(request.port);
    let _host = request.host.bytes();
    let _path = request.path.bytes();
    fields_are_valid(&request.fields);
}

/// The head of a response ends where it was written, in its own text and in that of the whole response.
pub fn response_head_ends(response: &Response, asked_head: bool)
    ensures head { HeadEnds (response_head_text response.now) (response_head_text response.now) }
    ensures whole { HeadEnds (response_head_text response.now) (response_text response.now asked_head) }
{
    let _code = response.status.code();
    let _reason = response.reason.bytes();
    fields_are_valid(&response.fields);
}

/// An interim response ends where it was written.
pub fn interim_ends(version: Version, code: u16, reason: &Value, fields: &Fields)
    ensures { HeadEnds (interim_text version code reason.now fields.now) (interim_text version code reason.now fields.now) }
{
    let _reason = reason.bytes();
    fields_are_valid(fields);
}

// What the type says of a number.
fn fits(number: u16)
    ensures { number < 2 ^ 16 }
{
    let _ = number;
}
