//! Whole messages, and their heads.
ghost use Rattle.std.specs.Prelude.{◌≡◌, ◌++◌, OnOk, OnErr};
ghost use Rattle.px_text.specs.Prefix.{AddsPrefixOf};
ghost use Rattle.px_write.specs.Text.{interim_text, request_head_text, request_text, response_body_text, response_head_text, response_text};

use crate::Form;
use crate::body::write_body;
use crate::fields::write_fields;
use crate::line::{write_request_line, write_status_line};
use px_message::{Fields, Request, Response, Value, Version, has_no_body};
use px_text::NoMemory;

/// Appends the request's head, its target in that form: the request line, the fields and an empty line (RFC 9112
/// section 2.1). After `NoMemory` the vector ends in the first bytes of it.
pub fn write_request_head(request: &Request, form: Form, out: &mut Vec<u8>) -> Result<(), NoMemory>
    ensures ok { OnOk result (out.new.items ≡ out.old.items ++ request_head_text request.now form) }
    ensures err { OnErr result (AddsPrefixOf (request_head_text request.now form) out.old.items out.new.items) }
{
    write_request_line(request, form, out)?;
    write_fields(&request.fields, out)
}

/// Appends the whole request, its target in that form: its head and its body, in one chunk and with its trailers where
/// its own codings frame it in chunks. After `NoMemory` the vector ends in the first bytes of it.
pub fn write_request(request: &Request, form: Form, out: &mut Vec<u8>) -> Result<(), NoMemory>
    ensures ok { OnOk result (out.new.items ≡ out.old.items ++ request_text request.now form) }
    ensures err { OnErr result (AddsPrefixOf (request_text request.now form) out.old.items out.new.items) }
{
    write_request_head(request, form, out)?;
    write_body(&request.fields, &request.body, &request.trailers, out)
}

/// Appends the response's head: the status line, the fields and an empty line (RFC 9112 section 2.1). After `NoMemory`
/// the vector ends in the first bytes of it.
pub fn write_response_head(response: &Response, out: &mut Vec<u8>) -> Result<(), NoMemory>
    ensures ok { OnOk result (out.new.items ≡ out.old.items ++ response_head_text response.now) }
    ensures err { OnErr result (AddsPrefixOf (response_head_text response.now) out.old.items out.new.items) }
{
    let code = response.status.code();
    write_interim(
        response.version,
        code,
        &response.reason,
        &response.fields,
        out,
    )
}

/// Appends an interim response, which is a head and no more: the status line, the fields and an empty line (RFC 9110
/// section 15.2). After `NoMemory` the vector ends in the first bytes of it.
pub fn write_interim(
    version: Version,
    code: u16,
    reason: &Value,
    fields: &Fields,
    out: &mut Vec<u8>,
) -> Result<(), NoMemory>
    ensures ok { OnOk result (out.new.items ≡ out.old.items ++ interim_text version code reason.now fields.now) }
    ensures err { OnErr result (AddsPrefixOf (interim_text version code reason.now fields.now) out.old.items out.new.items) }
{
    write_status_line(version, code, reason, out)?;
    write_fields(fields, out)
}

/// Appends the whole response to a HEAD or to another method: its head, and its body where it can have one, in one chunk
/// and with its trailers where its own codings frame it in chunks. After `NoMemory` the vector ends in the first bytes
/// of it.
pub fn write_response(
    response: &Response,
    asked_head: bool,
    out: &mut Vec<u8>,
) -> Result<(), NoMemory>
    ensures ok { OnOk result (out.new.items ≡ out.old.items ++ response_text response.now asked_head) }
    ensures err { OnErr result (AddsPrefixOf (response_text response.now asked_head) out.old.items out.new.items) }
{
    write_response_head(response, out)?;
    write_response_body(response, asked_head, out)
}

// The body of a response, or nothing where it can have none.
fn write_response_body(
    response: &Response,
    asked_head: bool,
    out: &mut Vec<u8>,
) -> Result<(), NoMemory>
    ensures ok { OnOk result (out.new.items ≡ out.old.items ++ response_body_text response.now asked_head) }
    ensures err { OnErr result (AddsPrefixOf (response_body_text response.now asked_head) out.old.items out.new.items) }
{
    if has_no_body(response.status.code(), asked_head) {
        return Ok(());
    }
    write_body(&response.fields, &response.body, &response.trailers, out)
}
