//! Responses that the proxy makes itself and that say no more than a status (RFC 9110 section 15).
ghost use Rattle.std.specs.Prelude.{◌≡◌, ◌++◌, ◌∷◌, [], true, IfOk, OnOk};
ghost use Rattle.httparse.specs.Grammar.{is_token};
ghost use Rattle.px_message.specs.Value.{is_value};
ghost use Rattle.px_write.specs.Short.{reason_of, short_fields, short_response};

use px_message::{Body, Fields, Name, Response, Status, Value, Version};
use px_text::NoMemory;
use std::alloc::Global;

/// The response of version 1.1 with this status, the status's reason, or an empty one where it has none here, the field
/// `Server: mitm`, an empty body, and `Content-Length: 0`, but for 204 and 304, which have no body to be measured.
pub fn short_response(alloc: Global, status: Status) -> Result<Response, NoMemory>
    ensures { IfOk result (λ response. response ≡ short_response status) }
{
    let code = status.code();
    let reason = Value::of_text(alloc, reason_of(code))?;
    let fields = short_fields(alloc, code)?;
    Ok(Response {
        version: Version::Http11,
        status,
        reason,
        fields,
        body: Body::empty(),
        trailers: Fields::new(alloc),
        streamed: false,
    })
}

fn short_fields(alloc: Global, code: u16) -> Result<Fields, NoMemory>
    ensures { IfOk result (λ fields. fields ≡ short_fields code) }
{
    let mut fields = Fields::new(alloc);
    add(alloc, &mut fields, b"Server", b"mitm")?;
    if code != 204 && code != 304 {
        add(alloc, &mut fields, b"Content-Length", b"0")?;
    }
    Ok(fields)
}

// Adds a field of texts that are known to be a name and a value.
fn add(alloc: Global, fields: &mut Fields, name: &[u8], value: &[u8]) -> Result<(), NoMemory>
    requires name { is_token name.now ≡ true }
    requires value { is_value value.now ≡ true }
    ensures { OnOk result (fields.new ≡ fields.old ++ (name.now, value.now) ∷ []) }
{
    let name = Name::of_token(alloc, name)?;
    let value = Value::of_text(alloc, value)?;
    fields.add(name, value)
}

// The reason of a status code.
fn reason_of(code: u16) -> &'static [u8]
    ensures reason { result.now ≡ reason_of code }
    ensures valid { is_value result.now ≡ true }
{
    match code {
        200 => b"OK",
        201 => b"Created",
        204 => b"No Content",
        301 => b"Moved Permanently",
        302 => b"Found",
        304 => b"Not Modified",
        400 => b"Bad Request",
        401 => b"Unauthorized",
        403 => b"Forbidden",
        404 => b"Not Found",
        405 => b"Method Not Allowed",
        500 => b"Internal Server Error",
        501 => b"Not Implemented",
        502 => b"Bad Gateway",
        503 => b"Service Unavailable",
        504 => b"Gateway Timeout",
        _ => b"",
    }
}
