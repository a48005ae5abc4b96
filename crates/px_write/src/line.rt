//! Start lines: of a request, `METHOD TARGET VERSION` (RFC 9112 section 3), and of a response, `VERSION CODE REASON`
//! (section 4). Single spaces stand between their parts, also before an empty reason.
ghost use Rattle.std.specs.Prelude.{◌≡◌, ◌++◌, OnOk, OnErr};
ghost use Rattle.px_text.specs.Prefix.{AddsPrefixOf};
ghost use Rattle.px_write.specs.Text.{request_line, status_line, target_text, version_text};

use crate::Form;
use crate::append::{CRLF, append};
use itoa::Buffer;
use px_message::{Request, Value, Version};
use px_text::NoMemory;

/// Appends the line that begins the request.
pub(crate) fn write_request_line(
    request: &Request,
    form: Form,
    out: &mut Vec<u8>,
) -> Result<(), NoMemory>
    ensures ok { OnOk result (out.new.items ≡ out.old.items ++ request_line request.now.method (target_text form request.now.host request.now.port request.now.path) (version_text request.now.version)) }
    ensures err { OnErr result (AddsPrefixOf (request_line request.now.method (target_text form request.now.host request.now.port request.now.path) (version_text request.now.version)) out.old.items out.new.items) }
{
    let method = request.method.bytes();
    let version = version_name(request.version);
    match form {
        Form::Origin => write_line(method, request.path.bytes(), version, out),
        Form::Absolute => {
            let url = request.url()?;
            write_line(method, &url, version, out)
        }
    }
}

/// Appends the line that begins a response.
pub(crate) fn write_status_line(
    version: Version,
    code: u16,
    reason: &Value,
    out: &mut Vec<u8>,
) -> Result<(), NoMemory>
    ensures ok { OnOk result (out.new.items ≡ out.old.items ++ status_line (version_text version) code reason.now) }
    ensures err { OnErr result (AddsPrefixOf (status_line (version_text version) code reason.now) out.old.items out.new.items) }
{
    let name = version_name(version);
    let mut buffer = Buffer::new();
    let digits = buffer.format(code).as_bytes();
    write_line(name, digits, reason.bytes(), out)
}

// A line of three parts.
fn write_line(first: &[u8], second: &[u8], third: &[u8], out: &mut Vec<u8>) -> Result<(), NoMemory>
    ensures ok { OnOk result (out.new.items ≡ out.old.items ++ request_line first.now second.now third.now) }
    ensures err { OnErr result (AddsPrefixOf (request_line first.now second.now third.now) out.old.items out.new.items) }
{
    append(out, &[first, b" ", second, b" ", third, CRLF])
}

// The name of a version (RFC 9112 section 2.3).
#[tactic(auto, unfolding(crate::specs::Text::version_text))]
fn version_name(version: Version) -> &'static [u8]
    ensures { result.now ≡ version_text version }
{
    match version {
        Version::Http10 => b"HTTP/1.0",
        Version::Http11 => b"HTTP/1.1",
    }
}
