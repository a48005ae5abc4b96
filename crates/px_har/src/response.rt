//! The response of an entry.
ghost use Rattle.std.specs.Prelude.{codes, length};
ghost use Rattle.serde_json.specs.Data.{member, no_members, object, string};
ghost use Rattle.px_har.specs.Entry.{answer_value, body_value, content_text, content_value, content_with, no_answer, response_value, status_end, text_value};
ghost use Rattle.px_har.specs.Puts.{Ends, Puts, PutsMember, PutsMembers};
ghost use Rattle.px_har.specs.Text.{base64_text};

use crate::message::{first_or_empty, put_body_size, put_head, version_text};
use crate::text::base64_of;
use crate::values::{put_count_member, put_string_member, put_text_member, put_unknown_size};
use json::Writer;
use px_message::{Fields, Response, Shared};
use px_text::NoMemory;
use std::alloc::Global;
use std::str;

/// The response, or what stands in its place where none came.
pub(crate) fn put_response(
    alloc: Global,
    writer: &mut Writer,
    response: &Option<Shared<Response>>,
) -> Result<(), NoMemory>
    ensures { Puts result writer.old writer.new (response_value response.now) }
{
    match response {
        Some(response) => put_answer(alloc, writer, response.get()),
        None => put_no_answer(alloc, writer),
    }
}

fn put_answer(alloc: Global, writer: &mut Writer, response: &Response) -> Result<(), NoMemory>
    ensures { Puts result writer.old writer.new (answer_value response.now) }
{
    let version = version_text(response.version);
    let location = first_or_empty(&response.fields, b"location");
    let code = response.status.code();
    let reason = response.reason.bytes();
    writer.begin_object()?;
    put_body_size(writer, response.streamed, &response.body)?;
    writer.key("content")?;
    put_content(alloc, writer, response)?;
    put_head(alloc, writer, &response.fields, version)?;
    put_text_member(alloc, writer, "redirectURL", location)?;
    put_end(alloc, writer, code, reason)?;
    Ok(())
}

// `status`, `statusText`, and the end of the response.
fn put_end(alloc: Global, writer: &mut Writer, code: u16, reason: &[u8]) -> Result<(), NoMemory>
    ensures { Ends result writer.old writer.new (status_end code reason.now) }
{
    put_count_member(writer, "status", code as u64)?;
    put_text_member(alloc, writer, "statusText", reason)?;
    writer.end_object()?;
    Ok(())
}

fn put_content(alloc: Global, writer: &mut Writer, response: &Response) -> Result<(), NoMemory>
    ensures { Puts result writer.old writer.new (content_value response.now) }
{
    let mime = first_or_empty(&response.fields, b"content-type");
    if response.streamed {
        return put_passed(alloc, writer, mime);
    }
    put_body(alloc, writer, mime, response.body.bytes())
}

// The content where the body passed by, or where there is no response.
fn put_passed(alloc: Global, writer: &mut Writer, mime: &[u8]) -> Result<(), NoMemory>
    ensures { Puts result writer.old writer.new (object (content_with (text_value mime.now) 0 no_members)) }
{
    writer.begin_object()?;
    put_kind(alloc, writer, mime, 0)?;
    writer.end_object()?;
    Ok(())
}

fn put_body(alloc: Global, writer: &mut Writer, mime: &[u8], body: &[u8]) -> Result<(), NoMemory>
    ensures { Puts result writer.old writer.new (body_value (text_value mime.now) body.now) }
{
    match str::from_utf8(body) {
        Ok(text) => put_plain(alloc, writer, mime, text),
        Err(_) => put_encoded(alloc, writer, mime, body),
    }
}

fn put_plain(alloc: Global, writer: &mut Writer, mime: &[u8], text: &str) -> Result<(), NoMemory>
    ensures { Puts result writer.old writer.new (object (content_with (text_value mime.now) (length text.now) (content_text text.now))) }
{
    writer.begin_object()?;
    put_kind(alloc, writer, mime, text.len())?;
    put_string_member(writer, "text", text)?;
    writer.end_object()?;
    Ok(())
}

fn put_encoded(alloc: Global, writer: &mut Writer, mime: &[u8], body: &[u8]) -> Result<(), NoMemory>
    ensures { Puts result writer.old writer.new (object (member (codes "encoding") (string (codes "base64"))
        (content_with (text_value mime.now) (length body.now) (content_text (base64_text body.now))))) }
{
    writer.begin_object()?;
    put_string_member(writer, "encoding", "base64")?;
    put_kind(alloc, writer, mime, body.len())?;
    put_base64(alloc, writer, body)?;
    writer.end_object()?;
    Ok(())
}

fn put_base64(alloc: Global, writer: &mut Writer, bytes: &[u8]) -> Result<(), NoMemory>
    ensures { PutsMember result writer.old writer.new (codes "text") (string (base64_text bytes.now)) }
{
    let text = base64_of(alloc, bytes)?;
    put_string_member(writer, "text", &text)
}

// `mimeType` and `size`.
fn put_kind(alloc: Global, writer: &mut Writer, mime: &[u8], size: usize) -> Result<(), NoMemory>
    ensures { PutsMembers result writer.old writer.new (content_with (text_value mime.now) size) }
{
    put_text_member(alloc, writer, "mimeType", mime)?;
    put_count_member(writer, "size", size as u64)?;
    Ok(())
}

fn put_no_answer(alloc: Global, writer: &mut Writer) -> Result<(), NoMemory>
    ensures { Puts result writer.old writer.new no_answer }
{
    let fields = Fields::new(alloc);
    writer.begin_object()?;
    writer.key("bodySize")?;
    put_unknown_size(writer)?;
    writer.key("content")?;
    put_passed(alloc, writer, b"")?;
    put_head(alloc, writer, &fields, "")?;
    put_string_member(writer, "redirectURL", "")?;
    put_end(alloc, writer, 0, b"")?;
    Ok(())
}
