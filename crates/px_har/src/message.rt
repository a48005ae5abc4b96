//! What both messages of an entry have.
ghost use Rattle.std.specs.Prelude.{◌≡◌, codes};
ghost use Rattle.serde_json.specs.Data.{member, string};
ghost use Rattle.px_message.specs.Fields.{values_of};
ghost use Rattle.px_har.specs.Entry.{body_size, field_value, fields_value, first_or_empty, unknown_size, version_text, with_head};
ghost use Rattle.px_har.specs.Puts.{Adds, Puts, PutsMember, PutsMembers, items_tokens};

use crate::values::{
    put_count, put_empty_list_member, put_string_member, put_text_member, put_unknown_size,
};
use json::Writer;
use px_message::{Body, Fields, Name, Value, Version};
use px_text::NoMemory;
use std::alloc::Global;

/// `bodySize`: how many bytes the body has, or -1 where it passed by.
pub(crate) fn put_body_size(
    writer: &mut Writer,
    streamed: bool,
    body: &Body,
) -> Result<(), NoMemory>
    ensures { PutsMember result writer.old writer.new (codes "bodySize") (body_size streamed body.now) }
{
    writer.key("bodySize")?;
    put_size(writer, streamed, body)?;
    Ok(())
}

fn put_size(writer: &mut Writer, streamed: bool, body: &Body) -> Result<(), NoMemory>
    ensures { Puts result writer.old writer.new (body_size streamed body.now) }
{
    if streamed {
        return put_unknown_size(writer);
    }
    put_count(writer, body.bytes().len() as u64)
}

/// `cookies`, `headers`, `headersSize` and `httpVersion`.
pub(crate) fn put_head(
    alloc: Global,
    writer: &mut Writer,
    fields: &Fields,
    version: &str,
) -> Result<(), NoMemory>
    ensures { PutsMembers result writer.old writer.new (with_head (fields_value fields.now) version.now) }
{
    put_empty_list_member(writer, "cookies")?;
    put_fields(alloc, writer, fields)?;
    put_head_end(writer, version)?;
    Ok(())
}

// `headersSize` and `httpVersion`.
fn put_head_end(writer: &mut Writer, version: &str) -> Result<(), NoMemory>
    ensures { PutsMembers result writer.old writer.new
        (λ members. member (codes "headersSize") unknown_size (member (codes "httpVersion") (string version.now) members)) }
{
    writer.key("headersSize")?;
    put_unknown_size(writer)?;
    put_string_member(writer, "httpVersion", version)?;
    Ok(())
}

pub(crate) fn version_text(version: Version) -> &'static str
    ensures { result.now ≡ version_text version }
{
    match version {
        Version::Http10 => "HTTP/1.0",
        Version::Http11 => "HTTP/1.1",
    }
}

fn put_fields(alloc: Global, writer: &mut Writer, fields: &Fields) -> Result<(), NoMemory>
    ensures { PutsMember result writer.old writer.new (codes "headers") (fields_value fields.now) }
{
    writer.key("headers")?;
    writer.begin_array()?;
    put_each_field(alloc, writer, fields)?;
    Ok(())
}

// The fields, and the end of their list.
fn put_each_field(alloc: Global, writer: &mut Writer, fields: &Fields) -> Result<(), NoMemory>
    ensures { Adds result writer.old writer.new (items_tokens field_value fields.now) }
{
    for i in 0..fields.len() {
        let (name, value) = fields.pair(i);
        put_field(alloc, writer, name, value)?;
    }
    writer.end_array()?;
    Ok(())
}

fn put_field(alloc: Global, writer: &mut Writer, name: &Name, value: &Value) -> Result<(), NoMemory>
    ensures { Puts result writer.old writer.new (field_value (name.now, value.now)) }
{
    let name = name.bytes();
    let value = value.bytes();
    writer.begin_object()?;
    put_text_member(alloc, writer, "name", name)?;
    put_text_member(alloc, writer, "value", value)?;
    writer.end_object()?;
    Ok(())
}

/// The value of the first field of that name, or nothing.
pub(crate) fn first_or_empty<'a>(fields: &'a Fields, name: &'a [u8]) -> &'a [u8]
    ensures { result.now ≡ first_or_empty (values_of name.now fields.now) }
{
    match fields.get_all(name).next() {
        Some(value) => value.bytes(),
        None => &[],
    }
}
