//! The request of an entry.
ghost use Rattle.std.specs.Prelude.{◌≡◌, codes};
ghost use Rattle.form_urlencoded.specs.Form.{raw_pairs};
ghost use Rattle.px_har.specs.Entry.{parameter_value, posted_value, query, query_value, request_end, request_value, url_value, with_posted};
ghost use Rattle.px_har.specs.Puts.{Adds, Ends, Puts, PutsMember, items_tokens};

use crate::message::{first_or_empty, put_body_size, put_head, version_text};
use crate::values::{put_named, put_text_member};
use json::Writer;
use px_message::Request;
use px_text::NoMemory;
use std::alloc::Global;

pub(crate) fn put_request(
    alloc: Global,
    writer: &mut Writer,
    request: &Request,
) -> Result<(), NoMemory>
    ensures { Puts result writer.old writer.new (request_value request.now) }
{
    let version = version_text(request.version);
    let method = request.method.bytes();
    writer.begin_object()?;
    put_body_size(writer, request.streamed, &request.body)?;
    put_head(alloc, writer, &request.fields, version)?;
    put_text_member(alloc, writer, "method", method)?;
    put_rest(alloc, writer, request)?;
    Ok(())
}

// `postData`, unless the body is empty, and what follows it.
fn put_rest(alloc: Global, writer: &mut Writer, request: &Request) -> Result<(), NoMemory>
    ensures { Ends result writer.old writer.new (with_posted request.now (request_end request.now)) }
{
    if request.body.bytes().is_empty() {
        return put_end(alloc, writer, request);
    }
    put_posted(alloc, writer, request)?;
    put_end(alloc, writer, request)?;
    Ok(())
}

fn put_posted(alloc: Global, writer: &mut Writer, request: &Request) -> Result<(), NoMemory>
    ensures { PutsMember result writer.old writer.new (codes "postData") (posted_value request.now) }
{
    writer.key("postData")?;
    put_content(alloc, writer, request)?;
    Ok(())
}

fn put_content(alloc: Global, writer: &mut Writer, request: &Request) -> Result<(), NoMemory>
    ensures { Puts result writer.old writer.new (posted_value request.now) }
{
    let mime = first_or_empty(&request.fields, b"content-type");
    let body = request.body.bytes();
    writer.begin_object()?;
    put_text_member(alloc, writer, "mimeType", mime)?;
    put_text_member(alloc, writer, "text", body)?;
    writer.end_object()?;
    Ok(())
}

// `queryString`, `url`, and the end of the request.
fn put_end(alloc: Global, writer: &mut Writer, request: &Request) -> Result<(), NoMemory>
    ensures { Ends result writer.old writer.new (request_end request.now) }
{
    let path = request.path.bytes();
    put_query(alloc, writer, path)?;
    put_url(alloc, writer, request)?;
    writer.end_object()?;
    Ok(())
}

fn put_url(alloc: Global, writer: &mut Writer, request: &Request) -> Result<(), NoMemory>
    ensures { PutsMember result writer.old writer.new (codes "url") (url_value request.now) }
{
    let url = request.url()?;
    put_text_member(alloc, writer, "url", &url)
}

fn put_query(alloc: Global, writer: &mut Writer, path: &[u8]) -> Result<(), NoMemory>
    ensures { PutsMember result writer.old writer.new (codes "queryString") (query_value path.now) }
{
    let query = query(path);
    writer.key("queryString")?;
    writer.begin_array()?;
    put_parameters(alloc, writer, query)?;
    Ok(())
}

// What stands behind the first `?`, or nothing.
fn query(path: &[u8]) -> &[u8]
    ensures { result.now ≡ query path.now }
{
    match path.iter().position(|b| *b == b'?') {
        Some(i) => &path[i + 1..],
        None => &[],
    }
}

// The parameters of the query, and the end of their list.
fn put_parameters(alloc: Global, writer: &mut Writer, query: &[u8]) -> Result<(), NoMemory>
    ensures { Adds result writer.old writer.new (items_tokens parameter_value (raw_pairs query.now)) }
{
    let mut rest = form_urlencoded::raw_pairs(query);
    while let Some((name, value)) = rest.next() {
        put_parameter(alloc, writer, name, value)?;
    }
    writer.end_array()?;
    Ok(())
}

fn put_parameter(
    alloc: Global,
    writer: &mut Writer,
    name: &[u8],
    value: &[u8],
) -> Result<(), NoMemory>
    ensures { Puts result writer.old writer.new (parameter_value (name.now, value.now)) }
{
    let name = form_urlencoded::decode(alloc, name)?;
    let value = form_urlencoded::decode(alloc, value)?;
    put_named(writer, &name, &value)
}
