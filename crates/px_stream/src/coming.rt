//! A response that is streamed, or may yet be: what is held of it, and what is sent.
//!
//! Content keeps no borders of chunks. So while it is not known whether a body is streamed, what its parts say as they are sent on is held
//! beside its content; where it turns out to be streamed that is sent, and then each part as it is given, of which nothing is held.
ghost use Rattle.std.specs.Prelude.{◌≡◌, ◌++◌, IfOk, OnOk};
ghost use Rattle.px_read.specs.Marks.{marks_of};
ghost use Rattle.px_parts.specs.Texts.{marks_text};
ghost use Rattle.px_exchange.specs.Bodies.{IsReading, content_of, stop_of};
ghost use Rattle.px_chain.specs.Coming.{streaming};
ghost use Rattle.px_stream.specs.Comings.{GoesOver, GoesOverHeld, IsHeldFor, framed_by, may_exceed, may_stream, streams_with};

use px_exchange::Boxed;
use px_exchange::body::Progress;
use px_exchange::content::Content;
use px_exchange::flows::with_response;
use px_message::{
    Flow, Length, Response, Shared, has_no_body, length_of_response, settle_streamed,
};
use px_parts::response_is_streamed;
use px_read::{MessageReader, Part};
use px_text::NoMemory;
use px_write::{write_chunk_end, write_chunk_start};
use std::alloc::Global;

/// What is held of a response's body that may yet be streamed: the response as its head was read, and what the parts of the body say that
/// came, as they are sent on.
#[derive(Debug, Drop)]
pub struct Held {
    pub read: Shared<Response>,
    pub said: Vec<u8>,
}

/// What is held of a response's body behind its head: the response as it was read, to HEAD or not, and as the head's hook left it. Where its
/// body is never streamed, by its length or since no size was allowed, nothing is.
pub fn hold(
    alloc: Global,
    asked_head: bool,
    read: Shared<Response>,
    response: &Response,
    most: Option<u64>,
) -> Option<Held>
    ensures { IsHeldFor asked_head read response.now most result }
{
    if may_stream(asked_head, read.get(), response, most) {
        Some(Held {
            read,
            said: Vec::new(alloc),
        })
    } else {
        drop(read);
        None
    }
}

// Whether a response's body may yet be streamed, once more of it has come.
fn may_stream(asked_head: bool, read: &Response, response: &Response, most: Option<u64>) -> bool
    ensures { result ≡ may_stream asked_head read.now response.now most }
{
    let Some(most) = most else {
        return false;
    };
    if has_no_body(response.status.code(), asked_head) {
        return false;
    }
    match length_of_response(read.status.code(), asked_head, &read.fields) {
        Ok(length) => may_exceed(length, most),
        Err(_) => false,
    }
}

// Whether a body of that length may come to more than is kept.
pub(crate) fn may_exceed(length: Length, most: u64) -> bool
    ensures { result ≡ may_exceed length most }
{
    match length {
        Length::None => false,
        Length::Bytes(n) => most < n,
        Length::Chunked | Length::ToClose => true,
    }
}

/// Whether a response is streamed that was read so, to HEAD or not, and that its head's hook left so, where so many bytes of its body came.
pub fn streams(
    asked_head: bool,
    read: &Response,
    response: &Response,
    most: Option<u64>,
    heard: u64,
) -> bool
    ensures { result ≡ streams_with asked_head read.now response.now most heard }
{
    match length_of_response(read.status.code(), asked_head, &read.fields) {
        Ok(length) => {
            response_is_streamed(response.status.code(), asked_head, length, most, heard)
        }
        Err(_) => false,
    }
}

/// The flow, which says that its response is streamed.
pub fn as_streamed(alloc: Global, flow: Boxed<Flow>) -> Result<Boxed<Flow>, NoMemory>
    ensures { IfOk result (λ told. told ≡ streaming flow) }
{
    let Some(response) = &flow.response else {
        return Ok(flow);
    };
    let mut told = response.get().try_clone()?;
    told.streamed = true;
    let told = Shared::new(alloc, told)?;
    Ok(with_response(flow, told))
}

/// The response as it is sent: framed as it was read.
pub fn framed(read: &Response, response: &Response) -> Result<Response, NoMemory>
    ensures { IfOk result (λ sent. sent ≡ framed_by read.now response.now) }
{
    let mut sent = response.try_clone()?;
    settle_streamed(&mut sent.fields, &read.fields)?;
    Ok(sent)
}

/// Reads a body whose head was read, adds what came to its content, and what its parts say to what is held.
pub fn read_held(
    reader: &mut MessageReader,
    body: &mut Content,
    said: &mut Vec<u8>,
) -> Result<Progress, NoMemory>
    requires reads { IsReading reader.old }
    ensures { IfOk result (λ progress. GoesOverHeld progress reader.old body.old said.old.items reader.new body.new said.new.items) }
{
    'parts: loop {
        let part = reader.next()?;
        collect(&part, body, said)?;
        if let Some(progress) = stop_of(part) {
            return Ok(progress);
        }
    }
}

// Adds the content of a part, and what it says that is no end.
fn collect(part: &Part, body: &mut Content, said: &mut Vec<u8>) -> Result<(), NoMemory>
    ensures body { OnOk result (body.new ≡ body.old ++ content_of (marks_of part.now)) }
    ensures said { OnOk result (said.new.items ≡ said.old.items ++ marks_text (marks_of part.now)) }
{
    add(part, body)?;
    say(part, said)
}

// Adds the content of a part.
fn add(part: &Part, body: &mut Content) -> Result<(), NoMemory>
    ensures { OnOk result (body.new ≡ body.old ++ content_of (marks_of part.now)) }
{
    match part {
        Part::Piece(bytes) => body.push(bytes),
        _ => Ok(()),
    }
}

/// Reads a body whose head was read, and adds what its parts say.
pub fn read_on(reader: &mut MessageReader, said: &mut Vec<u8>) -> Result<Progress, NoMemory>
    requires reads { IsReading reader.old }
    ensures { IfOk result (λ progress. GoesOver progress reader.old said.old.items reader.new said.new.items) }
{
    'parts: loop {
        let part = reader.next()?;
        say(&part, said)?;
        if let Some(progress) = stop_of(part) {
            return Ok(progress);
        }
    }
}

// Adds what a part says that is no end.
fn say(part: &Part, said: &mut Vec<u8>) -> Result<(), NoMemory>
    ensures { OnOk result (said.new.items ≡ said.old.items ++ marks_text (marks_of part.now)) }
{
    match part {
        Part::Piece(bytes) => {
            said.extend_from_slice(bytes.as_slice())?;
            Ok(())
        }
        Part::ChunkStart(size) => write_chunk_start(*size, said),
        Part::ChunkEnd => write_chunk_end(said),
        Part::More | Part::End(_) | Part::Bad(_) | Part::Request(_) | Part::Response(_) => Ok(()),
    }
}

/// How the message stands, where it has no further part.
pub fn stop_of(part: Part) -> Option<Progress>
    ensures { result ≡ stop_of part }
{
    match part {
        Part::More => Some(Progress::Missing),
        Part::End(trailers) => Some(Progress::Whole(trailers)),
        Part::Bad(fault) => Some(Progress::Bad(fault)),
        Part::Piece(_)
        | Part::ChunkStart(_)
        | Part::ChunkEnd
        | Part::Request(_)
        | Part::Response(_) => None,
    }
}
