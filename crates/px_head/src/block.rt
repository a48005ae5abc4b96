//! A block read by the grammar: its parts, or the answer that it is no head.
//!
//! A block that is a head is copied out of the bytes once, and its parts share that copy.
//!
//! The offset forms of `httparse` find each head that has no more fields than their room. So a block is a head exactly
//! where they answer a head that is as long as the block (RFC 9112 sections 2 to 5). Most heads have few fields, so small room
//! is tried first; room for the most fields is cleared only for a block that is no head in the small one.
ghost use Rattle.std.specs.Prelude.{◌≡◌, ◌≤◌, All, IfOk, length, map};
ghost use Rattle.httparse.specs.Grammar.{print_version};
ghost use Rattle.httparse.specs.Spans.{IsHeaderWithin, IsWithin, header_bytes, span_bytes};
ghost use Rattle.px_head.specs.Heads.{request_in, response_in, trailers_in};
ghost use Rattle.px_head.specs.Spans.{AnswersRequest, AnswersResponse, AnswersTrailers, SpansRequest, SpansResponse, SpansTrailers};

use crate::raw::{RawHead, RawPairs};
use httparse::Status;
use httparse::spans::{
    EMPTY_HEADER_SPAN, HeaderSpan, RequestSpans, ResponseSpans, Span, parse_headers, parse_request,
    parse_response,
};
use px_text::{Bytes, NoMemory, push_decimal};
use std::alloc::Global;

/// The most fields of a head.
const MOST_FIELDS: usize = 100;

/// The fields that most heads do not exceed.
const FEW_FIELDS: usize = 24;

/// The block as the head of a request.
pub fn read_request(alloc: Global, block: &[u8]) -> Result<Option<RawHead>, NoMemory>
    ensures { IfOk result (λ raw. raw ≡ request_in block.now) }
{
    let mut room = [EMPTY_HEADER_SPAN; FEW_FIELDS];
    match request_spans(block, &mut room) {
        Some(spans) => share_request(alloc, block, spans, &room),
        None => read_long_request(alloc, block),
    }
}

// The same, in room for the most fields.
fn read_long_request(alloc: Global, block: &[u8]) -> Result<Option<RawHead>, NoMemory>
    ensures { IfOk result (λ raw. raw ≡ request_in block.now) }
{
    let mut room = [EMPTY_HEADER_SPAN; MOST_FIELDS];
    match request_spans(block, &mut room) {
        Some(spans) => share_request(alloc, block, spans, &room),
        None => Ok(None),
    }
}

fn share_request(
    alloc: Global,
    block: &[u8],
    spans: RequestSpans,
    room: &[HeaderSpan],
) -> Result<Option<RawHead>, NoMemory>
    requires { SpansRequest block.now room.now spans }
    ensures { IfOk result (λ raw. raw ≡ request_in block.now) }
{
    let block = Bytes::copied(alloc, block)?;
    Ok(Some(RawHead {
        first: part(&block, spans.method)?,
        second: part(&block, spans.path)?,
        third: Bytes::copied(alloc, version_text(spans.version))?,
        pairs: share_pairs(alloc, &block, &room[..spans.headers])?,
    }))
}

/// The block as the head of a response.
pub fn read_response(alloc: Global, block: &[u8]) -> Result<Option<RawHead>, NoMemory>
    ensures { IfOk result (λ raw. raw ≡ response_in block.now) }
{
    let mut room = [EMPTY_HEADER_SPAN; FEW_FIELDS];
    match response_spans(block, &mut room) {
        Some(spans) => share_response(alloc, block, spans, &room),
        None => read_long_response(alloc, block),
    }
}

// The same, in room for the most fields.
fn read_long_response(alloc: Global, block: &[u8]) -> Result<Option<RawHead>, NoMemory>
    ensures { IfOk result (λ raw. raw ≡ response_in block.now) }
{
    let mut room = [EMPTY_HEADER_SPAN; MOST_FIELDS];
    match response_spans(block, &mut room) {
        Some(spans) => share_response(alloc, block, spans, &room),
        None => Ok(None),
    }
}

fn share_response(
    alloc: Global,
    block: &[u8],
    spans: ResponseSpans,
    room: &[HeaderSpan],
) -> Result<Option<RawHead>, NoMemory>
    requires { SpansResponse block.now room.now spans }
    ensures { IfOk result (λ raw. raw ≡ response_in block.now) }
{
    let mut code = Vec::new(alloc);
    push_decimal(&mut code, u64::from(spans.code))?;
    let block = Bytes::copied(alloc, block)?;
    Ok(Some(RawHead {
        first: Bytes::copied(alloc, version_text(spans.version))?,
        second: Bytes::new(code)?,
        third: part(&block, spans.reason)?,
        pairs: share_pairs(alloc, &block, &room[..spans.headers])?,
    }))
}

/// The block as trailers.
pub fn read_trailers(alloc: Global, block: &[u8]) -> Result<Option<RawHead>, NoMemory>
    ensures { IfOk result (λ raw. raw ≡ trailers_in block.now) }
{
    let mut room = [EMPTY_HEADER_SPAN; FEW_FIELDS];
    match trailer_spans(block, &mut room) {
        Some(count) => share_trailers(alloc, block, count, &room),
        None => read_long_trailers(alloc, block),
    }
}

// The same, in room for the most fields.
fn read_long_trailers(alloc: Global, block: &[u8]) -> Result<Option<RawHead>, NoMemory>
    ensures { IfOk result (λ raw. raw ≡ trailers_in block.now) }
{
    let mut room = [EMPTY_HEADER_SPAN; MOST_FIELDS];
    match trailer_spans(block, &mut room) {
        Some(count) => share_trailers(alloc, block, count, &room),
        None => Ok(None),
    }
}

fn share_trailers(
    alloc: Global,
    block: &[u8],
    count: usize,
    room: &[HeaderSpan],
) -> Result<Option<RawHead>, NoMemory>
    requires { SpansTrailers block.now room.now count }
    ensures { IfOk result (λ raw. raw ≡ trailers_in block.now) }
{
    let block = Bytes::copied(alloc, block)?;
    Ok(Some(RawHead {
        first: Bytes::empty(),
        second: Bytes::empty(),
        third: Bytes::empty(),
        pairs: share_pairs(alloc, &block, &room[..count])?,
    }))
}

fn request_spans(block: &[u8], room: &mut [HeaderSpan]) -> Option<RequestSpans>
    requires { length room.old ≤ 100 }
    ensures { AnswersRequest (length room.old) block.now room.new result }
{
    match parse_request(block, room) {
        Ok(Status::Complete(spans)) => {
            if spans.len == block.len() {
                Some(spans)
            } else {
                None
            }
        }
        _ => None,
    }
}

fn response_spans(block: &[u8], room: &mut [HeaderSpan]) -> Option<ResponseSpans>
    requires { length room.old ≤ 100 }
    ensures { AnswersResponse (length room.old) block.now room.new result }
{
    match parse_response(block, room) {
        Ok(Status::Complete(spans)) => {
            if spans.len == block.len() && spans.code >= 100 {
                Some(spans)
            } else {
                None
            }
        }
        _ => None,
    }
}

fn trailer_spans(block: &[u8], room: &mut [HeaderSpan]) -> Option<usize>
    requires { length room.old ≤ 100 }
    ensures { AnswersTrailers (length room.old) block.now room.new result }
{
    match parse_headers(block, room) {
        Ok(Status::Complete((len, count))) => {
            if len == block.len() {
                Some(count)
            } else {
                None
            }
        }
        _ => None,
    }
}

fn version_text(minor: u8) -> &'static [u8]
    requires { minor ≤ 1 }
    ensures { result.now ≡ print_version minor }
{
    if minor == 0 { b"HTTP/1.0" } else { b"HTTP/1.1" }
}

// The bytes that the span covers, shared.
fn part(block: &Bytes, span: Span) -> Result<Bytes, NoMemory>
    requires { IsWithin (length block.now) span }
    ensures { IfOk result (λ part. part ≡ span_bytes block.now span) }
{
    block.part(span.start, span.end)
}

// The names and values that the spans cover, shared.
fn share_pairs(alloc: Global, block: &Bytes, spans: &[HeaderSpan]) -> Result<RawPairs, NoMemory>
    requires { All (IsHeaderWithin (length block.now)) spans.now }
    ensures { IfOk result (λ pairs. pairs ≡ map (header_bytes block.now) spans.now) }
{
    let mut pairs = Vec::with_capacity(alloc, spans.len())?;
    for span in spans {
        let name = part(block, span.name)?;
        let value = part(block, span.value)?;
        pairs.push((name, value))?;
    }
    Ok(RawPairs::new(pairs))
}
