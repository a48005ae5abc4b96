//! Where a pattern is looked for. What stands in the flow is looked at where it stands; a line or an address that does not is written out.
ghost use Rattle.std.specs.Prelude.{◌≡◌, ◌<◌, ◌∷◌, [], length, map, slice_index_or, IfOk};
ghost use Rattle.std.specs.List.{list_any};
ghost use Rattle.px_message.specs.Fields.{values_of};
ghost use Rattle.px_filter.specs.Holds as specs;
ghost use Rattle.px_filter.specs.Pattern.{found};
ghost use Rattle.px_filter.specs.declared.operator.Part.TheVariants as parts;

use crate::operator::Part;
use crate::pattern::Seeker;
use px_message::{Address, Fields, Flow, Response, Shared};
use px_text::{NoMemory, push_decimal};
use std::alloc::Global;

/// The name of the field of the content's type.
pub const CONTENT_TYPE: &[u8] = b"Content-Type";

/// Whether the pattern is found in the part.
pub fn part_has(
    seeker: &mut Seeker<'_>,
    part: Part,
    flow: &Flow,
    alloc: Global,
) -> Result<bool, NoMemory>
    ensures { IfOk result (λ answer. answer ≡ list_any (found seeker.old) (specs.texts part flow.now)) }
{
    match part {
        Part::Body => Ok(bodies_have(seeker, flow)),
        Part::RequestBody => Ok(request_body_has(seeker, flow)),
        Part::ResponseBody => Ok(response_body_has(seeker, flow)),
        Part::Host => Ok(seeker.found(flow.request.get().host.bytes())),
        Part::Server => address_has(seeker, &flow.server, alloc),
        Part::Header => headers_have(seeker, flow, alloc),
        Part::RequestHeader => lines_have(seeker, &flow.request.get().fields, alloc),
        Part::ResponseHeader => response_lines_have(seeker, &flow.response, alloc),
        Part::Method => Ok(seeker.found(flow.request.get().method.bytes())),
        Part::Client => address_has(seeker, &flow.client, alloc),
        Part::Type => Ok(types_have(seeker, flow)),
        Part::RequestType => Ok(values_have(seeker, &flow.request.get().fields)),
        Part::ResponseType => Ok(response_types_have(seeker, &flow.response)),
        Part::Url => Ok(seeker.found(flow.request.get().url()?.as_slice())),
    }
}

// Bodies and the message.
fn bodies_have(seeker: &mut Seeker<'_>, flow: &Flow) -> bool
    ensures { result ≡ list_any (found seeker.old) (specs.texts parts.Body flow.now) }
{
    if seeker.found(flow.request.get().body.bytes()) {
        return true;
    }
    if body_has(seeker, &flow.response) {
        return true;
    }
    match &flow.message {
        None => false,
        Some(message) => seeker.found(message.get().payload.as_slice()),
    }
}

fn request_body_has(seeker: &mut Seeker<'_>, flow: &Flow) -> bool
    ensures { result ≡ list_any (found seeker.old) (specs.texts parts.RequestBody flow.now) }
{
    if seeker.found(flow.request.get().body.bytes()) {
        return true;
    }
    match &flow.message {
        None => false,
        Some(message) => message.get().from_client
            && seeker.found(message.get().payload.as_slice()),
    }
}

fn response_body_has(seeker: &mut Seeker<'_>, flow: &Flow) -> bool
    ensures { result ≡ list_any (found seeker.old) (specs.texts parts.ResponseBody flow.now) }
{
    if body_has(seeker, &flow.response) {
        return true;
    }
    match &flow.message {
        None => false,
        Some(message) => !message.get().from_client
            && seeker.found(message.get().payload.as_slice()),
    }
}

fn body_has(seeker: &mut Seeker<'_>, response: &Option<Shared<Response>>) -> bool
    ensures value { result ≡ list_any (found seeker.old) (specs.in_response (λ r. r.body ∷ []) response.now) }
    ensures same { seeker.new ≡ seeker.old }
{
    match response {
        None => false,
        Some(response) => seeker.found(response.get().body.bytes()),
    }
}

// `host:port`
fn address_has(
    seeker: &mut Seeker<'_>,
    address: &Option<Shared<Address>>,
    alloc: Global,
) -> Result<bool, NoMemory>
    ensures { IfOk result (λ answer. answer ≡ list_any (found seeker.old) (specs.address_of address.now)) }
{
    match address {
        None => Ok(false),
        Some(address) => Ok(seeker.found(address_text(alloc, address.get())?.as_slice())),
    }
}

fn address_text(alloc: Global, address: &Address) -> Result<Vec<u8>, NoMemory>
    ensures { IfOk result (λ text. text.items ≡ specs.address_text address.now) }
{
    let mut text = Vec::from_slice(alloc, address.host.bytes())?;
    text.push(b':')?;
    push_decimal(&mut text, u64::from(address.port))?;
    Ok(text)
}

// Fields as `name: value`.
fn headers_have(seeker: &mut Seeker<'_>, flow: &Flow, alloc: Global) -> Result<bool, NoMemory>
    ensures { IfOk result (λ answer. answer ≡ list_any (found seeker.old) (specs.texts parts.Header flow.now)) }
{
    if lines_have(seeker, &flow.request.get().fields, alloc)? {
        return Ok(true);
    }
    response_lines_have(seeker, &flow.response, alloc)
}

fn response_lines_have(
    seeker: &mut Seeker<'_>,
    response: &Option<Shared<Response>>,
    alloc: Global,
) -> Result<bool, NoMemory>
    ensures { IfOk result (λ answer. answer
        ≡ list_any (found seeker.old) (specs.in_response (λ r. map specs.field_line r.fields) response.now)) }
{
    match response {
        None => Ok(false),
        Some(response) => lines_have(seeker, &response.get().fields, alloc),
    }
}

fn lines_have(seeker: &mut Seeker<'_>, fields: &Fields, alloc: Global) -> Result<bool, NoMemory>
    ensures value { IfOk result (λ answer. answer ≡ list_any (found seeker.old) (map specs.field_line fields.now)) }
    ensures same { seeker.new ≡ seeker.old }
{
    for i in 0..fields.len() {
        let line = line_of(alloc, fields, i)?;
        if seeker.found(line.as_slice()) {
            return Ok(true);
        }
    }
    Ok(false)
}

// The line of the field at that index.
fn line_of(alloc: Global, fields: &Fields, i: usize) -> Result<Vec<u8>, NoMemory>
    requires { i < length fields.now }
    ensures { IfOk result (λ line. line.items ≡ specs.field_line (slice_index_or fields.now i ([], []))) }
{
    let (name, value) = fields.pair(i);
    let mut line = Vec::from_slice(alloc, name.bytes())?;
    line.extend_from_slice(b": ")?;
    line.extend_from_slice(value.bytes())?;
    Ok(line)
}

// Content types.
fn types_have(seeker: &mut Seeker<'_>, flow: &Flow) -> bool
    ensures { result ≡ list_any (found seeker.old) (specs.texts parts.Type flow.now) }
{
    if values_have(seeker, &flow.request.get().fields) {
        return true;
    }
    response_types_have(seeker, &flow.response)
}

fn response_types_have(seeker: &mut Seeker<'_>, response: &Option<Shared<Response>>) -> bool
    ensures { result ≡ list_any (found seeker.old) (specs.in_response (λ r. values_of specs.content_type r.fields) response.now) }
{
    match response {
        None => false,
        Some(response) => values_have(seeker, &response.get().fields),
    }
}

fn values_have(seeker: &mut Seeker<'_>, fields: &Fields) -> bool
    ensures value { result ≡ list_any (found seeker.old) (values_of specs.content_type fields.now) }
    ensures same { seeker.new ≡ seeker.old }
{
    let mut values = fields.get_all(CONTENT_TYPE);
    while let Some(value) = values.next() {
        if seeker.found(value.bytes()) {
            return true;
        }
    }
    false
}
