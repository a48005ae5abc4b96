//! The bytes of a flow that body rules change.
ghost use Rattle.std.specs.Prelude.{◌≡◌, option_map, IfOk, OnOk, OnErr};
ghost use Rattle.px_rule.specs.Body.{content_in, message_with, response_with, with_content};
ghost use Rattle.px_rule.specs.declared.content.Content.TheVariants as contents;

use px_message::{Body, Flow, Request, Response, Shared, WsMessage};
use px_text::{Bytes, NoMemory};
use std::alloc::Global;

/// Which bytes of a flow are meant.
#[derive(Clone, Copy, Debug, PartialEq, Eq)]
pub enum Content {
    /// The request's body.
    Request,
    /// The response's body.
    Response,
    /// The payload of the message of a WebSocket.
    Message,
}

// These bytes, where they are.
pub(crate) fn content_of(flow: &Flow, content: Content) -> Option<&[u8]>
    ensures { option_map (λ bytes. bytes.now) result ≡ content_in content flow.now }
{
    match content {
        Content::Request => Some(flow.request.get().body.bytes()),
        Content::Response => match &flow.response {
            Some(response) => Some(response.get().body.bytes()),
            None => None,
        },
        Content::Message => match &flow.message {
            Some(message) => Some(message.get().payload.as_slice()),
            None => None,
        },
    }
}

// Puts these bytes, where they are. After `NoMemory` the flow is as before.
pub(crate) fn put_content(
    alloc: Global,
    flow: &mut Flow,
    content: Content,
    bytes: Bytes,
) -> Result<(), NoMemory>
    ensures put { OnOk result (flow.new ≡ with_content content (λ _. bytes) flow.old) }
    ensures unchanged { OnErr result (flow.new ≡ flow.old) }
{
    match content {
        Content::Request => put_request(alloc, flow, bytes),
        Content::Response => put_response(alloc, flow, bytes),
        Content::Message => put_message(alloc, flow, bytes),
    }
}

fn put_request(alloc: Global, flow: &mut Flow, bytes: Bytes) -> Result<(), NoMemory>
    ensures put { OnOk result (flow.new ≡ with_content contents.Request (λ _. bytes) flow.old) }
    ensures unchanged { OnErr result (flow.new ≡ flow.old) }
{
    flow.request = share_request(alloc, flow.request.get(), bytes)?;
    Ok(())
}

fn put_response(alloc: Global, flow: &mut Flow, bytes: Bytes) -> Result<(), NoMemory>
    ensures put { OnOk result (flow.new ≡ with_content contents.Response (λ _. bytes) flow.old) }
    ensures unchanged { OnErr result (flow.new ≡ flow.old) }
{
    flow.response = share_response(alloc, &flow.response, bytes)?;
    Ok(())
}

// A request with another body, which copies of the flow may share.
fn share_request(
    alloc: Global,
    request: &Request,
    bytes: Bytes,
) -> Result<Shared<Request>, NoMemory>
    ensures { IfOk result (λ shared. shared ≡ record request.now { body = bytes }) }
{
    let copy = request.try_clone()?;
    Shared::new(alloc, put_in_request(copy, bytes))
}

fn put_in_request(request: Request, bytes: Bytes) -> Request
    ensures { result ≡ record request { body = bytes } }
{
    let mut changed = request;
    changed.body = Body::from_bytes(bytes);
    changed
}

// A response with another body, where there is one.
fn share_response(
    alloc: Global,
    response: &Option<Shared<Response>>,
    bytes: Bytes,
) -> Result<Option<Shared<Response>>, NoMemory>
    ensures { IfOk result (λ shared. shared ≡ option_map (response_with (λ _. bytes)) response.now) }
{
    let Some(response) = response else {
        return Ok(None);
    };
    let mut changed = response.get().try_clone()?;
    changed.body = Body::from_bytes(bytes);
    let shared = Shared::new(alloc, changed)?;
    Ok(Some(shared))
}

fn put_message(alloc: Global, flow: &mut Flow, bytes: Bytes) -> Result<(), NoMemory>
    ensures put { OnOk result (flow.new ≡ with_content contents.Message (λ _. bytes) flow.old) }
    ensures unchanged { OnErr result (flow.new ≡ flow.old) }
{
    flow.message = share_message(alloc, &flow.message, bytes)?;
    Ok(())
}

// A message with another payload, where there is one.
fn share_message(
    alloc: Global,
    message: &Option<Shared<WsMessage>>,
    bytes: Bytes,
) -> Result<Option<Shared<WsMessage>>, NoMemory>
    ensures { IfOk result (λ shared. shared ≡ option_map (message_with (λ _. bytes)) message.now) }
{
    let Some(message) = message else {
        return Ok(None);
    };
    let mut changed = message.get().try_clone()?;
    changed.payload = bytes;
    let shared = Shared::new(alloc, changed)?;
    Ok(Some(shared))
}
