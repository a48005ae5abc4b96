//! A flow with another body of the message that a hook is about, and with what the last line gave.
ghost use Rattle.std.specs.Prelude.{◌≡◌, option_map, IfOk, OnOk};
ghost use Rattle.px_draft.specs.Edits.{put_in};
ghost use Rattle.px_draft.specs.Subjects.{has_body, holds_body, message_with, response_with_body, with_body};
ghost use Rattle.px_draft.specs.declared.subject.Subject.TheVariants as subjects;

use crate::fields::put_field;
use crate::given::Given;
use crate::subject::Subject;
use px_message::{Body, Flow, Request, Response, Shared, WsMessage};
use px_text::{Bytes, NoMemory};
use std::alloc::Global;

/// Puts what the last line gave into the message.
pub(crate) fn put_in(
    alloc: Global,
    subject: Subject,
    given: &Given,
    flow: &mut Flow,
) -> Result<(), NoMemory>
    ensures { OnOk result (flow.new ≡ put_in subject given.now flow.old) }
{
    match given {
        Given::Nothing => Ok(()),
        Given::Field {
            placing,
            name,
            value,
        } => put_field(alloc, subject, flow, *placing, name, value),
        Given::Body(body) => put_body(alloc, subject, flow, body.copied(alloc)?),
    }
}

/// Whether the body of the message is here, or the payload.
pub(crate) fn has_body(subject: Subject, flow: &Flow) -> bool
    ensures { result ≡ has_body subject flow.now }
{
    match subject {
        Subject::Request => !flow.request.get().streamed,
        Subject::Response => holds_body(&flow.response),
        Subject::Message => flow.message.is_some(),
    }
}

fn holds_body(response: &Option<Shared<Response>>) -> bool
    ensures { result ≡ holds_body response.now }
{
    match response {
        Some(response) => !response.get().streamed,
        None => false,
    }
}

fn put_body(alloc: Global, subject: Subject, flow: &mut Flow, bytes: Bytes) -> Result<(), NoMemory>
    ensures { OnOk result (flow.new ≡ with_body subject bytes flow.old) }
{
    match subject {
        Subject::Request => put_request(alloc, flow, bytes),
        Subject::Response => put_response(alloc, flow, bytes),
        Subject::Message => put_message(alloc, flow, bytes),
    }
}

fn put_request(alloc: Global, flow: &mut Flow, bytes: Bytes) -> Result<(), NoMemory>
    ensures { OnOk result (flow.new ≡ with_body subjects.Request bytes flow.old) }
{
    flow.request = share_request(alloc, flow.request.get(), bytes)?;
    Ok(())
}

fn put_response(alloc: Global, flow: &mut Flow, bytes: Bytes) -> Result<(), NoMemory>
    ensures { OnOk result (flow.new ≡ with_body subjects.Response bytes flow.old) }
{
    flow.response = share_response(alloc, &flow.response, bytes)?;
    Ok(())
}

fn put_message(alloc: Global, flow: &mut Flow, bytes: Bytes) -> Result<(), NoMemory>
    ensures { OnOk result (flow.new ≡ with_body subjects.Message bytes flow.old) }
{
    flow.message = share_message(alloc, &flow.message, bytes)?;
    Ok(())
}

// A request with another body, which copies of the flow may share.
fn share_request(
    alloc: Global,
    request: &Request,
    bytes: Bytes,
) -> Result<Shared<Request>, NoMemory>
    ensures { IfOk result (λ shared. shared ≡ record request.now { body = bytes }) }
{
    let copy = request.try_clone()?;
    Shared::new(alloc, request_with_body(copy, bytes))
}

fn request_with_body(request: Request, bytes: Bytes) -> Request
    ensures { result ≡ record request { body = bytes } }
{
    let mut changed = request;
    changed.body = Body::from_bytes(bytes);
    changed
}

// A response with another body, where there is one.
fn share_response(
    alloc: Global,
    response: &Option<Shared<Response>>,
    bytes: Bytes,
) -> Result<Option<Shared<Response>>, NoMemory>
    ensures { IfOk result (λ shared. shared ≡ option_map (response_with_body bytes) response.now) }
{
    let Some(response) = response else {
        return Ok(None);
    };
    let mut changed = response.get().try_clone()?;
    changed.body = Body::from_bytes(bytes);
    let shared = Shared::new(alloc, changed)?;
    Ok(Some(shared))
}

// A message with another payload, where there is one.
fn share_message(
    alloc: Global,
    message: &Option<Shared<WsMessage>>,
    bytes: Bytes,
) -> Result<Option<Shared<WsMessage>>, NoMemory>
    ensures { IfOk result (λ shared. shared ≡ option_map (message_with bytes) message.now) }
{
    let Some(message) = message else {
        return Ok(None);
    };
    let mut changed = message.get().try_clone()?;
    changed.payload = bytes;
    let shared = Shared::new(alloc, changed)?;
    Ok(Some(shared))
}
