//! What a reply to a hook is taken for: the message that the hook is about, its body at a body hook, and nothing else.
//!
//! Replies that make no sense at a hook count as going on with the message as it was asked: an answer to a dial, a dropped
//! message, a response in place of a response, or a flow that lacks the response.
ghost use Rattle.std.specs.Prelude.{◌≡◌, IfOk};
ghost use Rattle.px_exchange.specs.Replies.{bad_gateway_reason, in_place, taken_at_request_body, taken_at_request_head, taken_at_response_body, taken_at_response_head, upgrades_as, with_request, with_request_head, with_response, with_response_head, without_upgrade, taken_at_body_of, taken_at_head_of};

use px_event::Reply;
use px_message::{Flow, Request, Response, Shared, Status, Value};
use px_text::NoMemory;
use std::alloc::Global;

/// A reply, as a hook takes it.
#[derive(Debug, Drop)]
pub enum Taken<M> {
    /// It goes on with this message.
    GoesOn(M),
    /// This response is given in place of the server's.
    Responds(Shared<Response>),
    /// It ends the flow and its conversation.
    Kills,
}

/// At the hook of the request's head: method, host, port, path, version and fields.
pub fn take_at_request_head(
    alloc: Global,
    asked: &Shared<Request>,
    reply: Reply,
) -> Result<Taken<Shared<Request>>, NoMemory>
    ensures { IfOk result (λ taken. taken ≡ taken_at_request_head asked.now reply) }
{
    match reply {
        Reply::Go { flow, .. } => Ok(Taken::GoesOn(share_request_head(
            alloc,
            asked.get(),
            flow.request.get(),
        )?)),
        Reply::Respond(response) => Ok(Taken::Responds(in_place(alloc, response)?)),
        Reply::Kill => Ok(Taken::Kills),
        _ => Ok(Taken::GoesOn(asked.try_clone()?)),
    }
}

/// At the hook of the whole request: its body and trailers besides.
pub fn take_at_request_body(
    alloc: Global,
    asked: &Shared<Request>,
    reply: Reply,
) -> Result<Taken<Shared<Request>>, NoMemory>
    ensures { IfOk result (λ taken. taken ≡ taken_at_request_body asked.now reply) }
{
    match reply {
        Reply::Go { flow, .. } => Ok(Taken::GoesOn(share_request(
            alloc,
            asked.get(),
            flow.request.get(),
        )?)),
        Reply::Respond(response) => Ok(Taken::Responds(in_place(alloc, response)?)),
        Reply::Kill => Ok(Taken::Kills),
        _ => Ok(Taken::GoesOn(asked.try_clone()?)),
    }
}

/// At the hook of the response's head: version, status, reason and fields. A status 101 is taken where it is asked about, and
/// else becomes 502 (RFC 9110 section 15.2.2).
pub fn take_at_response_head(
    alloc: Global,
    asked: &Shared<Response>,
    reply: Reply,
) -> Result<Taken<Shared<Response>>, NoMemory>
    ensures { IfOk result (λ taken. taken ≡ taken_at_response_head asked.now reply) }
{
    match reply {
        Reply::Go { flow, .. } => match &flow.response {
            Some(given) => Ok(Taken::GoesOn(share_response_head(alloc, asked.get(), given.get())?)),
            None => Ok(Taken::GoesOn(asked.try_clone()?)),
        },
        Reply::Kill => Ok(Taken::Kills),
        _ => Ok(Taken::GoesOn(asked.try_clone()?)),
    }
}

/// At the hook of the whole response: its body and trailers besides. A status 101 is taken where it is asked about, and else
/// becomes 502 (RFC 9110 section 15.2.2).
pub fn take_at_response_body(
    alloc: Global,
    asked: &Shared<Response>,
    reply: Reply,
) -> Result<Taken<Shared<Response>>, NoMemory>
    ensures { IfOk result (λ taken. taken ≡ taken_at_response_body asked.now reply) }
{
    match reply {
        Reply::Go { flow, .. } => match &flow.response {
            Some(given) => Ok(Taken::GoesOn(share_response(alloc, asked.get(), given.get())?)),
            None => Ok(Taken::GoesOn(asked.try_clone()?)),
        },
        Reply::Kill => Ok(Taken::Kills),
        _ => Ok(Taken::GoesOn(asked.try_clone()?)),
    }
}

/// At the hook of the response's head of a flow, if it has a response.
pub fn take_at_head_of(
    alloc: Global,
    flow: &Flow,
    reply: Reply,
) -> Result<Option<Taken<Shared<Response>>>, NoMemory>
    ensures { IfOk result (λ taken. taken ≡ taken_at_head_of flow.now.response reply) }
{
    match &flow.response {
        Some(asked) => Ok(Some(take_at_response_head(alloc, asked, reply)?)),
        None => Ok(None),
    }
}

/// At the hook of the whole response of a flow, if it has a response.
pub fn take_at_body_of(
    alloc: Global,
    flow: &Flow,
    reply: Reply,
) -> Result<Option<Taken<Shared<Response>>>, NoMemory>
    ensures { IfOk result (λ taken. taken ≡ taken_at_body_of flow.now.response reply) }
{
    match &flow.response {
        Some(asked) => Ok(Some(take_at_response_body(alloc, asked, reply)?)),
        None => Ok(None),
    }
}

fn with_request_head(asked: &Request, given: Request) -> Result<Request, NoMemory>
    ensures { IfOk result (λ taken. taken ≡ with_request_head asked.now given) }
{
    let mut taken = given;
    taken.body = asked.body.try_clone()?;
    taken.trailers = asked.trailers.try_clone()?;
    taken.streamed = asked.streamed;
    Ok(taken)
}

fn with_request(asked: &Request, given: Request) -> Request
    ensures { result ≡ with_request asked.now given }
{
    let mut taken = given;
    taken.streamed = asked.streamed;
    taken
}

fn with_response_head(
    alloc: Global,
    asked: &Response,
    given: Response,
) -> Result<Response, NoMemory>
    ensures { IfOk result (λ taken. taken ≡ with_response_head asked.now given) }
{
    let mut taken = given;
    taken.body = asked.body.try_clone()?;
    taken.trailers = asked.trailers.try_clone()?;
    taken.streamed = asked.streamed;
    upgrades_as(alloc, asked, taken)
}

fn with_response(alloc: Global, asked: &Response, given: Response) -> Result<Response, NoMemory>
    ensures { IfOk result (λ taken. taken ≡ with_response asked.now given) }
{
    let mut taken = given;
    taken.streamed = asked.streamed;
    upgrades_as(alloc, asked, taken)
}

// The same of parts that are shared: a copy is changed, and shared anew.
fn share_request_head(
    alloc: Global,
    asked: &Request,
    given: &Request,
) -> Result<Shared<Request>, NoMemory>
    ensures { IfOk result (λ taken. taken ≡ with_request_head asked.now given.now) }
{
    Shared::new(alloc, with_request_head(asked, given.try_clone()?)?)
}

fn share_request(
    alloc: Global,
    asked: &Request,
    given: &Request,
) -> Result<Shared<Request>, NoMemory>
    ensures { IfOk result (λ taken. taken ≡ with_request asked.now given.now) }
{
    Shared::new(alloc, with_request(asked, given.try_clone()?))
}

fn share_response_head(
    alloc: Global,
    asked: &Response,
    given: &Response,
) -> Result<Shared<Response>, NoMemory>
    ensures { IfOk result (λ taken. taken ≡ with_response_head asked.now given.now) }
{
    Shared::new(alloc, with_response_head(alloc, asked, given.try_clone()?)?)
}

fn share_response(
    alloc: Global,
    asked: &Response,
    given: &Response,
) -> Result<Shared<Response>, NoMemory>
    ensures { IfOk result (λ taken. taken ≡ with_response asked.now given.now) }
{
    Shared::new(alloc, with_response(alloc, asked, given.try_clone()?)?)
}

// A response in place of the server's, which is never streamed.
fn in_place(alloc: Global, given: Response) -> Result<Shared<Response>, NoMemory>
    ensures { IfOk result (λ taken. taken ≡ in_place given) }
{
    let mut taken = given;
    taken.streamed = false;
    Shared::new(alloc, without_upgrade(alloc, taken)?)
}

// A status 101 that a server sent stays one, as long as each hook leaves it so.
fn upgrades_as(alloc: Global, asked: &Response, given: Response) -> Result<Response, NoMemory>
    ensures { IfOk result (λ taken. taken ≡ upgrades_as asked.now given) }
{
    if asked.status.code() == 101 {
        return Ok(given);
    }
    without_upgrade(alloc, given)
}

// A status 101 that no server sent has nothing behind it: it becomes 502.
fn without_upgrade(alloc: Global, response: Response) -> Result<Response, NoMemory>
    ensures { IfOk result (λ taken. taken ≡ without_upgrade response) }
{
    if response.status.code() != 101 {
        return Ok(response);
    }
    let mut taken = response;
    taken.status = bad_gateway();
    taken.reason = bad_gateway_reason(alloc)?;
    Ok(taken)
}

fn bad_gateway() -> Status
    ensures { result ≡ 502 }
{
    match Status::try_new(502) {
        Some(status) => status,
        None => unreachable!(),
    }
}

fn bad_gateway_reason(alloc: Global) -> Result<Value, NoMemory>
    ensures { IfOk result (λ reason. reason ≡ bad_gateway_reason) }
{
    Value::of_text(alloc, b"Bad Gateway")
}
