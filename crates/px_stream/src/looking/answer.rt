//! Looks for the final response: its head, and then its body.
ghost use Rattle.std.specs.Prelude.{◌≡◌, ◌++◌, ◌∷◌, [], IfOk, OnOk};
ghost use Rattle.px_event.specs.declared.ask.Hook.TheVariants.{ResponseHead as AtHead};
ghost use Rattle.px_exchange.specs.Flows.{ask_of, with_answer};
ghost use Rattle.px_exchange.specs.Bodies.{IsReading};
ghost use Rattle.px_exchange.specs.Finds.{is_relayed};
ghost use Rattle.px_stream.specs.Looks.{AnswerFound, ReadsMore, ReturnFound, answer_gives, answer_phase, relayed_phase, relays, returned_gives, returned_phase, unless_bad, unless_over};
ghost use Rattle.px_stream.specs.Responses.{IsKept, ReadsHead};
ghost use Rattle.px_stream.specs.Stands.{IsOpen, StaysOpen};

use super::{fail, leave, read_up};
use crate::coming::Held;
use crate::going::Sending;
use crate::link::Link;
use crate::phase::{Asked, Phase, Wanted};
use crate::reading::{FinalHead, read_head};
use px_event::{Command, Hook};
use px_exchange::Boxed;
use px_exchange::body::{Progress, read_body};
use px_exchange::content::Content;
use px_exchange::flows::{self, asks_http11, response_of, status_of};
use px_exchange::said::ask;
use px_exchange::terms::Now;
use px_message::{Fault, Flow, Request, Response};
use px_read::{MessageReader, ResponseHead};
use px_text::NoMemory;
use std::alloc::Global;

/// Looks for the head of the final response.
pub fn look_for_answer(
    now: Now,
    requests: &mut MessageReader,
    side: &mut Option<Link>,
    flow: Boxed<Flow>,
    server: u32,
    up: Sending,
    out: &mut Vec<Command>,
) -> Result<Phase, NoMemory>
    requires kept { IsOpen IsKept side.old }
    ensures looks { IfOk result (λ next. AnswerFound flow server up requests.old requests.new side.old side.new now.moment now.parked now.client_closed out.old.items out.new.items next) }
{
    let sends = asks_http11(&flow);
    let bad = read_up(requests, &up)?;
    let answer = read_side(now.alloc, side, flow.request.get(), sends, out)?;
    look_at_both(now, flow, server, up, bad, answer, out)
}

// Reads the open side up to the head of the final response.
fn read_side(
    alloc: Global,
    side: &mut Option<Link>,
    request: &Request,
    sends: bool,
    out: &mut Vec<Command>,
) -> Result<FinalHead, NoMemory>
    requires kept { IsOpen IsKept side.old }
    ensures { IfOk result (λ answer. StaysOpen (λ link later. ReadsHead request.now answer sends link out.old.items later out.new.items) side.old side.new) }
{
    match side {
        Some(link) => read_head(alloc, link, request, sends, out),
        None => unreachable!(),
    }
}

// A fault of a request that goes up comes first.
fn look_at_both(
    now: Now,
    flow: Boxed<Flow>,
    server: u32,
    up: Sending,
    bad: Option<Fault>,
    answer: FinalHead,
    out: &mut Vec<Command>,
) -> Result<Phase, NoMemory>
    ensures gives { OnOk result (out.new.items ≡ out.old.items ++ unless_bad bad flow now.moment now.parked now.client_closed (answer_gives flow answer now.moment now.parked now.client_closed)) }
    ensures phase { IfOk result (λ next. next ≡ unless_over bad (answer_phase flow server up answer now.moment now.client_closed)) }
{
    match bad {
        Some(fault) => {
            drop(up);
            drop(answer);
            fail(now, flow, fault, now.parked, out)
        }
        None => look_at_answer(now, flow, server, up, answer, out),
    }
}

// What is made of the final response's head, if it has come.
fn look_at_answer(
    now: Now,
    flow: Boxed<Flow>,
    server: u32,
    up: Sending,
    answer: FinalHead,
    out: &mut Vec<Command>,
) -> Result<Phase, NoMemory>
    ensures gives { OnOk result (out.new.items ≡ out.old.items ++ answer_gives flow answer now.moment now.parked now.client_closed) }
    ensures phase { IfOk result (λ next. next ≡ answer_phase flow server up answer now.moment now.client_closed) }
{
    match answer {
        FinalHead::Head(head) => relay_head(now, flow, server, up, head, out),
        FinalHead::Bad(fault) => {
            drop(up);
            fail(now, flow, fault, now.parked, out)
        }
        FinalHead::Missing => {
            if now.client_closed {
                drop(up);
                return leave(now, flow, now.parked, out);
            }
            Ok(Phase::Ready(Wanted::ResponseHead { flow, server, up }))
        }
    }
}

// Asks the hook of the response's head, unless its code is none of a final response.
fn relay_head(
    now: Now,
    flow: Boxed<Flow>,
    server: u32,
    up: Sending,
    head: ResponseHead,
    out: &mut Vec<Command>,
) -> Result<Phase, NoMemory>
    ensures gives { OnOk result (out.new.items ≡ out.old.items ++ relays (is_relayed head.code) flow head now.moment now.parked now.client_closed) }
    ensures phase { IfOk result (λ next. next ≡ relayed_phase (is_relayed head.code) flow server up head now.moment) }
{
    match status_of(head.code) {
        None => {
            drop(up);
            fail(now, flow, Fault::BadResponse, now.parked, out)
        }
        Some(status) => {
            let response = response_of(now.alloc, head, status);
            ask_response(now, flow, server, up, response, out)
        }
    }
}

// Asks the hook of the response's head.
fn ask_response(
    now: Now,
    flow: Boxed<Flow>,
    server: u32,
    up: Sending,
    response: Response,
    out: &mut Vec<Command>,
) -> Result<Phase, NoMemory>
    ensures gives { OnOk result (out.new.items ≡ out.old.items ++ ask_of (with_answer flow response now.moment) AtHead ∷ []) }
    ensures phase { IfOk result (λ next. next ≡ Phase.Asked (Asked.ResponseHead (with_answer flow response now.moment) server up)) }
{
    let flow = flows::with_answer(now, flow, response)?;
    ask(&flow, Hook::ResponseHead, out)?;
    Ok(Phase::Asked(Asked::ResponseHead { flow, server, up }))
}

/// Looks for the rest of the response's body.
pub fn look_for_returned(
    now: Now,
    requests: &mut MessageReader,
    side: &mut Option<Link>,
    flow: Boxed<Flow>,
    server: u32,
    up: Sending,
    most: Option<u64>,
    body: Content,
    held: Option<Held>,
    out: &mut Vec<Command>,
) -> Result<Phase, NoMemory>
    requires reads { IsOpen (λ link. IsReading link.responses) side.old }
    ensures looks { IfOk result (λ next. ReturnFound flow server up most body held requests.old requests.new side.old side.new now.moment now.parked now.client_closed out.old.items out.new.items next) }
{
    let mut body = body;
    let bad = read_up(requests, &up)?;
    let progress = read_more(side, &mut body)?;
    look_at_whole(now, flow, server, up, most, bad, progress, body, held, out)
}

// Reads the body that comes on the open side.
fn read_more(side: &mut Option<Link>, body: &mut Content) -> Result<Progress, NoMemory>
    requires reads { IsOpen (λ link. IsReading link.responses) side.old }
    ensures { IfOk result (λ progress. StaysOpen (ReadsMore progress body.old body.new) side.old side.new) }
{
    match side {
        Some(link) => read_body(&mut link.responses, body),
        None => unreachable!(),
    }
}

// A fault of a request that goes up comes first.
fn look_at_whole(
    now: Now,
    flow: Boxed<Flow>,
    server: u32,
    up: Sending,
    most: Option<u64>,
    bad: Option<Fault>,
    progress: Progress,
    body: Content,
    held: Option<Held>,
    out: &mut Vec<Command>,
) -> Result<Phase, NoMemory>
    ensures gives { OnOk result (out.new.items ≡ out.old.items ++ unless_bad bad flow now.moment now.parked now.client_closed (returned_gives flow progress body now.moment now.parked now.client_closed)) }
    ensures phase { IfOk result (λ next. next ≡ unless_over bad (returned_phase flow server up most progress body held now.moment now.client_closed)) }
{
    match bad {
        Some(fault) => {
            drop(up);
            drop(progress);
            drop(body);
            drop(held);
            fail(now, flow, fault, now.parked, out)
        }
        None => look_at_returned(now, flow, server, up, most, progress, body, held, out),
    }
}

// What is made of the body, as far as it has come.
fn look_at_returned(
    now: Now,
    flow: Boxed<Flow>,
    server: u32,
    up: Sending,
    most: Option<u64>,
    progress: Progress,
    body: Content,
    held: Option<Held>,
    out: &mut Vec<Command>,
) -> Result<Phase, NoMemory>
    ensures gives { OnOk result (out.new.items ≡ out.old.items ++ returned_gives flow progress body now.moment now.parked now.client_closed) }
    ensures phase { IfOk result (λ next. next ≡ returned_phase flow server up most progress body held now.moment now.client_closed) }
{
    match progress {
        Progress::Whole(trailers) => {
            drop(held);
            let flow = flows::with_returned(now, flow, body, trailers)?;
            ask(&flow, Hook::ResponseBody, out)?;
            Ok(Phase::Asked(Asked::ResponseBody { flow, server, up }))
        }
        Progress::Bad(fault) => {
            drop(up);
            drop(body);
            drop(held);
            fail(now, flow, fault, now.parked, out)
        }
        Progress::Missing => {
            if now.client_closed {
                drop(up);
                drop(body);
                drop(held);
                return leave(now, flows::without_response(flow), now.parked, out);
            }
            Ok(Phase::Ready(Wanted::ResponseBody {
                flow,
                server,
                up,
                most,
                body,
                held,
            }))
        }
    }
}
