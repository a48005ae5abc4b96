//! Looks for a request: its head, and then its body.
ghost use Rattle.std.specs.Prelude.{◌≡◌, ◌++◌, ◌∷◌, ℕ, List, [], false, Some, None, IfOk, OnOk};
ghost use Rattle.px_event.specs.Chain.{found};
ghost use Rattle.px_event.specs.declared.ask.Hook.TheVariants.{RequestHead as AtHead};
ghost use Rattle.px_read.specs.Items.{request_item};
ghost use Rattle.px_read.specs.declared.head.RequestHead.{RequestHead as ReadHead};
ghost use Rattle.px_read.specs.Reader.{Reads, request as OfRequest};
ghost use Rattle.px_exchange.specs.Bodies.{IsReading};
ghost use Rattle.px_chain.specs.Chain.{connect_in};
ghost use Rattle.px_exchange.specs.Flows.{ask_of};
ghost use Rattle.px_exchange.specs.Finds.{look_head, look_judged, or_leaves};
ghost use Rattle.px_exchange.specs.Endings.{refuses, shut_server};
ghost use Rattle.px_stream.specs.Looks.{BehindJudged, BodyFound, GaveNext, HeadRead, body_gives, body_phase, head_phase, is_over, judged_phase, unless_left, where_left, whole_gives, whole_phase};
ghost use Rattle.px_exchange.specs.Requests.{expects as expecting, flow_of, judged, is_head as asks_head};

use super::{ask_given_head, fail, leave};
use crate::going::HeldRequest;
use crate::phase::{Asked, Phase, Wanted};
use px_event::{Command, Hook};
use px_exchange::asked::{Judged, expects, is_head, judge};
use px_exchange::body::{Progress, read_body};
use px_exchange::content::Content;
use px_exchange::ending::{part, refuse};
use px_exchange::said::ask;
use px_exchange::terms::{Now, Terms};
use px_exchange::{Boxed, flows};
use px_message::{Address, Fault, Flow, Request, Response, Shared};
use px_read::{MessageReader, Part, RequestHead};
use px_text::NoMemory;

/// Looks for the head of a request.
pub fn look_for_head(
    terms: &Terms,
    now: Now,
    index: u32,
    requests: &mut MessageReader,
    out: &mut Vec<Command>,
) -> Result<Phase, NoMemory>
    ensures gives { (fed : List ℕ) → Reads OfRequest [] fed false requests.old → OnOk result (out.new.items ≡ out.old.items ++ found (or_leaves now.client_closed (shut_server now.parked) (look_head terms.now index (request_item fed) now.moment now.parked now.client_closed))) }
    ensures phase { (fed : List ℕ) → Reads OfRequest [] fed false requests.old → IfOk result (λ next. next ≡ head_phase terms.now index (request_item fed) now.moment now.client_closed) }
    ensures reads { (fed : List ℕ) → Reads OfRequest [] fed false requests.old → OnOk result (HeadRead (connect_in terms.now.place (request_item fed)) (request_item fed) fed requests.new) }
{
    match requests.next()? {
        Part::Request(head) => look_at_head(terms, now, index, requests, head, out),
        Part::Bad(fault) => refuse_head(now, fault, false, out),
        _ => wait_for_head(now, out),
    }
}

// No head is there.
fn wait_for_head(now: Now, out: &mut Vec<Command>) -> Result<Phase, NoMemory>
    ensures gives { OnOk result (out.new.items ≡ out.old.items ++ where_left now.client_closed (shut_server now.parked)) }
    ensures phase { IfOk result (λ next. next ≡ unless_left now.client_closed Wanted.Idle) }
{
    if now.client_closed {
        part(now.parked, out)?;
        return Ok(Phase::Ready(Wanted::Over));
    }
    Ok(Phase::Ready(Wanted::Idle))
}

// Ends the conversation by a head that makes no flow.
fn refuse_head(
    now: Now,
    fault: Fault,
    asked_head: bool,
    out: &mut Vec<Command>,
) -> Result<Phase, NoMemory>
    ensures gives { OnOk result (out.new.items ≡ out.old.items ++ refuses fault asked_head now.parked now.client_closed) }
    ensures phase { IfOk result (λ next. next ≡ is_over) }
{
    refuse(now, fault, asked_head, now.parked, out)?;
    Ok(Phase::Ready(Wanted::Over))
}

// Judges the head, and asks its hook, or reads on to the end of a CONNECT.
fn look_at_head(
    terms: &Terms,
    now: Now,
    index: u32,
    requests: &mut MessageReader,
    head: RequestHead,
    out: &mut Vec<Command>,
) -> Result<Phase, NoMemory>
    ensures gives { OnOk result (out.new.items ≡ out.old.items ++ found (look_judged terms.now index head (judged terms.now.place head) now.moment now.parked now.client_closed)) }
    ensures phase { IfOk result (λ next. next ≡ judged_phase terms.now index head (judged terms.now.place head) now.moment) }
    ensures reads { OnOk result (BehindJudged (judged terms.now.place head) requests.old requests.new) }
{
    let asked_head = is_head(head.method.bytes());
    let expected = expects(&head);
    let judged = judge(now.alloc, &terms.place, head)?;
    begin_flow(
        terms, now, index, requests, judged, asked_head, expected, out,
    )
}

// Asks the hook of the request's head, unless the head makes no flow.
fn begin_flow(
    terms: &Terms,
    now: Now,
    index: u32,
    requests: &mut MessageReader,
    made: Judged,
    asked_head: bool,
    expected: bool,
    out: &mut Vec<Command>,
) -> Result<Phase, NoMemory>
    ensures gives { (head : ReadHead) → asked_head ≡ asks_head head.method → OnOk result (out.new.items ≡ out.old.items ++ found (look_judged terms.now index head made now.moment now.parked now.client_closed)) }
    ensures phase { (head : ReadHead) → expected ≡ expecting head → IfOk result (λ next. next ≡ judged_phase terms.now index head made now.moment) }
    ensures reads { OnOk result (BehindJudged made requests.old requests.new) }
{
    match made {
        Judged::Refused(fault) => refuse_head(now, fault, asked_head, out),
        Judged::Accepted(request) => ask_head(terms, now, index, request, expected, out),
        Judged::Connects(address) => read_connect(requests, address),
    }
}

// Reads the end of a CONNECT, which follows its head: the reader keeps what stands behind it.
fn read_connect(requests: &mut MessageReader, address: Address) -> Result<Phase, NoMemory>
    ensures reads { OnOk result (GaveNext requests.old requests.new) }
    ensures phase { IfOk result (λ next. next ≡ Phase.Ready (Wanted.Connects address)) }
{
    requests.next()?;
    Ok(Phase::Ready(Wanted::Connects { address }))
}

// Asks the hook of the request's head.
fn ask_head(
    terms: &Terms,
    now: Now,
    index: u32,
    request: Request,
    expected: bool,
    out: &mut Vec<Command>,
) -> Result<Phase, NoMemory>
    ensures gives { OnOk result (out.new.items ≡ out.old.items ++ ask_of (flow_of terms.now index request now.moment) AtHead ∷ []) }
    ensures phase { IfOk result (λ next. next ≡ Phase.Asked (Asked.Idle (flow_of terms.now index request now.moment) expected)) }
{
    let flow = flows::begin(now.alloc, terms, index, request, now.moment)?;
    ask(&flow, Hook::RequestHead, out)?;
    Ok(Phase::Asked(Asked::Idle {
        flow,
        expects: expected,
    }))
}

/// Looks for the rest of the request's body.
pub fn look_for_body(
    now: Now,
    requests: &mut MessageReader,
    flow: Boxed<Flow>,
    given: Option<Shared<Response>>,
    most: Option<u64>,
    body: Content,
    held: Option<HeldRequest>,
    out: &mut Vec<Command>,
) -> Result<Phase, NoMemory>
    requires reads { IsReading requests.old }
    ensures looks { IfOk result (λ next. BodyFound flow given most body held requests.old requests.new now.moment now.parked now.client_closed out.old.items out.new.items next) }
{
    let mut body = body;
    let progress = read_body(requests, &mut body)?;
    look_at_body(now, flow, given, most, progress, body, held, out)
}

// What is made of the body, as far as it has come.
fn look_at_body(
    now: Now,
    flow: Boxed<Flow>,
    given: Option<Shared<Response>>,
    most: Option<u64>,
    progress: Progress,
    body: Content,
    held: Option<HeldRequest>,
    out: &mut Vec<Command>,
) -> Result<Phase, NoMemory>
    ensures gives { OnOk result (out.new.items ≡ out.old.items ++ body_gives flow given progress body now.moment now.parked now.client_closed) }
    ensures phase { IfOk result (λ next. next ≡ body_phase flow given most progress body held now.moment now.client_closed) }
{
    match progress {
        Progress::Whole(trailers) => {
            drop(held);
            let flow = flows::with_body(now, flow, body, trailers)?;
            ask_whole(now, flow, given, out)
        }
        Progress::Bad(fault) => {
            drop(body);
            drop(given);
            drop(held);
            fail(now, flow, fault, now.parked, out)
        }
        Progress::Missing => {
            if now.client_closed {
                drop(body);
                drop(given);
                drop(held);
                return leave(now, flow, now.parked, out);
            }
            Ok(Phase::Ready(Wanted::RequestBody {
                flow,
                given,
                most,
                body,
                held,
            }))
        }
    }
}

// The request is whole: its hook is asked, unless a response is given already.
fn ask_whole(
    now: Now,
    flow: Boxed<Flow>,
    given: Option<Shared<Response>>,
    out: &mut Vec<Command>,
) -> Result<Phase, NoMemory>
    ensures gives { OnOk result (out.new.items ≡ out.old.items ++ whole_gives flow given now.moment) }
    ensures phase { IfOk result (λ next. next ≡ whole_phase flow given now.moment) }
{
    match given {
        Some(response) => ask_given_head(now, flows::with_response(flow, response), out),
        None => {
            ask(&flow, Hook::RequestBody, out)?;
            Ok(Phase::Asked(Asked::RequestBody { flow }))
        }
    }
}
