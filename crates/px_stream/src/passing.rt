//! Where a flow goes on without an answer: a response's body is read as far as it has come; where it is streamed, what came is sent, and
//! where that is all of it, the flow is finished. Before that, what came of a request that is streamed is sent on (`request`).
ghost use Rattle.std.specs.Prelude.{◌≡◌, ◌<◌, ◌++◌, ◌||◌, length, IfOk, OnOk};
ghost use Rattle.px_exchange.specs.Bodies.{IsReading};
ghost use Rattle.px_stream.specs.Comings.{sends_text};
ghost use Rattle.px_stream.specs.GoingUp.{is_rising};
ghost use Rattle.px_stream.specs.Passes.{DownPassed, HeldPassed, HoldsMore, MayPass, Passed, SaysMore, SideCame, StartedDown, WentDown, ended_gives, ended_leads, is_passing, streams_by};
ghost use Rattle.px_stream.specs.Stands.{IsOpen, IsSome, StaysOpen, stage_of};
ghost use Rattle.px_stream.specs.Turns.{keeps_on};

use crate::at::At;
use crate::coming::{Held, as_streamed, framed, read_held, read_on, streams};
use crate::ending::end_sent;
use crate::going::Sending;
use crate::link::{self, Link};
use crate::phase::Wanted;
use crate::turning::{count_flow, park};
use px_event::{Command, Side};
use px_exchange::asked::is_head;
use px_exchange::body::{Progress, read_body};
use px_exchange::content::Content;
use px_exchange::ending::finish_streamed;
use px_exchange::said::send;
use px_exchange::terms::Now;
use px_exchange::{Boxed, Place};
use px_message::{Flow, Response, Shared};
use px_parts::write_end;
use px_text::{Bytes, NoMemory};
use px_write::write_response_head;
use request::is_rising;
use std::alloc::Global;

mod request;

pub use request::pass_request;

/// Goes on without an answer, once. Where a flow is finished, what is looked for next is the head of a request, of which nothing was read yet.
pub fn pass(
    place: &Place,
    now: Now,
    at: &mut At,
    side: &mut Option<Link>,
    ready: Wanted,
    out: &mut Vec<Command>,
) -> Result<Wanted, NoMemory>
    requires may { MayPass at.old ready side.old }
    ensures passes { IfOk result (λ next. Passed place.now at.old at.new now.moment now.parked now.client_closed ready next side.old side.new out.old.items out.new.items) }
{
    match ready {
        Wanted::ResponseBody {
            flow,
            server,
            up,
            most,
            body,
            held,
        } => match held {
            Some(held) => {
                let coming = Undecided {
                    flow,
                    server,
                    up,
                    most,
                    body,
                    held,
                };
                pass_held(place, now, at, side, coming, out)
            }
            None => Ok(Wanted::ResponseBody {
                flow,
                server,
                up,
                most,
                body,
                held: None,
            }),
        },
        Wanted::ComingDown {
            flow,
            server,
            up,
            sent,
        } => pass_coming(place, now, at, side, flow, server, up, sent, out),
        other => Ok(other),
    }
}

// A response of which it is not known whether it is streamed.
#[derive(Drop)]
struct Undecided {
    flow: Boxed<Flow>,
    server: u32,
    up: Sending,
    most: Option<u64>,
    body: Content,
    held: Held,
}

// Reads a body that may yet be streamed. Where it is, what came of it is sent.
fn pass_held(
    place: &Place,
    now: Now,
    at: &mut At,
    side: &mut Option<Link>,
    coming: Undecided,
    out: &mut Vec<Command>,
) -> Result<Wanted, NoMemory>
    requires few { at.old.flow < 1000000 }
    requires given { IsSome coming.flow.response }
    requires reads { IsOpen (λ link. IsReading link.responses) side.old }
    ensures { IfOk result (λ next. HeldPassed place.now at.old at.new now.moment now.parked now.client_closed coming.flow coming.server coming.up coming.most coming.body coming.held next side.old side.new out.old.items out.new.items) }
{
    let mut coming = coming;
    let progress = read_more(side, &mut coming)?;
    if is_streamed(&coming) {
        let Undecided {
            flow,
            server,
            up,
            body,
            held,
            ..
        } = coming;
        drop(body);
        return start_down(place, now, at, side, flow, server, up, held, progress, out);
    }
    let Undecided {
        flow,
        server,
        up,
        most,
        body,
        held,
    } = coming;
    Ok(Wanted::ResponseBody {
        flow,
        server,
        up,
        most,
        body,
        held: Some(held),
    })
}

// Reads the body that comes on the open side.
fn read_more(side: &mut Option<Link>, coming: &mut Undecided) -> Result<Progress, NoMemory>
    requires reads { IsOpen (λ link. IsReading link.responses) side.old }
    ensures same { OnOk result (coming.new ≡ record coming.old { body = coming.new.body; held = record coming.old.held { said = coming.new.held.said } }) }
    ensures read { IfOk result (λ progress. StaysOpen (HoldsMore progress coming.old.body coming.old.held.said.items coming.new.body coming.new.held.said.items) side.old side.new) }
{
    match side {
        Some(link) => read_held(&mut link.responses, &mut coming.body, &mut coming.held.said),
        None => unreachable!(),
    }
}

// Whether it is known by now to be streamed.
fn is_streamed(coming: &Undecided) -> bool
    ensures { result ≡ streams_by coming.now.flow coming.now.flow.response coming.now.held.read coming.now.most (length coming.now.body) }
{
    match &coming.flow.response {
        Some(response) => streams(
            is_head(coming.flow.request.get().method.bytes()),
            coming.held.read.get(),
            response.get(),
            coming.most,
            coming.body.len() as u64,
        ),
        None => false,
    }
}

// The first that is sent of a streamed response: its head, and what was held of its body.
fn start_down(
    place: &Place,
    now: Now,
    at: &mut At,
    side: &mut Option<Link>,
    flow: Boxed<Flow>,
    server: u32,
    up: Sending,
    held: Held,
    progress: Progress,
    out: &mut Vec<Command>,
) -> Result<Wanted, NoMemory>
    requires few { at.old.flow < 1000000 }
    requires given { IsSome flow.response }
    ensures { IfOk result (λ next. StartedDown place.now at.old at.new now.moment now.parked now.client_closed flow server up held.read progress held.said.items next side.old side.new out.old.items out.new.items) }
{
    let flow = as_streamed(now.alloc, flow)?;
    let Held { read, said } = held;
    let Some(response) = &flow.response else {
        unreachable!()
    };
    let sent = framed(read.get(), response.get())?;
    let mut text = Vec::new(now.alloc);
    write_response_head(&sent, &mut text)?;
    text.extend_from_slice(said.as_slice())?;
    let sent = Shared::new(now.alloc, sent)?;
    go_down(
        place, now, at, side, flow, server, up, sent, progress, text, out,
    )
}

// Reads on a body that is streamed, and sends what came.
fn pass_coming(
    place: &Place,
    now: Now,
    at: &mut At,
    side: &mut Option<Link>,
    flow: Boxed<Flow>,
    server: u32,
    up: Sending,
    sent: Shared<Response>,
    out: &mut Vec<Command>,
) -> Result<Wanted, NoMemory>
    requires few { at.old.flow < 1000000 }
    requires given { IsSome flow.response }
    requires reads { IsOpen (λ link. IsReading link.responses) side.old }
    ensures { IfOk result (λ next. DownPassed place.now at.old at.new now.moment now.parked now.client_closed flow server up sent next side.old side.new out.old.items out.new.items) }
{
    let mut text = Vec::new(now.alloc);
    let progress = read_side(side, &mut text)?;
    go_down(
        place, now, at, side, flow, server, up, sent, progress, text, out,
    )
}

// Reads the open side, and adds what its parts say.
fn read_side(side: &mut Option<Link>, text: &mut Vec<u8>) -> Result<Progress, NoMemory>
    requires reads { IsOpen (λ link. IsReading link.responses) side.old }
    ensures { IfOk result (λ progress. StaysOpen (SaysMore progress text.old.items text.new.items) side.old side.new) }
{
    match side {
        Some(link) => read_on(&mut link.responses, text),
        None => unreachable!(),
    }
}

// Sends what came of a streamed response. Where it is whole, the flow is finished.
fn go_down(
    place: &Place,
    now: Now,
    at: &mut At,
    side: &mut Option<Link>,
    flow: Boxed<Flow>,
    server: u32,
    up: Sending,
    sent: Shared<Response>,
    progress: Progress,
    text: Vec<u8>,
    out: &mut Vec<Command>,
) -> Result<Wanted, NoMemory>
    requires few { at.old.flow < 1000000 }
    requires given { IsSome flow.response }
    ensures { IfOk result (λ next. WentDown place.now at.old at.new now.moment now.parked now.client_closed flow server up sent progress text.items next side.old side.new out.old.items out.new.items) }
{
    match progress {
        Progress::Whole(trailers) => {
            let mut text = text;
            write_end(&sent.get().fields, &trailers, &mut text)?;
            send_text(text, out)?;
            end_down(place, now, at, side, flow, server, up, sent, out)
        }
        _ => {
            send_text(text, out)?;
            Ok(Wanted::ComingDown {
                flow,
                server,
                up,
                sent,
            })
        }
    }
}

// Sends bytes to the client, if there are any.
fn send_text(text: Vec<u8>, out: &mut Vec<Command>) -> Result<(), NoMemory>
    ensures { OnOk result (out.new.items ≡ out.old.items ++ sends_text text.items) }
{
    if text.is_empty() {
        drop(text);
        return Ok(());
    }
    send(Side::Client, Bytes::new(text)?, out)
}

// Finishes the flow of a streamed response, all of which was sent. Its conversation ends where its request is not whole.
fn end_down(
    place: &Place,
    now: Now,
    at: &mut At,
    side: &mut Option<Link>,
    flow: Boxed<Flow>,
    server: u32,
    up: Sending,
    sent: Shared<Response>,
    out: &mut Vec<Command>,
) -> Result<Wanted, NoMemory>
    requires few { at.old.flow < 1000000 }
    requires given { IsSome flow.response }
    ensures gives { OnOk result (out.new.items ≡ out.old.items ++ ended_gives at.old.flow flow up flow.response sent (keeps_on flow.request side.old) now.moment now.parked now.client_closed) }
    ensures leads { IfOk result (λ next. stage_of at.new next ≡ ended_leads place.now at.old flow server up flow.response sent (keeps_on flow.request side.old)) }
    ensures side { IfOk result (λ next. SideCame next side.old side.new) }
{
    match up {
        Sending::All => end_whole(place, now, at, side, flow, server, sent, out),
        Sending::GoingUp(request) => {
            drop(request);
            drop(sent);
            end_sent(now, flow, out)?;
            Ok(Wanted::Over)
        }
    }
}

// So of a flow whose request was sent.
fn end_whole(
    place: &Place,
    now: Now,
    at: &mut At,
    side: &mut Option<Link>,
    flow: Boxed<Flow>,
    server: u32,
    sent: Shared<Response>,
    out: &mut Vec<Command>,
) -> Result<Wanted, NoMemory>
    requires few { at.old.flow < 1000000 }
    requires given { IsSome flow.response }
    ensures gives { OnOk result (out.new.items ≡ out.old.items ++ ended_gives at.old.flow flow Sending.All flow.response sent (keeps_on flow.request side.old) now.moment now.parked now.client_closed) }
    ensures leads { IfOk result (λ next. stage_of at.new next ≡ ended_leads place.now at.old flow server Sending.All flow.response sent (keeps_on flow.request side.old)) }
    ensures side { IfOk result (λ next. SideCame next side.old side.new) }
{
    let Some(response) = &flow.response else {
        unreachable!()
    };
    let response = response.try_clone()?;
    let index = at.flow;
    let keeps = link::renew(now.alloc, side, flow.request.get())?;
    park(place, at, keeps, server, &flow)?;
    let stays = finish_streamed(
        now,
        index,
        flow,
        response.get(),
        sent.get(),
        now.parked,
        keeps,
        out,
    )?;
    Ok(count_flow(at, stays))
}

/// Whether anything may be sent on of a request or of a response, where this is looked for.
pub fn sends_on(ready: &Wanted) -> bool
    ensures { result ≡ (is_rising ready.now || is_passing ready.now) }
{
    is_rising(ready) || is_passing(ready)
}

/// Whether it is a body that may be streamed, or is.
pub fn is_passing(ready: &Wanted) -> bool
    ensures { result ≡ is_passing ready.now }
{
    match ready {
        Wanted::ResponseBody { held, .. } => held.is_some(),
        Wanted::ComingDown { .. } => true,
        _ => false,
    }
}
