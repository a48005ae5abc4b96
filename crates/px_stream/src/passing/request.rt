//! What comes of a request is sent on, where it is streamed: its body is read as far as it has come, and where that is all of it, all of it was
//! sent. Where it is known first that it is streamed, its server is to be dialled, or it goes to the side that is parked, if that is kept still.
ghost use Rattle.std.specs.Prelude.{◌≡◌, ◌++◌, false, length, IfOk, OnOk};
ghost use Rattle.px_exchange.specs.Bodies.{IsReading};
ghost use Rattle.px_chain.specs.Stages.{At as Stood, unparked};
ghost use Rattle.px_exchange.specs.Places.{form_at};
ghost use Rattle.px_exchange.specs.Requests.{is_head as asks_head};
ghost use Rattle.px_write.specs.Text.{request_head_text};
ghost use Rattle.px_chain.specs.Chain.{parked_for};
ghost use Rattle.px_stream.specs.Comings.{GoesOverHeld};
ghost use Rattle.px_stream.specs.Goings.{framed_up_by, goes_up_with};
ghost use Rattle.px_stream.specs.GoingUp.{GoesUp, HeldUpPassed, LedUp, MayGoUp, MayReadUp, RaisedBy, RaisedTo, ReadUp, StartedUp, TakesSide, WentUp, is_rising, is_rising_by};
ghost use Rattle.px_stream.specs.Turns.{opened_side, with_open};

use crate::at::At;
use crate::coming::{Held, read_held, read_on};
use crate::going::{
    Going, HeldRequest, Sending, framed_up, goes_up, send_to, sending_on, with_whole,
};
use crate::link::{self, Link};
use crate::phase::Wanted;
use crate::turning::{parked_for, reach, unpark};
use px_event::Command;
use px_exchange::asked::is_head;
use px_exchange::body::Progress;
use px_exchange::content::Content;
use px_exchange::terms::Now;
use px_exchange::{Boxed, Place};
use px_message::{Flow, Request, Response, Shared};
use px_parts::write_end;
use px_read::MessageReader;
use px_text::NoMemory;
use px_write::write_request_head;
use std::alloc::Global;

/// Sends on what came of a request that is streamed.
pub fn pass_request(
    place: &Place,
    now: Now,
    at: &mut At,
    requests: &mut MessageReader,
    side: &mut Option<Link>,
    ready: Wanted,
    out: &mut Vec<Command>,
) -> Result<Wanted, NoMemory>
    requires may { MayGoUp ready requests.old }
    ensures goes { IfOk result (λ next. GoesUp place.now at.old at.new now.moment ready next requests.old requests.new side.old side.new out.old.items out.new.items) }
{
    match ready {
        Wanted::RequestBody {
            flow,
            given,
            most,
            body,
            held,
        } => match held {
            Some(held) => {
                let coming = Undecided {
                    flow,
                    given,
                    most,
                    body,
                    held,
                };
                pass_request_body(place, now, at, requests, side, coming, out)
            }
            None => Ok(Wanted::RequestBody {
                flow,
                given,
                most,
                body,
                held: None,
            }),
        },
        Wanted::ResponseHead { flow, server, up } => {
            raise_head(now, requests, flow, server, up, out)
        }
        Wanted::ResponseBody {
            flow,
            server,
            up,
            most,
            body,
            held,
        } => raise_body(now, requests, flow, server, up, most, body, held, out),
        Wanted::ComingDown {
            flow,
            server,
            up,
            sent,
        } => raise_down(now, requests, flow, server, up, sent, out),
        other => Ok(other),
    }
}

/// Whether it is a body that may be streamed, or a request that goes up.
pub fn is_rising(ready: &Wanted) -> bool
    ensures { result ≡ is_rising ready.now }
{
    match ready {
        Wanted::RequestBody { held, .. } => held.is_some(),
        Wanted::ResponseHead { up, .. } => goes_on(up),
        Wanted::ResponseBody { up, .. } => goes_on(up),
        Wanted::ComingDown { up, .. } => goes_on(up),
        _ => false,
    }
}

// Whether a request goes up still.
fn goes_on(up: &Sending) -> bool
    ensures { result ≡ is_rising_by up.now }
{
    match up {
        Sending::All => false,
        Sending::GoingUp(_) => true,
    }
}

// While the head of a response is awaited.
fn raise_head(
    now: Now,
    requests: &mut MessageReader,
    flow: Boxed<Flow>,
    server: u32,
    up: Sending,
    out: &mut Vec<Command>,
) -> Result<Wanted, NoMemory>
    requires reads { MayReadUp up requests.old }
    ensures { IfOk result (λ next. RaisedTo (λ told goes. Wanted.ResponseHead told server goes) now.moment flow server up next requests.old requests.new out.old.items out.new.items) }
{
    let raised = raise(now, requests, flow, server, up, out)?;
    Ok(Wanted::ResponseHead {
        flow: raised.flow,
        server,
        up: raised.up,
    })
}

// While its body is.
fn raise_body(
    now: Now,
    requests: &mut MessageReader,
    flow: Boxed<Flow>,
    server: u32,
    up: Sending,
    most: Option<u64>,
    body: Content,
    held: Option<Held>,
    out: &mut Vec<Command>,
) -> Result<Wanted, NoMemory>
    requires reads { MayReadUp up requests.old }
    ensures { IfOk result (λ next. RaisedTo (λ told goes. Wanted.ResponseBody told server goes most body held) now.moment flow server up next requests.old requests.new out.old.items out.new.items) }
{
    match raise(now, requests, flow, server, up, out) {
        Ok(raised) => Ok(Wanted::ResponseBody {
            flow: raised.flow,
            server,
            up: raised.up,
            most,
            body,
            held,
        }),
        Err(NoMemory) => {
            drop(body);
            drop(held);
            Err(NoMemory)
        }
    }
}

// While a response is streamed.
fn raise_down(
    now: Now,
    requests: &mut MessageReader,
    flow: Boxed<Flow>,
    server: u32,
    up: Sending,
    sent: Shared<Response>,
    out: &mut Vec<Command>,
) -> Result<Wanted, NoMemory>
    requires reads { MayReadUp up requests.old }
    ensures { IfOk result (λ next. RaisedTo (λ told goes. Wanted.ComingDown told server goes sent) now.moment flow server up next requests.old requests.new out.old.items out.new.items) }
{
    match raise(now, requests, flow, server, up, out) {
        Ok(raised) => Ok(Wanted::ComingDown {
            flow: raised.flow,
            server,
            up: raised.up,
            sent,
        }),
        Err(NoMemory) => {
            drop(sent);
            Err(NoMemory)
        }
    }
}

// A flow, and how its request stands.
#[derive(Drop)]
struct Raised {
    flow: Boxed<Flow>,
    up: Sending,
}

// Reads on a request that goes up, and sends what came of it.
fn raise(
    now: Now,
    requests: &mut MessageReader,
    flow: Boxed<Flow>,
    server: u32,
    up: Sending,
    out: &mut Vec<Command>,
) -> Result<Raised, NoMemory>
    requires reads { MayReadUp up requests.old }
    ensures { IfOk result (λ raised. RaisedBy up now.moment flow server raised.flow raised.up requests.old requests.new out.old.items out.new.items) }
{
    match up {
        Sending::All => Ok(Raised {
            flow,
            up: Sending::All,
        }),
        Sending::GoingUp(sent) => read_request(now, requests, flow, server, sent, out),
    }
}

fn read_request(
    now: Now,
    requests: &mut MessageReader,
    flow: Boxed<Flow>,
    server: u32,
    sent: Shared<Request>,
    out: &mut Vec<Command>,
) -> Result<Raised, NoMemory>
    requires reads { IsReading requests.old }
    ensures { IfOk result (λ raised. ReadUp now.moment flow server sent raised.flow raised.up requests.old requests.new out.old.items out.new.items) }
{
    let mut text = Vec::new(now.alloc);
    let progress = read_on(requests, &mut text)?;
    send_up(now, flow, server, sent, progress, text, out)
}

// Sends what came of a request that goes up. Where it is whole, all of it was sent.
fn send_up(
    now: Now,
    flow: Boxed<Flow>,
    server: u32,
    sent: Shared<Request>,
    progress: Progress,
    text: Vec<u8>,
    out: &mut Vec<Command>,
) -> Result<Raised, NoMemory>
    ensures { IfOk result (λ raised. WentUp now.moment flow server sent progress text.items raised.flow raised.up out.old.items out.new.items) }
{
    match progress {
        Progress::Whole(trailers) => {
            let mut text = text;
            write_end(&sent.get().fields, &trailers, &mut text)?;
            send_to(server, text, out)?;
            Ok(Raised {
                flow: with_whole(flow, now.moment),
                up: Sending::All,
            })
        }
        _ => {
            send_to(server, text, out)?;
            Ok(Raised {
                flow,
                up: Sending::GoingUp(sent),
            })
        }
    }
}

// A request of which it is not known whether it is streamed.
#[derive(Drop)]
struct Undecided {
    flow: Boxed<Flow>,
    given: Option<Shared<Response>>,
    most: Option<u64>,
    body: Content,
    held: HeldRequest,
}

// Reads a body that may yet be streamed. Where it is, what came of it is sent, or waits for its server.
fn pass_request_body(
    place: &Place,
    now: Now,
    at: &mut At,
    requests: &mut MessageReader,
    side: &mut Option<Link>,
    coming: Undecided,
    out: &mut Vec<Command>,
) -> Result<Wanted, NoMemory>
    requires reads { IsReading requests.old }
    ensures { IfOk result (λ next. HeldUpPassed place.now at.old at.new now.moment coming.flow coming.given coming.most coming.body coming.held next requests.old requests.new side.old side.new out.old.items out.new.items) }
{
    let mut coming = coming;
    let progress = read_coming(requests, &mut coming)?;
    if is_going(&coming) {
        let Undecided {
            flow,
            given,
            body,
            held,
            ..
        } = coming;
        drop(given);
        drop(body);
        return start_up(place, now, at, side, flow, held, progress, out);
    }
    let Undecided {
        flow,
        given,
        most,
        body,
        held,
    } = coming;
    Ok(Wanted::RequestBody {
        flow,
        given,
        most,
        body,
        held: Some(held),
    })
}

// Reads its body.
fn read_coming(requests: &mut MessageReader, coming: &mut Undecided) -> Result<Progress, NoMemory>
    requires reads { IsReading requests.old }
    ensures same { OnOk result (coming.new ≡ record coming.old { body = coming.new.body; held = record coming.old.held { said = coming.new.held.said } }) }
    ensures read { IfOk result (λ progress. GoesOverHeld progress requests.old coming.old.body coming.old.held.said.items requests.new coming.new.body coming.new.held.said.items) }
{
    read_held(requests, &mut coming.body, &mut coming.held.said)
}

// Whether it is known by now to be streamed.
fn is_going(coming: &Undecided) -> bool
    ensures { result ≡ goes_up_with coming.now.held.read coming.now.most (length coming.now.body) }
{
    goes_up(
        coming.held.read.get(),
        coming.most,
        coming.body.len() as u64,
    )
}

// A request that is streamed: what came of it is its head, and what was held of its body.
fn start_up(
    place: &Place,
    now: Now,
    at: &mut At,
    side: &mut Option<Link>,
    flow: Boxed<Flow>,
    held: HeldRequest,
    progress: Progress,
    out: &mut Vec<Command>,
) -> Result<Wanted, NoMemory>
    ensures { IfOk result (λ next. StartedUp place.now at.old at.new now.moment flow held.read progress held.said.items next side.old side.new out.old.items out.new.items) }
{
    let parked = parked_side(place, at, side, &flow);
    let told = sending_on(now.alloc, flow)?;
    let HeldRequest { read, said } = held;
    let framed = framed_in(read.get(), &told)?;
    let text = first_text(now.alloc, place, &framed, &said)?;
    let sent = Shared::new(now.alloc, framed)?;
    lead_up(
        place, now, at, side, parked, told, sent, progress, text, out,
    )
}

// The number of the parked side, where the flow's request goes to its address, and it is kept still.
fn parked_side(place: &Place, at: &At, side: &Option<Link>, flow: &Flow) -> Option<u32>
    ensures { result ≡ parked_for place.now flow.now.request (with_open at.now side.now).parked }
{
    match side {
        Some(_) => parked_for(place, flow.request.get(), &at.parked),
        None => None,
    }
}

// The request of a flow as it is sent, that was read so.
fn framed_in(read: &Request, flow: &Flow) -> Result<Request, NoMemory>
    ensures { IfOk result (λ sent. sent ≡ framed_up_by read.now flow.now.request) }
{
    framed_up(read, flow.request.get())
}

// Its head, and what was held of its body.
fn first_text(
    alloc: Global,
    place: &Place,
    sent: &Request,
    said: &Vec<u8>,
) -> Result<Vec<u8>, NoMemory>
    ensures { IfOk result (λ text. text.items ≡ request_head_text sent.now (form_at place.now) ++ said.now.items) }
{
    let mut text = Vec::new(alloc);
    write_request_head(sent, place.form(), &mut text)?;
    text.extend_from_slice(said.as_slice())?;
    Ok(text)
}

// It goes to the side that is parked, where that is its server's; else the server is to be dialled.
fn lead_up(
    place: &Place,
    now: Now,
    at: &mut At,
    side: &mut Option<Link>,
    parked: Option<u32>,
    flow: Boxed<Flow>,
    sent: Shared<Request>,
    progress: Progress,
    text: Vec<u8>,
    out: &mut Vec<Command>,
) -> Result<Wanted, NoMemory>
    ensures { IfOk result (λ next. LedUp parked place.now at.old at.new now.moment flow sent progress text.items next side.old side.new out.old.items out.new.items) }
{
    match parked {
        Some(server) => {
            unpark(at);
            take_side(place, now, side, server, flow, sent, progress, text, out)
        }
        None => {
            drop(progress);
            Ok(Wanted::Connection {
                flow,
                up: Some(Going { sent, text }),
            })
        }
    }
}

// The side that was parked is opened for it, and what came is sent there.
fn take_side(
    place: &Place,
    now: Now,
    side: &mut Option<Link>,
    server: u32,
    flow: Boxed<Flow>,
    sent: Shared<Request>,
    progress: Progress,
    text: Vec<u8>,
    out: &mut Vec<Command>,
) -> Result<Wanted, NoMemory>
    ensures { IfOk result (λ next. (at : Stood) → TakesSide place.now at (unparked at) now.moment flow server sent progress text.items next side.old side.new out.old.items out.new.items) }
{
    open_for(now.alloc, side, server, &flow)?;
    let told = reach(now.alloc, place, flow)?;
    let raised = send_up(now, told, server, sent, progress, text, out)?;
    Ok(Wanted::ResponseHead {
        flow: raised.flow,
        server,
        up: raised.up,
    })
}

// All that was heard of the side is what the responses to the flow's request begin with.
fn open_for(
    alloc: Global,
    side: &mut Option<Link>,
    server: u32,
    flow: &Flow,
) -> Result<(), NoMemory>
    ensures { OnOk result (side.new ≡ opened_side false server (asks_head flow.now.request.method) side.old) }
{
    let asked_head = is_head(flow.request.get().method.bytes());
    let opened = link::open(alloc, false, server, asked_head, side.take())?;
    *side = opened;
    Ok(())
}
