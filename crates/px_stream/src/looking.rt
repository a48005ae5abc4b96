//! What a flow finds where no answer is awaited: it asks, it ends, or it waits.
ghost use Rattle.std.specs.Prelude.{◌≡◌, ◌++◌, ◌∷◌, [], None, IfOk, OnOk};
ghost use Rattle.px_event.specs.declared.ask.Hook.TheVariants.{ResponseHead as AtHead, ResponseBody as AtBody};
ghost use Rattle.px_event.specs.declared.command.Command.TheVariants as commands;
ghost use Rattle.px_exchange.specs.Flows.{ask_of};
ghost use Rattle.px_exchange.specs.Endings.{closed_message, ends_by_fault, ends_early, shut_server};
ghost use Rattle.px_exchange.specs.Places.{dialled_for};
ghost use Rattle.px_chain.specs.Chain.{given_at};
ghost use Rattle.px_stream.specs.Looks.{LookFound, MayLook, UpRead, fault_of, is_over};

use crate::at::At;
use crate::going::{Going, Sending};
use crate::link::Link;
use crate::looking::answer::{look_for_answer, look_for_returned};
use crate::looking::coming::look_for_end;
use crate::looking::request::{look_for_body, look_for_head};
use crate::phase::{Asked, Phase, Wanted};
use px_event::{Command, Hook};
use px_exchange::ending::{Used, end_by_fault, end_early, part};
use px_exchange::flows::{self, dialled_for};
use px_exchange::said::ask;
use px_exchange::terms::{Now, Terms};
use px_exchange::{Boxed, Place};
use px_message::{Fault, Flow};
use px_read::{MessageReader, Part};
use px_text::NoMemory;

mod answer;
mod coming;
mod request;

/// Looks once.
pub fn look(
    terms: &Terms,
    now: Now,
    at: &At,
    requests: &mut MessageReader,
    side: &mut Option<Link>,
    ready: Wanted,
    out: &mut Vec<Command>,
) -> Result<Phase, NoMemory>
    requires may_look { MayLook ready requests.old side.old }
    ensures looks { IfOk result (λ next. LookFound terms.now at.now now.parked now.moment now.client_closed ready requests.old requests.new side.old side.new out.old.items out.new.items next) }
{
    match ready {
        Wanted::Idle => look_for_head(terms, now, at.flow, requests, out),
        Wanted::RequestBody {
            flow,
            given,
            most,
            body,
            held,
        } => look_for_body(now, requests, flow, given, most, body, held, out),
        Wanted::Connection { flow, up } => dial(&terms.place, now, at.dials, flow, up, out),
        Wanted::ResponseHead { flow, server, up } => {
            look_for_answer(now, requests, side, flow, server, up, out)
        }
        Wanted::ResponseBody {
            flow,
            server,
            up,
            most,
            body,
            held,
        } => look_for_returned(now, requests, side, flow, server, up, most, body, held, out),
        Wanted::ComingDown {
            flow,
            server,
            up,
            sent,
        } => look_for_end(now, requests, side, flow, server, up, sent, out),
        Wanted::GivenHead { flow } => ask_given_head(now, flow, out),
        Wanted::GivenBody { flow } => ask_given_body(now, flow, out),
        Wanted::Upgraded { flow, server } => Ok(Phase::Ready(Wanted::Upgraded { flow, server })),
        Wanted::Connects { address } => Ok(Phase::Ready(Wanted::Connects { address })),
        Wanted::Over => Ok(Phase::Ready(Wanted::Over)),
    }
}

// Dials what the request goes to, and closes the side that is parked, since no flow takes it any more.
fn dial(
    place: &Place,
    now: Now,
    server: u32,
    flow: Boxed<Flow>,
    up: Option<Going>,
    out: &mut Vec<Command>,
) -> Result<Phase, NoMemory>
    ensures gives { OnOk result (out.new.items ≡ out.old.items ++ commands.Dial server (dialled_for place.now flow.request) None ∷ shut_server now.parked) }
    ensures phase { IfOk result (λ next. next ≡ Phase.Asked (Asked.Connection flow server up)) }
{
    match say_dial(place, now, server, &flow, out) {
        Ok(()) => Ok(Phase::Asked(Asked::Connection { flow, server, up })),
        Err(NoMemory) => {
            drop(flow);
            drop(up);
            Err(NoMemory)
        }
    }
}

fn say_dial(
    place: &Place,
    now: Now,
    server: u32,
    flow: &Flow,
    out: &mut Vec<Command>,
) -> Result<(), NoMemory>
    ensures { OnOk result (out.new.items ≡ out.old.items ++ commands.Dial server (dialled_for place.now flow.now.request) None ∷ shut_server now.parked) }
{
    out.push(Command::Dial {
        server,
        address: dialled_for(place, flow)?,
        inside: None,
    })?;
    part(now.parked, out)
}

// Asks the hook of the head of a response that was given in place of the server's.
fn ask_given_head(now: Now, flow: Boxed<Flow>, out: &mut Vec<Command>) -> Result<Phase, NoMemory>
    ensures gives { OnOk result (out.new.items ≡ out.old.items ++ ask_of (given_at flow now.moment) AtHead ∷ []) }
    ensures phase { IfOk result (λ next. next ≡ Phase.Asked (Asked.GivenHead (given_at flow now.moment))) }
{
    let flow = flows::with_end(flows::with_start(flow, now.moment), now.moment);
    ask(&flow, Hook::ResponseHead, out)?;
    Ok(Phase::Asked(Asked::GivenHead { flow }))
}

// And that of the whole of it.
fn ask_given_body(now: Now, flow: Boxed<Flow>, out: &mut Vec<Command>) -> Result<Phase, NoMemory>
    ensures gives { OnOk result (out.new.items ≡ out.old.items ++ ask_of flow AtBody ∷ []) }
    ensures phase { IfOk result (λ next. next ≡ Phase.Asked (Asked.GivenBody flow)) }
{
    ask(&flow, Hook::ResponseBody, out)?;
    Ok(Phase::Asked(Asked::GivenBody { flow }))
}

// Ends the flow by a fault.
fn fail(
    now: Now,
    flow: Boxed<Flow>,
    fault: Fault,
    used: Used,
    out: &mut Vec<Command>,
) -> Result<Phase, NoMemory>
    ensures gives { OnOk result (out.new.items ≡ out.old.items ++ ends_by_fault flow fault now.moment used now.client_closed) }
    ensures phase { IfOk result (λ next. next ≡ is_over) }
{
    end_by_fault(now, flow, fault, used, out)?;
    Ok(Phase::Ready(Wanted::Over))
}

// Ends the flow by the client's close.
fn leave(now: Now, flow: Boxed<Flow>, used: Used, out: &mut Vec<Command>) -> Result<Phase, NoMemory>
    ensures gives { OnOk result (out.new.items ≡ out.old.items ++ ends_early flow closed_message now.moment used now.client_closed) }
    ensures phase { IfOk result (λ next. next ≡ is_over) }
{
    end_early(now, flow, b"client closed", used, out)?;
    Ok(Phase::Ready(Wanted::Over))
}

// The fault of a request that goes up, if its reader has one to give; of any other request nothing is read.
fn read_up(requests: &mut MessageReader, up: &Sending) -> Result<Option<Fault>, NoMemory>
    ensures { IfOk result (λ bad. UpRead up.now bad requests.old requests.new) }
{
    match up {
        Sending::All => Ok(None),
        Sending::GoingUp(_) => {
            let part = requests.next()?;
            Ok(fault_of(part))
        }
    }
}

fn fault_of(part: Part) -> Option<Fault>
    ensures { result ≡ fault_of part }
{
    match part {
        Part::Bad(fault) => Some(fault),
        Part::More
        | Part::End(_)
        | Part::Piece(_)
        | Part::ChunkStart(_)
        | Part::ChunkEnd
        | Part::Request(_)
        | Part::Response(_) => None,
    }
}
