//! Looks for the end of a response that is streamed, all of which that came was sent.
ghost use Rattle.std.specs.Prelude.{◌≡◌, ◌++◌, IfOk, OnOk};
ghost use Rattle.px_exchange.specs.Bodies.{IsReading};
ghost use Rattle.px_exchange.specs.Endings.{ends_early};
ghost use Rattle.px_write.specs.Error.{fault_message};
ghost use Rattle.px_stream.specs.Looks.{ComingFound, EndsBy, coming_gives, coming_phase, is_over, unless_broken, unless_over};
ghost use Rattle.px_stream.specs.Stands.{IsOpen, StaysOpen};

use super::{leave, read_up};
use crate::coming::stop_of;
use crate::going::Sending;
use crate::link::Link;
use crate::phase::{Phase, Wanted};
use px_event::Command;
use px_exchange::Boxed;
use px_exchange::body::Progress;
use px_exchange::ending::end_early;
use px_exchange::terms::Now;
use px_message::{Fault, Flow, Response, Shared};
use px_read::MessageReader;
use px_text::NoMemory;
use px_write::fault_message;

/// Looks for what ends it early: a fault of its body, or the client's close. Behind the first byte of a response no error text is said.
pub fn look_for_end(
    now: Now,
    requests: &mut MessageReader,
    side: &mut Option<Link>,
    flow: Boxed<Flow>,
    server: u32,
    up: Sending,
    sent: Shared<Response>,
    out: &mut Vec<Command>,
) -> Result<Phase, NoMemory>
    requires reads { IsOpen (λ link. IsReading link.responses) side.old }
    ensures looks { IfOk result (λ next. ComingFound flow server up sent requests.old requests.new side.old side.new now.moment now.parked now.client_closed out.old.items out.new.items next) }
{
    let bad = read_up(requests, &up)?;
    let stop = read_end(side)?;
    look_at_end(now, flow, server, up, sent, bad, stop, out)
}

// What is made of both ends.
fn look_at_end(
    now: Now,
    flow: Boxed<Flow>,
    server: u32,
    up: Sending,
    sent: Shared<Response>,
    bad: Option<Fault>,
    stop: Option<Progress>,
    out: &mut Vec<Command>,
) -> Result<Phase, NoMemory>
    ensures gives { OnOk result (out.new.items ≡ out.old.items ++ unless_broken bad flow now.moment now.parked now.client_closed (coming_gives flow stop now.moment now.parked now.client_closed)) }
    ensures phase { IfOk result (λ next. next ≡ unless_over bad (coming_phase flow server up sent stop now.client_closed)) }
{
    match bad {
        Some(fault) => {
            drop(up);
            drop(sent);
            drop(stop);
            break_off(now, flow, fault, out)
        }
        None => look_at_stop(now, flow, server, up, sent, stop, out),
    }
}

// What is made of the response's end.
fn look_at_stop(
    now: Now,
    flow: Boxed<Flow>,
    server: u32,
    up: Sending,
    sent: Shared<Response>,
    stop: Option<Progress>,
    out: &mut Vec<Command>,
) -> Result<Phase, NoMemory>
    ensures gives { OnOk result (out.new.items ≡ out.old.items ++ coming_gives flow stop now.moment now.parked now.client_closed) }
    ensures phase { IfOk result (λ next. next ≡ coming_phase flow server up sent stop now.client_closed) }
{
    match stop {
        Some(Progress::Bad(fault)) => {
            drop(up);
            drop(sent);
            break_off(now, flow, fault, out)
        }
        _ => {
            if now.client_closed {
                drop(up);
                drop(sent);
                return leave(now, flow, now.parked, out);
            }
            Ok(Phase::Ready(Wanted::ComingDown {
                flow,
                server,
                up,
                sent,
            }))
        }
    }
}

// What the open side's reader has to give, which is no more of the body.
fn read_end(side: &mut Option<Link>) -> Result<Option<Progress>, NoMemory>
    requires reads { IsOpen (λ link. IsReading link.responses) side.old }
    ensures { IfOk result (λ stop. StaysOpen (EndsBy stop) side.old side.new) }
{
    match side {
        Some(link) => {
            let part = link.responses.next()?;
            Ok(stop_of(part))
        }
        None => unreachable!(),
    }
}

// Ends the flow by a fault of its response's body, of which something was sent, or of its request's.
fn break_off(
    now: Now,
    flow: Boxed<Flow>,
    fault: Fault,
    out: &mut Vec<Command>,
) -> Result<Phase, NoMemory>
    ensures gives { OnOk result (out.new.items ≡ out.old.items ++ ends_early flow (fault_message fault) now.moment now.parked now.client_closed) }
    ensures phase { IfOk result (λ next. next ≡ is_over) }
{
    end_early(now, flow, fault_message(fault), now.parked, out)?;
    Ok(Phase::Ready(Wanted::Over))
}
