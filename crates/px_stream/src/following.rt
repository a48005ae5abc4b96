//! The readers of both sides, where an answer has led on.
ghost use Rattle.std.specs.Prelude.{◌≡◌, false, OnOk, IfOk};
ghost use Rattle.px_stream.specs.Stands.{stage_of};
ghost use Rattle.px_stream.specs.Turns.{is_dial, requests_behind, side_behind, unless_parked};
ghost use Rattle.px_read.specs.Reader.{before_all, request};

use crate::at::{At, Kept};
use crate::link::{self, Link};
use crate::phase::{Asked, Wanted};
use px_exchange::asked::is_head;
use px_read::MessageReader;
use px_text::NoMemory;
use std::alloc::Global;
use std::mem;

/// Whether the answer is one to a dial.
pub(crate) fn is_dial(asked: &Asked) -> bool
    ensures { result ≡ is_dial asked.now }
{
    match asked {
        Asked::Connection { .. } => true,
        Asked::Idle { .. } => false,
        Asked::RequestBody { .. } => false,
        Asked::ResponseHead { .. } => false,
        Asked::ResponseBody { .. } => false,
        Asked::GivenHead { .. } => false,
        Asked::GivenBody { .. } => false,
    }
}

/// Where a request's head is looked for, it is read of what was kept behind the one before.
pub(crate) fn follow_requests(
    alloc: Global,
    at: &At,
    requests: &mut MessageReader,
    ready: Wanted,
) -> Result<Wanted, NoMemory>
    ensures next { IfOk result (λ next. next ≡ ready) }
    ensures requests { OnOk result (requests.new ≡ requests_behind (stage_of at.now ready) requests.old) }
{
    match ready {
        Wanted::Idle => {
            begin_again(alloc, requests)?;
            Ok(Wanted::Idle)
        }
        other => Ok(other),
    }
}

// The next request is read, of what was kept behind the one before.
fn begin_again(alloc: Global, requests: &mut MessageReader) -> Result<(), NoMemory>
    ensures { OnOk result (requests.new ≡ before_all request requests.old.rest false) }
{
    let next = MessageReader::request(alloc);
    let rest = mem::replace(requests, next).into_rest()?;
    requests.feed(&rest)
}

/// Where a response is looked for, its side is open; where no flow uses a side and none is parked, none is.
pub(crate) fn follow_side(
    alloc: Global,
    dialled: bool,
    at: &At,
    side: &mut Option<Link>,
    ready: Wanted,
) -> Result<Wanted, NoMemory>
    ensures next { IfOk result (λ next. next ≡ ready) }
    ensures side { OnOk result (side.new ≡ side_behind dialled (stage_of at.now ready) side.old) }
{
    match ready {
        Wanted::Idle => {
            keep_parked(&at.parked, side);
            Ok(Wanted::Idle)
        }
        Wanted::RequestBody {
            flow,
            given,
            most,
            body,
            held,
        } => {
            keep_parked(&at.parked, side);
            Ok(Wanted::RequestBody {
                flow,
                given,
                most,
                body,
                held,
            })
        }
        Wanted::Connection { flow, up } => {
            keep_parked(&at.parked, side);
            Ok(Wanted::Connection { flow, up })
        }
        Wanted::ResponseHead { flow, server, up } => {
            let asked_head = is_head(flow.request.get().method.bytes());
            match link::open(alloc, dialled, server, asked_head, side.take()) {
                Ok(opened) => {
                    *side = opened;
                    Ok(Wanted::ResponseHead { flow, server, up })
                }
                Err(NoMemory) => {
                    drop(flow);
                    drop(up);
                    Err(NoMemory)
                }
            }
        }
        Wanted::GivenHead { flow } => {
            keep_parked(&at.parked, side);
            Ok(Wanted::GivenHead { flow })
        }
        Wanted::GivenBody { flow } => {
            keep_parked(&at.parked, side);
            Ok(Wanted::GivenBody { flow })
        }
        other => Ok(other),
    }
}

fn keep_parked(parked: &Option<Kept>, side: &mut Option<Link>)
    ensures { side.new ≡ unless_parked parked.now side.old }
{
    if parked.is_none() {
        *side = None;
    }
}
