//! The end of a flow whose response is whole while its request goes up: its conversation ends as well.
ghost use Rattle.std.specs.Prelude.{◌≡◌, ◌++◌, OnOk};
ghost use Rattle.px_message.specs.Settle.{settled_response};
ghost use Rattle.px_exchange.specs.Endings.{finished, finished_streamed, shut_client};
ghost use Rattle.px_exchange.specs.Requests.{is_head};

use px_event::{Command, Side};
use px_exchange::Boxed;
use px_exchange::ending::{part, settled};
use px_exchange::flows::{with_end, with_response};
use px_exchange::said::{close, done, send};
use px_exchange::terms::Now;
use px_exchange::texts::returned_text;
use px_message::{Flow, Response, Shared};
use px_text::NoMemory;

/// Finishes a flow with a response that is sent whole, and closes its server's side and the client.
pub fn end_with(
    now: Now,
    flow: Boxed<Flow>,
    response: Shared<Response>,
    out: &mut Vec<Command>,
) -> Result<(), NoMemory>
    ensures { OnOk result (out.new.items ≡ out.old.items ++ finished flow response now.parked ++ shut_client now.client_closed) }
{
    let sent = settled(flow.request.get(), response.get())?;
    finish(now, flow, response, &sent, out)?;
    shut_client(now.client_closed, out)
}

// Its text, the flow, and the close of its server's side. The response was settled to the one that is sent.
fn finish(
    now: Now,
    flow: Boxed<Flow>,
    response: Shared<Response>,
    sent: &Response,
    out: &mut Vec<Command>,
) -> Result<(), NoMemory>
    requires settled { sent.now ≡ settled_response (is_head flow.request.method) response }
    ensures { OnOk result (out.new.items ≡ out.old.items ++ finished flow response now.parked) }
{
    send(
        Side::Client,
        returned_text(now.alloc, flow.request.get(), sent)?,
        out,
    )?;
    done(with_response(flow, response).into_inner(), out)?;
    part(now.parked, out)
}

/// Finishes a flow whose response was sent as it came, and closes its server's side and the client.
pub fn end_sent(now: Now, flow: Boxed<Flow>, out: &mut Vec<Command>) -> Result<(), NoMemory>
    ensures { OnOk result (out.new.items ≡ out.old.items ++ finished_streamed flow now.moment now.parked ++ shut_client now.client_closed) }
{
    done(with_end(flow, now.moment).into_inner(), out)?;
    part(now.parked, out)?;
    shut_client(now.client_closed, out)
}

// Closes the client's side, unless it closed itself.
fn shut_client(closed: bool, out: &mut Vec<Command>) -> Result<(), NoMemory>
    ensures { OnOk result (out.new.items ≡ out.old.items ++ shut_client closed) }
{
    if closed {
        return Ok(());
    }
    close(Side::Client, out)
}
