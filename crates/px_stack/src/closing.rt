//! How a tunnel ends: the flow that became one, then the closes.
ghost use Rattle.std.specs.Prelude.{◌≡◌, ◌++◌, OnOk};
ghost use Rattle.px_exchange.specs.Endings.{shut_client, shut_server};
ghost use Rattle.px_exchange.specs.declared.ending.Used.TheVariants.{ByServer as TheServer};
ghost use Rattle.px_stack.specs.Chain.{closes_all, finished_flow};
ghost use Rattle.px_stack.specs.Steps.{sides_closed};

use px_event::{Command, Event, Side};
use px_exchange::said::{close, done};
use px_message::Flow;
use px_text::NoMemory;

/// The sides of a tunnel: its server's number, and which of the two have closed, the server's (`shut`) and the client's (`closed`).
#[derive(Clone, Copy, Debug, PartialEq, Eq)]
pub struct Sides {
    pub server: u32,
    pub shut: bool,
    pub closed: bool,
}

/// The sides of a tunnel to this server, where the event closes one of them.
pub fn closed_by(server: u32, event: &Event) -> Option<Sides>
    ensures { result ≡ sides_closed server event.now }
{
    match event {
        Event::Closed { side: Side::Client } => Some(Sides {
            server,
            shut: false,
            closed: true,
        }),
        Event::Closed {
            side: Side::Server(number),
        } if *number == server => Some(Sides {
            server,
            shut: true,
            closed: false,
        }),
        _ => None,
    }
}

/// Closes the side of this server, unless it closed itself (`shut`).
pub fn close_server(server: u32, shut: bool, out: &mut Vec<Command>) -> Result<(), NoMemory>
    ensures { OnOk result (out.new.items ≡ out.old.items ++ shut_server (TheServer server shut)) }
{
    if shut {
        return Ok(());
    }
    close(Side::Server(server), out)
}

// Closes the client's side, unless it closed itself.
fn close_client(sides: Sides, out: &mut Vec<Command>) -> Result<(), NoMemory>
    ensures { OnOk result (out.new.items ≡ out.old.items ++ shut_client sides.closed) }
{
    if sides.closed {
        return Ok(());
    }
    close(Side::Client, out)
}

/// Closes both sides of a tunnel, each unless it closed itself.
pub fn close_sides(sides: Sides, out: &mut Vec<Command>) -> Result<(), NoMemory>
    ensures { OnOk result (out.new.items ≡ out.old.items ++ closes_all sides.server sides.shut sides.closed) }
{
    close_server(sides.server, sides.shut, out)?;
    close_client(sides, out)
}

/// Finishes the flow that became a tunnel, if one did.
pub fn finish_flow(flow: Option<Flow>, out: &mut Vec<Command>) -> Result<(), NoMemory>
    ensures { OnOk result (out.new.items ≡ out.old.items ++ finished_flow flow) }
{
    match flow {
        Some(flow) => done(flow, out),
        None => Ok(()),
    }
}
