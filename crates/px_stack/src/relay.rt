//! A tunnel that is not read: its bytes go both ways.
ghost use Rattle.std.specs.Prelude.{◌≡◌, ℕ, false, None, IfOk, OnOk, ◌++◌};
ghost use Rattle.px_event.specs.Layer.{AsksOnly};
ghost use Rattle.px_tunnel.specs.Stands.{has_ended};
ghost use Rattle.px_stack.specs.Chain.{closes_all, finished_flow};
ghost use Rattle.px_stack.specs.Kept.{awaited_by, left_by};
ghost use Rattle.px_stack.specs.Steps.{Adds, GoesOn, RelayTakes, Relays};

use crate::child::{Child, Relay};
use crate::closing::{Sides, close_sides, closed_by, finish_flow};
use px_event::{Command, Event, Rests};
use px_message::Flow;
use px_text::NoMemory;
use px_tunnel::RawTunnel;

/// Begins a tunnel between these sides with what was left of both, where a flow became it or none did. Where a side has closed already the
/// tunnel ends at once.
pub fn begin_relay(
    sides: Sides,
    rests: Rests,
    flow: Option<Flow>,
    out: &mut Vec<Command>,
) -> Result<Child, NoMemory>
    ensures relays { IfOk result (λ next. Adds (Relays sides rests flow next) out.old.items out.new.items) }
    ensures asks { IfOk result (λ next. (awaited_by next ≡ None) × AsksOnly None out.old.items out.new.items) }
    ensures left { IfOk result (λ next. left_by next ≡ 0) }
{
    let mut tunnel = RawTunnel::new(sides.server, rests)?;
    tunnel.go_on(&Event::Begun, out)?;
    let relay = Relay {
        tunnel,
        server: sides.server,
        flow,
    };
    if sides.shut || sides.closed {
        return end_relay(relay, sides, out);
    }
    Ok(Child::Raw(relay))
}

/// Takes an event, where no side has closed.
pub fn relay_takes(relay: Relay, event: &Event, out: &mut Vec<Command>) -> Result<Child, NoMemory>
    requires { has_ended relay.tunnel ≡ false }
    ensures takes { IfOk result (λ next. Adds (RelayTakes relay next event.now) out.old.items out.new.items) }
    ensures asks { IfOk result (λ next. (awaited_by next ≡ None) × AsksOnly None out.old.items out.new.items) }
    ensures left { IfOk result (λ next. left_by next ≡ 0) }
{
    match closed_by(relay.server, event) {
        Some(sides) => end_relay(relay, sides, out),
        None => go_on(relay, event, out),
    }
}

// Hands on what the event brings, where it closes no side.
fn go_on(relay: Relay, event: &Event, out: &mut Vec<Command>) -> Result<Child, NoMemory>
    requires { has_ended relay.tunnel ≡ false }
    ensures { IfOk result (λ next. GoesOn relay event.now next out.old.items out.new.items) }
{
    let mut relay = relay;
    relay.tunnel.go_on(event, out)?;
    Ok(Child::Raw(relay))
}

// Finishes the flow that became the tunnel, and closes what is still connected.
fn end_relay(relay: Relay, sides: Sides, out: &mut Vec<Command>) -> Result<Child, NoMemory>
    ensures over { IfOk result (λ next. next ≡ Child.Over) }
    ensures gives { OnOk result (out.new.items ≡ out.old.items ++ (finished_flow relay.flow ++ closes_all sides.server sides.shut sides.closed)) }
{
    let Relay { flow, .. } = relay;
    finish_flow(flow, out)?;
    close_sides(sides, out)?;
    Ok(Child::Over)
}
