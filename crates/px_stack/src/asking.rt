//! A client of SOCKS, whose greeting and request are read before its own bytes come.
ghost use Rattle.std.specs.Prelude.{◌≡◌, ◌≤◌, ℕ, None, IfOk};
ghost use Rattle.px_event.specs.Layer.{AsksOnly};
ghost use Rattle.px_stack.specs.Kept.{awaited_by, left_by};
ghost use Rattle.px_stack.specs.Stages.{Visitor};
ghost use Rattle.px_stack.specs.Stands.{IsSomewhere};
ghost use Rattle.px_stack.specs.Steps.{Adds, TakesChild, front_comes_to, opening_in};

use crate::child::{Child, Opening};
use px_event::{Command, Event};
use px_socks::{SocksLayer, SocksTunnel};
use px_text::NoMemory;

/// Takes an event, while no dial is awaited.
pub fn asking_takes(
    layer: SocksLayer,
    event: &Event,
    out: &mut Vec<Command>,
) -> Result<Child, NoMemory>
    requires somewhere { (conv : ℕ) × (client : Visitor) × IsSomewhere conv client (Child.Asking layer) }
    requires free { awaited_by (Child.Asking layer) ≡ None }
    ensures takes { IfOk result (λ next. Adds (λ more. (conv : ℕ) (client : Visitor) (moment : ℕ) → TakesChild conv client (Child.Asking layer) next moment event.now more) out.old.items out.new.items) }
    ensures asks { IfOk result (λ next. AsksOnly (awaited_by next) out.old.items out.new.items) }
    ensures left { IfOk result (λ next. left_by next ≤ left_by (Child.Asking layer)) }
{
    let mut layer = layer;
    layer.hear(event, out)?;
    Ok(come_to(layer))
}

// Behind a call: it goes on, or all is over.
fn come_to(layer: SocksLayer) -> Child
    ensures { result ≡ front_comes_to layer }
{
    if layer.is_over() {
        return Child::Over;
    }
    Child::Asking(layer)
}

/// The tunnel that it asked for: its server was dialled as the first, and no flow has come yet.
pub fn opening_in(tunnel: SocksTunnel) -> Opening
    ensures { result ≡ opening_in tunnel }
{
    let SocksTunnel { address, rest } = tunnel;
    Opening {
        flow: 0,
        dials: 1,
        address,
        proxy: None,
        rest,
    }
}
