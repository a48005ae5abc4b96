//! Conversations behind a gate.
ghost use Rattle.std.specs.Prelude.{◌<◌, ◌≤◌, [], IfOk};
ghost use Rattle.px_event.specs.Layer.{IsSound};
ghost use Rattle.px_gate.specs.Gate.{GateStands};
ghost use Rattle.px_http.specs.Stands.{HttpStands, awaits};

use px_diagrams::{Diagram, ReplyTurn, play_lines};
use px_gate::Gate;
use px_http::HttpConv;
use px_plays::address_at;
use px_rows::{Cut, RowError, Shown, Trouble};
use px_stream::{Outcome, Place};
use std::alloc::Global;

/// Shows what comes of the diagram with these replies.
pub(crate) fn play_conversation(
    alloc: Global,
    number: usize,
    diagram: &Diagram,
    turns: &[ReplyTurn],
    cut: Cut,
    out: &mut Shown,
) -> Result<(), Trouble> {
    match new_gate(alloc, diagram.first_flow, diagram.next_server) {
        Ok(gate) => play_gate(alloc, gate, diagram, turns, cut, out),
        Err(error) => Err(error.in_line(number)),
    }
}

fn play_gate(
    alloc: Global,
    gate: Gate<HttpConv>,
    diagram: &Diagram,
    turns: &[ReplyTurn],
    cut: Cut,
    out: &mut Shown,
) -> Result<(), Trouble>
    requires { IsSound (GateStands HttpStands awaits) gate }
{
    let mut gate = gate;
    let played = play_lines(alloc, &mut gate, diagram, turns, cut, out);
    if diagram.asked.outcome {
        out.text(outcome_line(gate.layer().outcome()));
    }
    drop(gate);
    played
}

// The line of what became of a conversation.
fn outcome_line(outcome: Outcome) -> &'static str {
    match outcome {
        Outcome::Over => "over\n",
        Outcome::Upgraded => "upgraded\n",
        _ => "going\n",
    }
}

// A gate before a new conversation with these numbers, of the client `c:50000`, with the server `h:80`.
fn new_gate(alloc: Global, first_flow: u32, next_server: u32) -> Result<Gate<HttpConv>, RowError>
    ensures { IfOk result (IsSound (GateStands HttpStands awaits)) }
{
    if first_flow >= 1000000 || next_server > first_flow {
        return Err(RowError::Bad);
    }
    let conversation = new_conversation(alloc, first_flow, next_server)?;
    Ok(Gate::new(alloc, conversation))
}

fn new_conversation(alloc: Global, first_flow: u32, next_server: u32) -> Result<HttpConv, RowError>
    requires few { first_flow < 1000000 }
    requires dials { next_server ≤ first_flow }
    ensures { IfOk result (λ conversation. HttpStands conversation conversation [] []) }
{
    let client = address_at(alloc, "c", 50000)?;
    let address = address_at(alloc, "h", 80)?;
    let place = Place::Fixed {
        address,
        inside: None,
    };
    let made = HttpConv::new(alloc, 3, Some(client), place, None, first_flow, next_server)?;
    Ok(made)
}
