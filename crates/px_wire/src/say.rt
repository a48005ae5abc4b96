//! What is said, handed to the wire.
ghost use Rattle.std.specs.Prelude.{◌≡◌, ℕ, List, ◌∷◌, ◌++◌, Option, None, Some, OnOk, OnErr, true};
ghost use Rattle.px_event.specs.declared.said.Said.TheVariants.{Send, Close, Dial};
ghost use Rattle.px_event.specs.declared.step.Step.TheVariants.{Said as WasSaid};
ghost use Rattle.px_outside.specs.Net.{Adds};
ghost use Rattle.px_wire.specs.declared.endpoint.Endpoint.{Endpoint as EndpointState};
ghost use Rattle.px_wire.specs.declared.call.WireCall.TheVariants.{Noted};
ghost use Rattle.px_wire.specs.Asked.{AnsweredSince};
ghost use Rattle.px_wire.specs.Calls.{Calls, Tells};
ghost use Rattle.px_wire.specs.Found.{IsAt};
ghost use Rattle.px_wire.specs.Stands.{StandsFor, Rests, idle};
ghost use Rattle.px_wire.specs.Endpoints.{is_over};
ghost use Rattle.px_wire.specs.Holds.{Alike, Changes, endpoint_at, passes};

use crate::Wire;
use crate::endpoint::Endpoint;
use crate::endpoints::Endpoints;
use crate::flush::{flush_at, is_done_at, shut_at};
use crate::table::Table;
use px_event::{Said, Side, Step};
use px_message::Address;
use px_text::{Bytes, NoMemory};
use std::alloc::Global;

/// Says it. After an error nothing was said.
pub fn say<W: Wire>(
    alloc: Global,
    wire: &mut W,
    table: &mut Table,
    conv: u32,
    said: Said,
) -> Result<(), NoMemory>
    ensures steps { OnOk result (Adds (W.steps wire.old) (W.steps wire.new) (WasSaid conv said)) }
    ensures stands { Rests None table.old (W.calls wire.old) → OnOk result (Rests None table.new (W.calls wire.new)) }
    ensures err { Rests None table.old (W.calls wire.old) → OnErr result (Rests None table.new (W.calls wire.new)) }
    ensures calls_err { OnErr result (W.calls wire.new ≡ W.calls wire.old) }
    ensures steps_err { OnErr result (W.steps wire.new ≡ W.steps wire.old) }
    ensures listening { W.listening wire.new ≡ W.listening wire.old }
    ensures faults { W.faults wire.new ≡ W.faults wire.old }
    ensures asks { W.asks wire.new ≡ W.asks wire.old }
    ensures kept { (past : Calls) (times : ℕ) → AnsweredSince past times (W.calls wire.old) → AnsweredSince past times (W.calls wire.new) }
{
    let step = Step::Said { conv, said };
    let done = match &step {
        Step::Said { said, .. } => say_in(alloc, wire, table, conv, said, &step),
        _ => unreachable!(),
    };
    drop(step);
    done
}

// Says it; the step is the one that says it.
fn say_in<W: Wire>(
    alloc: Global,
    wire: &mut W,
    table: &mut Table,
    conv: u32,
    said: &Said,
    step: &Step,
) -> Result<(), NoMemory>
    ensures steps { OnOk result (Adds (W.steps wire.old) (W.steps wire.new) step.now) }
    ensures stands { step.now ≡ WasSaid conv said.now → Rests None table.old (W.calls wire.old) → OnOk result (Rests None table.new (W.calls wire.new)) }
    ensures err { Rests None table.old (W.calls wire.old) → OnErr result (Rests None table.new (W.calls wire.new)) }
    ensures calls_err { OnErr result (W.calls wire.new ≡ W.calls wire.old) }
    ensures steps_err { OnErr result (W.steps wire.new ≡ W.steps wire.old) }
    ensures listening { W.listening wire.new ≡ W.listening wire.old }
    ensures faults { W.faults wire.new ≡ W.faults wire.old }
    ensures asks { W.asks wire.new ≡ W.asks wire.old }
    ensures kept { (past : Calls) (times : ℕ) → AnsweredSince past times (W.calls wire.old) → AnsweredSince past times (W.calls wire.new) }
{
    match said {
        Said::Send { side, bytes } => say_send(wire, table, conv, *side, bytes, step),
        Said::Close { side } => say_close(wire, table, conv, *side, step),
        Said::Dial { server, address } => {
            say_dial(alloc, wire, table, conv, *server, address, step)
        }
    }
}

// Dials the address for this server of the conversation; the step says it. A slot that the side had is shut.
fn say_dial<W: Wire>(
    alloc: Global,
    wire: &mut W,
    table: &mut Table,
    conv: u32,
    server: u32,
    address: &Address,
    step: &Step,
) -> Result<(), NoMemory>
    ensures steps { OnOk result (Adds (W.steps wire.old) (W.steps wire.new) step.now) }
    ensures stands { step.now ≡ WasSaid conv (Dial server address.now) → Rests None table.old (W.calls wire.old) → OnOk result (Rests None table.new (W.calls wire.new)) }
    ensures err { Rests None table.old (W.calls wire.old) → OnErr result (Rests None table.new (W.calls wire.new)) }
    ensures calls_err { OnErr result (W.calls wire.new ≡ W.calls wire.old) }
    ensures steps_err { OnErr result (W.steps wire.new ≡ W.steps wire.old) }
    ensures listening { W.listening wire.new ≡ W.listening wire.old }
    ensures faults { W.faults wire.new ≡ W.faults wire.old }
    ensures asks { W.asks wire.new ≡ W.asks wire.old }
    ensures kept { (past : Calls) (times : ℕ) → AnsweredSince past times (W.calls wire.old) → AnsweredSince past times (W.calls wire.new) }
{
    let side = Side::Server(server);
    table.endpoints.reserve(conv)?;
    let old = table.endpoints.find_side(conv, side);
    let slot = wire.dial(address, step)?;
    table
        .endpoints
        .push(alloc, Endpoint::new(alloc, slot, conv, side, None));
    if let Some(old) = old {
        wire.shut(old);
        table.endpoints.remove(old);
    }
    Ok(())
}

// Sends the bytes to the side; the step says it. A side that has no slot, or whose socket failed, gets none.
fn say_send<W: Wire>(
    wire: &mut W,
    table: &mut Table,
    conv: u32,
    side: Side,
    bytes: &Bytes,
    step: &Step,
) -> Result<(), NoMemory>
    ensures steps { OnOk result (Adds (W.steps wire.old) (W.steps wire.new) step.now) }
    ensures stands { step.now ≡ WasSaid conv (Send side bytes.now) → Rests None table.old (W.calls wire.old) → OnOk result (Rests None table.new (W.calls wire.new)) }
    ensures err { Rests None table.old (W.calls wire.old) → OnErr result (Rests None table.new (W.calls wire.new)) }
    ensures calls_err { OnErr result (W.calls wire.new ≡ W.calls wire.old) }
    ensures steps_err { OnErr result (W.steps wire.new ≡ W.steps wire.old) }
    ensures listening { W.listening wire.new ≡ W.listening wire.old }
    ensures faults { W.faults wire.new ≡ W.faults wire.old }
    ensures asks { W.asks wire.new ≡ W.asks wire.old }
    ensures kept { (past : Calls) (times : ℕ) → AnsweredSince past times (W.calls wire.old) → AnsweredSince past times (W.calls wire.new) }
{
    match table.endpoints.find_side(conv, side) {
        Some(slot) => send_at(wire, table, slot, bytes, step),
        None => wire.note(step),
    }
}

// Sends the bytes to the side of this slot.
fn send_at<W: Wire>(
    wire: &mut W,
    table: &mut Table,
    slot: u32,
    bytes: &Bytes,
    step: &Step,
) -> Result<(), NoMemory>
    ensures steps { OnOk result (Adds (W.steps wire.old) (W.steps wire.new) step.now) }
    ensures stands { (front back : List EndpointState) (endpoint : EndpointState) → IsAt table.old.endpoints slot front endpoint back → step.now ≡ WasSaid endpoint.conv (Send endpoint.side bytes.now) →
        StandsFor idle None (front ++ endpoint ∷ back) table.old.accepted table.old.moment (W.calls wire.old) → OnOk result (Rests None table.new (W.calls wire.new)) }
    ensures err { Rests None table.old (W.calls wire.old) → OnErr result (Rests None table.new (W.calls wire.new)) }
    ensures calls_err { OnErr result (W.calls wire.new ≡ W.calls wire.old) }
    ensures steps_err { OnErr result (W.steps wire.new ≡ W.steps wire.old) }
    ensures listening { W.listening wire.new ≡ W.listening wire.old }
    ensures faults { W.faults wire.new ≡ W.faults wire.old }
    ensures asks { W.asks wire.new ≡ W.asks wire.old }
    ensures kept { (past : Calls) (times : ℕ) → AnsweredSince past times (W.calls wire.old) → AnsweredSince past times (W.calls wire.new) }
{
    if is_over_at(&table.endpoints, slot) {
        return wire.note(step);
    }
    queue_in(wire, &mut table.endpoints, slot, bytes, step)?;
    let _ = flush_at(wire, table, slot);
    Ok(())
}

fn is_over_at(endpoints: &Endpoints, slot: u32) -> bool
    ensures is { result ≡ passes is_over (endpoint_at endpoints.now slot) }
{
    match endpoints.get(slot) {
        Some(endpoint) => endpoint.is_over,
        None => false,
    }
}

// The bytes wait for the slot of this number, and the step is noted: both or neither.
fn queue_in<W: Wire>(
    wire: &mut W,
    endpoints: &mut Endpoints,
    slot: u32,
    bytes: &Bytes,
    step: &Step,
) -> Result<(), NoMemory>
    ensures steps { OnOk result (Adds (W.steps wire.old) (W.steps wire.new) step.now) }
    ensures told { OnOk result (Tells (Noted step.now) (W.calls wire.old) (W.calls wire.new)) }
    ensures changes { (endpoint : EndpointState) → endpoint_at endpoints.old slot ≡ Some endpoint → OnOk result (Changes endpoints.old endpoints.new slot endpoint (record endpoint { queue = endpoint.queue ++ bytes.now })) }
    ensures err { OnErr result (Alike endpoints.old endpoints.new) }
    ensures calls_err { OnErr result (W.calls wire.new ≡ W.calls wire.old) }
    ensures steps_err { OnErr result (W.steps wire.new ≡ W.steps wire.old) }
    ensures listening { W.listening wire.new ≡ W.listening wire.old }
    ensures faults { W.faults wire.new ≡ W.faults wire.old }
    ensures asks { W.asks wire.new ≡ W.asks wire.old }
{
    let Some(endpoint) = endpoints.by_slot.get_mut(&slot) else {
        return wire.note(step);
    };
    let conv = endpoint.conv;
    queue_and_note(wire, endpoint, bytes, step)?;
    endpoints.mark(conv);
    Ok(())
}

// Both or neither.
fn queue_and_note<W: Wire>(
    wire: &mut W,
    endpoint: &mut Endpoint,
    bytes: &Bytes,
    step: &Step,
) -> Result<(), NoMemory>
    ensures steps { OnOk result (Adds (W.steps wire.old) (W.steps wire.new) step.now) }
    ensures told { OnOk result (Tells (Noted step.now) (W.calls wire.old) (W.calls wire.new)) }
    ensures ok { OnOk result (endpoint.new ≡ record endpoint.old { queue = endpoint.old.queue ++ bytes.now }) }
    ensures err { OnErr result (endpoint.new ≡ endpoint.old) }
    ensures calls_err { OnErr result (W.calls wire.new ≡ W.calls wire.old) }
    ensures steps_err { OnErr result (W.steps wire.new ≡ W.steps wire.old) }
    ensures listening { W.listening wire.new ≡ W.listening wire.old }
    ensures faults { W.faults wire.new ≡ W.faults wire.old }
    ensures asks { W.asks wire.new ≡ W.asks wire.old }
{
    endpoint.queue.push_noted(wire, bytes, step)
}

// Closes the side once all that was said to it is taken; the step says it.
fn say_close<W: Wire>(
    wire: &mut W,
    table: &mut Table,
    conv: u32,
    side: Side,
    step: &Step,
) -> Result<(), NoMemory>
    ensures steps { OnOk result (Adds (W.steps wire.old) (W.steps wire.new) step.now) }
    ensures stands { step.now ≡ WasSaid conv (Close side) → Rests None table.old (W.calls wire.old) → OnOk result (Rests None table.new (W.calls wire.new)) }
    ensures err { Rests None table.old (W.calls wire.old) → OnErr result (Rests None table.new (W.calls wire.new)) }
    ensures calls_err { OnErr result (W.calls wire.new ≡ W.calls wire.old) }
    ensures steps_err { OnErr result (W.steps wire.new ≡ W.steps wire.old) }
    ensures listening { W.listening wire.new ≡ W.listening wire.old }
    ensures faults { W.faults wire.new ≡ W.faults wire.old }
    ensures asks { W.asks wire.new ≡ W.asks wire.old }
    ensures kept { (past : Calls) (times : ℕ) → AnsweredSince past times (W.calls wire.old) → AnsweredSince past times (W.calls wire.new) }
{
    wire.note(step)?;
    if let Some(slot) = table.endpoints.find_side(conv, side) {
        close_at(wire, table, slot);
    }
    Ok(())
}

// A Close was said to the side of this slot, and its step noted.
fn close_at<W: Wire>(wire: &mut W, table: &mut Table, slot: u32)
    ensures stands { (before : Option Calls) (front back : List EndpointState) (endpoint : EndpointState) → IsAt table.old.endpoints slot front endpoint back →
        Tells (Noted (WasSaid endpoint.conv (Close endpoint.side))) before (W.calls wire.old) → StandsFor idle None (front ++ endpoint ∷ back) table.old.accepted table.old.moment before →
        Rests None table.new (W.calls wire.new) }
    ensures steps { W.steps wire.new ≡ W.steps wire.old }
    ensures listening { W.listening wire.new ≡ W.listening wire.old }
    ensures faults { W.faults wire.new ≡ W.faults wire.old }
    ensures asks { W.asks wire.new ≡ W.asks wire.old }
    ensures kept { (past : Calls) (times : ℕ) → AnsweredSince past times (W.calls wire.old) → AnsweredSince past times (W.calls wire.new) }
{
    set_closing_in(&mut table.endpoints, slot);
    if is_done_at(&table.endpoints, slot) {
        shut_at(wire, table, slot);
    }
}

fn set_closing_in(endpoints: &mut Endpoints, slot: u32)
    ensures changes { (endpoint : EndpointState) → endpoint_at endpoints.old slot ≡ Some endpoint → Changes endpoints.old endpoints.new slot endpoint (record endpoint { is_closing = true }) }
{
    let Some(endpoint) = endpoints.by_slot.get_mut(&slot) else {
        return;
    };
    let conv = endpoint.conv;
    endpoint.is_closing = true;
    endpoints.mark(conv);
}
