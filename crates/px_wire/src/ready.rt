//! Waiting for the wire, and what it tells.
ghost use Rattle.std.specs.Prelude.{◌≡◌, ◌+◌, ◌≤◌, ℕ, List, ◌∷◌, ◌++◌, Option, None, Some, Err, IfOk, OnOk, OnErr, true};
ghost use Rattle.px_outside.specs.Count.{Rose};
ghost use Rattle.px_wire.specs.declared.wire.Ready.TheVariants as told;
ghost use Rattle.px_wire.specs.declared.call.WireCall.TheVariants.{Told as WasTold};
ghost use Rattle.px_wire.specs.Asked.{AnsweredSince};
ghost use Rattle.px_wire.specs.Calls.{Calls, AsksMore, AsksAtMost, Tells, IfTold, IsFree, GivesFree};
ghost use Rattle.px_event.specs.declared.heard.Heard.TheVariants.{Dialled as HeardDialled};
ghost use Rattle.px_event.specs.declared.side.Side.TheVariants.{Server as ServerSide};
ghost use Rattle.px_wire.specs.declared.endpoint.Endpoint.{Endpoint as EndpointState};
ghost use Rattle.px_wire.specs.Found.{IsAt, Loose};
ghost use Rattle.px_wire.specs.Hears.{AddsHeard};
ghost use Rattle.px_wire.specs.Stands.{StandsFor, Rests, IsCalm, idle};
ghost use Rattle.px_wire.specs.Holds.{Alike, Changes, HasRoom, endpoint_at};

use crate::endpoint::Endpoint;
use crate::endpoints::Endpoints;
use crate::flush::{flush_at, shut_at};
use crate::hear::hear;
use crate::table::Table;
use crate::{Ready, Wire};
use px_event::{Door, Heard, Side};
use px_message::Address;
use px_outside::NetError;
use px_text::NoMemory;
use std::alloc::Global;

/// Accepted connections have numbers below this one.
pub const NUMBER_END: u32 = 0x8000_0000;

/// Waits until the wire is ready, and takes what it tells. What it tells may be something to be heard.
pub fn hear_ready<W: Wire>(
    alloc: Global,
    wire: &mut W,
    table: &mut Table,
) -> Result<Option<(u64, Heard)>, NetError>
    ensures steps { IfOk result (λ heard. AddsHeard heard (W.steps wire.old) (W.steps wire.new)) }
    ensures stands { IsCalm table.old.endpoints → Rests None table.old (W.calls wire.old) → OnOk result (Rests None table.new (W.calls wire.new)) }
    ensures err { IsCalm table.old.endpoints → Rests None table.old (W.calls wire.old) → OnErr result (Loose table.new (W.calls wire.new)) }
    ensures fault_stands { IsCalm table.old.endpoints → Rests None table.old (W.calls wire.old) → result ≡ Err NetError.Fault → Rests None table.new (W.calls wire.new) }
    ensures steps_err { OnErr result (W.steps wire.new ≡ W.steps wire.old) }
    ensures listening { W.listening wire.new ≡ W.listening wire.old }
    ensures asks { OnOk result (AsksMore 1 (W.asks wire.old) (W.asks wire.new)) }
    ensures asks_err { OnErr result (AsksAtMost 1 (W.asks wire.old) (W.asks wire.new)) }
    ensures later { W.faults wire.old ≤ W.faults wire.new }
    ensures fault { result ≡ Err NetError.Fault → Rose (W.faults wire.old) (W.faults wire.new) }
    ensures kept { (past : Calls) (times : ℕ) → AnsweredSince past times (W.calls wire.old) → AnsweredSince past times (W.calls wire.new) }
    ensures answered { (past : Calls) (times : ℕ) → AnsweredSince past times (W.calls wire.old) → OnOk result (AnsweredSince past (times + 1) (W.calls wire.new)) }
{
    table.endpoints.reserve(table.accepted)?;
    let told = wire.ready()?;
    let (moment, ready) = told;
    let heard = take_ready(alloc, wire, table, moment, ready)?;
    Ok(heard)
}

// Takes what the wire has just told, at this moment.
fn take_ready<W: Wire>(
    alloc: Global,
    wire: &mut W,
    table: &mut Table,
    moment: u64,
    ready: Ready,
) -> Result<Option<(u64, Heard)>, NoMemory>
    requires room { HasRoom table.old.endpoints table.old.accepted }
    ensures steps { IfOk result (λ heard. AddsHeard heard (W.steps wire.old) (W.steps wire.new)) }
    ensures stands { (before : Option Calls) → IsCalm table.old.endpoints → Rests None table.old before → IfTold (GivesFree ready) before →
        Tells (WasTold moment ready) before (W.calls wire.old) → OnOk result (Rests None table.new (W.calls wire.new)) }
    ensures err { (before : Option Calls) → IsCalm table.old.endpoints → Rests None table.old before → IfTold (GivesFree ready) before →
        Tells (WasTold moment ready) before (W.calls wire.old) → OnErr result (Loose table.new (W.calls wire.new)) }
    ensures steps_err { OnErr result (W.steps wire.new ≡ W.steps wire.old) }
    ensures listening { W.listening wire.new ≡ W.listening wire.old }
    ensures faults { W.faults wire.new ≡ W.faults wire.old }
    ensures asks { W.asks wire.new ≡ W.asks wire.old }
    ensures kept { (past : Calls) (times : ℕ) → AnsweredSince past times (W.calls wire.old) → AnsweredSince past times (W.calls wire.new) }
{
    match ready {
        Ready::Accepted { slot, door, peer } => {
            accept(alloc, wire, table, moment, slot, door, peer)
        }
        Ready::Readable(slot) => {
            set_readable(table, moment, slot);
            Ok(None)
        }
        Ready::Writable(slot) => {
            flush_slot(wire, table, moment, slot);
            Ok(None)
        }
        Ready::Dialled(slot, ok) => hear_dialled(wire, table, moment, slot, ok),
    }
}

// Gives the connection the next number, or shuts it where there is none.
fn accept<W: Wire>(
    alloc: Global,
    wire: &mut W,
    table: &mut Table,
    moment: u64,
    slot: u32,
    door: Door,
    peer: Address,
) -> Result<Option<(u64, Heard)>, NoMemory>
    requires room { HasRoom table.old.endpoints table.old.accepted }
    ensures steps { IfOk result (λ heard. AddsHeard heard (W.steps wire.old) (W.steps wire.new)) }
    ensures stands { (before : Option Calls) → IsCalm table.old.endpoints → Rests None table.old before → IfTold (IsFree slot) before →
        Tells (WasTold moment (told.Accepted slot door peer)) before (W.calls wire.old) → OnOk result (Rests None table.new (W.calls wire.new)) }
    ensures err { (before : Option Calls) → IsCalm table.old.endpoints → Rests None table.old before → IfTold (IsFree slot) before →
        Tells (WasTold moment (told.Accepted slot door peer)) before (W.calls wire.old) → OnErr result (Loose table.new (W.calls wire.new)) }
    ensures steps_err { OnErr result (W.steps wire.new ≡ W.steps wire.old) }
    ensures listening { W.listening wire.new ≡ W.listening wire.old }
    ensures faults { W.faults wire.new ≡ W.faults wire.old }
    ensures asks { W.asks wire.new ≡ W.asks wire.old }
    ensures kept { (past : Calls) (times : ℕ) → AnsweredSince past times (W.calls wire.old) → AnsweredSince past times (W.calls wire.new) }
{
    table.moment = moment;
    if table.accepted >= NUMBER_END {
        wire.shut(slot);
        return Ok(None);
    }
    let conv = table.accepted;
    table.accepted += 1;
    table.endpoints.push(
        alloc,
        Endpoint::new(alloc, slot, conv, Side::Client, Some(door)),
    );
    hear(wire, moment, Heard::Accepted { conv, door, peer })
}

// The slot may be read.
fn set_readable(table: &mut Table, moment: u64, slot: u32)
    ensures stands { (before now : Option Calls) → IsCalm table.old.endpoints → Rests None table.old before →
        Tells (WasTold moment (told.Readable slot)) before now → Rests None table.new now }
{
    table.moment = moment;
    set_readable_in(&mut table.endpoints, slot);
}

// The slot of this number may be read.
fn set_readable_in(endpoints: &mut Endpoints, slot: u32)
    ensures changes { (endpoint : EndpointState) → endpoint_at endpoints.old slot ≡ Some endpoint → Changes endpoints.old endpoints.new slot endpoint (record endpoint { is_readable = true }) }
    ensures none { endpoint_at endpoints.old slot ≡ None → Alike endpoints.old endpoints.new }
{
    let Some(endpoint) = endpoints.by_slot.get_mut(&slot) else {
        return;
    };
    let conv = endpoint.conv;
    endpoint.is_readable = true;
    endpoints.mark(conv);
}

// The slot may be put to.
fn flush_slot<W: Wire>(wire: &mut W, table: &mut Table, moment: u64, slot: u32)
    ensures stands { (before : Option Calls) → IsCalm table.old.endpoints → Rests None table.old before →
        Tells (WasTold moment (told.Writable slot)) before (W.calls wire.old) → Rests None table.new (W.calls wire.new) }
    ensures steps { W.steps wire.new ≡ W.steps wire.old }
    ensures listening { W.listening wire.new ≡ W.listening wire.old }
    ensures faults { W.faults wire.new ≡ W.faults wire.old }
    ensures asks { W.asks wire.new ≡ W.asks wire.old }
    ensures kept { (past : Calls) (times : ℕ) → AnsweredSince past times (W.calls wire.old) → AnsweredSince past times (W.calls wire.new) }
{
    table.moment = moment;
    if table.endpoints.get(slot).is_some() {
        let _ = flush_at(wire, table, slot);
    }
}

// A dial that failed shuts its slot. What is told of a slot that no dial gave is passed over.
fn hear_dialled<W: Wire>(
    wire: &mut W,
    table: &mut Table,
    moment: u64,
    slot: u32,
    ok: bool,
) -> Result<Option<(u64, Heard)>, NoMemory>
    ensures steps { IfOk result (λ heard. AddsHeard heard (W.steps wire.old) (W.steps wire.new)) }
    ensures stands { (before : Option Calls) → IsCalm table.old.endpoints → Rests None table.old before →
        Tells (WasTold moment (told.Dialled slot ok)) before (W.calls wire.old) → OnOk result (Rests None table.new (W.calls wire.new)) }
    ensures err { (before : Option Calls) → IsCalm table.old.endpoints → Rests None table.old before →
        Tells (WasTold moment (told.Dialled slot ok)) before (W.calls wire.old) → OnErr result (Loose table.new (W.calls wire.new)) }
    ensures steps_err { OnErr result (W.steps wire.new ≡ W.steps wire.old) }
    ensures listening { W.listening wire.new ≡ W.listening wire.old }
    ensures faults { W.faults wire.new ≡ W.faults wire.old }
    ensures asks { W.asks wire.new ≡ W.asks wire.old }
    ensures kept { (past : Calls) (times : ℕ) → AnsweredSince past times (W.calls wire.old) → AnsweredSince past times (W.calls wire.new) }
{
    table.moment = moment;
    let Some(endpoint) = table.endpoints.get(slot) else {
        return Ok(None);
    };
    let conv = endpoint.conv;
    match endpoint.side {
        Side::Client => Ok(None),
        Side::Server(server) => hear_server(wire, table, slot, conv, server, ok),
    }
}

// Hears how the dial of the server of this slot ended.
fn hear_server<W: Wire>(
    wire: &mut W,
    table: &mut Table,
    slot: u32,
    conv: u32,
    server: u32,
    ok: bool,
) -> Result<Option<(u64, Heard)>, NoMemory>
    ensures steps { IfOk result (λ told. AddsHeard told (W.steps wire.old) (W.steps wire.new)) }
    ensures stands { (front back : List EndpointState) (endpoint : EndpointState) → IsAt table.old.endpoints slot front endpoint back → endpoint.conv ≡ conv → endpoint.side ≡ ServerSide server →
        StandsFor idle (Some (HeardDialled endpoint.conv server ok)) (front ++ endpoint ∷ back) table.old.accepted table.old.moment (W.calls wire.old) →
        OnOk result (Rests None table.new (W.calls wire.new)) }
    ensures table_err { OnErr result (table.new ≡ table.old) }
    ensures calls_err { OnErr result (W.calls wire.new ≡ W.calls wire.old) }
    ensures steps_err { OnErr result (W.steps wire.new ≡ W.steps wire.old) }
    ensures listening { W.listening wire.new ≡ W.listening wire.old }
    ensures faults { W.faults wire.new ≡ W.faults wire.old }
    ensures asks { W.asks wire.new ≡ W.asks wire.old }
    ensures kept { (past : Calls) (times : ℕ) → AnsweredSince past times (W.calls wire.old) → AnsweredSince past times (W.calls wire.new) }
{
    let told = hear(wire, table.moment, Heard::Dialled { conv, server, ok })?;
    if ok {
        return Ok(told);
    }
    shut_at(wire, table, slot);
    Ok(told)
}
