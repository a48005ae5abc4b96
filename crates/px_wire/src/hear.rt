//! What can be heard without waiting: what readable slots give, and the close of a side whose socket ended or failed.
ghost use Rattle.std.specs.Prelude.{◌≡◌, ◌≢◌, ◌<◌, ℕ, List, [], ◌∷◌, ◌++◌, length, Option, None, Some, Ok, IsSome, false, true, IfOk, OnOk, OnErr, nat_eq};
ghost use Rattle.px_event.specs.declared.heard.Heard.{Heard as WhatIsHeard};
ghost use Rattle.px_event.specs.declared.heard.Heard.TheVariants.{Piece as HeardPiece, Closed as HeardClosed, Dialled as HeardDialled};
ghost use Rattle.px_event.specs.declared.side.Side.TheVariants.{Server as ServerSide};
ghost use Rattle.px_event.specs.declared.step.Step.TheVariants.{Heard as WasHeard};
ghost use Rattle.px_outside.specs.Net.{Adds};
ghost use Rattle.px_wire.specs.declared.endpoint.Endpoint.{Endpoint as EndpointState};
ghost use Rattle.std.specs.Map.{set_value};
ghost use Rattle.px_wire.specs.Endpoints.{after_get};
ghost use Rattle.px_wire.specs.Holds.{Changes, endpoint_at, last_turn};
ghost use Rattle.px_wire.specs.Hears.{IsPlain, AddsHeard};
ghost use Rattle.px_wire.specs.Asked.{AnsweredSince};
ghost use Rattle.px_wire.specs.Calls.{Calls, GotWithin, Tells, got_call};
ghost use Rattle.px_wire.specs.Found.{IsAt, HasTurn, Loose};
ghost use Rattle.px_wire.specs.Stands.{StandsFor, EndsFor, Rests, IsCalm, idle};

use crate::endpoint::Endpoint;
use crate::endpoints::{Due, Endpoints};
use crate::flush::shut_at;
use crate::table::Table;
use crate::{Got, Wire};
use px_event::{Heard, Side, Step};
use px_text::{Bytes, NoMemory};
use std::alloc::Global;

/// Hands the wire the step in which it is heard, and gives it with its moment: something is heard, unless memory runs out.
pub fn hear<W: Wire>(
    wire: &mut W,
    moment: u64,
    heard: Heard,
) -> Result<Option<(u64, Heard)>, NoMemory>
    ensures told { IfOk result (λ told. told ≡ Some (moment, heard)) }
    ensures steps { OnOk result (Adds (W.steps wire.old) (W.steps wire.new) (WasHeard moment heard)) }
    ensures plain { (endpoints : List EndpointState) (accepted : ℕ) → IsPlain heard → StandsFor idle (Some heard) endpoints accepted moment (W.calls wire.old) →
        OnOk result (StandsFor idle None endpoints accepted moment (W.calls wire.new)) }
    ensures piece { (front back : List EndpointState) (endpoint : EndpointState) (accepted : ℕ) (bytes : List ℕ) → heard ≡ HeardPiece endpoint.conv endpoint.side bytes →
        StandsFor idle (Some heard) (front ++ endpoint ∷ back) accepted moment (W.calls wire.old) →
        OnOk result (StandsFor idle None (front ++ endpoint ∷ back) accepted moment (W.calls wire.new)) }
    ensures closed { (front back : List EndpointState) (endpoint : EndpointState) (accepted : ℕ) → heard ≡ HeardClosed endpoint.conv endpoint.side → endpoint.is_over ≡ true →
        StandsFor idle None (front ++ endpoint ∷ back) accepted moment (W.calls wire.old) →
        OnOk result (EndsFor endpoint.slot None (front ++ endpoint ∷ back) accepted moment (W.calls wire.new)) }
    ensures dialled { (front back : List EndpointState) (endpoint : EndpointState) (accepted server : ℕ) → heard ≡ HeardDialled endpoint.conv server false → endpoint.side ≡ ServerSide server →
        StandsFor idle (Some heard) (front ++ endpoint ∷ back) accepted moment (W.calls wire.old) →
        OnOk result (EndsFor endpoint.slot None (front ++ endpoint ∷ back) accepted moment (W.calls wire.new)) }
    ensures calls_err { OnErr result (W.calls wire.new ≡ W.calls wire.old) }
    ensures steps_err { OnErr result (W.steps wire.new ≡ W.steps wire.old) }
    ensures listening { W.listening wire.new ≡ W.listening wire.old }
    ensures faults { W.faults wire.new ≡ W.faults wire.old }
    ensures asks { W.asks wire.new ≡ W.asks wire.old }
    ensures kept { (past : Calls) (times : ℕ) → AnsweredSince past times (W.calls wire.old) → AnsweredSince past times (W.calls wire.new) }
{
    let step = Step::Heard { moment, heard };
    match wire.note(&step) {
        Ok(()) => Ok(heard_in(step)),
        Err(error) => {
            drop(step);
            Err(error)
        }
    }
}

// What is heard in the step, and when.
fn heard_in(step: Step) -> Option<(u64, Heard)>
    ensures { (moment : ℕ) (heard : WhatIsHeard) → step ≡ WasHeard moment heard → result ≡ Some (moment, heard) }
{
    match step {
        Step::Heard { moment, heard } => Some((moment, heard)),
        other => {
            drop(other);
            None
        }
    }
}

/// Hears the close of this slot's side, and shuts the slot.
pub fn hear_close<W: Wire>(
    wire: &mut W,
    table: &mut Table,
    slot: u32,
) -> Result<Option<(u64, Heard)>, NoMemory>
    requires there { IsSome (endpoint_at table.old.endpoints slot) }
    ensures some { result ≢ Ok None }
    ensures steps { IfOk result (λ told. AddsHeard told (W.steps wire.old) (W.steps wire.new)) }
    ensures stands { (front back : List EndpointState) (endpoint : EndpointState) → IsAt table.old.endpoints slot front endpoint back → endpoint.is_over ≡ true →
        StandsFor idle None (front ++ endpoint ∷ back) table.old.accepted table.old.moment (W.calls wire.old) → OnOk result (Rests None table.new (W.calls wire.new)) }
    ensures table_err { OnErr result (table.new ≡ table.old) }
    ensures calls_err { OnErr result (W.calls wire.new ≡ W.calls wire.old) }
    ensures steps_err { OnErr result (W.steps wire.new ≡ W.steps wire.old) }
    ensures listening { W.listening wire.new ≡ W.listening wire.old }
    ensures faults { W.faults wire.new ≡ W.faults wire.old }
    ensures asks { W.asks wire.new ≡ W.asks wire.old }
    ensures kept { (past : Calls) (times : ℕ) → AnsweredSince past times (W.calls wire.old) → AnsweredSince past times (W.calls wire.new) }
{
    let Some(endpoint) = table.endpoints.get(slot) else {
        unreachable!()
    };
    let conv = endpoint.conv;
    let side = endpoint.side;
    let told = hear(wire, table.moment, Heard::Closed { conv, side })?;
    shut_at(wire, table, slot);
    Ok(told)
}

/// Reads the slot once. One that has nothing at present is readable no more; one that ended or failed is over, and what
/// waits for it is dropped.
fn read_endpoint<W: Wire>(wire: &mut W, endpoint: &mut Endpoint, room: &mut [u8]) -> Got
    requires some { 0 < length room.old }
    ensures endpoint { endpoint.new ≡ after_get endpoint.old result }
    ensures told { Tells (got_call endpoint.old.slot room.new result) (W.calls wire.old) (W.calls wire.new) }
    ensures within { GotWithin (length room.old) result }
    ensures room { length room.new ≡ length room.old }
    ensures steps { W.steps wire.new ≡ W.steps wire.old }
    ensures listening { W.listening wire.new ≡ W.listening wire.old }
    ensures faults { W.faults wire.new ≡ W.faults wire.old }
    ensures asks { W.asks wire.new ≡ W.asks wire.old }
{
    let got = wire.get(endpoint.slot, room);
    match got {
        Got::Gave(_) => {}
        Got::Blocked => endpoint.is_readable = false,
        Got::Ended | Got::Broken => {
            endpoint.queue.clear();
            endpoint.is_over = true;
        }
    }
    got
}

// Reads the slot of this number once.
fn read_in<W: Wire>(wire: &mut W, endpoints: &mut Endpoints, slot: u32, room: &mut [u8]) -> Got
    requires some { 0 < length room.old }
    ensures reads { (endpoint : EndpointState) → endpoint_at endpoints.old slot ≡ Some endpoint →
        Changes endpoints.old endpoints.new slot endpoint (after_get endpoint result) × Tells (got_call endpoint.slot room.new result) (W.calls wire.old) (W.calls wire.new) }
    ensures entries { (endpoint : EndpointState) → endpoint_at endpoints.old slot ≡ Some endpoint → endpoints.new.by_slot.entries ≡ set_value (nat_eq slot) endpoints.old.by_slot.entries (after_get endpoint result) }
    ensures next { endpoints.new.next_turn ≡ endpoints.old.next_turn }
    ensures within { GotWithin (length room.old) result }
    ensures room { length room.new ≡ length room.old }
    ensures steps { W.steps wire.new ≡ W.steps wire.old }
    ensures listening { W.listening wire.new ≡ W.listening wire.old }
    ensures faults { W.faults wire.new ≡ W.faults wire.old }
    ensures asks { W.asks wire.new ≡ W.asks wire.old }
    ensures kept { (past : Calls) (times : ℕ) → AnsweredSince past times (W.calls wire.old) → AnsweredSince past times (W.calls wire.new) }
{
    let Some(endpoint) = endpoints.by_slot.get_mut(&slot) else {
        return Got::Blocked;
    };
    let conv = endpoint.conv;
    let got = read_endpoint(wire, endpoint, room);
    endpoints.mark(conv);
    got
}

/// Reads the slot once: its bytes or its close are heard, or it has none at present.
fn read_at<W: Wire>(
    alloc: Global,
    wire: &mut W,
    table: &mut Table,
    room: &mut [u8],
    slot: u32,
) -> Result<Option<(u64, Heard)>, NoMemory>
    requires there { IsSome (endpoint_at table.old.endpoints slot) }
    requires turn { table.old.endpoints.next_turn < last_turn }
    requires some { 0 < length room.old }
    ensures steps { IfOk result (λ told. AddsHeard told (W.steps wire.old) (W.steps wire.new)) }
    ensures stands { (front back : List EndpointState) (endpoint : EndpointState) → IsAt table.old.endpoints slot front endpoint back → HasTurn front endpoint back →
        StandsFor idle None (front ++ endpoint ∷ back) table.old.accepted table.old.moment (W.calls wire.old) → OnOk result (Rests None table.new (W.calls wire.new)) }
    ensures err { (front back : List EndpointState) (endpoint : EndpointState) → IsAt table.old.endpoints slot front endpoint back → HasTurn front endpoint back →
        StandsFor idle None (front ++ endpoint ∷ back) table.old.accepted table.old.moment (W.calls wire.old) → OnErr result (Loose table.new (W.calls wire.new)) }
    ensures none { (endpoint : EndpointState) → endpoint_at table.old.endpoints slot ≡ Some endpoint → result ≡ Ok None →
        table.new.endpoints.by_slot.entries ≡ set_value (nat_eq slot) table.old.endpoints.by_slot.entries (record endpoint { is_readable = false }) }
    ensures room { length room.new ≡ length room.old }
    ensures steps_err { OnErr result (W.steps wire.new ≡ W.steps wire.old) }
    ensures listening { W.listening wire.new ≡ W.listening wire.old }
    ensures faults { W.faults wire.new ≡ W.faults wire.old }
    ensures asks { W.asks wire.new ≡ W.asks wire.old }
    ensures kept { (past : Calls) (times : ℕ) → AnsweredSince past times (W.calls wire.old) → AnsweredSince past times (W.calls wire.new) }
{
    match read_in(wire, &mut table.endpoints, slot, room) {
        Got::Gave(count) => hear_given(alloc, wire, table, slot, &room[..count]),
        Got::Blocked => Ok(None),
        Got::Ended => hear_close(wire, table, slot),
        Got::Broken => hear_close(wire, table, slot),
    }
}

// Hears the bytes, which the slot has just given, and puts the slot behind all others.
fn hear_given<W: Wire>(
    alloc: Global,
    wire: &mut W,
    table: &mut Table,
    slot: u32,
    bytes: &[u8],
) -> Result<Option<(u64, Heard)>, NoMemory>
    requires there { IsSome (endpoint_at table.old.endpoints slot) }
    requires turn { table.old.endpoints.next_turn < last_turn }
    ensures some { result ≢ Ok None }
    ensures steps { IfOk result (λ told. AddsHeard told (W.steps wire.old) (W.steps wire.new)) }
    ensures stands { (front back : List EndpointState) (endpoint : EndpointState) → IsAt table.old.endpoints slot front endpoint back →
        StandsFor idle (Some (HeardPiece endpoint.conv endpoint.side bytes.now)) ((front ++ back) ++ endpoint ∷ []) table.old.accepted table.old.moment (W.calls wire.old) →
        OnOk result (Rests None table.new (W.calls wire.new)) }
    ensures err { (front back : List EndpointState) (endpoint : EndpointState) → IsAt table.old.endpoints slot front endpoint back →
        StandsFor idle (Some (HeardPiece endpoint.conv endpoint.side bytes.now)) ((front ++ back) ++ endpoint ∷ []) table.old.accepted table.old.moment (W.calls wire.old) →
        OnErr result (Loose table.new (W.calls wire.new)) }
    ensures steps_err { OnErr result (W.steps wire.new ≡ W.steps wire.old) }
    ensures listening { W.listening wire.new ≡ W.listening wire.old }
    ensures faults { W.faults wire.new ≡ W.faults wire.old }
    ensures asks { W.asks wire.new ≡ W.asks wire.old }
    ensures kept { (past : Calls) (times : ℕ) → AnsweredSince past times (W.calls wire.old) → AnsweredSince past times (W.calls wire.new) }
{
    let Some(endpoint) = table.endpoints.get(slot) else {
        unreachable!()
    };
    let conv = endpoint.conv;
    let side = endpoint.side;
    table.endpoints.to_end(slot);
    hear_piece(alloc, wire, table.moment, conv, side, bytes)
}

// Hears the bytes, which the slot gave.
fn hear_piece<W: Wire>(
    alloc: Global,
    wire: &mut W,
    moment: u64,
    conv: u32,
    side: Side,
    bytes: &[u8],
) -> Result<Option<(u64, Heard)>, NoMemory>
    ensures some { result ≢ Ok None }
    ensures steps { IfOk result (λ told. AddsHeard told (W.steps wire.old) (W.steps wire.new)) }
    ensures stands { (front back : List EndpointState) (endpoint : EndpointState) (accepted : ℕ) → endpoint.conv ≡ conv → endpoint.side ≡ side →
        StandsFor idle (Some (HeardPiece endpoint.conv endpoint.side bytes.now)) (front ++ endpoint ∷ back) accepted moment (W.calls wire.old) →
        OnOk result (StandsFor idle None (front ++ endpoint ∷ back) accepted moment (W.calls wire.new)) }
    ensures calls_err { OnErr result (W.calls wire.new ≡ W.calls wire.old) }
    ensures steps_err { OnErr result (W.steps wire.new ≡ W.steps wire.old) }
    ensures listening { W.listening wire.new ≡ W.listening wire.old }
    ensures faults { W.faults wire.new ≡ W.faults wire.old }
    ensures asks { W.asks wire.new ≡ W.asks wire.old }
    ensures kept { (past : Calls) (times : ℕ) → AnsweredSince past times (W.calls wire.old) → AnsweredSince past times (W.calls wire.new) }
{
    let bytes = Bytes::copied(alloc, bytes)?;
    hear(wire, moment, Heard::Piece { conv, side, bytes })
}

/// What can be heard without waiting: the close of a side whose socket failed, and then what a readable slot gives.
pub fn hear_waiting<W: Wire>(
    alloc: Global,
    wire: &mut W,
    table: &mut Table,
    room: &mut [u8],
) -> Result<Option<(u64, Heard)>, NoMemory>
    requires some { 0 < length room.old }
    ensures steps { IfOk result (λ told. AddsHeard told (W.steps wire.old) (W.steps wire.new)) }
    ensures stands { Rests None table.old (W.calls wire.old) → OnOk result (Rests None table.new (W.calls wire.new)) }
    ensures err { Rests None table.old (W.calls wire.old) → OnErr result (Loose table.new (W.calls wire.new)) }
    ensures calm { result ≡ Ok None → IsCalm table.new.endpoints }
    ensures room { length room.new ≡ length room.old }
    ensures steps_err { OnErr result (W.steps wire.new ≡ W.steps wire.old) }
    ensures listening { W.listening wire.new ≡ W.listening wire.old }
    ensures faults { W.faults wire.new ≡ W.faults wire.old }
    ensures asks { W.asks wire.new ≡ W.asks wire.old }
    ensures kept { (past : Calls) (times : ℕ) → AnsweredSince past times (W.calls wire.old) → AnsweredSince past times (W.calls wire.new) }
{
    loop {
        match table.endpoints.next_due()? {
            Due::Over(slot) => return hear_close(wire, table, slot),
            Due::Open(slot) => {
                if let Some(told) = read_at(alloc, wire, table, room, slot)? {
                    return Ok(Some(told));
                }
            }
            Due::Nothing => return Ok(None),
        }
    }
}
