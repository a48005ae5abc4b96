//! Putting what waits for a slot, and shutting it when nothing is left to be done with it.
ghost use Rattle.std.specs.Prelude.{◌≡◌, true, ◌<◌, ◌≤◌, ℕ, List, ◌∷◌, ◌++◌, length, Option, Some};
ghost use Rattle.px_event.specs.declared.heard.Heard.{Heard};
ghost use Rattle.px_wire.specs.declared.endpoint.Endpoint.{Endpoint as EndpointState};
ghost use Rattle.px_outside.specs.Count.{Rose};
ghost use Rattle.px_wire.specs.declared.call.WireCall.TheVariants.{Shut as WasShut};
ghost use Rattle.px_wire.specs.Asked.{AnsweredSince};
ghost use Rattle.px_wire.specs.Calls.{Calls, Tells, put_call, PutWithin};
ghost use Rattle.px_wire.specs.Found.{IsAt};
ghost use Rattle.px_wire.specs.Endpoints.{is_done, after_put};
ghost use Rattle.px_wire.specs.Puts.{FlushedSo};
ghost use Rattle.px_wire.specs.Stands.{StandsFor, EndsFor, Rests, putting, flushed, name_of};
ghost use Rattle.px_wire.specs.Holds.{endpoint_at, passes};
ghost use Rattle.px_wire.specs.Flushes.{Flushes};

use crate::endpoint::{Endpoint, Flushed};
use crate::endpoints::Endpoints;
use crate::table::Table;
use crate::{Put, Wire};

/// Puts what waits for the slot until nothing is left, or the wire takes no more. What waits for a socket that failed is
/// dropped.
pub fn flush_endpoint<W: Wire>(wire: &mut W, endpoint: &mut Endpoint) -> Flushed
    ensures stands { (owed : Option Heard) (front back : List EndpointState) (accepted moment : ℕ) → StandsFor (putting endpoint.old.slot) owed (front ++ endpoint.old ∷ back) accepted moment (W.calls wire.old) →
        StandsFor (flushed endpoint.old.slot) owed (front ++ endpoint.new ∷ back) accepted moment (W.calls wire.new) }
    ensures name { name_of endpoint.new ≡ name_of endpoint.old }
    ensures turn { endpoint.new.turn ≡ endpoint.old.turn }
    ensures does { FlushedSo result endpoint.old.slot endpoint.old.queue (W.calls wire.old) (W.calls wire.new) }
    ensures left { result ≡ Flushed.Blocked → 0 < length endpoint.new.queue }
    ensures over { result ≡ Flushed.Broken → endpoint.new.is_over ≡ true }
    ensures blocks { W.blocks wire.old ≤ W.blocks wire.new }
    ensures blocked { result ≡ Flushed.Blocked → Rose (W.blocks wire.old) (W.blocks wire.new) }
    ensures breaks { W.breaks wire.old ≤ W.breaks wire.new }
    ensures broken { result ≡ Flushed.Broken → Rose (W.breaks wire.old) (W.breaks wire.new) }
    ensures steps { W.steps wire.new ≡ W.steps wire.old }
    ensures listening { W.listening wire.new ≡ W.listening wire.old }
    ensures faults { W.faults wire.new ≡ W.faults wire.old }
    ensures asks { W.asks wire.new ≡ W.asks wire.old }
    ensures kept { (past : Calls) (times : ℕ) → AnsweredSince past times (W.calls wire.old) → AnsweredSince past times (W.calls wire.new) }
{
    while endpoint.queue.len() > 0 {
        match put_once(wire, endpoint) {
            Put::Took(_) => {}
            Put::Blocked => return Flushed::Blocked,
            Put::Broken => return Flushed::Broken,
        }
    }
    Flushed::Empty
}

// Puts what waits once. What waits for a socket that failed is dropped.
fn put_once<W: Wire>(wire: &mut W, endpoint: &mut Endpoint) -> Put
    requires left { 0 < length endpoint.old.queue }
    ensures endpoint { endpoint.new ≡ after_put endpoint.old result }
    ensures told { Tells (put_call endpoint.old.slot endpoint.old.queue result) (W.calls wire.old) (W.calls wire.new) }
    ensures within { PutWithin (length endpoint.old.queue) result }
    ensures steps { W.steps wire.new ≡ W.steps wire.old }
    ensures listening { W.listening wire.new ≡ W.listening wire.old }
    ensures faults { W.faults wire.new ≡ W.faults wire.old }
    ensures asks { W.asks wire.new ≡ W.asks wire.old }
    ensures blocks { W.blocks wire.old ≤ W.blocks wire.new }
    ensures blocked { result ≡ Put.Blocked → Rose (W.blocks wire.old) (W.blocks wire.new) }
    ensures breaks { W.breaks wire.old ≤ W.breaks wire.new }
    ensures broken { result ≡ Put.Broken → Rose (W.breaks wire.old) (W.breaks wire.new) }
{
    let put = wire.put(endpoint.slot, endpoint.queue.front());
    match put {
        Put::Took(count) => endpoint.queue.take_off(count),
        Put::Blocked => {}
        Put::Broken => {
            endpoint.queue.clear();
            endpoint.is_over = true;
        }
    }
    put
}

/// The same for the slot of this number, and then shuts it if a Close was said to its side and nothing is left.
pub fn flush_at<W: Wire>(wire: &mut W, table: &mut Table, slot: u32) -> Flushed
    ensures stands { (owed : Option Heard) (front back : List EndpointState) (endpoint : EndpointState) → IsAt table.old.endpoints slot front endpoint back →
        StandsFor (putting endpoint.slot) owed (front ++ endpoint ∷ back) table.old.accepted table.old.moment (W.calls wire.old) →
        Rests owed table.new (W.calls wire.new) }
    ensures does { (front back : List EndpointState) (endpoint : EndpointState) → IsAt table.old.endpoints slot front endpoint back →
        FlushedSo result endpoint.slot endpoint.queue (W.calls wire.old) (W.calls wire.new) }
    ensures steps { W.steps wire.new ≡ W.steps wire.old }
    ensures listening { W.listening wire.new ≡ W.listening wire.old }
    ensures faults { W.faults wire.new ≡ W.faults wire.old }
    ensures asks { W.asks wire.new ≡ W.asks wire.old }
    ensures blocked { result ≡ Flushed.Blocked → Rose (W.blocks wire.old) (W.blocks wire.new) }
    ensures broken { result ≡ Flushed.Broken → Rose (W.breaks wire.old) (W.breaks wire.new) }
    ensures kept { (past : Calls) (times : ℕ) → AnsweredSince past times (W.calls wire.old) → AnsweredSince past times (W.calls wire.new) }
{
    let flushed = flush_in(wire, &mut table.endpoints, slot);
    if is_done_at(&table.endpoints, slot) {
        shut_at(wire, table, slot);
    }
    flushed
}

// Puts what waits for the slot of this number.
fn flush_in<W: Wire>(wire: &mut W, endpoints: &mut Endpoints, slot: u32) -> Flushed
    ensures flushes { (endpoint : EndpointState) → endpoint_at endpoints.old slot ≡ Some endpoint → Flushes result slot endpoint endpoints.old endpoints.new (W.calls wire.old) (W.calls wire.new) }
    ensures blocks { W.blocks wire.old ≤ W.blocks wire.new }
    ensures blocked { result ≡ Flushed.Blocked → Rose (W.blocks wire.old) (W.blocks wire.new) }
    ensures breaks { W.breaks wire.old ≤ W.breaks wire.new }
    ensures broken { result ≡ Flushed.Broken → Rose (W.breaks wire.old) (W.breaks wire.new) }
    ensures steps { W.steps wire.new ≡ W.steps wire.old }
    ensures listening { W.listening wire.new ≡ W.listening wire.old }
    ensures faults { W.faults wire.new ≡ W.faults wire.old }
    ensures asks { W.asks wire.new ≡ W.asks wire.old }
    ensures kept { (past : Calls) (times : ℕ) → AnsweredSince past times (W.calls wire.old) → AnsweredSince past times (W.calls wire.new) }
{
    let Some(endpoint) = endpoints.by_slot.get_mut(&slot) else {
        return Flushed::Empty;
    };
    let conv = endpoint.conv;
    let flushed = flush_endpoint(wire, endpoint);
    endpoints.mark(conv);
    flushed
}

/// Whether the slot of this number is done with.
pub fn is_done_at(endpoints: &Endpoints, slot: u32) -> bool
    ensures is { result ≡ passes is_done (endpoint_at endpoints.now slot) }
{
    match endpoints.get(slot) {
        Some(endpoint) => is_done(endpoint),
        None => false,
    }
}

/// Whether a Close was said to the side, all was taken, and its own close is not to be heard.
pub fn is_done(endpoint: &Endpoint) -> bool
    ensures { result ≡ is_done endpoint.now }
{
    endpoint.is_closing && endpoint.queue.len() == 0 && !endpoint.is_over
}

/// Shuts the slot, which is then in use no more.
pub fn shut_at<W: Wire>(wire: &mut W, table: &mut Table, slot: u32)
    ensures stands { (owed : Option Heard) (front back : List EndpointState) (endpoint : EndpointState) → IsAt table.old.endpoints slot front endpoint back →
        EndsFor endpoint.slot owed (front ++ endpoint ∷ back) table.old.accepted table.old.moment (W.calls wire.old) →
        Rests owed table.new (W.calls wire.new) }
    ensures told { Tells (WasShut slot) (W.calls wire.old) (W.calls wire.new) }
    ensures steps { W.steps wire.new ≡ W.steps wire.old }
    ensures listening { W.listening wire.new ≡ W.listening wire.old }
    ensures faults { W.faults wire.new ≡ W.faults wire.old }
    ensures asks { W.asks wire.new ≡ W.asks wire.old }
    ensures blocks { W.blocks wire.old ≤ W.blocks wire.new }
    ensures breaks { W.breaks wire.old ≤ W.breaks wire.new }
    ensures kept { (past : Calls) (times : ℕ) → AnsweredSince past times (W.calls wire.old) → AnsweredSince past times (W.calls wire.new) }
{
    wire.shut(slot);
    table.endpoints.remove(slot);
}
