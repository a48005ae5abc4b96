//! A network over a wire.
ghost use Rattle.std.specs.Prelude.{ℕ, ◌≡◌, ◌⊎◌, ◌-◌, ◌^◌, [], true, ◌+◌, ◌<◌, ◌≤◌, length, Option, Some, None, Ok, Err, IsErr, IfOk, false, OnOk, OnErr, option_copied};
ghost use Rattle.px_outside.specs.Count.{Rose};
ghost use Rattle.px_outside.specs.Net.{Adds, idle, failed, at, IsNote};
ghost use Rattle.px_wire.specs.Asked.{AnsweredSince, most_asks, FailedSo};
ghost use Rattle.px_wire.specs.Calls.{Calls, Agrees, AsksMore, AsksAtMost, NoneTold};
ghost use Rattle.px_wire.specs.Lines.{Keeps};
ghost use Rattle.px_wire.specs.Puts.{FlushedSo, queue_of};
ghost use Rattle.px_wire.specs.Found.{Loose};
ghost use Rattle.px_wire.specs.Hears.{AddsHeard};
ghost use Rattle.px_wire.specs.Stands.{Rests, IsCalm};
ghost use Rattle.px_wire.specs.Holds.{Holds};

use crate::Wire;
use crate::endpoint::Flushed;
use crate::flush::flush_at;
use crate::hear::hear_waiting;
use crate::ready::hear_ready;
use crate::say::say;
use crate::table::Table;
use px_event::{Heard, Said, Step};
use px_message::Address;
use px_outside::{Net, NetError};
use px_text::NoMemory;
use std::alloc::Global;
use std::marker::Model;

/// At most so many bytes are heard in one piece.
const ROOM: usize = 65_536;

/// A network over a wire: a queue for each side of what was said to it and not yet taken. What it keeps stands for the
/// calls of its wire.
#[derive(Drop)]
pub struct Lines<W: Wire> {
    alloc: Global,
    wire: W,
    table: Table,
    room: Vec<u8>,
    faults: u64,
    // Memory ran out while something was heard.
    is_spent: bool,
}

impl<W: Wire> Model for Lines<W> {
    ghost use Rattle.px_wire.specs.Asked.{FailedSo};
    ghost use Rattle.px_wire.specs.Lines.{LinesState, Keeps};
    ghost use Rattle.std.specs.Coded.{codes};
    ghost use Rattle.px_wire.specs.contracts.table.Table as table_type;

    ghost Value = { LinesState W };

    ghost coded = { Prim.hlevel (codes, table_type.the_row.coded) };

    ghost view = { λ l. record { wire = l.wire; table = l.table; faults = l.faults; is_spent = l.is_spent } };

    ghost invariant = { λ l. Keeps l.is_spent l.table (W.calls l.wire) × FailedSo l.faults (W.calls l.wire) };
}

impl<W: Wire> Lines<W> {
    /// A network over this wire, of which nothing was asked yet.
    pub fn new(alloc: Global, wire: W) -> Lines<W>
        requires fresh { NoneTold (W.calls wire) }
        ensures wire { result.wire ≡ wire }
        ensures endpoints { Holds result.table.endpoints [] }
        ensures spent { result.is_spent ≡ false }
        ensures own_faults { result.faults ≡ 0 }
    {
        let table = Table::new(alloc);
        let room = Vec::new(alloc);
        Lines {
            alloc,
            wire,
            table,
            room,
            faults: 0,
            is_spent: false,
        }
    }

    /// The wire. What is kept stands for its calls, and the steps that it was handed are those of its calls. Where it tells its
    /// calls, lines failed by themselves only if `ready` told something 2^64 - 1 times in a row and nothing was heard.
    pub fn wire(&self) -> &W
        ensures wire { result.now ≡ self.now.wire }
        ensures keeps { Keeps self.now.is_spent self.now.table (W.calls self.now.wire) }
        ensures agree { Agrees (W.steps self.now.wire) (W.calls self.now.wire) }
        ensures own_faults { FailedSo self.now.faults (W.calls self.now.wire) }
    {
        &self.wire
    }

    /// The wire, for whoever parts with its sockets behind a run; what waits for them is let go of.
    pub fn into_wire(self) -> W
        ensures wire { result ≡ self.wire }
    {
        let Lines { wire, .. } = self;
        wire
    }

    /// Puts what waits for the slot until nothing is left, or the wire takes no more.
    pub fn flush(&mut self, slot: u32) -> Flushed
        ensures steps { W.steps self.new.wire ≡ W.steps self.old.wire }
        ensures listening { W.listening self.new.wire ≡ W.listening self.old.wire }
        ensures faults { W.faults self.new.wire ≡ W.faults self.old.wire }
        ensures asks { W.asks self.new.wire ≡ W.asks self.old.wire }
        ensures blocked { result ≡ Flushed.Blocked → Rose (W.blocks self.old.wire) (W.blocks self.new.wire) }
        ensures broken { result ≡ Flushed.Broken → Rose (W.breaks self.old.wire) (W.breaks self.new.wire) }
        ensures does { FlushedSo result slot (queue_of slot self.old.table.endpoints) (W.calls self.old.wire) (W.calls self.new.wire) }
        ensures own_faults { self.new.faults ≡ self.old.faults }
        ensures spent { self.new.is_spent ≡ self.old.is_spent }
    {
        match self.table.endpoints.get(slot) {
            Some(_) => flush_at(&mut self.wire, &mut self.table, slot),
            None => Flushed::Empty,
        }
    }
}

impl<W: Wire> Net for Lines<W> {
    ghost trace = { λ l. W.steps l.wire };

    ghost faults = { λ l. W.faults l.wire + l.faults };

    ghost listening = { λ l. W.listening l.wire };

    fn listen(&mut self, proxy: &Address, control: Option<&Address>) -> Result<(), NetError>
        requires first { W.listening self.old.wire ≡ idle }
        ensures ok { OnOk result (W.listening self.new.wire ≡ at proxy.now (option_copied control.entry)) }
        ensures err { OnErr result (W.listening self.new.wire ≡ failed) }
        ensures trace { W.steps self.new.wire ≡ W.steps self.old.wire }
        ensures later { W.faults self.old.wire + self.old.faults ≤ W.faults self.new.wire + self.new.faults }
        ensures fault { result ≡ Err NetError.Fault → Rose (W.faults self.old.wire + self.old.faults) (W.faults self.new.wire + self.new.faults) }

        // The fault is the wire's.
        ensures wire_fault { result ≡ Err NetError.Fault → Rose (W.faults self.old.wire) (W.faults self.new.wire) }
    {
        self.wire.listen(proxy, control)
    }

    fn next(&mut self) -> Result<(u64, Heard), NetError>
        ensures heard { IfOk result (λ r. Adds (W.steps self.old.wire) (W.steps self.new.wire) (Step.Heard r.0 r.1)) }
        ensures err { OnErr result (W.steps self.new.wire ≡ W.steps self.old.wire) }
        ensures listening { W.listening self.new.wire ≡ W.listening self.old.wire }
        ensures later { W.faults self.old.wire + self.old.faults ≤ W.faults self.new.wire + self.new.faults }
        ensures fault { result ≡ Err NetError.Fault → Rose (W.faults self.old.wire + self.old.faults) (W.faults self.new.wire + self.new.faults) }

        // The wire is asked at most so often. A fault is the wire's, or it was asked so often and told nothing to be heard.
        ensures asks { AsksAtMost (2 ^ 64 - 1) (W.asks self.old.wire) (W.asks self.new.wire) }
        ensures own_fault { result ≡ Err NetError.Fault → Rose (W.faults self.old.wire) (W.faults self.new.wire) ⊎
            (Rose self.old.faults self.new.faults × AsksMore (2 ^ 64 - 1) (W.asks self.old.wire) (W.asks self.new.wire)) }

        // Once out of memory it answers so for ever.
        ensures spent { self.old.is_spent ≡ true → result ≡ Err NetError.NoMemory }
        ensures goes_on { OnOk result (self.new.is_spent ≡ false) }
    {
        if self.is_spent {
            return Err(NetError::NoMemory);
        }
        self.is_spent = true;
        make_room(&mut self.room)?;
        match hear_next(self.alloc, &mut self.wire, &mut self.table, &mut self.room) {
            Ok(Some(told)) => {
                self.is_spent = false;
                Ok(told)
            }
            Ok(None) => {
                self.is_spent = false;
                self.faults = self.faults.saturating_add(1);
                Err(NetError::Fault)
            }
            Err(NetError::Fault) => {
                self.is_spent = false;
                Err(NetError::Fault)
            }
            Err(NetError::NoMemory) => Err(NetError::NoMemory),
        }
    }

    fn say(&mut self, conv: u32, said: Said) -> Result<(), NoMemory>
        ensures said { OnOk result (Adds (W.steps self.old.wire) (W.steps self.new.wire) (Step.Said conv said)) }
        ensures err { OnErr result (W.steps self.new.wire ≡ W.steps self.old.wire) }
        ensures listening { W.listening self.new.wire ≡ W.listening self.old.wire }
        ensures faults { W.faults self.new.wire + self.new.faults ≡ W.faults self.old.wire + self.old.faults }

        // Once out of memory of `next` it answers so for ever; after its own, nothing was put or dialled.
        ensures spent { self.old.is_spent ≡ true → IsErr result }
        ensures asks { W.asks self.new.wire ≡ W.asks self.old.wire }
        ensures calls_err { OnErr result (W.calls self.new.wire ≡ W.calls self.old.wire) }
    {
        if self.is_spent {
            drop(said);
            return Err(NoMemory);
        }
        say(self.alloc, &mut self.wire, &mut self.table, conv, said)
    }

    fn note(&mut self, step: &Step) -> Result<(), NoMemory>
        requires note { IsNote step.now }
        ensures noted { OnOk result (Adds (W.steps self.old.wire) (W.steps self.new.wire) step.now) }
        ensures err { OnErr result (W.steps self.new.wire ≡ W.steps self.old.wire) }
        ensures listening { W.listening self.new.wire ≡ W.listening self.old.wire }
        ensures faults { W.faults self.new.wire + self.new.faults ≡ W.faults self.old.wire + self.old.faults }
    {
        self.wire.note(step)
    }
}

fn make_room(room: &mut Vec<u8>) -> Result<(), NoMemory>
    ensures room { OnOk result (length room.new.items ≡ 65536) }
{
    room.resize(ROOM, 0)?;
    Ok(())
}

// The next thing heard, or none where the wire was asked 2^64 - 1 times and told nothing.
fn hear_next<W: Wire>(
    alloc: Global,
    wire: &mut W,
    table: &mut Table,
    room: &mut [u8],
) -> Result<Option<(u64, Heard)>, NetError>
    requires some { 0 < length room.old }
    ensures steps { IfOk result (λ told. AddsHeard told (W.steps wire.old) (W.steps wire.new)) }
    ensures stands { Rests None table.old (W.calls wire.old) → OnOk result (Rests None table.new (W.calls wire.new)) }
    ensures err { Rests None table.old (W.calls wire.old) → OnErr result (Loose table.new (W.calls wire.new)) }
    ensures fault_stands { Rests None table.old (W.calls wire.old) → result ≡ Err NetError.Fault → Rests None table.new (W.calls wire.new) }
    ensures steps_err { OnErr result (W.steps wire.new ≡ W.steps wire.old) }
    ensures listening { W.listening wire.new ≡ W.listening wire.old }
    ensures asks { AsksAtMost (2 ^ 64 - 1) (W.asks wire.old) (W.asks wire.new) }
    ensures idle { result ≡ Ok None → AsksMore (2 ^ 64 - 1) (W.asks wire.old) (W.asks wire.new) }
    ensures later { W.faults wire.old ≤ W.faults wire.new }
    ensures fault { result ≡ Err NetError.Fault → Rose (W.faults wire.old) (W.faults wire.new) }
    ensures kept { (past : Calls) (times : ℕ) → AnsweredSince past times (W.calls wire.old) → AnsweredSince past times (W.calls wire.new) }
    ensures answered { (past : Calls) → AnsweredSince past 0 (W.calls wire.old) → result ≡ Ok None → AnsweredSince past most_asks (W.calls wire.new) }
    ensures calm { result ≡ Ok None → IsCalm table.new.endpoints }
{
    let heard = hear_waiting(alloc, wire, table, room)?;
    match heard {
        Some(told) => Ok(Some(told)),
        None => wait(alloc, wire, table, room),
    }
}

// Asks the wire until something is heard, at most so often.
fn wait<W: Wire>(
    alloc: Global,
    wire: &mut W,
    table: &mut Table,
    room: &mut [u8],
) -> Result<Option<(u64, Heard)>, NetError>
    requires some { 0 < length room.old }
    requires calm { IsCalm table.old.endpoints }
    ensures steps { IfOk result (λ told. AddsHeard told (W.steps wire.old) (W.steps wire.new)) }
    ensures stands { Rests None table.old (W.calls wire.old) → OnOk result (Rests None table.new (W.calls wire.new)) }
    ensures err { Rests None table.old (W.calls wire.old) → OnErr result (Loose table.new (W.calls wire.new)) }
    ensures fault_stands { Rests None table.old (W.calls wire.old) → result ≡ Err NetError.Fault → Rests None table.new (W.calls wire.new) }
    ensures steps_err { OnErr result (W.steps wire.new ≡ W.steps wire.old) }
    ensures listening { W.listening wire.new ≡ W.listening wire.old }
    ensures asks { AsksAtMost (2 ^ 64 - 1) (W.asks wire.old) (W.asks wire.new) }
    ensures idle { result ≡ Ok None → AsksMore (2 ^ 64 - 1) (W.asks wire.old) (W.asks wire.new) }
    ensures later { W.faults wire.old ≤ W.faults wire.new }
    ensures fault { result ≡ Err NetError.Fault → Rose (W.faults wire.old) (W.faults wire.new) }
    ensures kept { (past : Calls) (times : ℕ) → AnsweredSince past times (W.calls wire.old) → AnsweredSince past times (W.calls wire.new) }
    ensures answered { (past : Calls) → AnsweredSince past 0 (W.calls wire.old) → result ≡ Ok None → AnsweredSince past most_asks (W.calls wire.new) }
    ensures calm { result ≡ Ok None → IsCalm table.new.endpoints }
{
    let mut left = u64::MAX;
    while left > 0 {
        left -= 1;
        let heard = hear_once(alloc, wire, table, room)?;
        match heard {
            Some(told) => return Ok(Some(told)),
            None => {}
        }
    }
    Ok(None)
}

// Waits once, and hears what can be heard then.
fn hear_once<W: Wire>(
    alloc: Global,
    wire: &mut W,
    table: &mut Table,
    room: &mut [u8],
) -> Result<Option<(u64, Heard)>, NetError>
    requires some { 0 < length room.old }
    requires calm { IsCalm table.old.endpoints }
    ensures steps { IfOk result (λ told. AddsHeard told (W.steps wire.old) (W.steps wire.new)) }
    ensures stands { Rests None table.old (W.calls wire.old) → OnOk result (Rests None table.new (W.calls wire.new)) }
    ensures err { Rests None table.old (W.calls wire.old) → OnErr result (Loose table.new (W.calls wire.new)) }
    ensures fault_stands { Rests None table.old (W.calls wire.old) → result ≡ Err NetError.Fault → Rests None table.new (W.calls wire.new) }
    ensures calm { result ≡ Ok None → IsCalm table.new.endpoints }
    ensures room { length room.new ≡ length room.old }
    ensures steps_err { OnErr result (W.steps wire.new ≡ W.steps wire.old) }
    ensures listening { W.listening wire.new ≡ W.listening wire.old }
    ensures asks { OnOk result (AsksMore 1 (W.asks wire.old) (W.asks wire.new)) }
    ensures asks_err { OnErr result (AsksAtMost 1 (W.asks wire.old) (W.asks wire.new)) }
    ensures later { W.faults wire.old ≤ W.faults wire.new }
    ensures fault { result ≡ Err NetError.Fault → Rose (W.faults wire.old) (W.faults wire.new) }
    ensures kept { (past : Calls) (times : ℕ) → AnsweredSince past times (W.calls wire.old) → AnsweredSince past times (W.calls wire.new) }
    ensures answered { (past : Calls) (times : ℕ) → AnsweredSince past times (W.calls wire.old) → OnOk result (AnsweredSince past (times + 1) (W.calls wire.new)) }
{
    if let Some(told) = hear_ready(alloc, wire, table)? {
        return Ok(Some(told));
    }
    let heard = hear_waiting(alloc, wire, table, room)?;
    Ok(heard)
}
