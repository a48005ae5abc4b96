//! A wire in memory.
//!
//! It serves its three lists in the order of the calls. `ready` tells the script, and fails at its end; it passes over a
//! connection whose slot is in use or is one for dials. A dial gives the least slot from 2^31 on that is not in use. Each
//! `put` uses one number of `takes`: it takes so many bytes, all where the number is larger, and none where it is 0, which
//! is `Blocked`; when they are spent it takes all. Each `get` uses one of `gives`: an empty one is `Ended`, one that is
//! longer than the room is given in parts; when they are spent it is `Blocked`. No socket fails.
ghost use Rattle.std.specs.Prelude.{◌≡◌, ◌≢◌, ◌<◌, ◌≤◌, ℕ, [], ◌∷◌, ◌++◌, length, take, drop, min, Some, None, Err, IfOk, IfSome, OnOk, OnErr, option_copied, vec_len, vec_capacity};
ghost use Rattle.px_outside.specs.Count.{Rose};
ghost use Rattle.px_outside.specs.Net.{Adds, idle, failed, at};
ghost use Rattle.px_wire.specs.declared.call.WireCall.{WireCall as Call};
ghost use Rattle.px_wire.specs.declared.call.WireCall.TheVariants.{Told, NotReady, Dialled, Noted, Shut};
ghost use Rattle.px_wire.specs.Calls.{Calls, AsksMore, Tells, IfTold, IsFree, GivesFree, GotWithin, PutWithin, step_in, slots_after, without_slot, put_call as call_of_put, got_call as call_of_got};
ghost use Rattle.px_wire.specs.Puts.{taken_in, taken_from};
ghost use Rattle.px_wire.specs.MemWire.{calls_of, steps_in, calls_told, steps_told, later_of, no_calls, may_tell as may_be_told, told_by, script_left, taken_by as count_taken, put_answer, given_by, room_after, gives_left, pieces_of, asked_once, blocks_put, blocks_got, IsLeastFree, listening_of, keeping, after_told, after_not_ready, after_dial, after_put, after_get, after_shut, listens};

use crate::{Got, Put, Ready, Wire, WireCall};
use px_event::Step;
use px_message::Address;
use px_outside::NetError;
use px_text::{Bytes, NoMemory};
use std::alloc::Global;
use std::collections::VecDeque;
use std::marker::Model;
use std::mem;

/// A wire that follows three lists, and keeps its calls and the steps that it was handed.
#[derive(Drop)]
pub struct MemWire {
    alloc: Global,
    script: VecDeque<(u64, Ready)>,
    takes: VecDeque<usize>,
    gives: VecDeque<Vec<u8>>,
    list: Vec<WireCall>,
    // The steps since memory ran out for a call; none where it never did.
    later: Option<Vec<Step>>,
    slots: Vec<u32>,
    faults: u64,
    // How often `ready` was called; none once that does not fit.
    asks: Option<u64>,
    blocks: u64,
    listening: Listening,
}

// Whether it was asked to listen, and where it does.
#[derive(Drop)]
enum Listening {
    Idle,
    Failed,
    At {
        proxy: Address,
        control: Option<Address>,
    },
}

// The first slot that is given to a dial.
const FIRST_DIALLED: u32 = 0x8000_0000;

impl Model for MemWire {
    ghost use Rattle.px_wire.specs.MemWire.{WireState, pieces_of, listening_of, later_of, calls_told, SlotsTold};

    ghost Value = { WireState };

    ghost view = { λ w. record { script = w.script.items; takes = w.takes.items; gives = pieces_of w.gives.items; list = w.list.items; later = later_of w.later; slots = w.slots.items; faults = w.faults; asks = w.asks; blocks = w.blocks; listening = listening_of w.listening } };

    ghost invariant = { λ w. SlotsTold (calls_told (later_of w.later) w.list.items) w.slots.items };
}

impl MemWire {
    /// A wire that tells this script, a moment with each, takes so many bytes, and gives these.
    pub fn new(
        alloc: Global,
        script: Vec<(u64, Ready)>,
        takes: Vec<usize>,
        gives: Vec<Vec<u8>>,
    ) -> MemWire
        ensures calls { calls_of result ≡ Some [] }
        ensures steps { steps_in result ≡ [] }
        ensures start { result ≡ no_calls script.items takes.items (pieces_of gives.items) }
    {
        MemWire {
            alloc,
            script: VecDeque::from(script),
            takes: VecDeque::from(takes),
            gives: VecDeque::from(gives),
            list: Vec::new(alloc),
            later: None,
            slots: Vec::new(alloc),
            faults: 0,
            asks: Some(0),
            blocks: 0,
            listening: Listening::Idle,
        }
    }

    /// The calls so far, each with its answer; none where memory ran out for one of them.
    pub fn calls(&self) -> Option<&[WireCall]>
        ensures none { result ≡ None → calls_of self.now ≡ None }
        ensures some { IfSome result (λ list. calls_of self.now ≡ Some list.now) }
    {
        match &self.later {
            None => Some(self.list.as_slice()),
            Some(_) => None,
        }
    }

    /// The joined bytes that it took for this slot. `NoMemory` where memory runs out, or ran out for one of the calls.
    pub fn taken(&self, slot: u32) -> Result<Vec<u8>, NoMemory>
        ensures { IfOk result (λ bytes. (list : Calls) → calls_of self.now ≡ Some list → bytes.items ≡ taken_in slot list) }
    {
        match self.calls() {
            Some(calls) => taken_of(self.alloc, calls, slot),
            None => Err(NoMemory),
        }
    }
}

// The joined bytes that these calls took for the slot.
fn taken_of(alloc: Global, calls: &[WireCall], slot: u32) -> Result<Vec<u8>, NoMemory>
    ensures { IfOk result (λ bytes. bytes.items ≡ taken_in slot calls.now) }
{
    let mut bytes = Vec::new(alloc);
    for call in calls {
        bytes.extend_from_slice(taken_by(call, slot))?;
    }
    Ok(bytes)
}

// The bytes that the call took for the slot.
fn taken_by(call: &WireCall, slot: u32) -> &[u8]
    ensures { result.now ≡ taken_from slot call.now }
{
    match call {
        WireCall::Took { slot: other, bytes } if *other == slot => bytes.as_slice(),
        _ => &[],
    }
}

// Keeps a call that was handed no step, or keeps no calls from now on.
fn keep(
    alloc: Global,
    list: &mut Vec<WireCall>,
    later: &mut Option<Vec<Step>>,
    call: Result<WireCall, NoMemory>,
)
    ensures told { (made : Call) → IfOk call (λ c. c ≡ made) → Tells made (calls_told (later_of later.old) list.old.items) (calls_told (later_of later.new) list.new.items) }
    ensures steps { (made : Call) → IfOk call (λ c. c ≡ made) → step_in made ≡ [] →
        steps_told (later_of later.new) list.new.items ≡ steps_told (later_of later.old) list.old.items }
{
    if later.is_some() {
        return drop(call);
    }
    if push_call(list, call).is_err() {
        cease(alloc, later);
    }
}

// No call is kept any longer.
fn cease(alloc: Global, later: &mut Option<Vec<Step>>)
    ensures { later_of later.new ≡ Some [] }
{
    *later = Some(Vec::new(alloc));
}

// Keeps the call, or there was no memory for it.
fn push_call(list: &mut Vec<WireCall>, call: Result<WireCall, NoMemory>) -> Result<(), NoMemory>
    ensures kept { (made : Call) → IfOk call (λ c. c ≡ made) → OnOk result (list.new.items ≡ list.old.items ++ made ∷ []) }
    ensures lost { OnErr result (list.new.items ≡ list.old.items) }
{
    push_made(list, call?)
}

// Keeps a call and the step that it was handed. After an error nothing has changed.
fn keep_step(
    list: &mut Vec<WireCall>,
    later: &mut Option<Vec<Step>>,
    call: WireCall,
    step: &Step,
) -> Result<(), NoMemory>
    requires handed { step_in call ≡ step.now ∷ [] }
    ensures told { OnOk result (Tells call (calls_told (later_of later.old) list.old.items) (calls_told (later_of later.new) list.new.items)) }
    ensures steps { OnOk result (steps_told (later_of later.new) list.new.items ≡ steps_told (later_of later.old) list.old.items ++ step.now ∷ []) }
    ensures list_err { OnErr result (list.new.items ≡ list.old.items) }
    ensures later_err { OnErr result (later_of later.new ≡ later_of later.old) }
{
    match later {
        None => push_made(list, call),
        Some(steps) => {
            drop(call);
            push_copy(steps, step)
        }
    }
}

fn push_made(list: &mut Vec<WireCall>, call: WireCall) -> Result<(), NoMemory>
    ensures ok { OnOk result (list.new.items ≡ list.old.items ++ call ∷ []) }
    ensures err { OnErr result (list.new.items ≡ list.old.items) }
{
    list.push(call)?;
    Ok(())
}

fn push_copy(steps: &mut Vec<Step>, step: &Step) -> Result<(), NoMemory>
    ensures ok { OnOk result (steps.new.items ≡ steps.old.items ++ step.now ∷ []) }
    ensures err { OnErr result (steps.new.items ≡ steps.old.items) }
{
    let copy = step.try_clone()?;
    steps.push(copy)?;
    Ok(())
}

// The least slot from the first dialled one on that is not in use.
fn free_slot(slots: &[u32]) -> Option<u32>
    ensures { IfSome result (λ slot. IsLeastFree slots.now slot) }
{
    let mut slot = FIRST_DIALLED;
    while slots.contains(&slot) {
        slot = slot.checked_add(1)?;
    }
    Some(slot)
}

// The next that is told: what may not be told is passed over.
fn next_told(script: &mut VecDeque<(u64, Ready)>, slots: &[u32]) -> Option<(u64, Ready)>
    ensures told { result ≡ told_by slots.now script.old.items }
    ensures left { script.new.items ≡ script_left slots.now script.old.items }
{
    while let Some((moment, ready)) = script.pop_front() {
        if may_tell(slots, &ready) {
            return Some((moment, ready));
        }
        drop(ready);
    }
    None
}

fn may_tell(slots: &[u32], ready: &Ready) -> bool
    ensures { result ≡ may_be_told slots.now ready.now }
{
    match ready {
        Ready::Accepted { slot, .. } => *slot < FIRST_DIALLED && !slots.contains(slot),
        _ => true,
    }
}

// The slot of an accepted connection is in use.
fn add_slot(slots: &mut Vec<u32>, ready: &Ready)
    requires room { vec_len slots.old < vec_capacity slots.old }
    ensures { (moment : ℕ) → slots.new.items ≡ slots_after slots.old.items (Told moment ready.now) }
{
    if let Ready::Accepted { slot, .. } = ready {
        slots.push_reserved(*slot);
    }
}

// The next number of those that are left, at most all; all where none is left.
fn next_take(takes: &mut VecDeque<usize>, most: usize) -> usize
    ensures taken { result ≡ count_taken takes.old.items most }
    ensures rest { takes.new.items ≡ drop 1 takes.old.items }
{
    match takes.pop_front() {
        Some(take) => take.min(most),
        None => most,
    }
}

// Gives of the next piece what the room holds.
fn give(gives: &mut VecDeque<Vec<u8>>, room: &mut [u8]) -> Got
    ensures answer { result ≡ given_by (pieces_of gives.old.items) (length room.old) }
    ensures room { room.new ≡ room_after (pieces_of gives.old.items) room.old }
    ensures left { pieces_of gives.new.items ≡ gives_left (pieces_of gives.old.items) (length room.old) }
{
    let Some(give) = gives.front_mut() else {
        return Got::Blocked;
    };
    if give.is_empty() {
        drop(gives.pop_front());
        return Got::Ended;
    }
    let count = move_front(give, room);
    if give.is_empty() {
        drop(gives.pop_front());
    }
    Got::Gave(count)
}

// Moves as many bytes from the front as the room holds.
fn move_front(give: &mut Vec<u8>, room: &mut [u8]) -> usize
    ensures count { result ≡ min (length give.old.items) (length room.old) }
    ensures rest { give.new.items ≡ drop result give.old.items }
    ensures moved { room.new ≡ take result give.old.items ++ drop result room.old }
{
    let count = give.len().min(room.len());
    room[..count].copy_from_slice(&give[..count]);
    give.drain(..count);
    count
}

fn told_call(moment: u64, ready: &Ready) -> Result<WireCall, NoMemory>
    ensures { IfOk result (λ call. call ≡ Told moment ready.now) }
{
    let ready = copy_of(ready)?;
    Ok(WireCall::Told { moment, ready })
}

// The same is told.
fn copy_of(ready: &Ready) -> Result<Ready, NoMemory>
    ensures { IfOk result (λ copy. copy ≡ ready.now) }
{
    match ready {
        Ready::Accepted { slot, door, peer } => Ok(Ready::Accepted {
            slot: *slot,
            door: *door,
            peer: peer.try_clone()?,
        }),
        Ready::Readable(slot) => Ok(Ready::Readable(*slot)),
        Ready::Writable(slot) => Ok(Ready::Writable(*slot)),
        Ready::Dialled(slot, ok) => Ok(Ready::Dialled(*slot, *ok)),
    }
}

fn dialled_call(address: &Address, step: &Step, slot: u32) -> Result<WireCall, NoMemory>
    ensures { IfOk result (λ call. call ≡ Dialled address.now step.now slot) }
{
    let address = address.try_clone()?;
    match step.try_clone() {
        Ok(step) => Ok(WireCall::Dialled {
            address,
            step,
            slot,
        }),
        Err(error) => {
            drop(address);
            Err(error)
        }
    }
}

fn noted_call(step: &Step) -> Result<WireCall, NoMemory>
    ensures { IfOk result (λ call. call ≡ Noted step.now) }
{
    let step = step.try_clone()?;
    Ok(WireCall::Noted { step })
}

fn put_call(alloc: Global, slot: u32, bytes: &[u8], answer: Put) -> Result<WireCall, NoMemory>
    requires within { PutWithin (length bytes.now) answer }
    ensures { IfOk result (λ call. call ≡ call_of_put slot bytes.now answer) }
{
    match answer {
        Put::Took(count) => Ok(WireCall::Took {
            slot,
            bytes: Bytes::copied(alloc, &bytes[..count])?,
        }),
        Put::Blocked => Ok(WireCall::PutBlocked { slot }),
        Put::Broken => Ok(WireCall::PutBroke { slot }),
    }
}

fn got_call(alloc: Global, slot: u32, room: &[u8], answer: Got) -> Result<WireCall, NoMemory>
    requires within { GotWithin (length room.now) answer }
    ensures { IfOk result (λ call. call ≡ call_of_got slot room.now answer) }
{
    match answer {
        Got::Gave(count) => Ok(WireCall::Gave {
            slot,
            bytes: Bytes::copied(alloc, &room[..count])?,
        }),
        Got::Ended => Ok(WireCall::GetEnded { slot }),
        Got::Blocked => Ok(WireCall::GetBlocked { slot }),
        Got::Broken => Ok(WireCall::GetBroke { slot }),
    }
}

// One more, where it fits.
fn once_more(asks: Option<u64>) -> Option<u64>
    ensures { result ≡ asked_once asks }
{
    match asks {
        Some(count) => count.checked_add(1),
        None => None,
    }
}

// It listens there.
fn listening_at(proxy: &Address, control: Option<&Address>) -> Result<Listening, NoMemory>
    ensures { IfOk result (λ made. listening_of made ≡ at proxy.now (option_copied control.entry)) }
{
    let control = copied(control)?;
    match proxy.try_clone() {
        Ok(proxy) => Ok(Listening::At { proxy, control }),
        Err(error) => {
            drop(control);
            Err(error)
        }
    }
}

// A copy of the address, where there is one.
fn copied(address: Option<&Address>) -> Result<Option<Address>, NoMemory>
    ensures { IfOk result (λ copy. copy ≡ option_copied address.entry) }
{
    match address {
        Some(address) => Ok(Some(address.try_clone()?)),
        None => Ok(None),
    }
}

// What a `put` answers that takes so many.
fn answer_of(take: usize) -> Put
    ensures { result ≡ put_answer take }
{
    if take == 0 {
        Put::Blocked
    } else {
        Put::Took(take)
    }
}

// How often a slot could go no further, after this answer.
fn count_put(blocks: u64, answer: Put) -> u64
    ensures { result ≡ blocks_put answer blocks }
{
    match answer {
        Put::Blocked => blocks.saturating_add(1),
        _ => blocks,
    }
}

fn count_got(blocks: u64, answer: Got) -> u64
    ensures { result ≡ blocks_got answer blocks }
{
    match answer {
        Got::Blocked => blocks.saturating_add(1),
        _ => blocks,
    }
}

fn remove_slot(slots: &mut Vec<u32>, slot: u32)
    ensures { slots.new.items ≡ without_slot slot slots.old.items }
{
    slots.retain(|other| *other != slot);
}

fn reserve(slots: &mut Vec<u32>) -> Result<(), NoMemory>
    ensures items { slots.new.items ≡ slots.old.items }
    ensures room { OnOk result (vec_len slots.new < vec_capacity slots.new) }
{
    slots.try_reserve(1)?;
    Ok(())
}

impl Wire for MemWire {
    ghost use Rattle.px_wire.specs.MemWire.{agrees};

    ghost steps = { λ w. Some (steps_told w.later w.list) };

    ghost calls = { λ w. calls_told w.later w.list };

    ghost agree = { λ w. agrees w.later w.list };

    ghost listening = { λ w. w.listening };

    ghost faults = { λ w. w.faults };

    ghost asks = { λ w. w.asks };

    ghost blocks = { λ w. w.blocks };

    ghost breaks = { λ w. 0 };

    fn listen(&mut self, proxy: &Address, control: Option<&Address>) -> Result<(), NetError>
        requires first { self.old.listening ≡ idle }
        ensures ok { OnOk result (self.new.listening ≡ at proxy.now (option_copied control.entry)) }
        ensures err { OnErr result (self.new.listening ≡ failed) }
        ensures steps { Some (steps_in self.new) ≡ Some (steps_in self.old) }
        ensures calls { calls_of self.new ≡ calls_of self.old }
        ensures faults { self.old.faults ≤ self.new.faults }
        ensures fault { result ≡ Err NetError.Fault → Rose self.old.faults self.new.faults }
        ensures asks { self.new.asks ≡ self.old.asks }
        ensures blocks { self.old.blocks ≤ self.new.blocks }
        ensures breaks { 0 ≤ 0 }

        // It fails only when out of memory; and what each answer leaves.
        ensures fails { result ≢ Err NetError.Fault }
        ensures after_ok { OnOk result (self.new ≡ listens self.old (at proxy.now (option_copied control.entry))) }
        ensures after_err { OnErr result (self.new ≡ listens self.old failed) }
    {
        match listening_at(proxy, control) {
            Ok(listening) => {
                drop(mem::replace(&mut self.listening, listening));
                Ok(())
            }
            Err(_) => {
                drop(mem::replace(&mut self.listening, Listening::Failed));
                Err(NetError::NoMemory)
            }
        }
    }

    fn ready(&mut self) -> Result<(u64, Ready), NetError>
        ensures told { IfOk result (λ r. Tells (Told r.0 r.1) (calls_of self.old) (calls_of self.new)) }
        ensures failed { result ≡ Err NetError.Fault → Tells NotReady (calls_of self.old) (calls_of self.new) }
        ensures no_memory { result ≡ Err NetError.NoMemory → calls_of self.new ≡ calls_of self.old }
        ensures free { IfOk result (λ r. IfTold (GivesFree r.1) (calls_of self.old)) }
        ensures asks { OnOk result (AsksMore 1 self.old.asks self.new.asks) }
        ensures asks_failed { result ≡ Err NetError.Fault → AsksMore 1 self.old.asks self.new.asks }
        ensures asks_err { result ≡ Err NetError.NoMemory → self.new.asks ≡ self.old.asks }
        ensures steps { Some (steps_in self.new) ≡ Some (steps_in self.old) }
        ensures listening { self.new.listening ≡ self.old.listening }
        ensures faults { self.old.faults ≤ self.new.faults }
        ensures fault { result ≡ Err NetError.Fault → Rose self.old.faults self.new.faults }
        ensures blocks { self.old.blocks ≤ self.new.blocks }
        ensures breaks { 0 ≤ 0 }

        // What it tells, when it fails, and what each answer leaves.
        ensures next { IfOk result (λ r. told_by self.old.slots self.old.script ≡ Some r) }
        ensures spent { result ≡ Err NetError.Fault → told_by self.old.slots self.old.script ≡ None }
        ensures after_ok { IfOk result (λ r. self.new ≡ keeping self.new (after_told self.old r.0 r.1)) }
        ensures after_failed { result ≡ Err NetError.Fault → self.new ≡ keeping self.new (after_not_ready self.old) }
        ensures after_no_memory { result ≡ Err NetError.NoMemory → self.new ≡ self.old }
    {
        reserve(&mut self.slots)?;
        self.asks = once_more(self.asks);
        match next_told(&mut self.script, &self.slots) {
            Some((moment, ready)) => {
                add_slot(&mut self.slots, &ready);
                let call = told_call(moment, &ready);
                keep(self.alloc, &mut self.list, &mut self.later, call);
                Ok((moment, ready))
            }
            None => {
                self.faults = self.faults.saturating_add(1);
                let call = Ok(WireCall::NotReady);
                keep(self.alloc, &mut self.list, &mut self.later, call);
                Err(NetError::Fault)
            }
        }
    }

    fn dial(&mut self, address: &Address, step: &Step) -> Result<u32, NoMemory>
        ensures told { IfOk result (λ slot. Tells (Dialled address.now step.now slot) (calls_of self.old) (calls_of self.new)) }
        ensures free { IfOk result (λ slot. IfTold (IsFree slot) (calls_of self.old)) }
        ensures steps { OnOk result (Adds (Some (steps_in self.old)) (Some (steps_in self.new)) step.now) }
        ensures calls_err { OnErr result (calls_of self.new ≡ calls_of self.old) }
        ensures steps_err { OnErr result (Some (steps_in self.new) ≡ Some (steps_in self.old)) }
        ensures listening { self.new.listening ≡ self.old.listening }
        ensures faults { self.new.faults ≡ self.old.faults }
        ensures asks { self.new.asks ≡ self.old.asks }
        ensures blocks { self.old.blocks ≤ self.new.blocks }
        ensures breaks { 0 ≤ 0 }

        // Which slot it gives, and what each answer leaves.
        ensures slot { IfOk result (λ slot. IsLeastFree self.old.slots slot) }
        ensures after_ok { IfOk result (λ slot. self.new ≡ keeping self.new (after_dial self.old slot)) }
        ensures after_err { OnErr result (self.new ≡ self.old) }
    {
        let Some(slot) = free_slot(&self.slots) else {
            return Err(NoMemory);
        };
        reserve(&mut self.slots)?;
        let call = dialled_call(address, step, slot)?;
        keep_step(&mut self.list, &mut self.later, call, step)?;
        self.slots.push_reserved(slot);
        Ok(slot)
    }

    fn put(&mut self, slot: u32, bytes: &[u8]) -> Put
        requires some { 0 < length bytes.now }
        ensures told { Tells (call_of_put slot bytes.now result) (calls_of self.old) (calls_of self.new) }
        ensures within { PutWithin (length bytes.now) result }
        ensures steps { Some (steps_in self.new) ≡ Some (steps_in self.old) }
        ensures listening { self.new.listening ≡ self.old.listening }
        ensures faults { self.new.faults ≡ self.old.faults }
        ensures asks { self.new.asks ≡ self.old.asks }
        ensures blocks { self.old.blocks ≤ self.new.blocks }
        ensures blocked { result ≡ Put.Blocked → Rose self.old.blocks self.new.blocks }
        ensures breaks { 0 ≤ 0 }
        ensures broken { result ≡ Put.Broken → Rose 0 0 }

        // What it answers, and what is left.
        ensures answer { result ≡ put_answer (count_taken self.old.takes (length bytes.now)) }
        ensures after { self.new ≡ keeping self.new (after_put self.old result) }
    {
        let answer = answer_of(next_take(&mut self.takes, bytes.len()));
        self.blocks = count_put(self.blocks, answer);
        let call = put_call(self.alloc, slot, bytes, answer);
        keep(self.alloc, &mut self.list, &mut self.later, call);
        answer
    }

    fn get(&mut self, slot: u32, room: &mut [u8]) -> Got
        requires some { 0 < length room.old }
        ensures told { Tells (call_of_got slot room.new result) (calls_of self.old) (calls_of self.new) }
        ensures within { GotWithin (length room.old) result }
        ensures room { length room.new ≡ length room.old }
        ensures steps { Some (steps_in self.new) ≡ Some (steps_in self.old) }
        ensures listening { self.new.listening ≡ self.old.listening }
        ensures faults { self.new.faults ≡ self.old.faults }
        ensures asks { self.new.asks ≡ self.old.asks }
        ensures blocks { self.old.blocks ≤ self.new.blocks }
        ensures blocked { result ≡ Got.Blocked → Rose self.old.blocks self.new.blocks }
        ensures breaks { 0 ≤ 0 }
        ensures broken { result ≡ Got.Broken → Rose 0 0 }

        // What it answers and gives, and what is left.
        ensures answer { result ≡ given_by self.old.gives (length room.old) }
        ensures given { room.new ≡ room_after self.old.gives room.old }
        ensures after { self.new ≡ keeping self.new (after_get self.old (length room.old) result) }
    {
        let answer = give(&mut self.gives, room);
        self.blocks = count_got(self.blocks, answer);
        let call = got_call(self.alloc, slot, room, answer);
        keep(self.alloc, &mut self.list, &mut self.later, call);
        answer
    }

    fn shut(&mut self, slot: u32)
        ensures told { Tells (Shut slot) (calls_of self.old) (calls_of self.new) }
        ensures steps { Some (steps_in self.new) ≡ Some (steps_in self.old) }
        ensures listening { self.new.listening ≡ self.old.listening }
        ensures faults { self.new.faults ≡ self.old.faults }
        ensures asks { self.new.asks ≡ self.old.asks }
        ensures blocks { self.old.blocks ≤ self.new.blocks }
        ensures breaks { 0 ≤ 0 }

        // What is left.
        ensures after { self.new ≡ keeping self.new (after_shut self.old slot) }
    {
        remove_slot(&mut self.slots, slot);
        let call = Ok(WireCall::Shut { slot });
        keep(self.alloc, &mut self.list, &mut self.later, call);
    }

    fn note(&mut self, step: &Step) -> Result<(), NoMemory>
        ensures told { OnOk result (Tells (Noted step.now) (calls_of self.old) (calls_of self.new)) }
        ensures steps { OnOk result (Adds (Some (steps_in self.old)) (Some (steps_in self.new)) step.now) }
        ensures calls_err { OnErr result (calls_of self.new ≡ calls_of self.old) }
        ensures steps_err { OnErr result (Some (steps_in self.new) ≡ Some (steps_in self.old)) }
        ensures listening { self.new.listening ≡ self.old.listening }
        ensures faults { self.new.faults ≡ self.old.faults }
        ensures asks { self.new.asks ≡ self.old.asks }
        ensures blocks { self.old.blocks ≤ self.new.blocks }
        ensures breaks { 0 ≤ 0 }

        // What each answer leaves.
        ensures after_ok { OnOk result (self.new ≡ keeping self.new self.old) }
        ensures after_err { OnErr result (self.new ≡ self.old) }
    {
        let call = noted_call(step)?;
        keep_step(&mut self.list, &mut self.later, call, step)
    }
}
