//! The slots in use: found by their number, by their side, and by what is to be done with them.
//!
//! Nothing here goes through all slots. A slot has a turn: the number at which it was given or last gave bytes. A conversation of
//! which a slot has changed is marked; before something is heard, the slots of those that are marked are looked at, and those that may
//! be read are kept in the order of their turns. A slot that is in use no more is kept nowhere.
ghost use Rattle.std.specs.Prelude.{◌≡◌, ◌≢◌, ◌⊎◌, ◌<◌, ◌+◌, ℕ, List, [], ◌∷◌, ◌++◌, Option, Some, None, Ok, true, false, nat_eq, option_copied, vec_len, vec_capacity, ◌≤◌, ◌==◌, IfSome, OnOk};
ghost use Rattle.std.specs.List.{list_any, position};
ghost use Rattle.px_text.specs.Prefix.{IsPrefixOf};
ghost use Rattle.px_wire.specs.declared.endpoint.Endpoint.{Endpoint as EndpointState};
ghost use Rattle.px_wire.specs.Endpoints.{is_endpoint_of, holds, faces, are_opposite};
ghost use Rattle.std.specs.HashMap.{get, spare};
ghost use Rattle.std.specs.BTreeMap as tree;
ghost use Rattle.std.specs.Ordering.{nat_cmp};
ghost use Rattle.px_wire.specs.declared.endpoints.Due.TheVariants as due;
ghost use Rattle.px_wire.specs.Holds.{Alike, IsSideAt, IsIn, Once, Holds, HasRoom, RoomIn, IsSpare, IsTakenOut, AllTurns, IsOf, IsMarked, MarksOnly, LosesOnlyFull, IsOverBy, StillReady, IsLookedAt, IsFirst, IsSettled, is_empty_list, endpoint_at, slots_at, passes, is_held_in, is_open_in, is_candidate, without, last_turn};

use crate::endpoint::{Endpoint, READ_MARK};
use px_event::{Door, Side};
use px_text::NoMemory;
use std::alloc::Global;
use std::collections::{BTreeMap, HashMap};
use std::mem;

/// What is to be done next, of what can be heard without waiting.
#[derive(Clone, Copy)]
pub enum Due {
    /// The close of this slot's side is to be heard.
    Over(u32),
    /// This slot is to be read.
    Open(u32),
    /// There is nothing.
    Nothing,
}

/// The slots in use.
#[derive(Drop)]
pub struct Endpoints {
    pub(crate) by_slot: HashMap<u32, Endpoint>,
    // The slots of each conversation that has one.
    by_conv: HashMap<u32, Vec<u32>>,
    // An empty list, for the next conversation that has none.
    spare_list: Vec<u32>,
    // By their turns, slots that may be read; some of them may not any more.
    ready: BTreeMap<u64, u32>,
    // Conversations to be looked at, each once.
    marked: Vec<u32>,
    // Memory ran out while a conversation was marked.
    is_lost: bool,
    next_turn: u64,
}

impl Endpoints {
    /// No slot is in use.
    pub fn new(alloc: Global) -> Endpoints
        ensures holds { Holds result [] }
    {
        Endpoints {
            by_slot: HashMap::new(alloc),
            by_conv: HashMap::new(alloc),
            spare_list: Vec::new(alloc),
            ready: BTreeMap::new(alloc),
            marked: Vec::new(alloc),
            is_lost: false,
            next_turn: 0,
        }
    }

    /// The slot of this number.
    pub fn get(&self, slot: u32) -> Option<&Endpoint>
        ensures is { option_copied result ≡ endpoint_at self.now slot }
    {
        self.by_slot.get(&slot)
    }

    // The slots that are listed for the conversation.
    fn slots_of(&self, conv: u32) -> &[u32]
        ensures are { result.now ≡ slots_at self.now conv }
    {
        match self.by_conv.get(&conv) {
            Some(list) => list.as_slice(),
            None => &[],
        }
    }

    // Whether it is the slot of this side.
    fn is_side_at(&self, slot: u32, conv: u32, side: Side) -> bool
        ensures is { result ≡ passes (is_endpoint_of conv side) (endpoint_at self.now slot) }
    {
        match self.by_slot.get(&slot) {
            Some(endpoint) => is_side(endpoint, conv, side),
            None => false,
        }
    }

    // Whether what waits for the slot holds this one back.
    fn holds_at(&self, slot: u32, endpoint: &Endpoint) -> bool
        ensures is { result ≡ passes (λ other. holds other endpoint.now) (endpoint_at self.now slot) }
    {
        match self.by_slot.get(&slot) {
            Some(other) => holds(other, endpoint),
            None => false,
        }
    }

    // Whether the side is not to be read: too many bytes wait for a side of its conversation that faces it.
    fn is_held(&self, endpoint: &Endpoint) -> bool
        ensures is { result ≡ is_held_in self.now endpoint.now }
    {
        self.slots_of(endpoint.conv)
            .iter()
            .any(|slot| self.holds_at(*slot, endpoint))
    }

    fn is_open(&self, endpoint: &Endpoint) -> bool
        ensures is { result ≡ is_open_in self.now endpoint.now }
    {
        endpoint.is_readable && !self.is_held(endpoint)
    }

    // Whether the slot has this turn and may be read.
    fn is_candidate(&self, turn: u64, slot: u32) -> bool
        ensures is { result ≡ is_candidate self.now turn slot }
    {
        match self.by_slot.get(&slot) {
            Some(endpoint) => endpoint.turn == turn && self.is_open(endpoint),
            None => false,
        }
    }

    // The place of the side's slot among those that are listed for its conversation.
    fn side_place(&self, conv: u32, side: Side) -> Option<usize>
        ensures place { result ≡ position (λ slot. passes (is_endpoint_of conv side) (endpoint_at self.now slot)) (slots_at self.now conv) }
    {
        self.slots_of(conv)
            .iter()
            .position(|slot| self.is_side_at(*slot, conv, side))
    }

    /// The slot of the side.
    pub fn find_side(&self, conv: u32, side: Side) -> Option<u32>
        ensures found { IfSome result (λ slot. IsSideAt self.now conv side slot) }
        ensures missing { (endpoints : List EndpointState) → Holds self.now endpoints → result ≡ None → list_any (is_endpoint_of conv side) endpoints ≡ false }
    {
        match self.side_place(conv, side) {
            Some(place) => Some(self.slots_of(conv)[place]),
            None => None,
        }
    }

    /// The conversation is to be looked at before something is heard, and no other is for that. Where memory runs out over it, `next_due` answers
    /// `NoMemory` for ever.
    pub fn mark(&mut self, conv: u32)
        ensures rest { self.new ≡ record self.old { marked = self.new.marked; is_lost = self.new.is_lost } }
        ensures marked { IsMarked self.new conv }
        ensures only { MarksOnly (λ other. other ≡ conv) self.old self.new }
        ensures lost { LosesOnlyFull self.old self.new }
        ensures kept { (other : ℕ) → IsMarked self.old other → IsMarked self.new other }
        ensures once { Once self.old.marked.items → Once self.new.marked.items }
    {
        if self.is_marked(conv) {
            return;
        }
        match self.marked.push(conv) {
            Ok(()) => {}
            Err(_) => self.is_lost = true,
        }
    }

    // Whether the conversation is marked.
    fn is_marked(&self, conv: u32) -> bool
        ensures is { result ≡ list_any (λ other. other == conv) self.now.marked.items }
    {
        self.marked.contains(&conv)
    }

    /// Room for one slot more of this conversation.
    pub fn reserve(&mut self, conv: u32) -> Result<(), NoMemory>
        ensures same { Alike self.old self.new }
        ensures room { OnOk result (HasRoom self.new conv) }
    {
        if self.next_turn == u64::MAX {
            return Err(NoMemory);
        }
        self.by_slot.try_reserve(1)?;
        self.by_conv.try_reserve(1)?;
        self.reserve_spare()?;
        self.reserve_list(conv)
    }

    // Room in the list that is spare.
    fn reserve_spare(&mut self) -> Result<(), NoMemory>
        ensures rest { self.new ≡ record self.old { spare_list = self.new.spare_list } }
        ensures room { OnOk result (IsSpare self.new.spare_list) }
    {
        self.spare_list.clear();
        self.spare_list.try_reserve(1)?;
        Ok(())
    }

    // Room in the list of this conversation, where it has one.
    fn reserve_list(&mut self, conv: u32) -> Result<(), NoMemory>
        ensures rest { self.new ≡ record self.old { by_conv = self.new.by_conv } }
        ensures same { (other : ℕ) → slots_at self.new other ≡ slots_at self.old other }
        ensures empties { (other : ℕ) → is_empty_list (get nat_eq self.new.by_conv other) ≡ is_empty_list (get nat_eq self.old.by_conv other) }
        ensures spare { spare self.old.by_conv ≤ spare self.new.by_conv }
        ensures room { OnOk result (RoomIn (get nat_eq self.new.by_conv conv)) }
    {
        if let Some(list) = self.by_conv.get_mut(&conv) {
            list.try_reserve(1)?;
        }
        Ok(())
    }

    /// One slot more; it has the last turn. Another of its number is in use no more.
    pub fn push(&mut self, alloc: Global, endpoint: Endpoint)
        requires room { HasRoom self.old endpoint.conv }
        ensures only { MarksOnly (λ conv. (conv ≡ endpoint.conv) ⊎ IsOf (λ s. endpoint_at self.old s) conv endpoint.slot) self.old self.new }
        ensures holds { (endpoints : List EndpointState) → Holds self.old endpoints → Holds self.new (without endpoint.slot endpoints ++ record endpoint { turn = self.old.next_turn } ∷ []) }
    {
        self.remove(endpoint.slot);
        self.push_new(alloc, endpoint);
    }

    // One slot more, of a number that none has; it has the last turn.
    fn push_new(&mut self, alloc: Global, endpoint: Endpoint)
        requires room { HasRoom self.old endpoint.conv }
        requires absent { endpoint_at self.old endpoint.slot ≡ None }
        ensures only { MarksOnly (λ conv. conv ≡ endpoint.conv) self.old self.new }
        ensures holds { (endpoints : List EndpointState) → Holds self.old endpoints → Holds self.new (without endpoint.slot endpoints ++ record endpoint { turn = self.old.next_turn } ∷ []) }
    {
        let slot = endpoint.slot;
        let conv = endpoint.conv;
        let endpoint = self.at_turn(endpoint);
        self.list(alloc, conv, slot);
        self.mark(conv);
        self.put(slot, endpoint);
    }

    // The slot at the next turn.
    fn at_turn(&mut self, endpoint: Endpoint) -> Endpoint
        requires turn { self.old.next_turn < last_turn }
        ensures endpoint { result ≡ record endpoint { turn = self.old.next_turn } }
        ensures rest { self.new ≡ record self.old { next_turn = self.old.next_turn + 1 } }
    {
        let mut endpoint = endpoint;
        endpoint.turn = self.next_turn;
        self.next_turn += 1;
        endpoint
    }

    // The slot is listed for the conversation.
    fn list(&mut self, alloc: Global, conv: u32, slot: u32)
        requires room { RoomIn (get nat_eq self.old.by_conv conv) }
        requires lists { 0 < spare self.old.by_conv }
        requires spare_list { IsSpare self.old.spare_list }
        ensures rest { self.new ≡ record self.old { by_conv = self.new.by_conv; spare_list = self.new.spare_list } }
        ensures here { slots_at self.new conv ≡ slots_at self.old conv ++ slot ∷ [] }
        ensures others { (other : ℕ) → other ≢ conv → get nat_eq self.new.by_conv other ≡ get nat_eq self.old.by_conv other }
        ensures filled { is_empty_list (get nat_eq self.new.by_conv conv) ≡ false }
    {
        if let Some(list) = self.by_conv.get_mut(&conv) {
            list.push_reserved(slot);
            return;
        }
        self.list_first(alloc, conv, slot);
    }

    // The slot is the first that is listed for the conversation.
    fn list_first(&mut self, alloc: Global, conv: u32, slot: u32)
        requires none { get nat_eq self.old.by_conv conv ≡ None }
        requires lists { 0 < spare self.old.by_conv }
        requires spare_list { IsSpare self.old.spare_list }
        ensures rest { self.new ≡ record self.old { by_conv = self.new.by_conv; spare_list = self.new.spare_list } }
        ensures here { slots_at self.new conv ≡ slots_at self.old conv ++ slot ∷ [] }
        ensures others { (other : ℕ) → other ≢ conv → get nat_eq self.new.by_conv other ≡ get nat_eq self.old.by_conv other }
        ensures filled { is_empty_list (get nat_eq self.new.by_conv conv) ≡ false }
    {
        let mut list = mem::replace(&mut self.spare_list, Vec::new(alloc));
        list.push_reserved(slot);
        match self.by_conv.insert(conv, list) {
            Ok(None) => {}
            _ => unreachable!(),
        }
    }

    // The slot of this number, which none has, is this one.
    fn put(&mut self, slot: u32, endpoint: Endpoint)
        requires room { 0 < spare self.old.by_slot }
        requires absent { endpoint_at self.old slot ≡ None }
        ensures rest { self.new ≡ record self.old { by_slot = self.new.by_slot } }
        ensures here { endpoint_at self.new slot ≡ Some endpoint }
        ensures others { (other : ℕ) → other ≢ slot → endpoint_at self.new other ≡ endpoint_at self.old other }
    {
        match self.by_slot.insert(slot, endpoint) {
            Ok(None) => {}
            _ => unreachable!(),
        }
    }

    /// The slot is in use no more.
    pub fn remove(&mut self, slot: u32)
        ensures holds { (endpoints : List EndpointState) → Holds self.old endpoints → Holds self.new (without slot endpoints) }
        ensures gone { endpoint_at self.new slot ≡ None }
        ensures only { MarksOnly (λ conv. IsOf (λ s. endpoint_at self.old s) conv slot) self.old self.new }
        ensures next { self.new.next_turn ≡ self.old.next_turn }
        ensures room { (conv : ℕ) → HasRoom self.old conv → HasRoom self.new conv }
    {
        if let Some(endpoint) = self.by_slot.remove(&slot) {
            self.unready(endpoint.turn);
            self.unlist(endpoint.conv, slot);
            self.mark(endpoint.conv);
        }
    }

    // None is ready at this turn any more.
    fn unready(&mut self, turn: u64)
        ensures rest { self.new ≡ record self.old { ready = self.new.ready } }
        ensures gone { tree.get nat_cmp self.new.ready turn ≡ None }
        ensures others { (other : ℕ) → other ≢ turn → tree.get nat_cmp self.new.ready other ≡ tree.get nat_cmp self.old.ready other }
    {
        self.ready.remove(&turn);
    }

    // The slot is listed for the conversation no more.
    fn unlist(&mut self, conv: u32, slot: u32)
        ensures rest { self.new ≡ record self.old { by_conv = self.new.by_conv } }
        ensures here { IsTakenOut slot (slots_at self.old conv) (slots_at self.new conv) }
        ensures others { (other : ℕ) → other ≢ conv → get nat_eq self.new.by_conv other ≡ get nat_eq self.old.by_conv other }
        ensures filled { is_empty_list (get nat_eq self.new.by_conv conv) ≡ false }
        ensures spare { spare self.old.by_conv ≤ spare self.new.by_conv }
        ensures room { RoomIn (get nat_eq self.old.by_conv conv) → RoomIn (get nat_eq self.new.by_conv conv) }
    {
        let Some(list) = self.by_conv.get_mut(&conv) else {
            return;
        };
        take_out(list, slot);
        if list.is_empty() {
            drop(self.by_conv.remove(&conv));
        }
    }

    /// The slot goes behind all others.
    pub fn to_end(&mut self, slot: u32)
        requires turn { self.old.next_turn < last_turn }
        ensures holds { (endpoints : List EndpointState) (endpoint : EndpointState) → endpoint_at self.old slot ≡ Some endpoint → Holds self.old endpoints →
            Holds self.new (without slot endpoints ++ record endpoint { turn = self.old.next_turn } ∷ []) }
        ensures only { MarksOnly (λ conv. IsOf (λ s. endpoint_at self.old s) conv slot) self.old self.new }
    {
        let Some(endpoint) = self.get(slot) else {
            return;
        };
        let conv = endpoint.conv;
        let turn = endpoint.turn;
        self.unready(turn);
        self.set_turn(slot);
        self.next_turn += 1;
        self.mark(conv);
    }

    /// What is to be done next. It looks at the conversations that are marked, and at no other. One of which no close is to be heard is then marked
    /// no more; one of which a close is to be heard stays marked.
    ///
    /// `NoMemory` where memory runs out here, and for ever where it ran out over a mark or no turn is left.
    pub fn next_due(&mut self) -> Result<Due, NoMemory>
        ensures holds { (endpoints : List EndpointState) → Holds self.old endpoints → Holds self.new endpoints }
        ensures slots { self.new.by_slot ≡ self.old.by_slot }
        ensures turn { OnOk result (self.new.next_turn < last_turn) }
        ensures left { IsPrefixOf self.new.marked.items self.old.marked.items }
        ensures over { (slot : ℕ) → result ≡ Ok (due.Over slot) → IsOverBy (λ s. endpoint_at self.new s) slot }
        ensures opens { (slot : ℕ) → result ≡ Ok (due.Open slot) → IsFirst self.new slot × IsSettled self.new }
        ensures calm { result ≡ Ok due.Nothing → IsSettled self.new × tree.IsEmpty self.new.ready }
    {
        if self.is_lost || self.next_turn == u64::MAX {
            return Err(NoMemory);
        }
        match self.settle()? {
            Some(slot) => Ok(Due::Over(slot)),
            None => Ok(self.first_open()),
        }
    }

    // Looks at the conversations that are marked; the first slot whose close is to be heard is given.
    fn settle(&mut self) -> Result<Option<u32>, NoMemory>
        ensures holds { (endpoints : List EndpointState) → Holds self.old endpoints → Holds self.new endpoints }
        ensures rest { self.new ≡ record self.old { ready = self.new.ready; marked = self.new.marked } }
        ensures over { (slot : ℕ) → result ≡ Ok (Some slot) → IsOverBy (λ s. endpoint_at self.new s) slot }
        ensures left { IsPrefixOf self.new.marked.items self.old.marked.items }
        ensures none { result ≡ Ok None → self.new.marked.items ≡ [] }
    {
        while self.marked.len() > 0 {
            let conv = self.marked[self.marked.len() - 1];
            let found = self.gather(conv)?;
            if found.is_some() {
                return Ok(found);
            }
            self.marked.pop();
        }
        Ok(None)
    }

    // Looks at the slots of this conversation.
    fn gather(&mut self, conv: u32) -> Result<Option<u32>, NoMemory>
        ensures rest { self.new ≡ record self.old { ready = self.new.ready } }
        ensures over { (slot : ℕ) → result ≡ Ok (Some slot) → IsOverBy (λ s. endpoint_at self.new s) slot }
        ensures still { StillReady (λ s. endpoint_at self.old s) self.old.ready self.new.ready }
        ensures turned { AllTurns (λ s. endpoint_at self.old s) self.old.ready → AllTurns (λ s. endpoint_at self.old s) self.new.ready }
        ensures looked { result ≡ Ok None → (slot : ℕ) → IsIn slot (slots_at self.old conv) → IsLookedAt (λ s. endpoint_at self.old s) self.new.ready slot }
    {
        match self.by_conv.get(&conv) {
            Some(list) => gather_all(list, &self.by_slot, &mut self.ready),
            None => Ok(None),
        }
    }

    // The first that may be read. What may not is ready no more.
    fn first_open(&mut self) -> Due
        ensures holds { (endpoints : List EndpointState) → Holds self.old endpoints → Holds self.new endpoints }
        ensures rest { self.new ≡ record self.old { ready = self.new.ready } }
        ensures over { (slot : ℕ) → result ≢ due.Over slot }
        ensures opens { (slot : ℕ) → result ≡ due.Open slot → IsFirst self.new slot }
        ensures none { result ≡ due.Nothing → tree.IsEmpty self.new.ready }
    {
        while let Some((turn, slot)) = self.first_ready() {
            if self.is_candidate(turn, slot) {
                return Due::Open(slot);
            }
            self.ready.remove(&turn);
        }
        Due::Nothing
    }

    // The first turn of those that were found ready, with its slot.
    fn first_ready(&self) -> Option<(u64, u32)>
        ensures there { IfSome result (λ p. tree.get nat_cmp self.now.ready p.0 ≡ Some p.1) }
        ensures least { IfSome result (λ p. tree.IsLowerBound nat_cmp self.now.ready p.0) }
        ensures none { result ≡ None → tree.IsEmpty self.now.ready }
    {
        match self.ready.first_key_value() {
            Some((turn, slot)) => Some((*turn, *slot)),
            None => None,
        }
    }

    // The slot has the next turn.
    fn set_turn(&mut self, slot: u32)
        ensures rest { self.new ≡ record self.old { by_slot = self.new.by_slot } }
        ensures here { (endpoint : EndpointState) → endpoint_at self.old slot ≡ Some endpoint → endpoint_at self.new slot ≡ Some (record endpoint { turn = self.old.next_turn }) }
        ensures others { (other : ℕ) → other ≢ slot → endpoint_at self.new other ≡ endpoint_at self.old other }
    {
        let turn = self.next_turn;
        if let Some(endpoint) = self.by_slot.get_mut(&slot) {
            endpoint.turn = turn;
        }
    }
}

// Looks at the slots of one conversation: the first whose close is to be heard is given; else those that are readable are ready.
fn gather_all(
    slots: &[u32],
    by_slot: &HashMap<u32, Endpoint>,
    ready: &mut BTreeMap<u64, u32>,
) -> Result<Option<u32>, NoMemory>
    ensures over { (slot : ℕ) → result ≡ Ok (Some slot) → IsOverBy (λ s. get nat_eq by_slot.now s) slot }
    ensures still { StillReady (λ s. get nat_eq by_slot.now s) ready.old ready.new }
    ensures turned { AllTurns (λ s. get nat_eq by_slot.now s) ready.old → AllTurns (λ s. get nat_eq by_slot.now s) ready.new }
    ensures looked { result ≡ Ok None → (slot : ℕ) → IsIn slot slots.now → IsLookedAt (λ s. get nat_eq by_slot.now s) ready.new slot }
{
    let mut at = 0;
    while at < slots.len() {
        let slot = slots[at];
        let is_over = gather_one(slot, by_slot, ready)?;
        if is_over {
            return Ok(Some(slot));
        }
        at += 1;
    }
    Ok(None)
}

// Looks at one slot, and tells whether its close is to be heard; else it is ready where it is readable.
fn gather_one(
    slot: u32,
    by_slot: &HashMap<u32, Endpoint>,
    ready: &mut BTreeMap<u64, u32>,
) -> Result<bool, NoMemory>
    ensures over { result ≡ Ok true → IsOverBy (λ s. get nat_eq by_slot.now s) slot }
    ensures still { StillReady (λ s. get nat_eq by_slot.now s) ready.old ready.new }
    ensures turned { AllTurns (λ s. get nat_eq by_slot.now s) ready.old → AllTurns (λ s. get nat_eq by_slot.now s) ready.new }
    ensures looked { result ≡ Ok false → IsLookedAt (λ s. get nat_eq by_slot.now s) ready.new slot }
{
    let Some(endpoint) = by_slot.get(&slot) else {
        return Ok(false);
    };
    if endpoint.is_over {
        return Ok(true);
    }
    if endpoint.is_readable {
        ready.insert(endpoint.turn, slot)?;
    }
    Ok(false)
}

// Takes the slot out of the list.
fn take_out(list: &mut Vec<u32>, slot: u32)
    ensures taken { IsTakenOut slot list.old.items list.new.items }
    ensures room { vec_len list.old < vec_capacity list.old → vec_len list.new < vec_capacity list.new }
{
    if let Some(place) = place_in(list, slot) {
        list.remove(place);
    }
}

fn place_in(list: &[u32], slot: u32) -> Option<usize>
    ensures place { result ≡ position (λ other. other == slot) list.now }
{
    list.iter().position(|other| *other == slot)
}

fn is_side(endpoint: &Endpoint, conv: u32, side: Side) -> bool
    ensures is { result ≡ is_endpoint_of conv side endpoint.now }
{
    endpoint.conv == conv && endpoint.side == side
}

fn holds(other: &Endpoint, endpoint: &Endpoint) -> bool
    ensures is { result ≡ holds other.now endpoint.now }
{
    other.conv == endpoint.conv
        && faces(other.side, endpoint.side, endpoint.door)
        && other.queue.len() > READ_MARK
}

// The first side faces the second, which was accepted at this door, or dialled: a connection at the control door faces itself.
fn faces(other: Side, side: Side, door: Option<Door>) -> bool
    ensures is { result ≡ faces other side door }
{
    match door {
        Some(Door::Control) => other == side,
        Some(Door::Proxy) | None => are_opposite(other, side),
    }
}

// One of them is the client, and the other a server.
fn are_opposite(a: Side, b: Side) -> bool
    ensures is { result ≡ are_opposite a b }
{
    match (a, b) {
        (Side::Client, Side::Server(_)) => true,
        (Side::Server(_), Side::Client) => true,
        _ => false,
    }
}
