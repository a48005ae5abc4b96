//! Conversations by their numbers.
//!
//! A slab holds the live ones, and an ordered map has their keys. One that has ended leaves both; only its number is kept, and
//! the numbers of those that have ended are kept as runs of neighbours. Over lines they are nearly one run; over any network
//! there is at most one run more than conversations that are live or were passed over.
ghost use Rattle.std.specs.Prelude.{◌≡◌, Some, None, IfOk, OnOk};
ghost use Rattle.std.specs.Ordering.{nat_cmp};
ghost use Rattle.std.specs.BTreeMap.{get as entry_of};
ghost use Rattle.slab.specs.Slab.{get as held_under, Updates as UpdatesHeld};
ghost use Rattle.px_core.specs.Live.{shown_in};
ghost use Rattle.px_core.specs.Router.{place_of, PutsPlace};
ghost use Rattle.px_core.specs.declared.table.Entry.TheVariants.{Live as IsLiveUnder, Ended as HasEnded};

use crate::flows::Flows;
use crate::held::Held;
use crate::runs::Runs;
use px_text::NoMemory;
use slab::Slab;
use std::alloc::Global;
use std::collections::BTreeMap;

/// Where the conversation of a number is.
#[derive(Clone, Copy, Debug, PartialEq, Eq)]
pub enum Entry {
    /// It is live, under this key.
    Live(usize),
    /// It has ended.
    Ended,
}

/// The live conversations with their keys by number, the numbers of those that have ended, and the live flows of all.
#[derive(Drop)]
pub struct Conversations<C> {
    pub(crate) live: Slab<Held<C>>,
    keys: BTreeMap<u32, usize>,
    ended: Runs,
    pub(crate) flows: Flows,
}

impl<C: Drop> Conversations<C> {
    /// No conversation was admitted.
    pub(crate) fn new(alloc: Global) -> Conversations<C>
        ensures empty { (conv : _) → place_of result conv ≡ None }
        ensures vacant { (key : _) → held_under result.live key ≡ None }
        ensures flows { (conv index : _) → shown_in result.flows conv index ≡ None }
    {
        Conversations {
            live: Slab::new(alloc),
            keys: BTreeMap::new(alloc),
            ended: Runs::new(alloc),
            flows: Flows::new(alloc),
        }
    }

    /// Where the conversation of this number is, if it was admitted.
    pub(crate) fn place(&self, conv: u32) -> Option<Entry>
        ensures place { result ≡ place_of self.now conv }
    {
        if self.ended.has(conv) {
            return Some(Entry::Ended);
        }
        match self.keys.get(&conv) {
            Some(key) => Some(Entry::Live(*key)),
            None => None,
        }
    }

    /// Holds a conversation under a number.
    pub(crate) fn add(&mut self, conv: u32, held: Held<C>) -> Result<usize, NoMemory>
        requires unknown { place_of self.old conv ≡ None }
        ensures live { IfOk result (λ key. UpdatesHeld self.old.live self.new.live key (Some held)) }
        ensures vacant { IfOk result (λ key. held_under self.old.live key ≡ None) }
        ensures places { IfOk result (λ key. PutsPlace self.old self.new conv (Some (IsLiveUnder key))) }
        ensures flows { self.new.flows ≡ self.old.flows }
    {
        let key = self.live.insert(held)?;
        self.keys.insert(conv, key)?;
        Ok(key)
    }

    /// Notes that the conversation of a number has ended.
    pub(crate) fn note_end(&mut self, conv: u32) -> Result<(), NoMemory>
        ensures live { self.new.live ≡ self.old.live }
        ensures flows { self.new.flows ≡ self.old.flows }
        ensures places { OnOk result (PutsPlace self.old self.new conv (Some HasEnded)) }
        ensures forgets { OnOk result (entry_of nat_cmp self.new.keys conv ≡ None) }
    {
        self.ended.add(conv)?;
        self.keys.remove(&conv);
        Ok(())
    }

    /// Lets go of the conversation of a number, which has ended.
    pub(crate) fn end(&mut self, conv: u32, key: usize) -> Result<(), NoMemory>
        ensures live { OnOk result (UpdatesHeld self.old.live self.new.live key None) }
        ensures flows { self.new.flows ≡ self.old.flows }
        ensures places { OnOk result (PutsPlace self.old self.new conv (Some HasEnded)) }
        ensures forgets { OnOk result (entry_of nat_cmp self.new.keys conv ≡ None) }
    {
        self.live.try_remove(key);
        self.note_end(conv)
    }
}
