//! A layer with the events that wait while it waits.
//!
//! A layer that asked is paused: it may be handed no event until the ask is answered. A gate stands before a layer and
//! may be handed events at any time. While something is awaited they are queued; a reply is given to the layer, and then
//! the queued events, in their order and at the reply's moment, until the layer asks again or none is left.
//!
//! The gate law (`specs/Gate.antt`) holds for every layer and every list of calls: the commands that the gate gave are
//! those of a layer that takes the same events in the same order, each reply at hand where it is asked for, up to the
//! first ask without a reply (`GateStands`, `Serves`). So a gate adds nothing to what is due.
ghost use Rattle.std.specs.Prelude.{◌≡◌, ◌≢◌, ◌+◌, ◌-◌, ◌*◌, ◌^◌, ◌<◌, ◌≤◌, length, List, [], None, Some, Option, Err, OnOk};
ghost use Rattle.px_event.specs.Layer.{Took, Replied, IsSound, Goes, AsksOnly, MayAnswer, IsNews, weight};
ghost use Rattle.px_gate.specs.Gate.{GateStands, AllNews, WorkedOff, gate_left, TakeAsks};

use crate::GateError;
use px_event::{Ask, Command, Event, Layer, Reply};
use px_text::NoMemory;
use std::alloc::Global;
use std::collections::VecDeque;

/// A layer and the events that wait for it.
#[derive(Drop)]
pub struct Gate<L> {
    layer: L,
    queue: VecDeque<Event>,
}

impl<L: Layer> Gate<L> {
    /// A gate before this layer; no event waits. Where the layer stands for itself by no moves, the gate stands for itself
    /// by no calls.
    pub fn new(alloc: Global, layer: L) -> Gate<L>
        ensures stands { L.stands layer layer [] [] → GateStands L.stands L.awaited result result [] [] }
        ensures sound { L.stands layer layer [] [] → IsSound (GateStands L.stands L.awaited) result }
        ensures layer { result.layer ≡ layer }
        ensures queue { result.queue.items ≡ [] }
    {
        Gate {
            layer,
            queue: VecDeque::new(alloc),
        }
    }

    /// Takes an event that is no answer, at this moment in microseconds since 1970, and appends the commands that follow.
    /// While something is awaited the event waits, and nothing is given. After `NoMemory` the gate may only be dropped.
    pub fn take(
        &mut self,
        moment: u64,
        event: Event,
        out: &mut Vec<Command>,
    ) -> Result<(), NoMemory>
        requires sound { IsSound (GateStands L.stands L.awaited) self.old }
        requires news { IsNews event }
        ensures goes { OnOk result (Goes (GateStands L.stands L.awaited) self.old self.new (Took moment event) out.old.items out.new.items) }
        ensures sound { OnOk result (IsSound (GateStands L.stands L.awaited) self.new) }
        ensures asks { OnOk result (TakeAsks L.awaited self.old.layer self.new.layer out.old.items out.new.items) }
        ensures left { OnOk result (gate_left L.left L.rate self.new ≤ gate_left L.left L.rate self.old + L.rate self.old.layer * weight event) }
        ensures rate { OnOk result (L.rate self.new.layer ≡ L.rate self.old.layer) }
    {
        match self.layer.waiting() {
            Some(_) => {
                self.queue.push_back(event)?;
                Ok(())
            }
            None => self.layer.take(moment, event, out),
        }
    }

    /// Gives the reply to what is awaited, and then takes the queued events at the same moment, until an ask is open
    /// again. After `NoMemory` the gate may only be dropped.
    pub fn resume(
        &mut self,
        moment: u64,
        reply: Reply,
        out: &mut Vec<Command>,
    ) -> Result<(), NoMemory>
        requires sound { IsSound (GateStands L.stands L.awaited) self.old }
        requires answers { MayAnswer (L.awaited self.old.layer) reply }
        ensures goes { OnOk result (Goes (GateStands L.stands L.awaited) self.old self.new (Replied moment reply) out.old.items out.new.items) }
        ensures sound { OnOk result (IsSound (GateStands L.stands L.awaited) self.new) }
        ensures asks { OnOk result (AsksOnly (L.awaited self.new.layer) out.old.items out.new.items) }
        ensures left { OnOk result (gate_left L.left L.rate self.new < gate_left L.left L.rate self.old) }
        ensures rate { OnOk result (L.rate self.new.layer ≡ L.rate self.old.layer) }
    {
        self.layer.resume(moment, reply, out)?;
        self.work_off(moment, out)
    }

    /// Takes the queued events at this moment until an ask is open.
    fn work_off(&mut self, moment: u64, out: &mut Vec<Command>) -> Result<(), NoMemory>
        requires sound { IsSound L.stands self.old.layer }
        requires news { AllNews self.old.queue.items }
        ensures works { OnOk result (WorkedOff L.stands L.awaited moment self.old self.new out.old.items out.new.items) }
        ensures sound { OnOk result (IsSound L.stands self.new.layer) }
        ensures asks { OnOk result (TakeAsks L.awaited self.old.layer self.new.layer out.old.items out.new.items) }
        ensures left { OnOk result (gate_left L.left L.rate self.new ≤ gate_left L.left L.rate self.old) }
        ensures rate { OnOk result (L.rate self.new.layer ≡ L.rate self.old.layer) }
    {
        while self.layer.waiting().is_none() {
            let Some(event) = self.queue.pop_front() else {
                return Ok(());
            };
            self.layer.take(moment, event, out)?;
        }
        Ok(())
    }

    /// Answers the ask, as `resume` does, where it is the one that is awaited. `NotAwaited` exactly where another ask, or
    /// none, is awaited; then nothing has changed. After `NoMemory` the gate may only be dropped.
    pub fn answer(
        &mut self,
        moment: u64,
        ask: Ask,
        reply: Reply,
        out: &mut Vec<Command>,
    ) -> Result<(), GateError>
        requires sound { IsSound (GateStands L.stands L.awaited) self.old }
        requires answers { MayAnswer (Some ask) reply }
        ensures goes { OnOk result (Goes (GateStands L.stands L.awaited) self.old self.new (Replied moment reply) out.old.items out.new.items) }
        ensures sound { OnOk result (IsSound (GateStands L.stands L.awaited) self.new) }
        ensures asks { OnOk result (AsksOnly (L.awaited self.new.layer) out.old.items out.new.items) }
        ensures left { OnOk result (gate_left L.left L.rate self.new < gate_left L.left L.rate self.old) }
        ensures rate { OnOk result (L.rate self.new.layer ≡ L.rate self.old.layer) }
        ensures awaited { L.awaited self.old.layer ≡ Some ask → result ≢ Err GateError.NotAwaited }
        ensures not_awaited { L.awaited self.old.layer ≢ Some ask → result ≡ Err GateError.NotAwaited }
        ensures unchanged { result ≡ Err GateError.NotAwaited → (self.new ≡ self.old) × (out.new ≡ out.old) }
    {
        if self.layer.waiting() != Some(ask) {
            return Err(GateError::NotAwaited);
        }
        self.resume(moment, reply, out)?;
        Ok(())
    }

    /// What is awaited.
    pub fn waiting(&self) -> Option<Ask>
        ensures { result ≡ L.awaited self.now.layer }
    {
        self.layer.waiting()
    }

    /// How many events wait behind what is awaited.
    pub fn queued(&self) -> usize
        ensures { result ≡ length self.now.queue.items }
    {
        self.queue.len()
    }

    /// The layer.
    pub fn layer(&self) -> &L
        ensures { result.now ≡ self.now.layer }
    {
        &self.layer
    }
}
