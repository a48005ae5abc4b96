//! A gate before a layer that tells its number is a conversation.
//!
//! Its calls are those of the gate, so what is due of it is what the chain owes by them (`gates_add_nothing`), with no
//! word of queues. An answer that is not awaited changes nothing and gives nothing.
ghost use Rattle.std.specs.Prelude.{◌≡◌, ◌≢◌, ◌<◌, ◌≤◌, ◌+◌, ◌*◌, Some, OnOk, IsOk};
ghost use Rattle.px_event.specs.Layer.{Took, Replied, IsSound, Goes, AsksOnly, MayAnswer, IsNews, weight};
ghost use Rattle.px_gate.specs.Gate.{GateStands, gate_left};
ghost use Rattle.px_core.specs.Conversation.{AsksWhile, NamesOnly};

use crate::{Conversation, Numbered, Owes};
use px_event::{Ask, Command, Event, Reply};
use px_gate::{Gate, GateError};
use px_text::NoMemory;

impl<L: Numbered> Conversation for Gate<L> {
    ghost use Rattle.px_gate.specs.Gate.{GateStands, gate_left};

    ghost number = { λ gate. L.number gate.layer };

    ghost stands = { GateStands L.stands L.awaited };

    ghost awaited = { λ gate. L.awaited gate.layer };

    ghost left = { gate_left L.left L.rate };

    ghost rate = { λ gate. L.rate gate.layer };

    ghost kept = { λ gate. L.kept gate.layer };

    ghost keeps_no_body = { λ gate. L.keeps_no_body gate.layer };

    ghost ended = { λ gate. L.ended gate.layer };

    fn take(&mut self, moment: u64, event: Event, out: &mut Vec<Command>) -> Result<(), NoMemory> {
        match event {
            Event::Answered { ask, reply } => answer(self, moment, ask, reply, out),
            Event::Begun | Event::Piece { .. } | Event::Closed { .. } => {
                hear(self, moment, event, out)
            }
        }
    }

    fn waiting(&self) -> Option<Ask> {
        Gate::waiting(self)
    }

    fn kept(&self) -> usize {
        self.layer().kept()
    }

    fn ended(&self) -> bool {
        self.layer().ended()
    }
}

impl<L: Numbered> Owes for Gate<L> {
    ghost use Rattle.std.specs.Prelude.{refl};
    ghost use Rattle.px_event.specs.Stands.{due_by, has_ended};
    ghost use Rattle.px_gate.proofs.GateCalls.{calls_ended, calls_gave, calls_grow, calls_last, calls_over, calls_rest};

    ghost due = { λ made moves. due_by (L.chain made.layer) (L.start made.layer) moves };

    ghost gave = { λ made state moves given stands view.
        calls_gave (L.chain made.layer) (L.settles made.layer) (L.start made.layer) (L.is_at made.layer) L.awaited (L.asks made.layer) L.stands made.layer (L.stands_at made.layer) made state moves given refl stands view };

    ghost grows = { λ made moves move view. calls_grow (L.chain made.layer) (L.settles made.layer) (L.start made.layer) (L.grows made.layer) moves move view };

    ghost is_over = { λ made moves. has_ended (L.chain made.layer) (L.start made.layer) moves };

    ghost ends = { λ made state moves given stands.
        calls_ended (L.chain made.layer) (L.settles made.layer) (L.start made.layer) (L.is_at made.layer) L.awaited (L.asks made.layer) L.stands made.layer (L.stands_at made.layer) L.ended (L.ends made.layer) made state moves given refl stands };

    ghost over = { λ made moves over more view. calls_over (L.chain made.layer) (L.settles made.layer) (L.start made.layer) moves over more view };

    ghost lasts = { λ made moves over more. calls_last (L.chain made.layer) (L.settles made.layer) (L.start made.layer) moves over more };

    ghost rests = { λ made state moves given stands ended.
        calls_rest (L.chain made.layer) (L.settles made.layer) (L.start made.layer) (L.is_at made.layer) L.awaited (L.asks made.layer) L.stands made.layer (L.stands_at made.layer) L.ended (L.ends made.layer) made state moves given refl stands ended };
}

/// Takes an event that is no answer.
fn hear<L: Numbered>(
    gate: &mut Gate<L>,
    moment: u64,
    event: Event,
    out: &mut Vec<Command>,
) -> Result<(), NoMemory>
    requires sound { IsSound (GateStands L.stands L.awaited) gate.old }
    requires news { IsNews event }
    ensures goes { OnOk result (Goes (GateStands L.stands L.awaited) gate.old gate.new (Took moment event) out.old.items out.new.items) }
    ensures sound { OnOk result (IsSound (GateStands L.stands L.awaited) gate.new) }
    ensures asks { OnOk result (AsksWhile (L.awaited gate.old.layer) (L.awaited gate.new.layer) out.old.items out.new.items) }
    ensures names { OnOk result (NamesOnly (L.number gate.old.layer) out.old.items out.new.items) }
    ensures number { OnOk result (L.number gate.new.layer ≡ L.number gate.old.layer) }
    ensures left { OnOk result (gate_left L.left L.rate gate.new ≤ gate_left L.left L.rate gate.old + L.rate gate.old.layer * weight event) }
    ensures rate { OnOk result (L.rate gate.new.layer ≡ L.rate gate.old.layer) }
{
    gate.take(moment, event, out)
}

/// Answers what is awaited; another ask's answer changes nothing and gives nothing.
fn answer<L: Numbered>(
    gate: &mut Gate<L>,
    moment: u64,
    ask: Ask,
    reply: Reply,
    out: &mut Vec<Command>,
) -> Result<(), NoMemory>
    requires sound { IsSound (GateStands L.stands L.awaited) gate.old }
    requires answers { MayAnswer (Some ask) reply }
    ensures goes { L.awaited gate.old.layer ≡ Some ask → OnOk result (Goes (GateStands L.stands L.awaited) gate.old gate.new (Replied moment reply) out.old.items out.new.items) }
    ensures not_awaited { L.awaited gate.old.layer ≢ Some ask → IsOk result × (gate.new ≡ gate.old) × (out.new ≡ out.old) }
    ensures sound { OnOk result (IsSound (GateStands L.stands L.awaited) gate.new) }
    ensures asks { L.awaited gate.old.layer ≡ Some ask → OnOk result (AsksOnly (L.awaited gate.new.layer) out.old.items out.new.items) }
    ensures names { OnOk result (NamesOnly (L.number gate.old.layer) out.old.items out.new.items) }
    ensures number { OnOk result (L.number gate.new.layer ≡ L.number gate.old.layer) }
    ensures left { L.awaited gate.old.layer ≡ Some ask → OnOk result (gate_left L.left L.rate gate.new < gate_left L.left L.rate gate.old) }
    ensures rate { OnOk result (L.rate gate.new.layer ≡ L.rate gate.old.layer) }
{
    match gate.answer(moment, ask, reply, out) {
        Ok(()) => Ok(()),
        Err(GateError::NotAwaited) => Ok(()),
        Err(GateError::NoMemory) => Err(NoMemory),
    }
}
