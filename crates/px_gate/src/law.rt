//! What a gate is worth before a layer whose due is a chain: it adds nothing to what is due.
//!
//! The layer's law speaks of the moves that the gate made with it. This one speaks of the calls of the gate, with their
//! own numbers and moments, so it needs no word of queues: a chain's walk does not look behind an open ask, and an event
//! that waited is worked off at the moment of the reply that freed it.
ghost use Rattle.std.specs.Prelude.{◌≡◌, List};
ghost use Rattle.px_event.specs.Chain.{Asks};
ghost use Rattle.px_event.specs.Laws.{waiting_values};
ghost use Rattle.px_event.specs.Layer.{Move};
ghost use Rattle.px_event.specs.Stands.{stop_of, due_by};
ghost use Rattle.px_event.specs.View.{View, seen_of};
ghost use Rattle.px_event.specs.declared.command.Command.{Command};
ghost use Rattle.px_gate.specs.declared.gate.Gate.{Gate as GateState};
ghost use Rattle.px_gate.specs.Gate.{GateStands};

use px_event::Chained;

/// For every layer whose due is a chain, and every list of calls: what the gate gave is what is due by its calls, and
/// while something is asked the events that wait are those behind the place where the walk over the calls stops.
pub fn gates_add_nothing<L: Chained>()
    ensures gave { (made gate : GateState L) (calls : List Move) (given : List Command) → GateStands L.stands L.awaited made gate calls given →
        (view : View) → seen_of view given ≡ seen_of view (due_by (L.chain made.layer) (L.start made.layer) calls) }
    ensures waits { (made gate : GateState L) (calls : List Move) (given : List Command) → GateStands L.stands L.awaited made gate calls given →
        (ask : Command) →
        (L.chain made.layer).look (stop_of (L.chain made.layer) (L.start made.layer) calls).stage (stop_of (L.chain made.layer) (L.start made.layer) calls).prefix ≡ Asks ask →
        waiting_values (stop_of (L.chain made.layer) (L.start made.layer) calls).rest ≡ gate.queue.items }
{}
