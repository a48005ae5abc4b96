//! Layers whose due is a chain of stages.
ghost use Rattle.std.specs.Prelude.{List};
ghost use Rattle.px_event.specs.Chain.{Chain, Timed};
ghost use Rattle.px_event.specs.Laws.{Settles, SoFarGrows};
ghost use Rattle.px_event.specs.Layer.{Move};
ghost use Rattle.px_event.specs.Stands.{StandsAt, AwaitsWhatItAsks, EndsWhereItEnds};
ghost use Rattle.px_event.specs.View.{View, seen_of};
ghost use Rattle.px_event.specs.declared.event.Event.{Event as TakenEvent};
ghost use Rattle.px_event.specs.declared.reply.Reply.{Reply as GivenReply};
ghost use Rattle.px_event.specs.declared.command.Command.{Command as GivenCommand};

use crate::Layer;

/// A layer whose due is a chain of stages. The chain hangs on how the layer was made, and on nothing that came
/// later; so what is due of it is a function of that and of the events and replies.
pub trait Chained: Layer {
    /// The stages of its chain.
    ghost Stage: { Type 0 };

    /// The chain of a layer that was made so.
    ghost chain: { Self → Chain Stage TakenEvent GivenReply GivenCommand };

    /// Where it starts.
    ghost start: { Self → Stage };

    /// What the fields are of a state that was made as the first, where the walk stopped at this stage and over this
    /// prefix.
    ghost is_at: { Self → Self → Stage → List (Timed TakenEvent) → Type 0 };

    /// What a state stands for: it is where the walk over its moves stops, and gave what is due.
    ghost stands_at: { (made state : Self) (moves : List Move) (given : List GivenCommand) → Self.stands made state moves given →
        StandsAt (chain made) (start made) (is_at made) state moves given };

    /// At one prefix passing settles at once.
    ghost settles: { (made : Self) → Settles (chain made) };

    /// In each view what a stage owes while it waits only grows.
    ghost grows: { (made : Self) (view : View) → SoFarGrows (chain made) (seen_of view) };

    /// Something is awaited exactly where the stage asks.
    ghost asks: { (made : Self) → AwaitsWhatItAsks (chain made) (is_at made) Self.awaited };

    /// It has ended exactly where the stage ends.
    ghost ends: { (made : Self) → EndsWhereItEnds (chain made) (is_at made) Self.ended };
}
