//! Chains of stages with places that look alike.
ghost use Rattle.std.specs.Prelude.{List};
ghost use Rattle.px_event.specs.Alike.{IsLikeness, Alike, Unhurried};
ghost use Rattle.px_event.specs.Chain.{Chain, Stamp, Stamped, Timed};
ghost use Rattle.px_event.specs.Laws.{Settles};
ghost use Rattle.px_event.specs.declared.event.Event.{Event as TakenEvent};
ghost use Rattle.px_event.specs.declared.reply.Reply.{Reply as GivenReply};
ghost use Rattle.px_event.specs.declared.command.Command.{Command as GivenCommand};

/// A chain, a likeness of what is owed, and two relations of its places, each a stage over a prefix: of those that look
/// alike, and of those between which an event may be taken early. It is all ghost: a type implements it to have the laws
/// of its relations, and no value of the type is needed.
pub trait Compared {
    /// Its stages.
    ghost Stage: { Type 0 };

    /// What the chain hangs on.
    ghost Given: { Type 0 };

    /// The stages by what is given.
    ghost chain: { Given → Chain Stage TakenEvent GivenReply GivenCommand };

    /// At one prefix passing settles at once.
    ghost settles: { (given : Given) → Settles (chain given) };

    /// Whether two lists of commands are alike: equal, say, or equal in each view.
    ghost like: { List GivenCommand → List GivenCommand → Type 0 };

    /// A list is like itself, and lists of like parts are alike.
    ghost is_like: { IsLikeness like };

    /// Whether two places look alike.
    ghost same: { Given → Stage → List (Timed TakenEvent) → Stage → List (Timed TakenEvent) → Type 0 };

    /// The chain keeps it, and places that look alike owe alike.
    ghost alike: { (given : Given) → Alike (chain given) like (same given) };

    /// The replies that may come while the event waits, as those that are not of an earlier step.
    ghost may_come: { Stamped TakenEvent → Stamped GivenReply → Type 0 };

    /// Whether the event, which waits behind the first place, changed nothing when it was worked off in the other; the
    /// last reply came by this step. A relation that never holds is one.
    ghost early: { Given → Stamped TakenEvent → Stamp → Stage → List (Timed TakenEvent) → Stage → List (Timed TakenEvent) → Type 0 };

    /// What is found without the event is found with it, and where nothing is found the places are the same with it.
    ghost unhurried: { (given : Given) (event : Stamped TakenEvent) →
        Unhurried (chain given) like (same given) (may_come event) event (early given event) };
}
