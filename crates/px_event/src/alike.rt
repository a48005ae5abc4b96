//! Walks that owe alike. Each is a function with nothing to do: its contract is the law, for every chain and relation
//! of places (`Compared`).
ghost use Rattle.std.specs.Prelude.{◌≡◌, ℕ, nat_lt, List, [], ◌∷◌, ◌++◌, map};
ghost use Rattle.px_event.specs.Alike.{OwesAlikeFrom, MayCome, MayBeEarly, StopsAlike, front_with};
ghost use Rattle.px_event.specs.Chain.{Chain, Stamp, Stamped, Timed, NotYet, walk, owed_at, walk_from, due};
ghost use Rattle.px_event.specs.Stamps.{StampedAlike, renumbered};
ghost use Rattle.px_event.specs.declared.event.Event.{Event as TakenEvent};
ghost use Rattle.px_event.specs.declared.reply.Reply.{Reply as GivenReply};
ghost use Rattle.px_event.specs.declared.command.Command.{Command as GivenCommand};

use crate::Compared;

/// Walks from places that look alike owe alike, and stop at places that look alike.
pub fn alike_places_owe_alike<C: Compared>()
    ensures walks { (given : C.Given) (replies : List (Stamped GivenReply)) (last : Stamp) (before other : List GivenCommand)
        (s : C.Stage) (f : List (Timed TakenEvent)) (t : C.Stage) (g : List (Timed TakenEvent)) (events : List (Stamped TakenEvent)) →
        C.like before other → C.same given s f t g →
        C.like (owed_at (C.chain given) (walk (C.chain given) replies last before s f events))
        (owed_at (C.chain given) (walk (C.chain given) replies last other t g events)) }
    ensures stops { (given : C.Given) (replies : List (Stamped GivenReply)) (last : Stamp) (before other : List GivenCommand)
        (s : C.Stage) (f : List (Timed TakenEvent)) (t : C.Stage) (g : List (Timed TakenEvent)) (events : List (Stamped TakenEvent)) →
        C.like before other → C.same given s f t g →
        StopsAlike C.like (C.same given) (walk (C.chain given) replies last before s f events) (walk (C.chain given) replies last other t g events) }
    ensures due { (given : C.Given) (start other : C.Stage) (events : List (Stamped TakenEvent)) (replies : List (Stamped GivenReply)) →
        C.same given start [] other [] → C.like (due (C.chain given) start events replies) (due (C.chain given) other events replies) }
{}

/// An event taken early changes nothing: a walk with it before the other events owes as one from where it is worked off.
pub fn early_events_owe_alike<C: Compared>()
    ensures { (given : C.Given) (event : Stamped TakenEvent) (replies : List (Stamped GivenReply)) (last : Stamp) (before other : List GivenCommand)
        (s : C.Stage) (f : List (Timed TakenEvent)) (t : C.Stage) (g : List (Timed TakenEvent)) (events : List (Stamped TakenEvent)) →
        MayCome (C.may_come event) replies → C.like before other → C.early given event last s f t g →
        C.like (owed_at (C.chain given) (walk (C.chain given) replies last before s f (event ∷ events)))
        (owed_at (C.chain given) (walk (C.chain given) replies last other t g events)) }
{}

/// Events that owe alike from where a walk stopped owe alike behind all events before them.
pub fn alike_behind_any_events<C: Compared>()
    ensures { (given : C.Given) (start : C.Stage) (before these those : List (Stamped TakenEvent)) (replies : List (Stamped GivenReply)) →
        OwesAlikeFrom (C.chain given) C.like (walk_from (C.chain given) start before replies) these those →
        C.like (due (C.chain given) start (before ++ these) replies) (due (C.chain given) start (before ++ those) replies) }
{}

/// Two events in place of one, anywhere: what is due is alike where, with the first worked off, the second may be taken
/// early to where the one is worked off.
pub fn two_events_for_one_owe_alike<C: Compared>()
    ensures { (given : C.Given) (start : C.Stage) (before after : List (Stamped TakenEvent)) (first second one : Stamped TakenEvent)
        (replies : List (Stamped GivenReply)) →
        ((C.chain given).look (walk_from (C.chain given) start before replies).stage (walk_from (C.chain given) start before replies).prefix ≡ NotYet →
        MayBeEarly (walk_from (C.chain given) start before replies) first (C.may_come second) (C.early given second)
        (walk_from (C.chain given) start before replies).stage (front_with (walk_from (C.chain given) start before replies) one)) →
        C.like (due (C.chain given) start (before ++ first ∷ second ∷ after) replies) (due (C.chain given) start (before ++ one ∷ after) replies) }
{}

/// Two neighbouring events the other way round, anywhere: what is due is alike where each may be taken early behind the
/// other, to one place.
pub fn swapped_events_owe_alike<C: Compared>()
    ensures { ((a b c : List GivenCommand) → C.like a c → C.like b c → C.like a b) →
        (given : C.Given) (start : C.Stage) (before after : List (Stamped TakenEvent)) (first second : Stamped TakenEvent)
        (replies : List (Stamped GivenReply)) (t : C.Stage) (g : List (Timed TakenEvent)) →
        ((C.chain given).look (walk_from (C.chain given) start before replies).stage (walk_from (C.chain given) start before replies).prefix ≡ NotYet →
        MayBeEarly (walk_from (C.chain given) start before replies) first (C.may_come second) (C.early given second) t g
        × MayBeEarly (walk_from (C.chain given) start before replies) second (C.may_come first) (C.early given first) t g) →
        C.like (due (C.chain given) start (before ++ first ∷ second ∷ after) replies) (due (C.chain given) start (before ++ second ∷ first ∷ after) replies) }
{}

/// Of the steps' numbers only their order counts: events and replies owe the same if each event is worked off at the same
/// moment behind each reply, and so if all steps have other numbers in the same order.
pub fn only_the_order_of_steps_counts<Stage>()
    ensures stamps { (chain : Chain Stage TakenEvent GivenReply GivenCommand) (replies answers : List (Stamped GivenReply)) (last other : Stamp)
        (before : List GivenCommand) (s : Stage) (f : List (Timed TakenEvent)) (events taken : List (Stamped TakenEvent)) →
        StampedAlike last other events taken replies answers →
        owed_at chain (walk chain replies last before s f events) ≡ owed_at chain (walk chain answers other before s f taken) }
    ensures numbers { (number : ℕ → ℕ) → number 0 ≡ 0 → ((a b : ℕ) → nat_lt (number a) (number b) ≡ nat_lt a b) →
        (chain : Chain Stage TakenEvent GivenReply GivenCommand) (start : Stage) (events : List (Stamped TakenEvent)) (replies : List (Stamped GivenReply)) →
        due chain start events replies ≡ due chain start (map (renumbered number) events) (map (renumbered number) replies) }
{}
