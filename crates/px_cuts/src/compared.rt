//! Conversations compared: by what their places show, and which pieces may be taken early. So the laws of walks that owe
//! alike hold of them.
ghost use Rattle.std.specs.Prelude.{ℕ, List, []};
ghost use Rattle.px_event.specs.Chain.{Stamped, due};
ghost use Rattle.px_event.specs.declared.event.Event.{Event as Heard};
ghost use Rattle.px_event.specs.declared.reply.Reply.{Reply as Answer};
ghost use Rattle.px_exchange.specs.declared.terms.Terms.{Terms as Made};
ghost use Rattle.px_chain.specs.Chain.{IsOnward, http_chain};
ghost use Rattle.px_chain.proofs.ChainLaws.{settles};
ghost use Rattle.px_chain.specs.Sights.{Standing};
ghost use Rattle.px_chain.specs.Stages.{Stage};
ghost use Rattle.px_cuts.specs.Alike.{Conversation, HeardEarly, IsCompared, PlacesAlike, is_like};
ghost use Rattle.px_cuts.specs.Cuts.{AlikeSeen, EqualButForMoments, MayWaitFor, as_it_is, no_moment};

use px_event::{Compared, alike_places_owe_alike};

/// What is owed is compared as it is, moments too.
pub struct Exactly;

/// What is owed is compared but for the moments inside flows.
pub struct AtAnyMoments;

impl Compared for Exactly {
    ghost Stage = { Standing };

    ghost Given = { Conversation as_it_is };

    ghost chain = { λ given. http_chain given.onward given.terms };

    ghost settles = { λ given. settles given.onward given.goes given.terms };

    ghost like = { AlikeSeen as_it_is };

    ghost is_like = { is_like as_it_is };

    ghost same = { λ given. PlacesAlike as_it_is given.terms };

    ghost alike = { λ given. given.compared.alike };

    ghost may_come = { MayWaitFor as_it_is };

    ghost early = { λ given event. HeardEarly as_it_is given.onward given.terms event };

    ghost unhurried = { λ given event. given.compared.unhurried event };
}

impl Compared for AtAnyMoments {
    ghost Stage = { Standing };

    ghost Given = { Conversation no_moment };

    ghost chain = { λ given. http_chain given.onward given.terms };

    ghost settles = { λ given. settles given.onward given.goes given.terms };

    ghost like = { AlikeSeen no_moment };

    ghost is_like = { is_like no_moment };

    ghost same = { λ given. PlacesAlike no_moment given.terms };

    ghost alike = { λ given. given.compared.alike };

    ghost may_come = { MayWaitFor no_moment };

    ghost early = { λ given event. HeardEarly no_moment given.onward given.terms event };

    ghost unhurried = { λ given event. given.compared.unhurried event };
}

/// Each conversation may be compared so, however its moments are seen: places that show the same look alike, and a piece
/// that waits may be taken early.
pub fn conversations_are_compared()
    ensures { (see : ℕ → ℕ) (onward : Stage → Stage) (made : Made) → IsOnward onward → IsCompared see onward made }
{}

/// Conversations owe the same that start at places that show the same: as it is, or but for the moments inside flows.
pub fn alike_starts_owe_the_same()
    ensures exactly { (onward : Stage → Stage) (made : Made) (start other : Standing) (events : List (Stamped Heard)) (replies : List (Stamped Answer)) → IsOnward onward →
        PlacesAlike as_it_is made start [] other [] →
        AlikeSeen as_it_is (due (http_chain onward made) start events replies) (due (http_chain onward made) other events replies) }
    ensures at_any_moments { (onward : Stage → Stage) (made : Made) (start other : Standing) (events : List (Stamped Heard)) (replies : List (Stamped Answer)) → IsOnward onward →
        PlacesAlike no_moment made start [] other [] →
        EqualButForMoments (due (http_chain onward made) start events replies) (due (http_chain onward made) other events replies) }
{
    alike_places_owe_alike::<Exactly>();
    alike_places_owe_alike::<AtAnyMoments>();
}
