//! What follows of the definitions. Each is a function with nothing to do: its contract is the law.
ghost use Rattle.std.specs.Prelude.{◌≡◌, ℕ, List};
ghost use Rattle.px_event.specs.Chain.{Timed};
ghost use Rattle.px_event.specs.Laws.{Settles, SoFarGrows};
ghost use Rattle.px_event.specs.View.{View, seen_of};
ghost use Rattle.px_event.specs.declared.event.Event.{Event as TakenEvent};
ghost use Rattle.px_relay.specs.Chain.{relay_chain};
ghost use Rattle.px_relay.specs.Order as law;
ghost use Rattle.px_relay.specs.Records.{RecordsAreThoseAnswered};
ghost use Rattle.px_relay.specs.Sending.{Terms};
ghost use Rattle.px_relay.specs.Sights.{Sight};

/// At one prefix passing settles at once, so the walk over more events is the walk resumed; whatever of the events is seen.
pub fn passing_settles()
    ensures { (terms : Terms) (seen : List (Timed TakenEvent) → Sight) → Settles (relay_chain terms seen) }
{}

/// In each view what is owed while nothing is asked only grows.
pub fn waiting_grows()
    ensures { (terms : Terms) (seen : List (Timed TakenEvent) → Sight) (view : View) → SoFarGrows (relay_chain terms seen) (seen_of view) }
{}

/// A ping or a pong overtakes a message that is not whole: it is sent on as it comes, between the fragments, and they wait.
pub fn control_frames_overtake()
    ensures { law.ControlFramesOvertake }
{}

/// The control frames of a side keep their order, also across its messages.
pub fn control_frames_keep_their_order()
    ensures { law.ControlFramesKeepTheirOrder }
{}

/// A message that no reply changed is sent in the frames that it came in.
pub fn unchanged_keeps_fragments()
    ensures { law.UnchangedKeepsFragments }
{}

/// A flow that is asked about has the records of the messages in front of its own, and the finished flow those of all: of a message that was sent the
/// payload that was sent, of one that was discarded the payload as it was read, of one that was killed none; each with the moment of the first step at
/// whose end it was asked about.
pub fn records_are_those_answered()
    ensures { RecordsAreThoseAnswered }
{}
