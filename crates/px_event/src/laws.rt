//! The laws of what is due, for every chain of stages. Each is a function with nothing to do: its contract is the law.
//!
//! They need one thing of a chain, that passing settles at once (`Settles`), and growth one thing more (`SoFarGrows`).
//! Neither speaks of bytes or of a protocol, so a chain of any protocol gets the laws for these two premises.
ghost use Rattle.std.specs.Prelude.{◌≡◌, ◌≢◌, ℕ, List, [], ◌∷◌, ◌++◌};
ghost use Rattle.px_text.specs.Prefix.{IsPrefixOf};
ghost use Rattle.px_event.specs.Chain.{Chain, Stamped, Asks, Ends, walk_from, due};
ghost use Rattle.px_event.specs.Laws.{Settles, SoFarGrows, with_events, with_replies, Stopped, waiting_values};
ghost use Rattle.px_event.specs.View.{Atom, View, bytes_in, line, seen_of};
ghost use Rattle.px_event.specs.declared.event.Event.{Event as TakenEvent};
ghost use Rattle.px_event.specs.declared.reply.Reply.{Reply as GivenReply};
ghost use Rattle.px_event.specs.declared.command.Command.{Command as GivenCommand};
ghost use Rattle.px_event.specs.declared.command.Command.TheVariants.{Close as Closes, Send as Sends};
ghost use Rattle.px_event.specs.declared.side.Side.{Side as OfSide};

/// A walk over more events, or with more replies, is the walk resumed from where it stopped.
pub fn walks_resume<Stage>()
    ensures events { (chain : Chain Stage TakenEvent GivenReply GivenCommand) → Settles chain → (start : Stage) →
        (events more : List (Stamped TakenEvent)) (replies : List (Stamped GivenReply)) →
        walk_from chain start (events ++ more) replies ≡ with_events chain (walk_from chain start events replies) more }
    ensures replies { (chain : Chain Stage TakenEvent GivenReply GivenCommand) → Settles chain → (start : Stage) →
        (events : List (Stamped TakenEvent)) (replies more : List (Stamped GivenReply)) →
        walk_from chain start events (replies ++ more) ≡ with_replies chain (walk_from chain start events replies) more }
{}

/// Where a walk stops: where nothing is found all events were worked off, where something is asked all replies were
/// used, and the events are those worked off and the rest.
pub fn walks_stop<Stage>()
    ensures { (chain : Chain Stage TakenEvent GivenReply GivenCommand) → Settles chain → (start : Stage) →
        (events : List (Stamped TakenEvent)) (replies : List (Stamped GivenReply)) →
        Stopped chain (waiting_values events) (walk_from chain start events replies) }
{}

/// In each view what is due only grows: more events or more replies take nothing back.
pub fn due_only_grows<Stage>()
    ensures events { (chain : Chain Stage TakenEvent GivenReply GivenCommand) → Settles chain → (view : View) → SoFarGrows chain (seen_of view) →
        (start : Stage) (events more : List (Stamped TakenEvent)) (replies : List (Stamped GivenReply)) →
        IsPrefixOf (seen_of view (due chain start events replies)) (seen_of view (due chain start (events ++ more) replies)) }
    ensures replies { (chain : Chain Stage TakenEvent GivenReply GivenCommand) → Settles chain → (view : View) → SoFarGrows chain (seen_of view) →
        (start : Stage) (events : List (Stamped TakenEvent)) (replies more : List (Stamped GivenReply)) →
        IsPrefixOf (seen_of view (due chain start events replies)) (seen_of view (due chain start events (replies ++ more))) }
{}

/// The line of a side. Joined lines have joined bytes, and a beginning of a line has a beginning of its bytes: so what is sent to a
/// side begins with what its line so far has of bytes. A close that comes before bytes makes another line than one behind them.
pub fn lines_have_bytes()
    ensures joins { (first second : List Atom) → bytes_in (first ++ second) ≡ bytes_in first ++ bytes_in second }
    ensures begins { (prefix whole : List Atom) → IsPrefixOf prefix whole → IsPrefixOf (bytes_in prefix) (bytes_in whole) }
    ensures ordered { (side : OfSide) (value : ℕ) (text : List ℕ) →
        seen_of (line side) (Closes side ∷ Sends side (value ∷ text) ∷ []) ≢ seen_of (line side) (Sends side (value ∷ text) ∷ Closes side ∷ []) }
{}

/// Events behind an open ask change nothing of what is due.
pub fn waiting_events_owe_nothing<Stage>()
    ensures { (chain : Chain Stage TakenEvent GivenReply GivenCommand) → Settles chain → (start : Stage) →
        (events more : List (Stamped TakenEvent)) (replies : List (Stamped GivenReply)) (ask : GivenCommand) →
        chain.look (walk_from chain start events replies).stage (walk_from chain start events replies).prefix ≡ Asks ask →
        due chain start (events ++ more) replies ≡ due chain start events replies }
{}

/// Where the walk has ended, more events and more replies change nothing of what is due.
pub fn nothing_is_due_past_the_end<Stage>()
    ensures { (chain : Chain Stage TakenEvent GivenReply GivenCommand) → Settles chain → (start : Stage) →
        (events more : List (Stamped TakenEvent)) (replies further : List (Stamped GivenReply)) (owed : List GivenCommand) →
        chain.look (walk_from chain start events replies).stage (walk_from chain start events replies).prefix ≡ Ends owed →
        due chain start (events ++ more) (replies ++ further) ≡ due chain start events replies }
{}
