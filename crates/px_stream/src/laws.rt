//! Where the machine stands beside the chain, each law the contract of a function that does nothing.
ghost use Rattle.std.specs.Prelude.{◌≡◌, ◌++◌, [], ℕ, Bool, true, false, List, Option, Some};
ghost use Rattle.px_event.specs.Chain.{NotYet, Timed};
ghost use Rattle.px_event.specs.Stands.{AwaitsWhatItAsks, EndsWhereItEnds};
ghost use Rattle.px_event.specs.declared.command.Command.{Command as Given};
ghost use Rattle.px_event.specs.declared.event.Event.{Event as Heard};
ghost use Rattle.px_event.specs.declared.reply.Reply.{Reply as Answer};
ghost use Rattle.px_read.specs.Reader.{State};
ghost use Rattle.px_exchange.specs.declared.ending.Used.{Used};
ghost use Rattle.px_exchange.specs.declared.terms.Terms.{Terms as Made};
ghost use Rattle.px_chain.specs.Chain.{http_chain, look, pass, sequence, sight_past, turn};
ghost use Rattle.px_chain.specs.Behind.{sight_behind};
ghost use Rattle.px_chain.specs.Keeping.{strays, unspoilt};
ghost use Rattle.px_chain.specs.Sights.{Sight, sight_with};
ghost use Rattle.px_chain.specs.Stages.{At, Stage, place_of, side_of};
ghost use Rattle.px_stream.specs.Heard.{closes_client, requests_take, shut_if, side_takes, stray_in};
ghost use Rattle.px_stream.specs.Looks.{LookFound, LookedAt};
ghost use Rattle.px_stream.specs.GoingUp.{GoesUp, GoneTo, HasNoMoreUp, IsGone, is_rising};
ghost use Rattle.px_stream.specs.Passes.{CameTo, HasNoMore, IsPassed, Passed, is_passing};
ghost use Rattle.px_stream.specs.Stands.{HasPlace, IsAsked, IsAt, IsReady, SentOn, asked_in, awaits, bare, content_in, is_last, sent_asked, sent_at, sent_on, stage_of, used_in};
ghost use Rattle.px_stream.specs.Turns.{FirstHeld, KeepsUp, SideTurned, Turned, asked_turn, first_sent, is_dial, requests_behind, side_behind, used_at};
ghost use Rattle.px_stream.specs.Tells.{uses_side};
ghost use Rattle.px_stream.specs.declared.link.Link.{Link as Kept};
ghost use Rattle.px_stream.specs.declared.phase.Asked.{Asked as Awaited};
ghost use Rattle.px_stream.specs.declared.phase.Phase.{Phase as Standing};
ghost use Rattle.px_stream.specs.declared.phase.Wanted.{Wanted as Looked};

/// An answer is awaited exactly where the stage asks, and a state has ended exactly where the stage ends.
fn states_follow()
    ensures awaits { (onward : Stage → Stage) (made : Made) → AwaitsWhatItAsks (http_chain onward made) (IsAt made) awaits }
    ensures ends { (onward : Stage → Stage) (made : Made) → EndsWhereItEnds (http_chain onward made) (IsAt made) (λ state. is_last state.phase) }
{}

/// In the sight with one event more a flow stands where it stood, if nothing was found, and its readers have heard the event.
fn readers_follow()
    ensures ready { (made : Made) (seen : Sight) (event : Heard) (moment : ℕ) (stage : Stage) (at : At) (requests : State) (side : Option Kept) (looked : Looked) (sent : SentOn) →
        look made stage seen ≡ NotYet → IsReady made at requests side looked stage seen sent →
        IsReady made at (requests_take event requests) (side_takes (uses_side (Standing.Ready looked)) event side) looked stage (sight_with (side_of stage) seen event moment) sent }
    ensures strays { (made : Made) (seen : Sight) (event : Heard) (moment : ℕ) (stage : Stage) (at : At) (requests : State) (side : Option Kept) (looked : Looked) (sent : SentOn) →
        look made stage seen ≡ NotYet → IsReady made at requests side looked stage seen sent →
        strays stage seen ++ shut_if (stray_in (uses_side (Standing.Ready looked)) event side) ≡ strays stage (sight_with (side_of stage) seen event moment) }
    ensures place { (stage : Stage) (seen : Sight) (event : Heard) (moment : ℕ) (at : At) (closed : Bool) →
        HasPlace stage seen at closed → HasPlace stage (sight_with (side_of stage) seen event moment) at (closes_client event closed) }
{}

/// A stage is answered as what it asks about is, and where an answer leads, the readers are there, in the sight behind it.
fn answers_lead()
    ensures turn { (made : Made) (stage : Stage) (seen : Sight) (answer : Timed Answer) (requests : State) (side : Option Kept) (asked : Awaited) (used : Used) →
        IsAsked made requests side asked stage seen → used_at (place_of (unspoilt stage seen)) asked seen ≡ used →
        turn made stage seen answer ≡ asked_turn made (place_of (unspoilt stage seen)) asked seen side used seen.closed answer }
    ensures readers { (made : Made) (stage : Stage) (seen : Sight) (answer : Timed Answer) (requests : State) (side middle : Option Kept) (asked : Awaited) (at : At) (looked : Looked) (closed : Bool) →
        IsAsked made requests side asked stage seen → stage_of at looked ≡ sequence (turn made stage seen answer).stage → content_in looked ≡ [] → FirstHeld asked looked → KeepsUp asked looked → closed ≡ seen.closed →
        SideTurned asked looked side middle →
        Turned made (sequence (turn made stage seen answer).stage) (sight_behind made.place stage seen answer.moment (sequence (turn made stage seen answer).stage)) at
        (requests_behind (stage_of at looked) requests) (side_behind (is_dial asked) (stage_of at looked) middle) looked closed (first_sent (place_of stage) asked answer.value) }
{}

/// Where a request's body is read that may be streamed, or one goes up, the machine sends on what came of it as the chain does: what is given is what is
/// owed there, with what is sent of where it leads, and the flow is there.
fn requests_go_up()
    ensures { (made : Made) (at new : At) (seen : Sight) (old later : State) (side beside : Option Kept) (moment : ℕ) (closed : Bool) (out longer : List Given) (sent : SentOn) →
        moment ≡ seen.now → (stage : Stage) (looked next : Looked) → IsReady made at old side looked stage seen sent → HasPlace stage seen at closed → is_rising looked ≡ true →
        GoesUp made.place at new moment looked next old later side beside out longer →
        GoneTo made stage seen new later beside next (sent_on stage sent) out longer }
{}

/// Behind that, where a response's body is read that may be streamed, or is, the machine passes as the chain does: what is given is what is owed
/// where it comes down, with what is sent of where it leads, and the flow is there.
fn passes_follow()
    ensures { (made : Made) (at new : At) (seen : Sight) (old later : State) (side middle : Option Kept) (moment : ℕ) (closed : Bool) (out longer : List Given) (sent : SentOn) →
        moment ≡ seen.now → (stage : Stage) (looked next : Looked) → IsReady made at old side looked stage seen sent → HasPlace stage seen at closed →
        IsGone made.place stage seen → HasNoMoreUp looked old → is_passing looked ≡ true →
        Passed made.place at new moment (used_in side) closed looked next side middle out longer → later ≡ requests_behind (stage_of new next) old →
        CameTo made stage seen new later (side_behind false (stage_of new next) middle) next (sent_on stage sent) out longer }
{}

/// One look behind passing, whatever is looked for: what is given is what the stage owes that is passed to, and the flow is there.
fn looks_follow()
    ensures { (made : Made) (at : At) (seen : Sight) (old new : State) (side later : Option Kept) (moment : ℕ) (closed : Bool) (out longer : List Given) (is_now : Standing) (sent : SentOn) →
        moment ≡ seen.now → (stage : Stage) (looked : Looked) → IsReady made at old side looked stage seen sent → HasPlace stage seen at closed → IsPassed made.place stage seen → HasNoMore looked old side →
        LookFound made at (used_in side) moment closed looked old new side later out longer is_now →
        LookedAt made at (pass made stage seen).stage (sight_past made stage seen) new later is_now (sent_on stage sent) out longer }
{}
