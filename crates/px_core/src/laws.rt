//! Laws of what is due in conversations, and of who answers hooks. Each is a function with nothing to do: its contract is the law.
ghost use Rattle.std.specs.Prelude.{◌≡◌, ◌≢◌, ◌++◌, ◌∷◌, [], ℕ, Option, Bool, true, List, Some, None};
ghost use Rattle.px_event.specs.Chain.{Chain, Stamped, due};
ghost use Rattle.px_event.specs.Layer.{Move};
ghost use Rattle.px_event.specs.Stands.{due_by};
ghost use Rattle.px_event.specs.declared.event.Event.{Event as TakenEvent};
ghost use Rattle.px_event.specs.declared.reply.Reply.{Reply as GivenReply};
ghost use Rattle.px_event.specs.declared.command.Command.{Command as GivenCommand};
ghost use Rattle.px_core.specs.Answered.{IsAnswered, RestsBy};
ghost use Rattle.px_core.specs.Answers.{FilesMeaning};
ghost use Rattle.px_core.specs.Calls.{addressed, calls};
ghost use Rattle.px_core.specs.Course.{AllAre, Course, KeepsOwn};
ghost use Rattle.px_core.specs.Kind.{EndsOfKind};
ghost use Rattle.px_core.specs.Due.{Due, IsWithinDue};
ghost use Rattle.px_core.specs.Hooks.{IsAllAnswered};
ghost use Rattle.px_core.specs.Ordered.{LeavesFlows, AsksBeforeEnds, IsInOrder};
ghost use Rattle.px_core.specs.Router.{RouterStands};
ghost use Rattle.px_core.specs.declared.answerer.Answer.TheVariants.{Wait as LetsWait};
ghost use Rattle.px_core.specs.declared.answerer.Draft.{Draft as WaitingDraft};
ghost use Rattle.px_core.specs.declared.news.News.{News as HeardNews};
ghost use Rattle.px_core.specs.declared.news.News.TheVariants.{Begun as HasBegun};
ghost use Rattle.px_event.specs.declared.ask.Hook.{Hook as AskedHook};
ghost use Rattle.px_event.specs.declared.heard.Heard.{Heard as WasHeard};
ghost use Rattle.px_event.specs.declared.step.Step.TheVariants.{Heard as HeardAt};
ghost use Rattle.px_event.specs.Trace.{Trace, Always};
ghost use Rattle.px_event.specs.View.{View, seen_of};
ghost use Rattle.px_message.specs.declared.address.Address.{Address};
ghost use Rattle.px_message.specs.declared.flow.Flow.{Flow as AskedFlow};

use crate::{Answerer, Kind, Owes, Router};

/// No hook of a flow is asked behind the flow's end: so it is in what a chain owes that leaves its flows behind, by a test
/// which stages a walk can come to, and a test which flows such a stage is past, as those before its own, or all where the
/// conversation has ended; and so it is in each trace that is within such a due.
pub fn no_hook_is_asked_behind_its_end<Stage>()
    ensures due { (chain : Chain Stage TakenEvent GivenReply GivenCommand) (is_stage : Stage → Bool) (past : Stage → ℕ → Bool) → LeavesFlows chain is_stage past →
        (start : Stage) → is_stage start ≡ true → (events : List (Stamped TakenEvent)) (replies : List (Stamped GivenReply)) →
        AsksBeforeEnds (due chain start events replies) }
    ensures calls { (chain : Chain Stage TakenEvent GivenReply GivenCommand) (is_stage : Stage → Bool) (past : Stage → ℕ → Bool) → LeavesFlows chain is_stage past →
        (start : Stage) → is_stage start ≡ true → (moves : List Move) → AsksBeforeEnds (due_by chain start moves) }
    ensures traces { (due : Due) → ((conv : ℕ) (peer : Option Address) (moves : List Move) → AsksBeforeEnds (due conv peer moves)) →
        (trace : Trace) → IsWithinDue due trace → IsInOrder trace }
{}

/// An end lasts: where a conversation is over by its calls, it is over whatever is called behind them, and no view of what is due
/// changes.
pub fn an_end_lasts<C: Owes>()
    ensures over { (made : C) (moves : List Move) → C.is_over made moves ≡ true → (more : List Move) → C.is_over made (moves ++ more) ≡ true }
    ensures due { (made : C) (moves : List Move) → C.is_over made moves ≡ true → (more : List Move) (view : View) →
        seen_of view (C.due made (moves ++ more)) ≡ seen_of view (C.due made moves) }
{}

/// Answers are of their kind. Where from each of the answerer's own states that is so each answer leads to one that is so and is of
/// a kind, and the first state is so, and each other change of its course leads from such states to such ones, then in each trace over
/// which the answerer came each reply is of that kind for the flow with which its hook was asked, as it was due there; and the state that
/// it came to is so.
pub fn answers_are_of_their_kind<K: Kind>()
    ensures replies { (due : Due) (course : Course K.State) → K.is_so course.first.own → AllAre (KeepsOwn K.is_so) course.changes → (trace : Trace) → IsAnswered K.answers due course trace → Always (EndsOfKind K.gives due) trace }
    ensures states { (due : Due) (course : Course K.State) → K.is_so course.first.own → AllAre (KeepsOwn K.is_so) course.changes → (trace : Trace) → (came : IsAnswered K.answers due course trace) → K.is_so came.last.own }
{}

/// No hook waits: where an answerer keeps a kind that has no wait, then at a rest of a trace over which it came from states that are so, by a course whose
/// changes keep that, every hook is answered.
pub fn no_hook_waits<K: Kind>()
    ensures answered { ((hook : AskedHook) (flow : AskedFlow) (draft : WaitingDraft) → K.gives hook flow (LetsWait draft) → ⊥) →
        (due : Due) (course : Course K.State) → K.is_so course.first.own → AllAre (KeepsOwn K.is_so) course.changes → (trace : Trace) → RestsBy K.answers due course trace → IsAllAnswered trace }
{}

/// Nobody hears it: where no conversation of this number has begun, the router stands for the trace as before with something heard of the number that begins
/// none.
pub fn nobody_hears<C: Owes, A: Answerer>(router: &Router<C, A>)
    ensures stands { (due : Due) (course : Course A.State) (files : FilesMeaning) (trace : Trace) (moment : ℕ) (what : WasHeard) (conv : ℕ) (news : HeardNews) →
        addressed what ≡ Some (conv, news) → ((peer : Address) → news ≢ HasBegun peer) → (calls conv trace).peer ≡ None →
        RouterStands C.stands C.awaited C.number C.due A.answers A.state due course files router.now trace →
        RouterStands C.stands C.awaited C.number C.due A.answers A.state due course files router.now (trace ++ HeardAt moment what ∷ []) }
{}

/// What waits is drafted: the trace that a router stands for rests, so each hook that is open there was let wait, with a draft that the answerer gave.
pub fn what_waits_is_drafted<C: Owes, A: Answerer>(router: &Router<C, A>)
    ensures rests { (due : Due) (course : Course A.State) (files : FilesMeaning) (trace : Trace) →
        RouterStands C.stands C.awaited C.number C.due A.answers A.state due course files router.now trace → RestsBy A.answers due course trace }
{}
