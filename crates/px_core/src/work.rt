//! One thing heard, worked off.
//!
//! The steps of a call are said and noted one by one, so the network may fail within them. Each prefix of them is served,
//! since an answer stands before what it causes; so the promise holds in every exit.
ghost use Rattle.std.specs.Prelude.{◌≡◌, ◌≢◌, ◌++◌, ◌∷◌, ◌⊎◌, ℕ, Option, Some, None, true, false, [], List, Err, IfOk, IfErr, IfSome, IsErr, OnOk, OnErr};
ghost use Rattle.std.specs.List.{flat_map};
ghost use Rattle.px_text.specs.Prefix.{IsPrefixOf};
ghost use Rattle.px_message.specs.declared.address.Address.{Address as PeerAddress};
ghost use Rattle.px_event.specs.Layer.{Move};
ghost use Rattle.px_event.specs.Trace.{Trace};
ghost use Rattle.px_event.specs.declared.step.Step.TheVariants.{Heard as WasHeard};
ghost use Rattle.px_outside.specs.Net.{IsNote};
ghost use Rattle.px_core.specs.Answers.{ByAnswers, FilesAfter, files_meaning, state_of};
ghost use Rattle.px_core.specs.Addons.{without_first};
ghost use Rattle.px_core.specs.Course.{Course};
ghost use Rattle.px_core.specs.Due.{Due};
ghost use Rattle.px_core.specs.Router.{HoldsNoEnded, RouterStands, IsNow, IsRouted, IsRefused, MovesBy, BeginsNone, IsJudged, conv_of, is_known, found, operated_on};
ghost use Rattle.px_core.specs.declared.operation.OperateError.TheVariants.{NoMemory as RanOut};
ghost use Rattle.px_core.specs.declared.operation.Operation.TheVariants.{DropAddon as Drops};
ghost use Rattle.px_core.specs.Calls.{addressed};
ghost use Rattle.px_core.specs.Held.{AllOf};
ghost use Rattle.px_core.specs.declared.news.News.TheVariants.{Begun as HasBegun};
ghost use Rattle.px_core.specs.Run.{IsDueOf, begun_by, done_of, Tells, IsTellable, AllTellable, ToldPart, IsOfHeard, TellsOfHeard, KeepsOthers, AddsHeard, AddsSteps, BreaksHeard, BreaksOff};

use crate::news::NUMBER_END;
use crate::{Answerer, Maker, OperateError, Operation, Owes, Router, Taker};
use px_event::{Door, Heard, Step};
use px_outside::{Files, Net};
use px_text::NoMemory;
use std::alloc::Global;

/// Works off one thing heard, which the network has just told: makes and admits the conversation that it begins, or hands it to
/// its own; then says and notes each step in its order, and hands on each finished flow. Each step is of the conversation
/// that was heard alone, and nothing changes of another. In every exit the answerer came over the trace with what was heard by a course:
/// from what it was at first, at each hook by its own relation, and else by the changes of the course; and files are what its
/// answers made of them, each from the state that the one before left.
///
/// What the network tells may have more than the trace that the router stands for: what was said to numbers that no conversation has. The same steps
/// are added to both.
///
/// `NoMemory` where memory ran out: in the router, the maker, the network or the taker. The trace is served all the same,
/// the flows that were handed on are a prefix of those that it finishes, and the router is poisoned: it answers out of memory
/// for ever, and no step is said or noted and no flow handed on from then on.
pub fn work_off<C: Owes, A: Answerer, M: Maker<C>, F: Files, N: Net, T: Taker>(
    alloc: Global,
    router: &mut Router<C, A>,
    maker: &mut M,
    files: &mut F,
    net: &mut N,
    taker: &mut T,
    moment: u64,
    heard: Heard,
) -> Result<(), NoMemory>
    requires sound { IsRouted C.stands C.awaited C.number C.due A.answers router.old }
    ensures ok { (due : Due) (course : Course A.State) (trace : Trace) → IsDueOf (M.due maker.old) due → RouterStands C.stands C.awaited C.number C.due A.answers A.state due course (files_meaning F.contents F.calls F.misses F.faults F.losses files.old) router.old trace →
        OnOk result (AddsHeard (RouterStands C.stands C.awaited C.number C.due A.answers A.state due course (files_meaning F.contents F.calls F.misses F.faults F.losses files.new) router.new) heard (trace ++ WasHeard moment heard ∷ []) (N.trace net.old) (N.trace net.new)) }
    ensures breaks { (due : Due) (course : Course A.State) (trace told : Trace) → IsDueOf (M.due maker.old) due → RouterStands C.stands C.awaited C.number C.due A.answers A.state due course (files_meaning F.contents F.calls F.misses F.faults F.losses files.old) router.old trace → N.trace net.old ≡ Some told →
        OnErr result (BreaksHeard A.answers A.fails due course heard (trace ++ WasHeard moment heard ∷ []) told (N.trace net.new) (files_meaning F.contents F.calls F.misses F.faults F.losses files.new)) }
    ensures taken { (trace : Trace) → N.trace net.old ≡ Some trace → T.taken taker.old ≡ flat_map done_of trace →
        OnOk result (Tells (λ told. T.taken taker.new ≡ flat_map done_of told) trace (N.trace net.new)) }
    ensures due { (number : ℕ) (at : Option PeerAddress) (moves : List Move) → M.due maker.new number at moves ≡ M.due maker.old number at moves }
    ensures count { M.alone maker.new ≡ M.alone maker.old }
    ensures listening { N.listening net.new ≡ N.listening net.old }
    ensures faults { N.faults net.new ≡ N.faults net.old }
    ensures own { (trace : Trace) → N.trace net.old ≡ Some trace → TellsOfHeard heard trace (N.trace net.new) }
    ensures others { OnOk result (KeepsOthers heard router.old router.new) }
    ensures taken_part { (trace : Trace) → N.trace net.old ≡ Some trace → T.taken taker.old ≡ flat_map done_of trace →
        OnErr result (Tells (λ told. IsPrefixOf (T.taken taker.new) (flat_map done_of told)) trace (N.trace net.new)) }
    ensures poisoned { OnErr result (router.new.poisoned ≡ true) }
    ensures again { router.old.poisoned ≡ true → IsErr result × (N.trace net.new ≡ N.trace net.old) × (T.taken taker.new ≡ T.taken taker.old) }
    ensures files { FilesAfter A.answers A.fails (state_of A.state F.contents F.calls F.misses F.faults F.losses router.old.answerer files.old) (files_meaning F.contents F.calls F.misses F.faults F.losses files.new) }
    ensures given { OnOk result (ByAnswers A.answers (state_of A.state F.contents F.calls F.misses F.faults F.losses router.old.answerer files.old) (state_of A.state F.contents F.calls F.misses F.faults F.losses router.new.answerer files.new)) }
    ensures goes_on { HoldsNoEnded C.ended router.old.table → OnOk result (HoldsNoEnded C.ended router.new.table) }
{
    match follow(alloc, router, maker, files, net, taker, moment, heard) {
        Ok(()) => Ok(()),
        Err(NoMemory) => {
            router.poison();
            Err(NoMemory)
        }
    }
}

/// Does what an operator asks for, at the moment of what was heard last, as `Router::operate` says: then says and notes each step that follows in its
/// order, and hands on each finished flow. Each step is of the flow's conversation alone, and nothing changes of another; an edit, a mark and an addon that is
/// dropped cause none. In every exit the answerer came over the trace by the course with this operation, and files are what its answers made of them.
///
/// What the network tells may have more than the trace that the router stands for: what was said to numbers that no conversation has. The same steps
/// are added to both.
///
/// `NoSuchFlow`, `NotWaiting`, `NotThere`, `BadValue` and `NoSuchAddon` as `Router::operate` says; then nothing has changed. `NoMemory` where memory ran out: in the router,
/// the network or the taker. The trace is served all the same, the flows that were handed on are a prefix of those that it finishes, and the
/// router is poisoned.
pub fn operate_over<C: Owes, A: Answerer, F: Files, N: Net, T: Taker>(
    alloc: Global,
    router: &mut Router<C, A>,
    files: &mut F,
    net: &mut N,
    taker: &mut T,
    moment: u64,
    operation: &Operation,
) -> Result<(), OperateError>
    requires sound { IsRouted C.stands C.awaited C.number C.due A.answers router.old }
    ensures ok { (due : Due) (course : Course A.State) (trace : Trace) → RouterStands C.stands C.awaited C.number C.due A.answers A.state due course (files_meaning F.contents F.calls F.misses F.faults F.losses files.old) router.old trace → IsNow moment trace →
        OnOk result (AddsSteps (RouterStands C.stands C.awaited C.number C.due A.answers A.state due (operated_on course trace operation.now (state_of A.state F.contents F.calls F.misses F.faults F.losses router.old.answerer files.old) (state_of A.state F.contents F.calls F.misses F.faults F.losses router.new.answerer files.new)) (files_meaning F.contents F.calls F.misses F.faults F.losses files.new) router.new) operation.now trace (N.trace net.old) (N.trace net.new)) }
    ensures breaks { (due : Due) (course : Course A.State) (trace told : Trace) → RouterStands C.stands C.awaited C.number C.due A.answers A.state due course (files_meaning F.contents F.calls F.misses F.faults F.losses files.old) router.old trace → IsNow moment trace → N.trace net.old ≡ Some told →
        IfErr result (λ error. error ≡ RanOut → BreaksOff A.answers A.fails due course operation.now trace told (N.trace net.new) (files_meaning F.contents F.calls F.misses F.faults F.losses files.new)) }
    ensures names { (name : List ℕ) → operation.now ≡ Drops name → OnOk result (A.names (A.state router.new.answerer) ≡ without_first name (A.names (A.state router.old.answerer))) }
    ensures moves { OnOk result (MovesBy A.answers A.drops operation.now (state_of A.state F.contents F.calls F.misses F.faults F.losses router.old.answerer files.old) (state_of A.state F.contents F.calls F.misses F.faults F.losses router.new.answerer files.new)) }
    ensures done { (due : Due) (course : Course A.State) (trace : Trace) → RouterStands C.stands C.awaited C.number C.due A.answers A.state due course (files_meaning F.contents F.calls F.misses F.faults F.losses files.old) router.old trace → OnOk result (IsJudged A.answers due course (state_of A.state F.contents F.calls F.misses F.faults F.losses router.old.answerer files.old) (A.names (A.state router.old.answerer)) trace operation.now None) }
    ensures refused { (due : Due) (course : Course A.State) (trace : Trace) → RouterStands C.stands C.awaited C.number C.due A.answers A.state due course (files_meaning F.contents F.calls F.misses F.faults F.losses files.old) router.old trace →
        IfErr result (λ error. error ≢ RanOut → IsJudged A.answers due course (state_of A.state F.contents F.calls F.misses F.faults F.losses router.old.answerer files.old) (A.names (A.state router.old.answerer)) trace operation.now (Some error)) }
    ensures unchanged { IfErr result (λ error. error ≢ RanOut → IsRefused A.state router.old router.new × (files.new ≡ files.old) × (N.trace net.new ≡ N.trace net.old) × (T.taken taker.new ≡ T.taken taker.old)) }
    ensures taken { (trace : Trace) → N.trace net.old ≡ Some trace → T.taken taker.old ≡ flat_map done_of trace →
        OnOk result (Tells (λ told. T.taken taker.new ≡ flat_map done_of told) trace (N.trace net.new)) }
    ensures listening { N.listening net.new ≡ N.listening net.old }
    ensures faults { N.faults net.new ≡ N.faults net.old }
    ensures others { (other : ℕ) → conv_of operation.now ≢ Some other → OnOk result (found router.new.table other ≡ found router.old.table other) }
    ensures taken_part { (trace : Trace) → N.trace net.old ≡ Some trace → T.taken taker.old ≡ flat_map done_of trace →
        OnErr result (Tells (λ told. IsPrefixOf (T.taken taker.new) (flat_map done_of told)) trace (N.trace net.new)) }
    ensures again { router.old.poisoned ≡ true → (result ≡ Err RanOut) × (N.trace net.new ≡ N.trace net.old) × (T.taken taker.new ≡ T.taken taker.old) }
    ensures files { FilesAfter A.answers A.fails (state_of A.state F.contents F.calls F.misses F.faults F.losses router.old.answerer files.old) (files_meaning F.contents F.calls F.misses F.faults F.losses files.new) }
    ensures goes_on { HoldsNoEnded C.ended router.old.table → OnOk result (HoldsNoEnded C.ended router.new.table) }
    ensures poisoned { result ≡ Err RanOut → router.new.poisoned ≡ true }
{
    match operate_told(alloc, router, files, net, taker, moment, operation) {
        Ok(()) => Ok(()),
        Err(OperateError::NoMemory) => out_of_memory(router),
        Err(OperateError::NoSuchFlow) => Err(OperateError::NoSuchFlow),
        Err(OperateError::NotWaiting) => Err(OperateError::NotWaiting),
        Err(OperateError::NotThere) => Err(OperateError::NotThere),
        Err(OperateError::BadValue) => Err(OperateError::BadValue),
        Err(OperateError::NoSuchAddon) => Err(OperateError::NoSuchAddon),
    }
}

/// The router answers so for ever.
fn out_of_memory<C: Owes, A: Answerer>(router: &mut Router<C, A>) -> Result<(), OperateError>
    ensures answer { result ≡ Err RanOut }
    ensures poisoned { router.new.poisoned ≡ true }
{
    router.poison();
    Err(OperateError::NoMemory)
}

/// Does what an operator asks for, and tells the steps that follow.
fn operate_told<C: Owes, A: Answerer, F: Files, N: Net, T: Taker>(
    alloc: Global,
    router: &mut Router<C, A>,
    files: &mut F,
    net: &mut N,
    taker: &mut T,
    moment: u64,
    operation: &Operation,
) -> Result<(), OperateError>
    requires sound { IsRouted C.stands C.awaited C.number C.due A.answers router.old }
    ensures ok { (due : Due) (course : Course A.State) (trace : Trace) → RouterStands C.stands C.awaited C.number C.due A.answers A.state due course (files_meaning F.contents F.calls F.misses F.faults F.losses files.old) router.old trace → IsNow moment trace →
        OnOk result (AddsSteps (RouterStands C.stands C.awaited C.number C.due A.answers A.state due (operated_on course trace operation.now (state_of A.state F.contents F.calls F.misses F.faults F.losses router.old.answerer files.old) (state_of A.state F.contents F.calls F.misses F.faults F.losses router.new.answerer files.new)) (files_meaning F.contents F.calls F.misses F.faults F.losses files.new) router.new) operation.now trace (N.trace net.old) (N.trace net.new)) }
    ensures breaks { (due : Due) (course : Course A.State) (trace told : Trace) → RouterStands C.stands C.awaited C.number C.due A.answers A.state due course (files_meaning F.contents F.calls F.misses F.faults F.losses files.old) router.old trace → IsNow moment trace → N.trace net.old ≡ Some told →
        IfErr result (λ error. error ≡ RanOut → BreaksOff A.answers A.fails due course operation.now trace told (N.trace net.new) (files_meaning F.contents F.calls F.misses F.faults F.losses files.new)) }
    ensures names { (name : List ℕ) → operation.now ≡ Drops name → OnOk result (A.names (A.state router.new.answerer) ≡ without_first name (A.names (A.state router.old.answerer))) }
    ensures moves { OnOk result (MovesBy A.answers A.drops operation.now (state_of A.state F.contents F.calls F.misses F.faults F.losses router.old.answerer files.old) (state_of A.state F.contents F.calls F.misses F.faults F.losses router.new.answerer files.new)) }
    ensures done { (due : Due) (course : Course A.State) (trace : Trace) → RouterStands C.stands C.awaited C.number C.due A.answers A.state due course (files_meaning F.contents F.calls F.misses F.faults F.losses files.old) router.old trace → OnOk result (IsJudged A.answers due course (state_of A.state F.contents F.calls F.misses F.faults F.losses router.old.answerer files.old) (A.names (A.state router.old.answerer)) trace operation.now None) }
    ensures refused { (due : Due) (course : Course A.State) (trace : Trace) → RouterStands C.stands C.awaited C.number C.due A.answers A.state due course (files_meaning F.contents F.calls F.misses F.faults F.losses files.old) router.old trace →
        IfErr result (λ error. error ≢ RanOut → IsJudged A.answers due course (state_of A.state F.contents F.calls F.misses F.faults F.losses router.old.answerer files.old) (A.names (A.state router.old.answerer)) trace operation.now (Some error)) }
    ensures unchanged { IfErr result (λ error. error ≢ RanOut → IsRefused A.state router.old router.new × (files.new ≡ files.old) × (N.trace net.new ≡ N.trace net.old) × (T.taken taker.new ≡ T.taken taker.old)) }
    ensures taken { (trace : Trace) → N.trace net.old ≡ Some trace → T.taken taker.old ≡ flat_map done_of trace →
        OnOk result (Tells (λ told. T.taken taker.new ≡ flat_map done_of told) trace (N.trace net.new)) }
    ensures listening { N.listening net.new ≡ N.listening net.old }
    ensures faults { N.faults net.new ≡ N.faults net.old }
    ensures others { (other : ℕ) → conv_of operation.now ≢ Some other → OnOk result (found router.new.table other ≡ found router.old.table other) }
    ensures taken_part { (trace : Trace) → N.trace net.old ≡ Some trace → T.taken taker.old ≡ flat_map done_of trace →
        OnErr result (Tells (λ told. IsPrefixOf (T.taken taker.new) (flat_map done_of told)) trace (N.trace net.new)) }
    ensures again { router.old.poisoned ≡ true → (result ≡ Err RanOut) × (N.trace net.new ≡ N.trace net.old) × (T.taken taker.new ≡ T.taken taker.old) }
    ensures files { FilesAfter A.answers A.fails (state_of A.state F.contents F.calls F.misses F.faults F.losses router.old.answerer files.old) (files_meaning F.contents F.calls F.misses F.faults F.losses files.new) }
    ensures goes_on { HoldsNoEnded C.ended router.old.table → OnOk result (HoldsNoEnded C.ended router.new.table) }
{
    let mut steps = Vec::new(alloc);
    match router.operate(moment, operation, files, &mut steps) {
        Ok(()) => tell_operated(net, taker, steps),
        Err(error) => {
            drop(steps);
            Err(error)
        }
    }
}

/// Says or notes each step that an operation caused, in its order, and hands on each finished flow.
fn tell_operated<N: Net, T: Taker>(
    net: &mut N,
    taker: &mut T,
    steps: Vec<Step>,
) -> Result<(), OperateError>
    requires tellable { AllTellable steps.items }
    ensures told { (trace : Trace) → N.trace net.old ≡ Some trace → OnOk result (N.trace net.new ≡ Some (trace ++ steps.items)) }
    ensures part { (trace : Trace) → N.trace net.old ≡ Some trace → OnErr result (ToldPart steps.items trace (N.trace net.new) (T.taken taker.old) (T.taken taker.new)) }
    ensures taken { OnOk result (T.taken taker.new ≡ T.taken taker.old ++ flat_map done_of steps.items) }
    ensures listening { N.listening net.new ≡ N.listening net.old }
    ensures faults { N.faults net.new ≡ N.faults net.old }
    ensures error { IfErr result (λ error. error ≡ RanOut) }
{
    match tell_all(net, taker, steps) {
        Ok(()) => Ok(()),
        Err(NoMemory) => Err(OperateError::NoMemory),
    }
}

/// Routes what was heard, and tells the steps that follow.
fn follow<C: Owes, A: Answerer, M: Maker<C>, F: Files, N: Net, T: Taker>(
    alloc: Global,
    router: &mut Router<C, A>,
    maker: &mut M,
    files: &mut F,
    net: &mut N,
    taker: &mut T,
    moment: u64,
    heard: Heard,
) -> Result<(), NoMemory>
    requires sound { IsRouted C.stands C.awaited C.number C.due A.answers router.old }
    ensures ok { (due : Due) (course : Course A.State) (trace : Trace) → IsDueOf (M.due maker.old) due → RouterStands C.stands C.awaited C.number C.due A.answers A.state due course (files_meaning F.contents F.calls F.misses F.faults F.losses files.old) router.old trace →
        OnOk result (AddsHeard (RouterStands C.stands C.awaited C.number C.due A.answers A.state due course (files_meaning F.contents F.calls F.misses F.faults F.losses files.new) router.new) heard (trace ++ WasHeard moment heard ∷ []) (N.trace net.old) (N.trace net.new)) }
    ensures breaks { (due : Due) (course : Course A.State) (trace told : Trace) → IsDueOf (M.due maker.old) due → RouterStands C.stands C.awaited C.number C.due A.answers A.state due course (files_meaning F.contents F.calls F.misses F.faults F.losses files.old) router.old trace → N.trace net.old ≡ Some told →
        OnErr result (BreaksHeard A.answers A.fails due course heard (trace ++ WasHeard moment heard ∷ []) told (N.trace net.new) (files_meaning F.contents F.calls F.misses F.faults F.losses files.new)) }
    ensures taken { (trace : Trace) → N.trace net.old ≡ Some trace → T.taken taker.old ≡ flat_map done_of trace →
        OnOk result (Tells (λ told. T.taken taker.new ≡ flat_map done_of told) trace (N.trace net.new)) }
    ensures due { (number : ℕ) (at : Option PeerAddress) (moves : List Move) → M.due maker.new number at moves ≡ M.due maker.old number at moves }
    ensures count { M.alone maker.new ≡ M.alone maker.old }
    ensures listening { N.listening net.new ≡ N.listening net.old }
    ensures faults { N.faults net.new ≡ N.faults net.old }
    ensures own { (trace : Trace) → N.trace net.old ≡ Some trace → TellsOfHeard heard trace (N.trace net.new) }
    ensures others { OnOk result (KeepsOthers heard router.old router.new) }
    ensures taken_part { (trace : Trace) → N.trace net.old ≡ Some trace → T.taken taker.old ≡ flat_map done_of trace →
        OnErr result (Tells (λ told. IsPrefixOf (T.taken taker.new) (flat_map done_of told)) trace (N.trace net.new)) }
    ensures again { router.old.poisoned ≡ true → IsErr result × (N.trace net.new ≡ N.trace net.old) × (T.taken taker.new ≡ T.taken taker.old) }
    ensures files { FilesAfter A.answers A.fails (state_of A.state F.contents F.calls F.misses F.faults F.losses router.old.answerer files.old) (files_meaning F.contents F.calls F.misses F.faults F.losses files.new) }
    ensures given { OnOk result (ByAnswers A.answers (state_of A.state F.contents F.calls F.misses F.faults F.losses router.old.answerer files.old) (state_of A.state F.contents F.calls F.misses F.faults F.losses router.new.answerer files.new)) }
    ensures goes_on { HoldsNoEnded C.ended router.old.table → OnOk result (HoldsNoEnded C.ended router.new.table) }
{
    let steps = route(alloc, router, maker, files, moment, heard)?;
    tell_all(net, taker, steps)
}

/// The steps that follow from something heard.
fn route<C: Owes, A: Answerer, M: Maker<C>, F: Files>(
    alloc: Global,
    router: &mut Router<C, A>,
    maker: &mut M,
    files: &mut F,
    moment: u64,
    heard: Heard,
) -> Result<Vec<Step>, NoMemory>
    requires sound { IsRouted C.stands C.awaited C.number C.due A.answers router.old }
    ensures stands { IfOk result (λ steps. (due : Due) (course : Course A.State) (trace : Trace) → IsDueOf (M.due maker.old) due → RouterStands C.stands C.awaited C.number C.due A.answers A.state due course (files_meaning F.contents F.calls F.misses F.faults F.losses files.old) router.old trace →
        RouterStands C.stands C.awaited C.number C.due A.answers A.state due course (files_meaning F.contents F.calls F.misses F.faults F.losses files.new) router.new ((trace ++ WasHeard moment heard ∷ []) ++ steps.items)) }
    ensures tellable { IfOk result (λ steps. AllTellable steps.items) }
    ensures own { IfOk result (λ steps. IsOfHeard heard steps.items) }
    ensures others { OnOk result (KeepsOthers heard router.old router.new) }
    ensures poisoned { router.old.poisoned ≡ true → IsErr result }
    ensures due { (number : ℕ) (at : Option PeerAddress) (moves : List Move) → M.due maker.new number at moves ≡ M.due maker.old number at moves }
    ensures count { M.alone maker.new ≡ M.alone maker.old }
    ensures files { FilesAfter A.answers A.fails (state_of A.state F.contents F.calls F.misses F.faults F.losses router.old.answerer files.old) (files_meaning F.contents F.calls F.misses F.faults F.losses files.new) }
    ensures given { OnOk result (ByAnswers A.answers (state_of A.state F.contents F.calls F.misses F.faults F.losses router.old.answerer files.old) (state_of A.state F.contents F.calls F.misses F.faults F.losses router.new.answerer files.new)) }
    ensures goes_on { HoldsNoEnded C.ended router.old.table → OnOk result (HoldsNoEnded C.ended router.new.table) }
{
    if let Some(conv) = fresh(router, &heard) {
        return begin(alloc, router, maker, files, moment, conv, &heard);
    }
    let mut steps = Vec::new(alloc);
    router.take(moment, heard, files, &mut steps)?;
    Ok(steps)
}

/// Makes and admits the conversation of this number, which begins with what was heard, and gives the steps that follow.
fn begin<C: Owes, A: Answerer, M: Maker<C>, F: Files>(
    alloc: Global,
    router: &mut Router<C, A>,
    maker: &mut M,
    files: &mut F,
    moment: u64,
    conv: u32,
    heard: &Heard,
) -> Result<Vec<Step>, NoMemory>
    requires sound { IsRouted C.stands C.awaited C.number C.due A.answers router.old }
    requires unknown { is_known router.old conv ≡ false }
    requires begins { (peer : PeerAddress) × (addressed heard.now ≡ Some (conv, HasBegun peer)) }
    ensures stands { IfOk result (λ steps. (due : Due) (course : Course A.State) (trace : Trace) → IsDueOf (M.due maker.old) due → RouterStands C.stands C.awaited C.number C.due A.answers A.state due course (files_meaning F.contents F.calls F.misses F.faults F.losses files.old) router.old trace →
        RouterStands C.stands C.awaited C.number C.due A.answers A.state due course (files_meaning F.contents F.calls F.misses F.faults F.losses files.new) router.new ((trace ++ WasHeard moment heard.now ∷ []) ++ steps.items)) }
    ensures own { IfOk result (λ steps. AllOf conv steps.items) }
    ensures others { (other : ℕ) → conv ≢ other → OnOk result (found router.new.table other ≡ found router.old.table other) }
    ensures poisoned { router.old.poisoned ≡ true → IsErr result }
    ensures due { (number : ℕ) (at : Option PeerAddress) (moves : List Move) → M.due maker.new number at moves ≡ M.due maker.old number at moves }
    ensures count { M.alone maker.new ≡ M.alone maker.old }
    ensures files { FilesAfter A.answers A.fails (state_of A.state F.contents F.calls F.misses F.faults F.losses router.old.answerer files.old) (files_meaning F.contents F.calls F.misses F.faults F.losses files.new) }
    ensures given { OnOk result (ByAnswers A.answers (state_of A.state F.contents F.calls F.misses F.faults F.losses router.old.answerer files.old) (state_of A.state F.contents F.calls F.misses F.faults F.losses router.new.answerer files.new)) }
    ensures goes_on { HoldsNoEnded C.ended router.old.table → OnOk result (HoldsNoEnded C.ended router.new.table) }
{
    let Heard::Accepted { peer, .. } = heard else {
        unreachable!()
    };
    let conversation = maker.make(conv, peer)?;
    let mut steps = Vec::new(alloc);
    router.admit(moment, conv, conversation, files, &mut steps)?;
    Ok(steps)
}

/// The number of a conversation that begins with it and was not admitted.
fn fresh<C: Owes, A: Answerer>(router: &Router<C, A>, heard: &Heard) -> Option<u32>
    ensures fresh { IfSome result (λ conv. (peer : PeerAddress) × (addressed heard.now ≡ Some (conv, HasBegun peer)) × (is_known router.now conv ≡ false)) }
    ensures none { result ≡ None → BeginsNone router.now heard.now }
{
    match begins(heard) {
        Some(conv) => { if router.knows(conv) { None } else { Some(conv) } }
        None => None,
    }
}

/// The number of the conversation that begins with it.
fn begins(heard: &Heard) -> Option<u32>
    ensures { result ≡ begun_by heard.now }
{
    match heard {
        Heard::Accepted {
            conv,
            door: Door::Proxy,
            ..
        } if *conv < NUMBER_END => Some(*conv),
        _ => None,
    }
}

/// Says or notes each step in its order, and hands on each finished flow.
pub(crate) fn tell_all<N: Net, T: Taker>(
    net: &mut N,
    taker: &mut T,
    steps: Vec<Step>,
) -> Result<(), NoMemory>
    requires tellable { AllTellable steps.items }
    ensures told { (trace : Trace) → N.trace net.old ≡ Some trace → OnOk result (N.trace net.new ≡ Some (trace ++ steps.items)) }
    ensures part { (trace : Trace) → N.trace net.old ≡ Some trace → OnErr result (ToldPart steps.items trace (N.trace net.new) (T.taken taker.old) (T.taken taker.new)) }
    ensures taken { OnOk result (T.taken taker.new ≡ T.taken taker.old ++ flat_map done_of steps.items) }
    ensures listening { N.listening net.new ≡ N.listening net.old }
    ensures faults { N.faults net.new ≡ N.faults net.old }
{
    for step in steps {
        tell(net, taker, step)?;
    }
    Ok(())
}

/// Says or notes a step, and hands on a finished flow.
fn tell<N: Net, T: Taker>(net: &mut N, taker: &mut T, step: Step) -> Result<(), NoMemory>
    requires tellable { IsTellable step }
    ensures told { (trace : Trace) → N.trace net.old ≡ Some trace → OnOk result (N.trace net.new ≡ Some (trace ++ step ∷ [])) }
    ensures part { (trace : Trace) → N.trace net.old ≡ Some trace → OnErr result ((N.trace net.new ≡ Some trace) ⊎ (N.trace net.new ≡ Some (trace ++ step ∷ []))) }
    ensures taken { OnOk result (T.taken taker.new ≡ T.taken taker.old ++ done_of step) }
    ensures taken_not { OnErr result (T.taken taker.new ≡ T.taken taker.old) }
    ensures listening { N.listening net.new ≡ N.listening net.old }
    ensures faults { N.faults net.new ≡ N.faults net.old }
{
    match step {
        Step::Said { conv, said } => net.say(conv, said),
        Step::Heard { .. } => unreachable!(),
        step => note(net, taker, step),
    }
}

/// Notes a step, and hands on a finished flow.
fn note<N: Net, T: Taker>(net: &mut N, taker: &mut T, step: Step) -> Result<(), NoMemory>
    requires note { IsNote step }
    ensures told { (trace : Trace) → N.trace net.old ≡ Some trace → OnOk result (N.trace net.new ≡ Some (trace ++ step ∷ [])) }
    ensures part { (trace : Trace) → N.trace net.old ≡ Some trace → OnErr result ((N.trace net.new ≡ Some trace) ⊎ (N.trace net.new ≡ Some (trace ++ step ∷ []))) }
    ensures taken { OnOk result (T.taken taker.new ≡ T.taken taker.old ++ done_of step) }
    ensures taken_not { OnErr result (T.taken taker.new ≡ T.taken taker.old) }
    ensures listening { N.listening net.new ≡ N.listening net.old }
    ensures faults { N.faults net.new ≡ N.faults net.old }
{
    match net.note(&step) {
        Ok(()) => hand_on(taker, step),
        Err(error) => {
            drop(step);
            Err(error)
        }
    }
}

/// Hands on the flow that the step finishes.
fn hand_on<T: Taker>(taker: &mut T, step: Step) -> Result<(), NoMemory>
    ensures taken { OnOk result (T.taken taker.new ≡ T.taken taker.old ++ done_of step) }
    ensures taken_not { OnErr result (T.taken taker.new ≡ T.taken taker.old) }
{
    match step {
        Step::Done { flow } => taker.done(flow),
        step => {
            drop(step);
            Ok(())
        }
    }
}
