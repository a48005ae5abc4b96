//! A conversation without a client: it begins with no one heard, as a request that is sent again does.
ghost use Rattle.std.specs.Prelude.{◌≡◌, ◌≢◌, ◌≤◌, ◌<◌, ◌+◌, ◌++◌, true, false, ℕ, Option, Some, List, IfOk, IsErr, OnOk, OnErr};
ghost use Rattle.std.specs.List.{flat_map};
ghost use Rattle.px_text.specs.Prefix.{IsPrefixOf};
ghost use Rattle.px_message.specs.declared.address.Address.{Address as PeerAddress};
ghost use Rattle.px_event.specs.Layer.{Move};
ghost use Rattle.px_event.specs.Trace.{Trace};
ghost use Rattle.px_core.specs.Answers.{ByAnswers, FilesAfter, files_meaning, state_of};
ghost use Rattle.px_core.specs.Calls.{number_end};
ghost use Rattle.px_core.specs.Course.{Course};
ghost use Rattle.px_core.specs.Due.{Due};
ghost use Rattle.px_core.specs.Router.{HoldsNoEnded, RouterStands, IsNow, IsRouted, is_known, found};
ghost use Rattle.px_core.specs.Run.{IsBegunBy, IsDueOf, done_of, Tells, AllTellable, AddsBegun, BreaksBegun};

use crate::work::tell_all;
use crate::{Answerer, Maker, Owes, Router, Taker};
use px_event::Step;
use px_outside::{Files, Net};
use px_text::NoMemory;
use std::alloc::Global;

/// Begins the conversation without a client of this number, which was not admitted: makes and admits it, at the moment of what was heard last, in microseconds
/// since 1970, or 0 before the first; then notes that it begins, says and notes each step that follows in its order, and hands on each finished flow. Each step is
/// of that conversation alone, and nothing changes of another.
///
/// What the network tells may have more than the trace that the router stands for, as for `work_off`.
///
/// `NoMemory` where memory ran out: in the router, the maker, the network or the taker. The trace is served all the same, the flows that were handed on are a
/// prefix of those that it finishes, and the router is poisoned.
pub fn begin_alone<C: Owes, A: Answerer, M: Maker<C>, F: Files, N: Net, T: Taker>(
    alloc: Global,
    router: &mut Router<C, A>,
    maker: &mut M,
    files: &mut F,
    net: &mut N,
    taker: &mut T,
    moment: u64,
    conv: u32,
) -> Result<(), NoMemory>
    requires sound { IsRouted C.stands C.awaited C.number C.due A.answers router.old }
    requires unknown { is_known router.old conv ≡ false }
    requires first { number_end ≤ conv }
    requires few { conv < number_end + M.alone maker.old }
    ensures ok { (due : Due) (course : Course A.State) (trace : Trace) → IsDueOf (M.due maker.old) due → RouterStands C.stands C.awaited C.number C.due A.answers A.state due course (files_meaning F.contents F.calls F.misses F.faults F.losses files.old) router.old trace → IsNow moment trace →
        OnOk result (AddsBegun (RouterStands C.stands C.awaited C.number C.due A.answers A.state due course (files_meaning F.contents F.calls F.misses F.faults F.losses files.new) router.new) conv trace (N.trace net.old) (N.trace net.new)) }
    ensures breaks { (due : Due) (course : Course A.State) (trace told : Trace) → IsDueOf (M.due maker.old) due → RouterStands C.stands C.awaited C.number C.due A.answers A.state due course (files_meaning F.contents F.calls F.misses F.faults F.losses files.old) router.old trace → IsNow moment trace → N.trace net.old ≡ Some told →
        OnErr result (BreaksBegun A.answers A.fails due course conv trace told (N.trace net.new) (files_meaning F.contents F.calls F.misses F.faults F.losses files.new)) }
    ensures taken { (trace : Trace) → N.trace net.old ≡ Some trace → T.taken taker.old ≡ flat_map done_of trace →
        OnOk result (Tells (λ told. T.taken taker.new ≡ flat_map done_of told) trace (N.trace net.new)) }
    ensures due { (number : ℕ) (at : Option PeerAddress) (moves : List Move) → M.due maker.new number at moves ≡ M.due maker.old number at moves }
    ensures count { M.alone maker.new ≡ M.alone maker.old }
    ensures listening { N.listening net.new ≡ N.listening net.old }
    ensures faults { N.faults net.new ≡ N.faults net.old }
    ensures others { (other : ℕ) → conv ≢ other → OnOk result (found router.new.table other ≡ found router.old.table other) }
    ensures taken_part { (trace : Trace) → N.trace net.old ≡ Some trace → T.taken taker.old ≡ flat_map done_of trace →
        OnErr result (Tells (λ told. IsPrefixOf (T.taken taker.new) (flat_map done_of told)) trace (N.trace net.new)) }
    ensures poisoned { OnErr result (router.new.poisoned ≡ true) }
    ensures again { router.old.poisoned ≡ true → IsErr result × (N.trace net.new ≡ N.trace net.old) × (T.taken taker.new ≡ T.taken taker.old) }
    ensures files { FilesAfter A.answers A.fails (state_of A.state F.contents F.calls F.misses F.faults F.losses router.old.answerer files.old) (files_meaning F.contents F.calls F.misses F.faults F.losses files.new) }
    ensures given { OnOk result (ByAnswers A.answers (state_of A.state F.contents F.calls F.misses F.faults F.losses router.old.answerer files.old) (state_of A.state F.contents F.calls F.misses F.faults F.losses router.new.answerer files.new)) }
    ensures goes_on { HoldsNoEnded C.ended router.old.table → OnOk result (HoldsNoEnded C.ended router.new.table) }
{
    match begin_told(alloc, router, maker, files, net, taker, moment, conv) {
        Ok(()) => Ok(()),
        Err(NoMemory) => {
            router.poison();
            Err(NoMemory)
        }
    }
}

/// Makes and admits the conversation, and tells the steps that follow.
fn begin_told<C: Owes, A: Answerer, M: Maker<C>, F: Files, N: Net, T: Taker>(
    alloc: Global,
    router: &mut Router<C, A>,
    maker: &mut M,
    files: &mut F,
    net: &mut N,
    taker: &mut T,
    moment: u64,
    conv: u32,
) -> Result<(), NoMemory>
    requires sound { IsRouted C.stands C.awaited C.number C.due A.answers router.old }
    requires unknown { is_known router.old conv ≡ false }
    requires first { number_end ≤ conv }
    requires few { conv < number_end + M.alone maker.old }
    ensures ok { (due : Due) (course : Course A.State) (trace : Trace) → IsDueOf (M.due maker.old) due → RouterStands C.stands C.awaited C.number C.due A.answers A.state due course (files_meaning F.contents F.calls F.misses F.faults F.losses files.old) router.old trace → IsNow moment trace →
        OnOk result (AddsBegun (RouterStands C.stands C.awaited C.number C.due A.answers A.state due course (files_meaning F.contents F.calls F.misses F.faults F.losses files.new) router.new) conv trace (N.trace net.old) (N.trace net.new)) }
    ensures breaks { (due : Due) (course : Course A.State) (trace told : Trace) → IsDueOf (M.due maker.old) due → RouterStands C.stands C.awaited C.number C.due A.answers A.state due course (files_meaning F.contents F.calls F.misses F.faults F.losses files.old) router.old trace → IsNow moment trace → N.trace net.old ≡ Some told →
        OnErr result (BreaksBegun A.answers A.fails due course conv trace told (N.trace net.new) (files_meaning F.contents F.calls F.misses F.faults F.losses files.new)) }
    ensures taken { (trace : Trace) → N.trace net.old ≡ Some trace → T.taken taker.old ≡ flat_map done_of trace →
        OnOk result (Tells (λ told. T.taken taker.new ≡ flat_map done_of told) trace (N.trace net.new)) }
    ensures due { (number : ℕ) (at : Option PeerAddress) (moves : List Move) → M.due maker.new number at moves ≡ M.due maker.old number at moves }
    ensures count { M.alone maker.new ≡ M.alone maker.old }
    ensures listening { N.listening net.new ≡ N.listening net.old }
    ensures faults { N.faults net.new ≡ N.faults net.old }
    ensures others { (other : ℕ) → conv ≢ other → OnOk result (found router.new.table other ≡ found router.old.table other) }
    ensures taken_part { (trace : Trace) → N.trace net.old ≡ Some trace → T.taken taker.old ≡ flat_map done_of trace →
        OnErr result (Tells (λ told. IsPrefixOf (T.taken taker.new) (flat_map done_of told)) trace (N.trace net.new)) }
    ensures again { router.old.poisoned ≡ true → IsErr result × (N.trace net.new ≡ N.trace net.old) × (T.taken taker.new ≡ T.taken taker.old) }
    ensures files { FilesAfter A.answers A.fails (state_of A.state F.contents F.calls F.misses F.faults F.losses router.old.answerer files.old) (files_meaning F.contents F.calls F.misses F.faults F.losses files.new) }
    ensures given { OnOk result (ByAnswers A.answers (state_of A.state F.contents F.calls F.misses F.faults F.losses router.old.answerer files.old) (state_of A.state F.contents F.calls F.misses F.faults F.losses router.new.answerer files.new)) }
    ensures goes_on { HoldsNoEnded C.ended router.old.table → OnOk result (HoldsNoEnded C.ended router.new.table) }
{
    let steps = route_alone(alloc, router, maker, files, moment, conv)?;
    tell_all(net, taker, steps)
}

/// Makes and admits the conversation, and gives its beginning and the steps that follow.
fn route_alone<C: Owes, A: Answerer, M: Maker<C>, F: Files>(
    alloc: Global,
    router: &mut Router<C, A>,
    maker: &mut M,
    files: &mut F,
    moment: u64,
    conv: u32,
) -> Result<Vec<Step>, NoMemory>
    requires sound { IsRouted C.stands C.awaited C.number C.due A.answers router.old }
    requires unknown { is_known router.old conv ≡ false }
    requires first { number_end ≤ conv }
    requires few { conv < number_end + M.alone maker.old }
    ensures stands { IfOk result (λ steps. (due : Due) (course : Course A.State) (trace : Trace) → IsDueOf (M.due maker.old) due → RouterStands C.stands C.awaited C.number C.due A.answers A.state due course (files_meaning F.contents F.calls F.misses F.faults F.losses files.old) router.old trace → IsNow moment trace →
        RouterStands C.stands C.awaited C.number C.due A.answers A.state due course (files_meaning F.contents F.calls F.misses F.faults F.losses files.new) router.new (trace ++ steps.items)) }
    ensures begun { IfOk result (λ steps. IsBegunBy conv steps.items) }
    ensures tellable { IfOk result (λ steps. AllTellable steps.items) }
    ensures others { (other : ℕ) → conv ≢ other → OnOk result (found router.new.table other ≡ found router.old.table other) }
    ensures poisoned { router.old.poisoned ≡ true → IsErr result }
    ensures due { (number : ℕ) (at : Option PeerAddress) (moves : List Move) → M.due maker.new number at moves ≡ M.due maker.old number at moves }
    ensures count { M.alone maker.new ≡ M.alone maker.old }
    ensures files { FilesAfter A.answers A.fails (state_of A.state F.contents F.calls F.misses F.faults F.losses router.old.answerer files.old) (files_meaning F.contents F.calls F.misses F.faults F.losses files.new) }
    ensures given { OnOk result (ByAnswers A.answers (state_of A.state F.contents F.calls F.misses F.faults F.losses router.old.answerer files.old) (state_of A.state F.contents F.calls F.misses F.faults F.losses router.new.answerer files.new)) }
    ensures goes_on { HoldsNoEnded C.ended router.old.table → OnOk result (HoldsNoEnded C.ended router.new.table) }
{
    let mut steps = Vec::new(alloc);
    steps.push(Step::Begun { conv })?;
    let conversation = maker.make_alone(conv)?;
    router.admit(moment, conv, conversation, files, &mut steps)?;
    Ok(steps)
}
