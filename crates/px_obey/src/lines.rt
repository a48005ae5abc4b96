//! An operator's lines, one behind the other.
//!
//! Each function obeys a part of a line, and its clauses say what the network is told of it beside the trace that the router stands for.
ghost use Rattle.std.specs.Prelude.{◌≡◌, ℕ, List, Some, IfOk, OnOk, OnErr};
ghost use Rattle.std.specs.List.{flat_map};
ghost use Rattle.px_event.specs.Trace.{Trace};
ghost use Rattle.px_core.specs.Answers.{files_meaning, state_of};
ghost use Rattle.px_core.specs.Course.{Course};
ghost use Rattle.px_core.specs.Due.{Due};
ghost use Rattle.px_core.specs.Router.{IsNow, RouterStands};
ghost use Rattle.px_core.specs.Run.{done_of, Tells};
ghost use Rattle.px_obey.specs.Obeyed.{BreaksLines, ByOrders, FilesAfterOrders, ObeysLines, StandsAt, point};
ghost use Rattle.px_obey.specs.Over.{AddsAnswers, BreaksAnswers, BreaksOver, GoesOver};

use crate::Outcome;
use crate::line::obey_line;
use px_core::{Answerer, Owes, Router, Taker};
use px_outside::{Files, Net};
use px_text::NoMemory;
use px_view::Line;
use std::alloc::Global;

/// Obeys whole lines of the operator's connection of this number, at the moment of what was heard last, one behind the other: what an order asks for is done,
/// the steps that follow are said and noted, each finished flow is handed on, and then its answer is sent. Tells what becomes of the connection; behind a line that
/// is too long, which closes it, and behind `quit` no other line is obeyed.
///
/// `NoMemory` where memory ran out: in the router, the network or the taker, or where an answer was made. What was told until then are the answers of the first of
/// the lines, and a part of the steps of the next.
pub fn obey<C: Owes, A: Answerer, F: Files, N: Net, T: Taker>(
    alloc: Global,
    router: &mut Router<C, A>,
    files: &mut F,
    net: &mut N,
    taker: &mut T,
    moment: u64,
    conv: u32,
    lines: Vec<Line>,
) -> Result<Outcome, NoMemory>
    requires sound { StandsAt (λ due course trace. RouterStands C.stands C.awaited C.number C.due A.answers A.state due course (files_meaning F.contents F.calls F.misses F.faults F.losses files.old) router.old trace) moment }
    ensures ok { (due : Due) (course : Course A.State) (trace : Trace) → RouterStands C.stands C.awaited C.number C.due A.answers A.state due course (files_meaning F.contents F.calls F.misses F.faults F.losses files.old) router.old trace → IsNow moment trace →
        IfOk result (λ outcome. AddsAnswers A.answers A.drops A.names due (λ course trace. RouterStands C.stands C.awaited C.number C.due A.answers A.state due course (files_meaning F.contents F.calls F.misses F.faults F.losses files.new) router.new trace) moment conv lines.items
        (point trace course (state_of A.state F.contents F.calls F.misses F.faults F.losses router.old.answerer files.old)) (state_of A.state F.contents F.calls F.misses F.faults F.losses router.new.answerer files.new) outcome (N.trace net.old) (N.trace net.new)) }
    ensures breaks { (due : Due) (course : Course A.State) (trace told : Trace) → RouterStands C.stands C.awaited C.number C.due A.answers A.state due course (files_meaning F.contents F.calls F.misses F.faults F.losses files.old) router.old trace → IsNow moment trace → N.trace net.old ≡ Some told →
        OnErr result (BreaksAnswers A.answers A.fails A.drops A.names due conv lines.items (point trace course (state_of A.state F.contents F.calls F.misses F.faults F.losses router.old.answerer files.old)) told (N.trace net.new) (files_meaning F.contents F.calls F.misses F.faults F.losses files.new)) }
    ensures taken { (trace : Trace) → N.trace net.old ≡ Some trace → T.taken taker.old ≡ flat_map done_of trace →
        OnOk result (Tells (λ told. T.taken taker.new ≡ flat_map done_of told) trace (N.trace net.new)) }
    ensures listening { N.listening net.new ≡ N.listening net.old }
    ensures faults { N.faults net.new ≡ N.faults net.old }
    ensures given { OnOk result (ByOrders A.answers A.drops (state_of A.state F.contents F.calls F.misses F.faults F.losses router.old.answerer files.old) (state_of A.state F.contents F.calls F.misses F.faults F.losses router.new.answerer files.new)) }
    ensures files { FilesAfterOrders A.answers A.fails A.drops (state_of A.state F.contents F.calls F.misses F.faults F.losses router.old.answerer files.old) (files_meaning F.contents F.calls F.misses F.faults F.losses files.new) }
{
    obey_lines(alloc, router, files, net, taker, moment, conv, &lines)
}

/// Obeys lines, one behind the other, up to the first behind which no other is.
fn obey_lines<C: Owes, A: Answerer, F: Files, N: Net, T: Taker>(
    alloc: Global,
    router: &mut Router<C, A>,
    files: &mut F,
    net: &mut N,
    taker: &mut T,
    moment: u64,
    conv: u32,
    lines: &[Line],
) -> Result<Outcome, NoMemory>
    requires sound { StandsAt (λ due course trace. RouterStands C.stands C.awaited C.number C.due A.answers A.state due course (files_meaning F.contents F.calls F.misses F.faults F.losses files.old) router.old trace) moment }
    ensures ok { IfOk result (λ outcome. GoesOver A.answers A.drops (λ due first more last. ObeysLines A.answers A.drops A.names due conv first lines.now more last outcome) (λ due course trace. RouterStands C.stands C.awaited C.number C.due A.answers A.state due course (files_meaning F.contents F.calls F.misses F.faults F.losses files.old) router.old trace) (λ due course trace. RouterStands C.stands C.awaited C.number C.due A.answers A.state due course (files_meaning F.contents F.calls F.misses F.faults F.losses files.new) router.new trace) moment (state_of A.state F.contents F.calls F.misses F.faults F.losses router.old.answerer files.old) (state_of A.state F.contents F.calls F.misses F.faults F.losses router.new.answerer files.new) (N.trace net.old) (N.trace net.new) (T.taken taker.old) (T.taken taker.new)) }
    ensures err { OnErr result (BreaksOver A.answers A.fails A.drops (λ due first more trace course. BreaksLines A.answers A.drops A.names due conv first lines.now more trace course) (λ due course trace. RouterStands C.stands C.awaited C.number C.due A.answers A.state due course (files_meaning F.contents F.calls F.misses F.faults F.losses files.old) router.old trace) moment (state_of A.state F.contents F.calls F.misses F.faults F.losses router.old.answerer files.old) (files_meaning F.contents F.calls F.misses F.faults F.losses files.new) (N.trace net.old) (N.trace net.new)) }
    ensures listening { N.listening net.new ≡ N.listening net.old }
    ensures faults { N.faults net.new ≡ N.faults net.old }
{
    for line in lines {
        let outcome = obey_line(alloc, router, files, net, taker, moment, conv, line)?;
        match outcome {
            Outcome::GoesOn => (),
            Outcome::Leaves => return Ok(Outcome::Leaves),
            Outcome::Quits => return Ok(Outcome::Quits),
        }
    }
    Ok(Outcome::GoesOn)
}
