//! An order of an operator's, and the text of its answer.
ghost use Rattle.std.specs.Prelude.{◌≡◌, ◌++◌, ℕ, List, Some, IfOk, OnOk, OnErr};
ghost use Rattle.std.specs.List.{flat_map};
ghost use Rattle.px_event.specs.Trace.{Trace};
ghost use Rattle.px_core.specs.Answers.{FilesMeaning, files_meaning, state_of};
ghost use Rattle.px_core.specs.Course.{Course};
ghost use Rattle.px_core.specs.Due.{Due};
ghost use Rattle.px_core.specs.Router.{RouterStands};
ghost use Rattle.px_view.specs.declared.command.Order.TheVariants.{Act as DoesThis};
ghost use Rattle.px_view.specs.Answers.{answer_text};
ghost use Rattle.px_view.specs.Entry.{entry_line};
ghost use Rattle.px_view.specs.Show.{show_text};
ghost use Rattle.px_obey.specs.Obeyed.{Obeys, StandsAt};
ghost use Rattle.px_obey.specs.Over.{BreaksOrder, BreaksOver, GoesOver, IsListOf, IsShownOf};

use crate::text::{flow_text, line_of, list_text, part_text};
use px_core::{Answerer, OperateError, Operation, Owes, Router, Taker, operate_over};
use px_message::FlowId;
use px_outside::{Files, Net};
use px_text::NoMemory;
use px_view::{OperatorAnswer, Order};
use std::alloc::Global;

/// Does what an order asks for, and gives the text of its answer.
pub(crate) fn obey_order<C: Owes, A: Answerer, F: Files, N: Net, T: Taker>(
    alloc: Global,
    router: &mut Router<C, A>,
    files: &mut F,
    net: &mut N,
    taker: &mut T,
    moment: u64,
    order: &Order,
) -> Result<Vec<u8>, NoMemory>
    requires sound { StandsAt (λ due course trace. RouterStands C.stands C.awaited C.number C.due A.answers A.state due course (files_meaning F.contents F.calls F.misses F.faults F.losses files.old) router.old trace) moment }
    ensures ok { IfOk result (λ text. GoesOver A.answers A.drops (λ due first more last. Obeys A.answers A.drops A.names due order.now first more text.items last) (λ due course trace. RouterStands C.stands C.awaited C.number C.due A.answers A.state due course (files_meaning F.contents F.calls F.misses F.faults F.losses files.old) router.old trace) (λ due course trace. RouterStands C.stands C.awaited C.number C.due A.answers A.state due course (files_meaning F.contents F.calls F.misses F.faults F.losses files.new) router.new trace) moment (state_of A.state F.contents F.calls F.misses F.faults F.losses router.old.answerer files.old) (state_of A.state F.contents F.calls F.misses F.faults F.losses router.new.answerer files.new) (N.trace net.old) (N.trace net.new) (T.taken taker.old) (T.taken taker.new)) }
    ensures err { OnErr result (BreaksOver A.answers A.fails A.drops (λ due first more trace course. BreaksOrder A.answers A.drops A.names due order.now first more trace course) (λ due course trace. RouterStands C.stands C.awaited C.number C.due A.answers A.state due course (files_meaning F.contents F.calls F.misses F.faults F.losses files.old) router.old trace) moment (state_of A.state F.contents F.calls F.misses F.faults F.losses router.old.answerer files.old) (files_meaning F.contents F.calls F.misses F.faults F.losses files.new) (N.trace net.old) (N.trace net.new)) }
    ensures listening { N.listening net.new ≡ N.listening net.old }
    ensures faults { N.faults net.new ≡ N.faults net.old }
{
    match order {
        Order::List => list_order(alloc, router),
        Order::Show(id) => show_order(alloc, router, *id),
        Order::Entry(id, from) => entry_order(alloc, router, *id, *from),
        Order::Act(operation) => act_order(alloc, router, files, net, taker, moment, operation),
        Order::Quit => line_of(alloc, OperatorAnswer::Bye),
    }
}

/// Does an operation, and gives the text of its answer.
fn act_order<C: Owes, A: Answerer, F: Files, N: Net, T: Taker>(
    alloc: Global,
    router: &mut Router<C, A>,
    files: &mut F,
    net: &mut N,
    taker: &mut T,
    moment: u64,
    operation: &Operation,
) -> Result<Vec<u8>, NoMemory>
    requires sound { StandsAt (λ due course trace. RouterStands C.stands C.awaited C.number C.due A.answers A.state due course (files_meaning F.contents F.calls F.misses F.faults F.losses files.old) router.old trace) moment }
    ensures ok { IfOk result (λ text. GoesOver A.answers A.drops (λ due first more last. Obeys A.answers A.drops A.names due (DoesThis operation.now) first more text.items last) (λ due course trace. RouterStands C.stands C.awaited C.number C.due A.answers A.state due course (files_meaning F.contents F.calls F.misses F.faults F.losses files.old) router.old trace) (λ due course trace. RouterStands C.stands C.awaited C.number C.due A.answers A.state due course (files_meaning F.contents F.calls F.misses F.faults F.losses files.new) router.new trace) moment (state_of A.state F.contents F.calls F.misses F.faults F.losses router.old.answerer files.old) (state_of A.state F.contents F.calls F.misses F.faults F.losses router.new.answerer files.new) (N.trace net.old) (N.trace net.new) (T.taken taker.old) (T.taken taker.new)) }
    ensures err { OnErr result (BreaksOver A.answers A.fails A.drops (λ due first more trace course. BreaksOrder A.answers A.drops A.names due (DoesThis operation.now) first more trace course) (λ due course trace. RouterStands C.stands C.awaited C.number C.due A.answers A.state due course (files_meaning F.contents F.calls F.misses F.faults F.losses files.old) router.old trace) moment (state_of A.state F.contents F.calls F.misses F.faults F.losses router.old.answerer files.old) (files_meaning F.contents F.calls F.misses F.faults F.losses files.new) (N.trace net.old) (N.trace net.new)) }
    ensures listening { N.listening net.new ≡ N.listening net.old }
    ensures faults { N.faults net.new ≡ N.faults net.old }
{
    let answer = act(alloc, router, files, net, taker, moment, operation)?;
    line_of(alloc, answer)
}

/// Does an operation, and tells what it is answered.
fn act<C: Owes, A: Answerer, F: Files, N: Net, T: Taker>(
    alloc: Global,
    router: &mut Router<C, A>,
    files: &mut F,
    net: &mut N,
    taker: &mut T,
    moment: u64,
    operation: &Operation,
) -> Result<OperatorAnswer, NoMemory>
    requires sound { StandsAt (λ due course trace. RouterStands C.stands C.awaited C.number C.due A.answers A.state due course (files_meaning F.contents F.calls F.misses F.faults F.losses files.old) router.old trace) moment }
    ensures ok { IfOk result (λ answer. GoesOver A.answers A.drops (λ due first more last. Obeys A.answers A.drops A.names due (DoesThis operation.now) first more (answer_text answer) last) (λ due course trace. RouterStands C.stands C.awaited C.number C.due A.answers A.state due course (files_meaning F.contents F.calls F.misses F.faults F.losses files.old) router.old trace) (λ due course trace. RouterStands C.stands C.awaited C.number C.due A.answers A.state due course (files_meaning F.contents F.calls F.misses F.faults F.losses files.new) router.new trace) moment (state_of A.state F.contents F.calls F.misses F.faults F.losses router.old.answerer files.old) (state_of A.state F.contents F.calls F.misses F.faults F.losses router.new.answerer files.new) (N.trace net.old) (N.trace net.new) (T.taken taker.old) (T.taken taker.new)) }
    ensures err { OnErr result (BreaksOver A.answers A.fails A.drops (λ due first more trace course. BreaksOrder A.answers A.drops A.names due (DoesThis operation.now) first more trace course) (λ due course trace. RouterStands C.stands C.awaited C.number C.due A.answers A.state due course (files_meaning F.contents F.calls F.misses F.faults F.losses files.old) router.old trace) moment (state_of A.state F.contents F.calls F.misses F.faults F.losses router.old.answerer files.old) (files_meaning F.contents F.calls F.misses F.faults F.losses files.new) (N.trace net.old) (N.trace net.new)) }
    ensures listening { N.listening net.new ≡ N.listening net.old }
    ensures faults { N.faults net.new ≡ N.faults net.old }
{
    match operate_over(alloc, router, files, net, taker, moment, operation) {
        Ok(()) => Ok(OperatorAnswer::Done),
        Err(OperateError::NoSuchFlow) => Ok(OperatorAnswer::NoSuchFlow),
        Err(OperateError::NotWaiting) => Ok(OperatorAnswer::NotWaiting),
        Err(OperateError::NotThere) => Ok(OperatorAnswer::NotThere),
        Err(OperateError::BadValue) => Ok(OperatorAnswer::BadValue),
        Err(OperateError::NoSuchAddon) => Ok(OperatorAnswer::NoSuchAddon),
        Err(OperateError::NoMemory) => Err(NoMemory),
    }
}

/// The text of the live flows.
fn list_order<C: Owes, A: Answerer>(
    alloc: Global,
    router: &Router<C, A>,
) -> Result<Vec<u8>, NoMemory>
    ensures lists { (due : Due) (course : Course A.State) (files : FilesMeaning) (trace : Trace) → RouterStands C.stands C.awaited C.number C.due A.answers A.state due course files router.now trace →
        IfOk result (λ text. IsListOf trace text.items) }
{
    let list = router.live()?;
    list_text(alloc, &list)
}

/// The text of a flow as it was asked about last.
fn show_order<C: Owes, A: Answerer>(
    alloc: Global,
    router: &Router<C, A>,
    id: FlowId,
) -> Result<Vec<u8>, NoMemory>
    ensures shows { (due : Due) (course : Course A.State) (files : FilesMeaning) (trace : Trace) → RouterStands C.stands C.awaited C.number C.due A.answers A.state due course files router.now trace →
        IfOk result (λ text. IsShownOf A.answers due course trace show_text id text.items) }
{
    match router.flow(id) {
        Some(flow) => flow_text(alloc, flow),
        None => line_of(alloc, OperatorAnswer::NoSuchFlow),
    }
}

/// The text of a part of the entry of a flow as it was asked about last, from that byte on.
fn entry_order<C: Owes, A: Answerer>(
    alloc: Global,
    router: &Router<C, A>,
    id: FlowId,
    from: u64,
) -> Result<Vec<u8>, NoMemory>
    ensures gives { (due : Due) (course : Course A.State) (files : FilesMeaning) (trace : Trace) → RouterStands C.stands C.awaited C.number C.due A.answers A.state due course files router.now trace →
        IfOk result (λ text. IsShownOf A.answers due course trace (entry_line from) id text.items) }
{
    match router.flow(id) {
        Some(flow) => part_text(alloc, flow, from),
        None => line_of(alloc, OperatorAnswer::NoSuchFlow),
    }
}
