//! One line of an operator's.
ghost use Rattle.std.specs.Prelude.{◌≡◌, ◌≢◌, ◌∷◌, ◌++◌, [], ℕ, List, Some, IfOk, OnOk, OnErr};
ghost use Rattle.std.specs.List.{flat_map};
ghost use Rattle.px_event.specs.Trace.{Trace};
ghost use Rattle.px_core.specs.Answers.{FilesMeaning, files_meaning, state_of};
ghost use Rattle.px_core.specs.Course.{Course};
ghost use Rattle.px_core.specs.Due.{Due};
ghost use Rattle.px_core.specs.Router.{RouterStands};
ghost use Rattle.px_view.specs.declared.answer.OperatorAnswer.TheVariants.{LineTooLong as TooLongAnswer};
ghost use Rattle.px_view.specs.declared.command.CommandError.TheVariants.{NoMemory as RanOut};
ghost use Rattle.px_view.specs.declared.desk.Line.TheVariants.{Text as TextOf};
ghost use Rattle.px_view.specs.Answers.{answer_text};
ghost use Rattle.px_obey.specs.declared.outcome.Outcome.TheVariants.{GoesOn as Stays, Leaves as GoesAway};
ghost use Rattle.px_obey.specs.Obeyed.{BreaksLine, ObeysLine, StandsAt, outcome_of, sent, wrong_text};
ghost use Rattle.px_obey.specs.Over.{AnswersOrder, BreaksOrder, BreaksOver, GoesOver, TellsMore, TellsSome, long_steps};

use crate::Outcome;
use crate::order::obey_order;
use crate::text::line_of;
use px_core::{Answerer, Owes, Router, Taker};
use px_event::{Said, Side};
use px_outside::{Files, Net};
use px_text::{Bytes, NoMemory};
use px_view::{CommandError, Line, OperatorAnswer, Order, read_command};
use std::alloc::Global;

/// Obeys a line: what it asks for is done, and then its answer is said.
pub(crate) fn obey_line<C: Owes, A: Answerer, F: Files, N: Net, T: Taker>(
    alloc: Global,
    router: &mut Router<C, A>,
    files: &mut F,
    net: &mut N,
    taker: &mut T,
    moment: u64,
    conv: u32,
    line: &Line,
) -> Result<Outcome, NoMemory>
    requires sound { StandsAt (λ due course trace. RouterStands C.stands C.awaited C.number C.due A.answers A.state due course (files_meaning F.contents F.calls F.misses F.faults F.losses files.old) router.old trace) moment }
    ensures ok { IfOk result (λ outcome. GoesOver A.answers A.drops (λ due first more last. ObeysLine A.answers A.drops A.names due conv line.now first more last outcome) (λ due course trace. RouterStands C.stands C.awaited C.number C.due A.answers A.state due course (files_meaning F.contents F.calls F.misses F.faults F.losses files.old) router.old trace) (λ due course trace. RouterStands C.stands C.awaited C.number C.due A.answers A.state due course (files_meaning F.contents F.calls F.misses F.faults F.losses files.new) router.new trace) moment (state_of A.state F.contents F.calls F.misses F.faults F.losses router.old.answerer files.old) (state_of A.state F.contents F.calls F.misses F.faults F.losses router.new.answerer files.new) (N.trace net.old) (N.trace net.new) (T.taken taker.old) (T.taken taker.new)) }
    ensures err { OnErr result (BreaksOver A.answers A.fails A.drops (λ due first more trace course. BreaksLine A.answers A.drops A.names due conv line.now first more trace course) (λ due course trace. RouterStands C.stands C.awaited C.number C.due A.answers A.state due course (files_meaning F.contents F.calls F.misses F.faults F.losses files.old) router.old trace) moment (state_of A.state F.contents F.calls F.misses F.faults F.losses router.old.answerer files.old) (files_meaning F.contents F.calls F.misses F.faults F.losses files.new) (N.trace net.old) (N.trace net.new)) }
    ensures listening { N.listening net.new ≡ N.listening net.old }
    ensures faults { N.faults net.new ≡ N.faults net.old }
{
    match line {
        Line::Text(text) => {
            obey_text(
                alloc,
                router,
                files,
                net,
                taker,
                moment,
                conv,
                text.as_slice(),
            )
        }
        Line::TooLong => close_long(alloc, net, conv),
    }
}

/// Obeys a line that is whole.
fn obey_text<C: Owes, A: Answerer, F: Files, N: Net, T: Taker>(
    alloc: Global,
    router: &mut Router<C, A>,
    files: &mut F,
    net: &mut N,
    taker: &mut T,
    moment: u64,
    conv: u32,
    text: &[u8],
) -> Result<Outcome, NoMemory>
    requires sound { StandsAt (λ due course trace. RouterStands C.stands C.awaited C.number C.due A.answers A.state due course (files_meaning F.contents F.calls F.misses F.faults F.losses files.old) router.old trace) moment }
    ensures ok { IfOk result (λ outcome. GoesOver A.answers A.drops (λ due first more last. ObeysLine A.answers A.drops A.names due conv (TextOf text.now) first more last outcome) (λ due course trace. RouterStands C.stands C.awaited C.number C.due A.answers A.state due course (files_meaning F.contents F.calls F.misses F.faults F.losses files.old) router.old trace) (λ due course trace. RouterStands C.stands C.awaited C.number C.due A.answers A.state due course (files_meaning F.contents F.calls F.misses F.faults F.losses files.new) router.new trace) moment (state_of A.state F.contents F.calls F.misses F.faults F.losses router.old.answerer files.old) (state_of A.state F.contents F.calls F.misses F.faults F.losses router.new.answerer files.new) (N.trace net.old) (N.trace net.new) (T.taken taker.old) (T.taken taker.new)) }
    ensures err { OnErr result (BreaksOver A.answers A.fails A.drops (λ due first more trace course. BreaksLine A.answers A.drops A.names due conv (TextOf text.now) first more trace course) (λ due course trace. RouterStands C.stands C.awaited C.number C.due A.answers A.state due course (files_meaning F.contents F.calls F.misses F.faults F.losses files.old) router.old trace) moment (state_of A.state F.contents F.calls F.misses F.faults F.losses router.old.answerer files.old) (files_meaning F.contents F.calls F.misses F.faults F.losses files.new) (N.trace net.old) (N.trace net.new)) }
    ensures listening { N.listening net.new ≡ N.listening net.old }
    ensures faults { N.faults net.new ≡ N.faults net.old }
{
    match read_command(alloc, text) {
        Ok(order) => answer_order(alloc, router, files, net, taker, moment, conv, &order),
        Err(error) => say_wrong(alloc, net, conv, error),
    }
}

/// Does what an order asks for, and says its answer.
fn answer_order<C: Owes, A: Answerer, F: Files, N: Net, T: Taker>(
    alloc: Global,
    router: &mut Router<C, A>,
    files: &mut F,
    net: &mut N,
    taker: &mut T,
    moment: u64,
    conv: u32,
    order: &Order,
) -> Result<Outcome, NoMemory>
    requires sound { StandsAt (λ due course trace. RouterStands C.stands C.awaited C.number C.due A.answers A.state due course (files_meaning F.contents F.calls F.misses F.faults F.losses files.old) router.old trace) moment }
    ensures ok { IfOk result (λ outcome. GoesOver A.answers A.drops (λ due first more last. AnswersOrder A.answers A.drops A.names due conv order.now first more last outcome) (λ due course trace. RouterStands C.stands C.awaited C.number C.due A.answers A.state due course (files_meaning F.contents F.calls F.misses F.faults F.losses files.old) router.old trace) (λ due course trace. RouterStands C.stands C.awaited C.number C.due A.answers A.state due course (files_meaning F.contents F.calls F.misses F.faults F.losses files.new) router.new trace) moment (state_of A.state F.contents F.calls F.misses F.faults F.losses router.old.answerer files.old) (state_of A.state F.contents F.calls F.misses F.faults F.losses router.new.answerer files.new) (N.trace net.old) (N.trace net.new) (T.taken taker.old) (T.taken taker.new)) }
    ensures err { OnErr result (BreaksOver A.answers A.fails A.drops (λ due first more trace course. BreaksOrder A.answers A.drops A.names due order.now first more trace course) (λ due course trace. RouterStands C.stands C.awaited C.number C.due A.answers A.state due course (files_meaning F.contents F.calls F.misses F.faults F.losses files.old) router.old trace) moment (state_of A.state F.contents F.calls F.misses F.faults F.losses router.old.answerer files.old) (files_meaning F.contents F.calls F.misses F.faults F.losses files.new) (N.trace net.old) (N.trace net.new)) }
    ensures listening { N.listening net.new ≡ N.listening net.old }
    ensures faults { N.faults net.new ≡ N.faults net.old }
{
    let text = obey_order(alloc, router, files, net, taker, moment, order)?;
    say(net, conv, text)?;
    Ok(outcome_of(order))
}

/// What becomes of the connection behind an order.
fn outcome_of(order: &Order) -> Outcome
    ensures { result ≡ outcome_of order.now }
{
    match order {
        Order::Quit => Outcome::Quits,
        _ => Outcome::GoesOn,
    }
}

/// Says why a line is no order. Out of memory is no such reason.
fn say_wrong<N: Net>(
    alloc: Global,
    net: &mut N,
    conv: u32,
    error: CommandError,
) -> Result<Outcome, NoMemory>
    ensures ok { IfOk result (λ outcome. (error ≢ RanOut) × (outcome ≡ Stays) × TellsMore (N.trace net.old) (N.trace net.new) (sent conv (wrong_text error) ∷ [])) }
    ensures err { OnErr result (N.trace net.new ≡ N.trace net.old) }
    ensures listening { N.listening net.new ≡ N.listening net.old }
    ensures faults { N.faults net.new ≡ N.faults net.old }
{
    match error {
        CommandError::UnknownCommand => say_line(alloc, net, conv, OperatorAnswer::UnknownCommand),
        CommandError::BadNumber => say_line(alloc, net, conv, OperatorAnswer::BadNumber),
        CommandError::NoMemory => Err(NoMemory),
    }
}

/// Says that a line is too long, and closes the connection.
fn close_long<N: Net>(alloc: Global, net: &mut N, conv: u32) -> Result<Outcome, NoMemory>
    ensures ok { IfOk result (λ outcome. (outcome ≡ GoesAway) × TellsMore (N.trace net.old) (N.trace net.new) (long_steps conv)) }
    ensures err { OnErr result (TellsSome (N.trace net.old) (N.trace net.new) (sent conv (answer_text TooLongAnswer) ∷ [])) }
    ensures listening { N.listening net.new ≡ N.listening net.old }
    ensures faults { N.faults net.new ≡ N.faults net.old }
{
    let _said = say_line(alloc, net, conv, OperatorAnswer::LineTooLong)?;
    net.say(conv, Said::Close { side: Side::Client })?;
    Ok(Outcome::Leaves)
}

/// Says an answer of one line.
fn say_line<N: Net>(
    alloc: Global,
    net: &mut N,
    conv: u32,
    answer: OperatorAnswer,
) -> Result<Outcome, NoMemory>
    ensures ok { IfOk result (λ outcome. (outcome ≡ Stays) × TellsMore (N.trace net.old) (N.trace net.new) (sent conv (answer_text answer) ∷ [])) }
    ensures err { OnErr result (N.trace net.new ≡ N.trace net.old) }
    ensures listening { N.listening net.new ≡ N.listening net.old }
    ensures faults { N.faults net.new ≡ N.faults net.old }
{
    let line = line_of(alloc, answer)?;
    say(net, conv, line)?;
    Ok(Outcome::GoesOn)
}

/// Says a text to the operator.
fn say<N: Net>(net: &mut N, conv: u32, text: Vec<u8>) -> Result<(), NoMemory>
    ensures ok { OnOk result (TellsMore (N.trace net.old) (N.trace net.new) (sent conv text.items ∷ [])) }
    ensures err { OnErr result (N.trace net.new ≡ N.trace net.old) }
    ensures listening { N.listening net.new ≡ N.listening net.old }
    ensures faults { N.faults net.new ≡ N.faults net.old }
{
    let bytes = Bytes::new(text)?;
    net.say(
        conv,
        Said::Send {
            side: Side::Client,
            bytes,
        },
    )
}
