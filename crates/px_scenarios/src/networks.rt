//! Networks in memory.
ghost use Rattle.std.specs.Prelude.{◌≡◌, IfOk};
ghost use Rattle.px_outside.specs.Net.{IsNote, idle};

use crate::net_calls;
use crate::net_calls::{conversation_of, show_fault, side_of};
use crate::parts::{address, begin_answer, halves, push_numbers, show_bytes, word_of};
use px_event::{Ask, Heard, Hook, Reply, Step};
use px_outside::{Net, ScriptNet};
use px_rows::{Act, RowError, Shown, piece, read_act, read_u32};
use std::alloc::Global;

/// What a network answers when it is to listen, and what its calls answer.
pub(crate) fn answer(alloc: Global, input: &str, out: &mut Shown) -> Result<(), RowError> {
    let (given, calls) = halves(input);
    let mut net = new_net(alloc, given)?;
    let answer = play_all(alloc, &mut net, calls, out);
    drop(net);
    answer
}

fn play_all(
    alloc: Global,
    net: &mut ScriptNet,
    calls: &str,
    out: &mut Shown,
) -> Result<(), RowError>
    requires { net.old.listening ≡ idle }
{
    listen(alloc, net, out)?;
    play_calls(alloc, net, calls, out)
}

fn play_calls(
    alloc: Global,
    net: &mut ScriptNet,
    calls: &str,
    out: &mut Shown,
) -> Result<(), RowError> {
    for call in calls.split("; ") {
        begin_answer(out);
        play_call(alloc, net, call, out)?;
    }
    Ok(())
}

// At both doors.
fn listen(alloc: Global, net: &mut ScriptNet, out: &mut Shown) -> Result<(), RowError>
    requires { net.old.listening ≡ idle }
{
    let address = address(alloc)?;
    match net.listen(&address, Some(&address)) {
        Ok(()) => {
            out.text("ok");
            Ok(())
        }
        Err(error) => show_fault(out, error),
    }
}

fn new_net(alloc: Global, given: &str) -> Result<ScriptNet, RowError>
    ensures { IfOk result (λ net. net.listening ≡ idle) }
{
    let mut script = Vec::new(alloc);
    let mut fails = Vec::new(alloc);
    read_parts(alloc, given, &mut script, &mut fails)?;
    Ok(ScriptNet::new(alloc, script, fails))
}

fn read_parts(
    alloc: Global,
    given: &str,
    script: &mut Vec<(u64, Heard)>,
    fails: &mut Vec<u64>,
) -> Result<(), RowError> {
    for part in given.split("; ") {
        match part.strip_prefix("fails at ") {
            Some(numbers) => push_numbers(numbers, fails)?,
            None => push_heard(alloc, part, script)?,
        }
    }
    Ok(())
}

// A moment, and a line of what is heard.
fn push_heard(alloc: Global, part: &str, script: &mut Vec<(u64, Heard)>) -> Result<(), RowError> {
    if part.is_empty() {
        return Ok(());
    }
    let (moment, line) = word_of(part);
    let moment = u64::from(read_u32(moment)?);
    let heard = heard_of(alloc, line)?;
    script.push((moment, heard))?;
    Ok(())
}

fn heard_of(alloc: Global, line: &str) -> Result<Heard, RowError> {
    match read_act(alloc, line) {
        Ok(act) => heard_in(alloc, act),
        Err(error) => Err(error),
    }
}

fn heard_in(alloc: Global, act: Act) -> Result<Heard, RowError> {
    match act {
        Act::Heard(heard) => Ok(heard),
        Act::Piece(conv, side, bytes) => piece(alloc, conv, side, &bytes),
        other => {
            drop(other);
            Err(RowError::Bad)
        }
    }
}

fn play_call(
    alloc: Global,
    net: &mut ScriptNet,
    call: &str,
    out: &mut Shown,
) -> Result<(), RowError> {
    match word_of(call) {
        ("ask", "") => note(net, asked(), out),
        ("kill", "") => note(net, killed(), out),
        ("sent", side) => show_sent(out, net, side),
        ("steps", "") => {
            out.number(net.trace().len() as u64);
            Ok(())
        }
        ("step", number) => show_step(out, net.trace(), number),
        _ => net_calls::play_call(alloc, net, call, out),
    }
}

fn note<N: Net>(net: &mut N, step: Step, out: &mut Shown) -> Result<(), RowError>
    requires { IsNote step }
{
    let noted = net.note(&step);
    drop(step);
    noted?;
    out.text("ok");
    Ok(())
}

const ASK: Ask = Ask::Hook {
    flow: 0,
    hook: Hook::RequestHead,
};

// Conversation 1 asks a hook.
fn asked() -> Step
    ensures { IsNote result }
{
    Step::Asked { conv: 1, ask: ASK }
}

// That hook is answered with the flow's end.
fn killed() -> Step
    ensures { IsNote result }
{
    Step::Answered {
        conv: 1,
        ask: ASK,
        reply: Reply::Kill,
    }
}

fn show_sent(out: &mut Shown, net: &ScriptNet, text: &str) -> Result<(), RowError> {
    let (conv, side) = conversation_of(text);
    let side = side_of(side)?;
    let bytes = net.sent(conv, side)?;
    show_bytes(out, &bytes);
    Ok(())
}

// The step of this number, counted from 0.
fn show_step(out: &mut Shown, trace: &[Step], number: &str) -> Result<(), RowError> {
    let number = read_u32(number)?;
    match trace.get(number as usize) {
        Some(step) => {
            out.debug(step);
            Ok(())
        }
        None => Err(RowError::Bad),
    }
}
