//! Conversations behind a gate: what is heard, how hooks are answered, and what is given.
ghost use Rattle.std.specs.Prelude.{ℕ, OnOk, Some};
ghost use Rattle.px_event.specs.Layer.{IsSound, IsNews, MayAnswer};
ghost use Rattle.px_event.specs.declared.ask.Ask.TheVariants as asks;
ghost use Rattle.px_gate.specs.Gate.{GateStands};

use crate::diagram::{Diagram, Heed};
use crate::replies::{ReplyTurn, is_wait, reply_at, reply_of};
use crate::told::{Told, show};
use px_event::{Ask, Command, Event, Heard, Hook, Layer, Reply, Side};
use px_gate::{Gate, GateError};
use px_message::{Fault, Flow};
use px_rows::{Act, Cut, RowError, Shown, Trouble, cut_piece};
use px_text::{Bytes, NoMemory};
use std::alloc::Global;

/// What was asked and given so far, and how hooks are answered.
#[derive(Drop)]
struct Player<'a> {
    turns: &'a [ReplyTurn],
    asked: Vec<Hook>,
    moment: u64,
    step: u64,
    told: Told,
    given: Vec<Command>,
    shown: usize,
}

/// Plays the lines of the diagram with these replies to a layer behind a gate, and shows what comes of them. Behind the last reply
/// to a hook, it is gone on with.
pub fn play_lines<L: Layer>(
    alloc: Global,
    gate: &mut Gate<L>,
    diagram: &Diagram,
    turns: &[ReplyTurn],
    cut: Cut,
    out: &mut Shown,
) -> Result<(), Trouble>
    requires { IsSound (GateStands L.stands L.awaited) gate.old }
{
    let mut player = new_player(alloc, diagram.in_full, turns);
    let script = diagram.script.as_slice();
    let played = play_script(alloc, gate, &mut player, script, cut, out);
    drop(player);
    played
}

// One who has heard nothing. Where flows are told in full, each reply is one later.
fn new_player(alloc: Global, in_full: bool, turns: &[ReplyTurn]) -> Player<'_> {
    Player {
        turns,
        asked: Vec::new(alloc),
        moment: 0,
        step: u64::from(in_full),
        told: if in_full { Told::Whole } else { Told::Line },
        given: Vec::new(alloc),
        shown: 0,
    }
}

// The n-th thing is heard at moment 10 n.
fn play_script<L: Layer>(
    alloc: Global,
    gate: &mut Gate<L>,
    player: &mut Player<'_>,
    script: &[Heed],
    cut: Cut,
    out: &mut Shown,
) -> Result<(), Trouble>
    requires { IsSound (GateStands L.stands L.awaited) gate.old }
{
    let mut number = 0usize;
    for line in script {
        number = number.saturating_add(1);
        player.moment = (number as u64).saturating_mul(10);
        play_line(alloc, gate, player, number, line, cut)?;
        show_more(alloc, player, line.text.as_str(), out);
    }
    Ok(())
}

fn play_line<L: Layer>(
    alloc: Global,
    gate: &mut Gate<L>,
    player: &mut Player<'_>,
    number: usize,
    line: &Heed,
    cut: Cut,
) -> Result<(), Trouble>
    requires { IsSound (GateStands L.stands L.awaited) gate.old }
    ensures { OnOk result (IsSound (GateStands L.stands L.awaited) gate.new) }
{
    match play_act(alloc, gate, player, number, &line.act, cut) {
        Ok(()) => Ok(()),
        Err(error) => Err(error.in_line(line.number)),
    }
}

// Shows the line that was heard, and what was given behind it.
fn show_more(alloc: Global, player: &mut Player<'_>, text: &str, out: &mut Shown) {
    out.text(text);
    out.text("\n");
    if let Some(more) = player.given.get(player.shown..) {
        show(alloc, player.told, more, out);
    }
    player.shown = player.given.len();
}

fn play_act<L: Layer>(
    alloc: Global,
    gate: &mut Gate<L>,
    player: &mut Player<'_>,
    number: usize,
    act: &Act,
    cut: Cut,
) -> Result<(), RowError>
    requires { IsSound (GateStands L.stands L.awaited) gate.old }
    ensures { OnOk result (IsSound (GateStands L.stands L.awaited) gate.new) }
{
    match act {
        Act::Piece(0, side, bytes) => play_piece(alloc, gate, player, number, *side, bytes, cut),
        Act::Heard(heard) => play_heard(alloc, gate, player, heard),
        Act::Answer(reply) => answer_waiting(alloc, gate, player, reply.as_str()),
        _ => Err(RowError::Bad),
    }
}

fn play_heard<L: Layer>(
    alloc: Global,
    gate: &mut Gate<L>,
    player: &mut Player<'_>,
    heard: &Heard,
) -> Result<(), RowError>
    requires { IsSound (GateStands L.stands L.awaited) gate.old }
    ensures { OnOk result (IsSound (GateStands L.stands L.awaited) gate.new) }
{
    match heard {
        Heard::Closed { conv: 0, side } => {
            hear(alloc, gate, player, Event::Closed { side: *side })
        }
        Heard::Dialled {
            conv: 0,
            server,
            ok,
        } => answer_dial(alloc, gate, player, *server, *ok),
        _ => Err(RowError::Bad),
    }
}

fn play_piece<L: Layer>(
    alloc: Global,
    gate: &mut Gate<L>,
    player: &mut Player<'_>,
    number: usize,
    side: Side,
    bytes: &[u8],
    cut: Cut,
) -> Result<(), RowError>
    requires { IsSound (GateStands L.stands L.awaited) gate.old }
    ensures { OnOk result (IsSound (GateStands L.stands L.awaited) gate.new) }
{
    let parts = cut_piece(alloc, cut, number, bytes)?;
    for part in &parts {
        hear_piece(alloc, gate, player, side, part.as_slice())?;
    }
    Ok(())
}

fn hear_piece<L: Layer>(
    alloc: Global,
    gate: &mut Gate<L>,
    player: &mut Player<'_>,
    side: Side,
    bytes: &[u8],
) -> Result<(), RowError>
    requires { IsSound (GateStands L.stands L.awaited) gate.old }
    ensures { OnOk result (IsSound (GateStands L.stands L.awaited) gate.new) }
{
    let bytes = Bytes::copied(alloc, bytes)?;
    hear(alloc, gate, player, Event::Piece { side, bytes })
}

// The event is taken, or waits while an answer is awaited.
fn hear<L: Layer>(
    alloc: Global,
    gate: &mut Gate<L>,
    player: &mut Player<'_>,
    event: Event,
) -> Result<(), RowError>
    requires sound { IsSound (GateStands L.stands L.awaited) gate.old }
    requires news { IsNews event }
    ensures { OnOk result (IsSound (GateStands L.stands L.awaited) gate.new) }
{
    match gate.take(player.moment, event, &mut player.given) {
        Ok(()) => answer_all(alloc, gate, player),
        Err(NoMemory) => Err(RowError::NoMemory),
    }
}

// Gives the reply, where it is awaited.
fn answer<L: Layer>(
    gate: &mut Gate<L>,
    player: &mut Player<'_>,
    ask: Ask,
    reply: Reply,
) -> Result<(), RowError>
    requires sound { IsSound (GateStands L.stands L.awaited) gate.old }
    requires answers { MayAnswer (Some ask) reply }
    ensures { OnOk result (IsSound (GateStands L.stands L.awaited) gate.new) }
{
    player.moment = player.moment.saturating_add(player.step);
    match gate.answer(player.moment, ask, reply, &mut player.given) {
        Ok(()) => Ok(()),
        Err(GateError::NotAwaited) => Ok(()),
        Err(GateError::NoMemory) => Err(RowError::NoMemory),
    }
}

// Answers the dial, where it is awaited.
fn answer_dial<L: Layer>(
    alloc: Global,
    gate: &mut Gate<L>,
    player: &mut Player<'_>,
    server: u32,
    ok: bool,
) -> Result<(), RowError>
    requires { IsSound (GateStands L.stands L.awaited) gate.old }
    ensures { OnOk result (IsSound (GateStands L.stands L.awaited) gate.new) }
{
    answer(gate, player, Ask::Dial { server }, dialled(ok))?;
    answer_all(alloc, gate, player)
}

// How a dial ended.
fn dialled(ok: bool) -> Reply
    ensures { (server : ℕ) → MayAnswer (Some (asks.Dial server)) result }
{
    if ok {
        return Reply::Dialled;
    }
    Reply::Refused(Fault::NoConnection)
}

// Answers the hook that waits, and those behind it.
fn answer_waiting<L: Layer>(
    alloc: Global,
    gate: &mut Gate<L>,
    player: &mut Player<'_>,
    reply: &str,
) -> Result<(), RowError>
    requires { IsSound (GateStands L.stands L.awaited) gate.old }
    ensures { OnOk result (IsSound (GateStands L.stands L.awaited) gate.new) }
{
    match gate.waiting() {
        Some(Ask::Hook { flow, hook }) => {
            answer_by(alloc, gate, player, flow, hook, reply)?;
            answer_all(alloc, gate, player)
        }
        _ => Err(RowError::Bad),
    }
}

// Answers hooks until a dial or nothing is awaited, or a hook that is to wait. No row has more hooks.
fn answer_all<L: Layer>(
    alloc: Global,
    gate: &mut Gate<L>,
    player: &mut Player<'_>,
) -> Result<(), RowError>
    requires { IsSound (GateStands L.stands L.awaited) gate.old }
    ensures { OnOk result (IsSound (GateStands L.stands L.awaited) gate.new) }
{
    for round in 0..100u32 {
        let is_answered = answer_next(alloc, gate, player)?;
        if !is_answered {
            return Ok(());
        }
    }
    Err(RowError::Bad)
}

// Answers the hook that waits, unless it is to wait; and whether it did.
fn answer_next<L: Layer>(
    alloc: Global,
    gate: &mut Gate<L>,
    player: &mut Player<'_>,
) -> Result<bool, RowError>
    requires { IsSound (GateStands L.stands L.awaited) gate.old }
    ensures { OnOk result (IsSound (GateStands L.stands L.awaited) gate.new) }
{
    match gate.waiting() {
        Some(Ask::Hook { flow, hook }) => answer_hook(alloc, gate, player, flow, hook),
        _ => Ok(false),
    }
}

fn answer_hook<L: Layer>(
    alloc: Global,
    gate: &mut Gate<L>,
    player: &mut Player<'_>,
    flow: u32,
    hook: Hook,
) -> Result<bool, RowError>
    requires { IsSound (GateStands L.stands L.awaited) gate.old }
    ensures { OnOk result (IsSound (GateStands L.stands L.awaited) gate.new) }
{
    let reply = reply_at(player.turns, player.asked.as_slice(), hook);
    if is_wait(reply) {
        return Ok(false);
    }
    answer_by(alloc, gate, player, flow, hook, reply)?;
    Ok(true)
}

// Answers the hook with this reply.
fn answer_by<L: Layer>(
    alloc: Global,
    gate: &mut Gate<L>,
    player: &mut Player<'_>,
    flow: u32,
    hook: Hook,
    reply: &str,
) -> Result<(), RowError>
    requires { IsSound (GateStands L.stands L.awaited) gate.old }
    ensures { OnOk result (IsSound (GateStands L.stands L.awaited) gate.new) }
{
    player.asked.push(hook)?;
    match next_reply(alloc, reply, &player.given) {
        Ok(reply) => answer(gate, player, Ask::Hook { flow, hook }, reply),
        Err(error) => Err(error),
    }
}

// The reply to what was asked last.
fn next_reply(alloc: Global, reply: &str, given: &[Command]) -> Result<Reply, RowError> {
    match asked_flow(given) {
        Some(flow) => reply_of(alloc, reply, flow),
        None => Err(RowError::Bad),
    }
}

// The flow of the ask that was given last.
fn asked_flow(given: &[Command]) -> Option<&Flow> {
    match given.last() {
        Some(Command::Ask { flow, .. }) => Some(flow),
        _ => None,
    }
}
