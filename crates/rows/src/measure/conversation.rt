//! Whole conversations: what a client and a server say goes through, and every hook is gone on with.
ghost use Rattle.std.specs.Prelude.{Some, IfOk, OnOk};
ghost use Rattle.px_event.specs.Layer.{IsSound, MayAnswer};
ghost use Rattle.px_gate.specs.Gate.{GateStands};
ghost use Rattle.px_http.specs.Stands.{HttpStands, awaits};

use crate::measure::framing::{Framing, end_of, make_framed, make_piece};
use px_event::{Ask, Command, Event, Layer, Reply, Side};
use px_gate::{Gate, GateError};
use px_http::HttpConv;
use px_message::{Address, Host};
use px_stream::Place;
use px_text::{Bytes, NoMemory};
use std::alloc::Global;

/// How many bytes were given to each peer.
#[derive(Clone, Copy)]
pub(crate) struct Sent {
    pub(crate) server: u64,
    pub(crate) client: u64,
}

/// What a conversation gave that is not counted yet, and what was counted.
#[derive(Drop)]
struct Given {
    commands: Vec<Command>,
    sent: Sent,
}

/// A body of so many pieces that are alike, and how long it is.
#[derive(Drop)]
struct Pieces {
    framing: Framing,
    piece: Bytes,
    count: u64,
    total: u64,
}

/// What is given of a POST and its response, each with a body of so many pieces of this size.
pub(crate) fn post(
    alloc: Global,
    framing: Framing,
    size: u64,
    pieces: u64,
) -> Result<Sent, NoMemory> {
    let piece = Bytes::new(make_piece(alloc, framing, size)?)?;
    let body = Pieces {
        framing,
        piece,
        count: pieces,
        total: size.saturating_mul(pieces),
    };
    let mut gate = begin(alloc)?;
    let sent = say_post(alloc, &mut gate, &body);
    drop(gate);
    sent
}

/// What is given of so many GETs that come in one piece, and of their responses, each in a piece of its own. One server is
/// dialled, for the first request, and its connection is kept for the others.
pub(crate) fn gets(alloc: Global, count: u64) -> Result<Sent, NoMemory> {
    let mut requests = Vec::new(alloc);
    for _ in 0..count {
        requests.extend_from_slice(b"GET / HTTP/1.1\r\nHost: h\r\n\r\n")?;
    }
    let requests = Bytes::new(requests)?;
    let mut gate = begin(alloc)?;
    let sent = say_gets(alloc, &mut gate, requests, count);
    drop(gate);
    sent
}

// A conversation whose requests all go to one server.
fn begin(alloc: Global) -> Result<Gate<HttpConv>, NoMemory>
    ensures { IfOk result (IsSound (GateStands HttpStands awaits)) }
{
    let address = Address {
        host: host_of_server(alloc)?,
        port: 80,
    };
    let place = Place::Fixed {
        address,
        inside: None,
    };
    let conversation = HttpConv::new(alloc, 0, None, place, None, 0, 0)?;
    Ok(Gate::new(alloc, conversation))
}

fn host_of_server(alloc: Global) -> Result<Host, NoMemory> {
    let name = Vec::from_slice(alloc, b"h")?;
    match Host::try_new(alloc, name) {
        Ok(host) => Ok(host),
        Err(_) => Err(NoMemory),
    }
}

fn nothing_given(alloc: Global) -> Given {
    Given {
        commands: Vec::new(alloc),
        sent: Sent {
            server: 0,
            client: 0,
        },
    }
}

fn say_post<L: Layer>(alloc: Global, gate: &mut Gate<L>, body: &Pieces) -> Result<Sent, NoMemory>
    requires { IsSound (GateStands L.stands L.awaited) gate.old }
{
    let mut given = nothing_given(alloc);
    let said = say_both(alloc, gate, &mut given, body);
    let sent = given.sent;
    drop(given);
    said?;
    Ok(sent)
}

// The client says a POST, and the server its response.
fn say_both<L: Layer>(
    alloc: Global,
    gate: &mut Gate<L>,
    given: &mut Given,
    body: &Pieces,
) -> Result<(), NoMemory>
    requires { IsSound (GateStands L.stands L.awaited) gate.old }
{
    let request = b"POST / HTTP/1.1\r\nHost: h\r\n";
    say_message(alloc, gate, given, Side::Client, request, body)?;
    let response = b"HTTP/1.1 200 OK\r\n";
    say_message(alloc, gate, given, Side::Server(0), response, body)
}

fn say_gets<L: Layer>(
    alloc: Global,
    gate: &mut Gate<L>,
    requests: Bytes,
    count: u64,
) -> Result<Sent, NoMemory>
    requires { IsSound (GateStands L.stands L.awaited) gate.old }
{
    let response = Bytes::copied(alloc, b"HTTP/1.1 200 OK\r\nContent-Length: 0\r\n\r\n")?;
    let mut given = nothing_given(alloc);
    let said = say_all(gate, &mut given, requests, &response, count);
    let sent = given.sent;
    drop(given);
    said?;
    Ok(sent)
}

// The client says its requests, and the server so many responses, one after the other.
fn say_all<L: Layer>(
    gate: &mut Gate<L>,
    given: &mut Given,
    requests: Bytes,
    response: &Bytes,
    count: u64,
) -> Result<(), NoMemory>
    requires { IsSound (GateStands L.stands L.awaited) gate.old }
{
    say(gate, given, Side::Client, requests)?;
    say_often(gate, given, Side::Server(0), response, count)
}

// The side says a message with these first lines and this body.
fn say_message<L: Layer>(
    alloc: Global,
    gate: &mut Gate<L>,
    given: &mut Given,
    side: Side,
    start: &[u8],
    body: &Pieces,
) -> Result<(), NoMemory>
    requires { IsSound (GateStands L.stands L.awaited) gate.old }
    ensures { OnOk result (IsSound (GateStands L.stands L.awaited) gate.new) }
{
    let head = make_framed(alloc, start, body.framing, body.total)?;
    say(gate, given, side, Bytes::new(head)?)?;
    say_often(gate, given, side, &body.piece, body.count)?;
    say(
        gate,
        given,
        side,
        Bytes::copied(alloc, end_of(body.framing))?,
    )
}

// The side says this piece so often.
fn say_often<L: Layer>(
    gate: &mut Gate<L>,
    given: &mut Given,
    side: Side,
    piece: &Bytes,
    times: u64,
) -> Result<(), NoMemory>
    requires { IsSound (GateStands L.stands L.awaited) gate.old }
    ensures { OnOk result (IsSound (GateStands L.stands L.awaited) gate.new) }
{
    for _ in 0..times {
        say(gate, given, side, piece.try_clone()?)?;
    }
    Ok(())
}

// The side says this piece, and all that is asked then is answered.
fn say<L: Layer>(
    gate: &mut Gate<L>,
    given: &mut Given,
    side: Side,
    bytes: Bytes,
) -> Result<(), NoMemory>
    requires { IsSound (GateStands L.stands L.awaited) gate.old }
    ensures { OnOk result (IsSound (GateStands L.stands L.awaited) gate.new) }
{
    gate.take(0, Event::Piece { side, bytes }, &mut given.commands)?;
    answer_all(gate, given)?;
    count(given);
    Ok(())
}

// Answers what is asked. One piece leads to four hooks and a dial at most, in each flow that it holds.
fn answer_all<L: Layer>(gate: &mut Gate<L>, given: &mut Given) -> Result<(), NoMemory>
    requires { IsSound (GateStands L.stands L.awaited) gate.old }
    ensures { OnOk result (IsSound (GateStands L.stands L.awaited) gate.new) }
{
    for _ in 0..16u32 {
        let is_answered = answer_next(gate, given)?;
        if !is_answered {
            return Ok(());
        }
    }
    Ok(())
}

// Answers what is awaited, if something is; and whether it did.
fn answer_next<L: Layer>(gate: &mut Gate<L>, given: &mut Given) -> Result<bool, NoMemory>
    requires { IsSound (GateStands L.stands L.awaited) gate.old }
    ensures { OnOk result (IsSound (GateStands L.stands L.awaited) gate.new) }
{
    match gate.waiting() {
        Some(ask) => answer_ask(gate, given, ask),
        None => Ok(false),
    }
}

// Dials succeed, and hooks are gone on with the flow as it was asked.
fn answer_ask<L: Layer>(gate: &mut Gate<L>, given: &mut Given, ask: Ask) -> Result<bool, NoMemory>
    requires { IsSound (GateStands L.stands L.awaited) gate.old }
    ensures { OnOk result (IsSound (GateStands L.stands L.awaited) gate.new) }
{
    match ask {
        Ask::Dial { .. } => answer(gate, given, ask, Reply::Dialled),
        Ask::Hook { .. } => match given.commands.pop() {
            Some(Command::Ask { flow, .. }) => {
                answer(gate, given, ask, Reply::Go { flow, stream: None })
            }
            other => {
                drop(other);
                Ok(false)
            }
        },
    }
}

// Gives the reply to what is awaited.
fn answer<L: Layer>(
    gate: &mut Gate<L>,
    given: &mut Given,
    ask: Ask,
    reply: Reply,
) -> Result<bool, NoMemory>
    requires sound { IsSound (GateStands L.stands L.awaited) gate.old }
    requires answers { MayAnswer (Some ask) reply }
    ensures { OnOk result (IsSound (GateStands L.stands L.awaited) gate.new) }
{
    match gate.answer(0, ask, reply, &mut given.commands) {
        Ok(()) => Ok(true),
        Err(GateError::NotAwaited) => Ok(true),
        Err(GateError::NoMemory) => Err(NoMemory),
    }
}

// Takes what was given, and counts its bytes.
fn count(given: &mut Given) {
    for command in &given.commands {
        add(command, &mut given.sent);
    }
    given.commands.clear();
}

fn add(command: &Command, sent: &mut Sent) {
    match command {
        Command::Send { side, bytes } => add_bytes(*side, bytes.len() as u64, sent),
        _ => {}
    }
}

fn add_bytes(side: Side, len: u64, sent: &mut Sent) {
    match side {
        Side::Client => sent.client = sent.client.saturating_add(len),
        Side::Server(_) => sent.server = sent.server.saturating_add(len),
    }
}
