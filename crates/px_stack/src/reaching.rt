//! Another proxy, which is asked for a tunnel: what is heard meanwhile, and its answer.
ghost use Rattle.std.specs.Prelude.{◌≡◌, ◌++◌, ℕ, List, IfOk};
ghost use Rattle.px_event.specs.Trace.{is_same_side};
ghost use Rattle.px_event.specs.declared.side.Side.TheVariants.{Client as TheClient, Server as TheServer};
ghost use Rattle.px_event.specs.Sides.{closes, piece_of};
ghost use Rattle.px_tunnel.specs.Reaching.{HasHeard};
ghost use Rattle.px_stack.specs.Kept.{goal_left};
ghost use Rattle.px_stack.specs.Reached.{HearsProxy, says_answer, says_close, tunnel_behind};
ghost use Rattle.px_stack.specs.Stages.{Visitor};
ghost use Rattle.px_stack.specs.Steps.{HearsGoal, IsGoalSomewhere};

use crate::child::{Goal, Opening};
use px_event::{Event, Side};
use px_text::{Bytes, NoMemory};
use px_tunnel::{ProxyAnswer, UpstreamTunnel};
use std::alloc::Global;

/// What an event has told of a proxy's answer.
#[derive(Clone, Copy, Debug, PartialEq, Eq)]
pub enum ProxySays {
    /// Nothing yet.
    Nothing,
    /// The tunnel stands.
    Yes,
    /// It does not; whether the proxy's side has closed.
    No { shut: bool },
}

/// Reads what the event brings of the proxy, whose side has this number.
pub fn hear_proxy(
    asked: &mut UpstreamTunnel,
    server: u32,
    event: &Event,
) -> Result<ProxySays, NoMemory>
    requires awaited { (text : List ℕ) × HasHeard asked.old text }
    ensures hears { IfOk result (λ says. HearsProxy server asked.old asked.new event.now says) }
{
    match event {
        Event::Piece { side, bytes } => hear_piece(asked, server, *side, bytes),
        Event::Closed { side } => Ok(says_close(is_of(server, *side))),
        _ => Ok(ProxySays::Nothing),
    }
}

// Reads a piece, if it is the proxy's.
fn hear_piece(
    asked: &mut UpstreamTunnel,
    server: u32,
    side: Side,
    bytes: &Bytes,
) -> Result<ProxySays, NoMemory>
    requires awaited { (text : List ℕ) × HasHeard asked.old text }
    ensures hears { IfOk result (λ says. HearsProxy server asked.old asked.new (Event.Piece side bytes.now) says) }
{
    if !is_of(server, side) {
        return Ok(ProxySays::Nothing);
    }
    Ok(says_answer(asked.hear(bytes)?))
}

// Whether a side is that of this server.
fn is_of(server: u32, side: Side) -> bool
    ensures { result ≡ is_same_side side (TheServer server) }
{
    match side {
        Side::Server(number) => number == server,
        Side::Client => false,
    }
}

// What the proxy's text says.
fn says_answer(answer: ProxyAnswer) -> ProxySays
    ensures { result ≡ says_answer answer }
{
    match answer {
        ProxyAnswer::Awaited => ProxySays::Nothing,
        ProxyAnswer::Granted => ProxySays::Yes,
        ProxyAnswer::Refused => ProxySays::No { shut: false },
    }
}

// What a close says, if it is the proxy's.
fn says_close(closes: bool) -> ProxySays
    ensures { result ≡ says_close closes }
{
    if closes {
        ProxySays::No { shut: true }
    } else {
        ProxySays::Nothing
    }
}

// Whether the event is the client's close.
fn closes_client(event: &Event) -> bool
    ensures { result ≡ closes TheClient event.now }
{
    match event {
        Event::Closed { side } => match side {
            Side::Client => true,
            Side::Server(_) => false,
        },
        _ => false,
    }
}

/// Hears the event for what waits for the proxy: the client's bytes and its close, and for a flow what a parked side does. Behind the
/// client's close nothing is heard.
pub fn hear_goal(alloc: Global, goal: Goal, event: &Event) -> Result<Goal, NoMemory>
    requires there { IsGoalSomewhere goal }
    ensures hears { IfOk result (λ next. (conv : ℕ) (client : Visitor) (moment : ℕ) → HearsGoal conv client goal next moment event.now) }
    ensures left { IfOk result (λ next. goal_left next ≡ goal_left goal) }
{
    match goal {
        Goal::Tunnel { opening, closed } => hear_tunnel(alloc, opening, closed, event),
        Goal::Flow(http) => {
            let mut http = http;
            http.hear_waiting(event)?;
            Ok(Goal::Flow(http))
        }
    }
}

// What the event brings of the client, if that has not closed.
fn hear_tunnel(
    alloc: Global,
    opening: Opening,
    closed: bool,
    event: &Event,
) -> Result<Goal, NoMemory>
    ensures { IfOk result (λ next. next ≡ tunnel_behind opening closed event.now) }
{
    if closed {
        return Ok(Goal::Tunnel { opening, closed });
    }
    let opening = hear_client(alloc, opening, event)?;
    Ok(Goal::Tunnel {
        opening,
        closed: closes_client(event),
    })
}

// The client's bytes of the event.
fn hear_client(alloc: Global, opening: Opening, event: &Event) -> Result<Opening, NoMemory>
    ensures { IfOk result (λ longer. longer ≡ record opening { rest = opening.rest ++ piece_of TheClient event.now }) }
{
    match event {
        Event::Piece { side, bytes } => match side {
            Side::Client => add(alloc, opening, bytes),
            Side::Server(_) => Ok(opening),
        },
        _ => Ok(opening),
    }
}

/// What the client has sent behind a CONNECT, with more behind it.
pub fn add(alloc: Global, opening: Opening, bytes: &Bytes) -> Result<Opening, NoMemory>
    ensures { IfOk result (λ longer. longer ≡ record opening { rest = opening.rest ++ bytes.now }) }
{
    let Opening {
        flow,
        dials,
        address,
        proxy,
        rest,
    } = opening;
    Ok(Opening {
        flow,
        dials,
        address,
        proxy,
        rest: rest.append(alloc, bytes.as_slice())?,
    })
}
