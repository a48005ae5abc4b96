//! What follows HTTP: it goes on, a CONNECT is answered, another protocol goes on, or it has ended.
ghost use Rattle.std.specs.Prelude.{◌≡◌, ◌≤◌, ◌++◌, ℕ, List, Some, None, IfOk, OnOk, unwrap_or};
ghost use Rattle.rand_chacha.specs.ChaCha.{key_of};
ghost use Rattle.px_event.specs.Layer.{AsksOnly};
ghost use Rattle.px_event.specs.declared.command.Command.TheVariants.{Dial as TheDial};
ghost use Rattle.px_stream.specs.Heard.{shut_if};
ghost use Rattle.px_stream.specs.Tells.{asked_tunnel, outcome_in, phase_flow, side_rest, upgraded_side, uses_side};
ghost use Rattle.px_exchange.specs.declared.ending.Used.TheVariants.{ByServer as TheServer};
ghost use Rattle.px_stack.specs.Chain.{proxy_at};
ghost use Rattle.px_stack.specs.Kept.{awaited_by, left_by, most_asked};
ghost use Rattle.px_stack.specs.Steps.{Adds, AsksBehind, Follows, GoesOnAs};

use crate::child::{Child, Opening};
use crate::closing::Sides;
use crate::relay::begin_relay;
use crate::socket::{Means, begin_socket, is_websocket};
use px_event::{Command, Rests, Side};
use px_exchange::ending::Used;
use px_exchange::said::close;
use px_exchange::{Outcome, Place};
use px_http::HttpConv;
use px_message::{Address, Flow};
use px_text::NoMemory;

/// What follows HTTP, which has worked off at this moment all that came.
pub fn follow(
    means: Means,
    moment: u64,
    http: Box<HttpConv>,
    out: &mut Vec<Command>,
) -> Result<Child, NoMemory>
    ensures follows { IfOk result (λ next. Adds (Follows (key_of means.mask_key) moment http.value next) out.old.items out.new.items) }
    ensures asks { IfOk result (λ next. AsksBehind http.value next out.old.items out.new.items) }
{
    match http.outcome() {
        Outcome::Going => Ok(Child::Http(http)),
        Outcome::Connects => connect(http, out),
        Outcome::Upgraded => upgrade(means, moment, http, out),
        Outcome::Next | Outcome::Over => {
            drop(http);
            Ok(Child::Over)
        }
    }
}

// The server of a CONNECT is dialled.
fn connect(http: Box<HttpConv>, out: &mut Vec<Command>) -> Result<Child, NoMemory>
    requires { outcome_in http.value.stream.phase ≡ Outcome.Connects }
    ensures follows { IfOk result (λ next. Adds (λ more. (key : List ℕ) (moment : ℕ) → Follows key moment http.value next more) out.old.items out.new.items) }
    ensures asks { IfOk result (λ next. AsksBehind http.value next out.old.items out.new.items) }
{
    let closed = http.client_closed();
    let parked = http.parked();
    let opening = read_opening(http)?;
    out.push(Command::Dial {
        server: opening.dials,
        address: first_hop(&opening)?,
        inside: None,
    })?;
    close_parked(parked, out)?;
    Ok(Child::Connecting { opening, closed })
}

// The side that was kept for a next flow is closed: none takes it any more.
fn close_parked(parked: Option<u32>, out: &mut Vec<Command>) -> Result<(), NoMemory>
    ensures { OnOk result (out.new.items ≡ out.old.items ++ shut_if parked) }
{
    match parked {
        Some(server) => close(Side::Server(server), out),
        None => Ok(()),
    }
}

// What is dialled for a CONNECT: the proxy that it goes through, or where it asks for a tunnel to.
fn first_hop(opening: &Opening) -> Result<Address, NoMemory>
    ensures { IfOk result (λ address. address ≡ unwrap_or opening.now.proxy opening.now.address) }
{
    match &opening.proxy {
        Some(proxy) => proxy.try_clone(),
        None => opening.address.try_clone(),
    }
}

// What a CONNECT leaves.
fn read_opening(http: Box<HttpConv>) -> Result<Opening, NoMemory>
    requires { outcome_in http.value.stream.phase ≡ Outcome.Connects }
    ensures flow { IfOk result (λ opening. opening.flow ≡ http.value.stream.at.flow) }
    ensures dials { IfOk result (λ opening. opening.dials ≡ http.value.stream.at.dials) }
    ensures address { IfOk result (λ opening. asked_tunnel http.value.stream.phase ≡ Some opening.address) }
    ensures proxy { IfOk result (λ opening. opening.proxy ≡ proxy_at http.value.stream.terms.place) }
    ensures rest { IfOk result (λ opening. opening.rest ≡ http.value.stream.requests.rest) }
{
    let at = http.at();
    let (flow, dials) = (at.flow, at.dials);
    let address = read_address(&http)?;
    let proxy = copy_proxy(http.place())?;
    let (rests, upgraded) = Box::into_inner(http).into_rests()?;
    drop(upgraded);
    Ok(Opening {
        flow,
        dials,
        address,
        proxy,
        rest: rests.client,
    })
}

// The proxy through which tunnels go at this place, if they go through one.
fn copy_proxy(place: &Place) -> Result<Option<Address>, NoMemory>
    ensures { IfOk result (λ proxy. proxy ≡ proxy_at place.now) }
{
    match place {
        Place::Upstream(proxy) => Ok(Some(proxy.try_clone()?)),
        Place::Regular => Ok(None),
        Place::Fixed { .. } => Ok(None),
    }
}

// Where a CONNECT asks for a tunnel to.
fn read_address(http: &HttpConv) -> Result<Address, NoMemory>
    requires { outcome_in http.now.stream.phase ≡ Outcome.Connects }
    ensures { IfOk result (λ address. asked_tunnel http.now.stream.phase ≡ Some address) }
{
    match http.connects() {
        Some(address) => address.try_clone(),
        None => unreachable!(),
    }
}

// Another protocol goes on, on the same connections: a WebSocket, or one that is not read.
fn upgrade(
    means: Means,
    moment: u64,
    http: Box<HttpConv>,
    out: &mut Vec<Command>,
) -> Result<Child, NoMemory>
    requires { outcome_in http.value.stream.phase ≡ Outcome.Upgraded }
    ensures follows { IfOk result (λ next. Adds (Follows (key_of means.mask_key) moment http.value next) out.old.items out.new.items) }
    ensures asks { IfOk result (λ next. AsksBehind http.value next out.old.items out.new.items) }
{
    let sides = read_sides(&http);
    let (rests, flow) = Box::into_inner(http).into_rests()?;
    match flow {
        Some(flow) => go_on_as(means, moment, sides, rests, flow, out),
        None => unreachable!(),
    }
}

// Goes on as what its flow asked for.
fn go_on_as(
    means: Means,
    moment: u64,
    sides: Sides,
    rests: Rests,
    flow: Flow,
    out: &mut Vec<Command>,
) -> Result<Child, NoMemory>
    ensures follows { IfOk result (λ next. Adds (GoesOnAs (key_of means.mask_key) moment sides rests flow next) out.old.items out.new.items) }
    ensures asks { IfOk result (λ next. AsksOnly (awaited_by next) out.old.items out.new.items) }
    ensures left { IfOk result (λ next. left_by next ≤ most_asked) }
{
    if is_websocket(&flow, sides.closed) {
        return begin_socket(means, moment, sides, rests, flow, out);
    }
    begin_relay(sides, rests, Some(flow), out)
}

// The sides on which it goes on.
fn read_sides(http: &HttpConv) -> Sides
    requires { outcome_in http.now.stream.phase ≡ Outcome.Upgraded }
    ensures server { upgraded_side http.now.stream.phase http.now.stream.side ≡ Some (TheServer result.server result.shut) }
    ensures closed { result.closed ≡ http.now.stream.client_closed }
{
    match http.upgraded() {
        Some(Used::ByServer { number, closed }) => Sides {
            server: number,
            shut: closed,
            closed: http.client_closed(),
        },
        Some(Used::NoServer) | None => unreachable!(),
    }
}
