//! What the answer to an ask leads to.
ghost use Rattle.std.specs.Prelude.{◌≡◌, ◌<◌, ◌+◌, ◌++◌, ◌==◌, ◌&&◌, [], None, Some, IfOk, OnOk};
ghost use Rattle.px_exchange.specs.Dials.{connected_owes};
ghost use Rattle.px_exchange.specs.Replies.{taken_at_body_of, taken_at_head_of, taken_at_request_body, taken_at_request_head};
ghost use Rattle.px_chain.specs.Chain.{behind_flow, dial_leads, dial_owes_by, finish as finishes, finish_by, finish_given as finishes_given, goes_on_by, killed, parked_for, reached, sequence, turn_taken_answer, turn_taken_body, turn_taken_given, turn_taken_head, turn_taken_returned, turn_taken_whole, upgrade as upgrades};
ghost use Rattle.px_chain.specs.Coming.{allowed_by};
ghost use Rattle.px_chain.specs.Going.{allowed_up_by, is_sent};
ghost use Rattle.px_chain.specs.Keeping.{parks};
ghost use Rattle.px_chain.specs.Sights.{Sight, server_parked};
ghost use Rattle.px_exchange.specs.Requests.{is_head};
ghost use Rattle.px_chain.specs.Stages.{all_sent, unparked};
ghost use Rattle.px_stream.specs.Goings.{sends_to, sent_by, sent_of};
ghost use Rattle.px_stream.specs.Stands.{content_in, stage_of};
ghost use Rattle.px_stream.specs.Turns.{FirstHeld, GoesUpFrom, HeldFirst, HeldUpFirst, IsHeldBehind, KeepsUp, Shows, SideTurned, asked_turn, connected_up, connects, dialled_sends, keeps_on, taken_turn, turn_gives};
ghost use Rattle.px_stream.specs.Passes.{SideCame};

use crate::at::{At, Kept};
use crate::coming::{Held, hold};
use crate::ending::end_with;
use crate::going::{Going, Sending, hold_request, send_to};
use crate::link::{self, Link};
use crate::phase::{Asked, Wanted};
use px_event::{Command, Reply, Side};
use px_exchange::asked::is_head as asks_head;
use px_exchange::content::Content;
use px_exchange::ending::{Used, end_by_fault, end_early, finish, settled};
use px_exchange::flows::{self, server_for};
use px_exchange::said::{meet_expectation, send};
use px_exchange::taken::{
    Taken, take_at_body_of, take_at_head_of, take_at_request_body, take_at_request_head,
};
use px_exchange::terms::{Now, Terms};
use px_exchange::texts::{onward_text, returned_text};
use px_exchange::{Boxed, Place};
use px_message::{Flow, Request, Response, Shared};
use px_text::NoMemory;
use std::alloc::Global;

/// Takes the answer to what was asked at this place of a conversation, on these terms.
pub fn turn(
    terms: &Terms,
    now: Now,
    at: &mut At,
    side: &mut Option<Link>,
    asked: Asked,
    reply: Reply,
    out: &mut Vec<Command>,
) -> Result<Wanted, NoMemory>
    requires few { at.old.flow < 1000000 }
    requires dials { at.old.dials < 4294967295 }
    ensures gives { (seen : Sight) → Shows at.old asked now.parked now.client_closed seen →
        OnOk result (out.new.items ≡ out.old.items ++ turn_gives at.old asked reply (asked_turn terms.now at.old asked seen side.old now.parked now.client_closed (record { moment = now.moment; value = reply })).owed) }
    ensures leads { (seen : Sight) → Shows at.old asked now.parked now.client_closed seen →
        IfOk result (λ next. stage_of at.new next ≡ sequence (asked_turn terms.now at.old asked seen side.old now.parked now.client_closed (record { moment = now.moment; value = reply })).stage) }
    ensures side { IfOk result (λ next. SideTurned asked next side.old side.new) }
    ensures content { IfOk result (λ next. content_in next ≡ []) }
    ensures held { IfOk result (λ next. FirstHeld asked next) }
    ensures up { IfOk result (λ next. KeepsUp asked next) }
{
    match asked {
        Asked::Idle { flow, expects } => turn_head(
            terms.streams,
            now,
            at,
            flow,
            expects,
            reply,
            out,
        ),
        Asked::RequestBody { flow } => turn_body(&terms.place, now, at, flow, reply, out),
        Asked::Connection { flow, up, .. } => {
            turn_dial(&terms.place, now, at, flow, up, reply, out)
        }
        Asked::ResponseHead { flow, server, up } => turn_answer(
            terms.streams,
            now,
            at,
            flow,
            server,
            up,
            reply,
            out,
        ),
        Asked::ResponseBody { flow, server, up } => {
            turn_returned(&terms.place, now, at, side, flow, server, up, reply, out)
        }
        Asked::GivenHead { flow } => turn_given_head(now, at, flow, reply, out),
        Asked::GivenBody { flow } => turn_given_body(now, at, flow, reply, out),
    }
}

// A flow that lacks the response that its hook is about.
fn give_up(flow: Boxed<Flow>) -> Wanted
    ensures { result ≡ Wanted.Over }
{
    let _flow = flow;
    Wanted::Over
}

// Ends the flow, and says nothing to the client.
fn kill(now: Now, flow: Boxed<Flow>, out: &mut Vec<Command>) -> Result<Wanted, NoMemory>
    ensures gives { OnOk result (out.new.items ≡ out.old.items ++ (killed flow now.moment now.parked now.client_closed).owed) }
    ensures ready { IfOk result (λ next. next ≡ Wanted.Over) }
{
    end_early(now, flow, b"killed", now.parked, out)?;
    Ok(Wanted::Over)
}

// No side is parked any more.
pub(crate) fn unpark(at: &mut At)
    ensures { at.new ≡ unparked at.old }
{
    at.parked = None;
}

// The hook of the request's head is answered.
fn turn_head(
    streams: bool,
    now: Now,
    at: &mut At,
    flow: Boxed<Flow>,
    expected: bool,
    reply: Reply,
    out: &mut Vec<Command>,
) -> Result<Wanted, NoMemory>
    ensures gives { (seen : Sight) → server_parked at.old.parked seen ≡ now.parked → seen.closed ≡ now.client_closed →
        OnOk result (out.new.items ≡ out.old.items ++ (turn_taken_head at.old flow expected (allowed_up_by streams reply) (taken_at_request_head flow.request reply) now.moment seen).owed) }
    ensures leads { (seen : Sight) →
        IfOk result (λ next. stage_of at.new next ≡ sequence (turn_taken_head at.old flow expected (allowed_up_by streams reply) (taken_at_request_head flow.request reply) now.moment seen).stage) }
    ensures content { IfOk result (λ next. content_in next ≡ []) }
    ensures held { IfOk result (λ next. HeldUpFirst flow.request next) }
{
    let most = allowed_up(streams, &reply);
    let taken = take_at_request_head(now.alloc, &flow.request, reply)?;
    receive(now, at, flow, expected, most, taken, out)
}

// The most that is kept of a request's body, by the answer to its head's hook, in a conversation that streams at all.
fn allowed_up(streams: bool, reply: &Reply) -> Option<u64>
    ensures { result ≡ allowed_up_by streams reply.now }
{
    if !streams {
        return None;
    }
    match reply {
        Reply::Go { stream, .. } => *stream,
        _ => None,
    }
}

// The request's body is awaited, unless the flow is killed.
fn receive(
    now: Now,
    at: &mut At,
    flow: Boxed<Flow>,
    expected: bool,
    most: Option<u64>,
    taken: Taken<Shared<Request>>,
    out: &mut Vec<Command>,
) -> Result<Wanted, NoMemory>
    ensures gives { (seen : Sight) → server_parked at.old.parked seen ≡ now.parked → seen.closed ≡ now.client_closed →
        OnOk result (out.new.items ≡ out.old.items ++ (turn_taken_head at.old flow expected most taken now.moment seen).owed) }
    ensures leads { (seen : Sight) →
        IfOk result (λ next. stage_of at.new next ≡ sequence (turn_taken_head at.old flow expected most taken now.moment seen).stage) }
    ensures content { IfOk result (λ next. content_in next ≡ []) }
    ensures held { IfOk result (λ next. HeldUpFirst flow.request next) }
{
    match taken {
        Taken::GoesOn(request) => {
            meet_expectation(now.alloc, expected, out)?;
            let held = hold_request(now.alloc, flow.request.try_clone()?, most);
            Ok(Wanted::RequestBody {
                flow: flows::with_request(flow, request),
                given: None,
                most,
                body: Content::new(now.alloc),
                held,
            })
        }
        Taken::Responds(response) => {
            meet_expectation(now.alloc, expected, out)?;
            Ok(Wanted::RequestBody {
                flow,
                given: Some(response),
                most: None,
                body: Content::new(now.alloc),
                held: None,
            })
        }
        Taken::Kills => kill(now, flow, out),
    }
}

// The hook of the whole request is answered.
fn turn_body(
    place: &Place,
    now: Now,
    at: &mut At,
    flow: Boxed<Flow>,
    reply: Reply,
    out: &mut Vec<Command>,
) -> Result<Wanted, NoMemory>
    ensures gives { (seen : Sight) → server_parked at.old.parked seen ≡ now.parked → seen.closed ≡ now.client_closed →
        OnOk result (out.new.items ≡ out.old.items ++ (turn_taken_body place.now at.old flow (taken_at_request_body flow.request reply) now.moment seen).owed) }
    ensures leads { (seen : Sight) →
        IfOk result (λ next. stage_of at.new next ≡ sequence (turn_taken_body place.now at.old flow (taken_at_request_body flow.request reply) now.moment seen).stage) }
    ensures content { IfOk result (λ next. content_in next ≡ []) }
{
    let taken = take_at_request_body(now.alloc, &flow.request, reply)?;
    send_onward(place, now, at, flow, taken, out)
}

// The request goes on, unless a response is given in its server's place or the flow is killed.
fn send_onward(
    place: &Place,
    now: Now,
    at: &mut At,
    flow: Boxed<Flow>,
    taken: Taken<Shared<Request>>,
    out: &mut Vec<Command>,
) -> Result<Wanted, NoMemory>
    ensures gives { (seen : Sight) → server_parked at.old.parked seen ≡ now.parked → seen.closed ≡ now.client_closed →
        OnOk result (out.new.items ≡ out.old.items ++ (turn_taken_body place.now at.old flow taken now.moment seen).owed) }
    ensures leads { (seen : Sight) →
        IfOk result (λ next. stage_of at.new next ≡ sequence (turn_taken_body place.now at.old flow taken now.moment seen).stage) }
    ensures content { IfOk result (λ next. content_in next ≡ []) }
{
    match taken {
        Taken::GoesOn(request) => go_on(place, now, at, flows::with_request(flow, request), out),
        Taken::Responds(response) => Ok(Wanted::GivenHead {
            flow: flows::with_response(flow, response),
        }),
        Taken::Kills => kill(now, flow, out),
    }
}

// The request goes to the side that is parked, where that is its server's; else the server is to be dialled.
fn go_on(
    place: &Place,
    now: Now,
    at: &mut At,
    flow: Boxed<Flow>,
    out: &mut Vec<Command>,
) -> Result<Wanted, NoMemory>
    ensures gives { OnOk result (out.new.items ≡ out.old.items ++ (goes_on_by (parked_for place.now flow.request at.old.parked) place.now at.old flow).owed) }
    ensures leads { IfOk result (λ next. stage_of at.new next ≡ sequence (goes_on_by (parked_for place.now flow.request at.old.parked) place.now at.old flow).stage) }
    ensures content { IfOk result (λ next. content_in next ≡ []) }
{
    match parked_for(place, flow.request.get(), &at.parked) {
        Some(server) => {
            unpark(at);
            send_request(place, now, flow, server, out)
        }
        None => Ok(Wanted::Connection { flow, up: None }),
    }
}

// The number of the parked side, where this request goes to its address.
pub(crate) fn parked_for(place: &Place, request: &Request, parked: &Option<Kept>) -> Option<u32>
    ensures { result ≡ parked_for place.now request.now parked.now }
{
    match parked {
        Some(parked) => {
            if place.goes_to(&parked.address, request) {
                Some(parked.side)
            } else {
                None
            }
        }
        None => None,
    }
}

// The request goes to the server of this number, whose response is awaited.
fn send_request(
    place: &Place,
    now: Now,
    flow: Boxed<Flow>,
    server: u32,
    out: &mut Vec<Command>,
) -> Result<Wanted, NoMemory>
    ensures gives { OnOk result (out.new.items ≡ out.old.items ++ connected_owes place.now flow server) }
    ensures ready { IfOk result (λ next. next ≡ Wanted.ResponseHead (reached place.now flow) server Sending.All) }
{
    send(
        Side::Server(server),
        onward_text(now.alloc, place.form(), flow.request.get())?,
        out,
    )?;
    let told = reach(now.alloc, place, flow)?;
    Ok(Wanted::ResponseHead {
        flow: told,
        server,
        up: Sending::All,
    })
}

// The flow, connected to its server.
pub(crate) fn reach(
    alloc: Global,
    place: &Place,
    flow: Boxed<Flow>,
) -> Result<Boxed<Flow>, NoMemory>
    ensures { IfOk result (λ told. told ≡ reached place.now flow) }
{
    let address = Shared::new(alloc, server_for(place, &flow)?)?;
    Ok(flows::with_server(flow, address))
}

// What came of a request that is streamed goes to the server of this number; the rest of it follows as it comes.
fn send_going(
    place: &Place,
    now: Now,
    flow: Boxed<Flow>,
    server: u32,
    going: Going,
    out: &mut Vec<Command>,
) -> Result<Wanted, NoMemory>
    ensures gives { OnOk result (out.new.items ≡ out.old.items ++ sends_to server going.text.items) }
    ensures ready { IfOk result (λ next. next ≡ Wanted.ResponseHead (reached place.now flow) server (Sending.GoingUp going.sent)) }
{
    let Going { sent, text } = going;
    send_to(server, text, out)?;
    let told = reach(now.alloc, place, flow)?;
    Ok(Wanted::ResponseHead {
        flow: told,
        server,
        up: Sending::GoingUp(sent),
    })
}

// The dial is answered.
fn turn_dial(
    place: &Place,
    now: Now,
    at: &mut At,
    flow: Boxed<Flow>,
    up: Option<Going>,
    reply: Reply,
    out: &mut Vec<Command>,
) -> Result<Wanted, NoMemory>
    requires dials { at.old.dials < 4294967295 }
    ensures gives { OnOk result (out.new.items ≡ out.old.items ++ (dial_owes_by (sent_by up) place.now flow at.old.dials reply now.moment now.client_closed ++ dialled_sends at.old.dials up reply)) }
    ensures leads { IfOk result (λ next. stage_of at.new next ≡ sequence (dial_leads place.now at.old flow (sent_by up) reply)) }
    ensures content { IfOk result (λ next. content_in next ≡ []) }
    ensures up { IfOk result (λ next. GoesUpFrom (connected_up up) next) }
{
    match reply {
        Reply::Dialled => {
            let server = count_server(at);
            connect(place, now, flow, server, up, out)
        }
        Reply::Refused(fault) => {
            drop(up);
            end_by_fault(now, flow, fault, Used::NoServer, out)?;
            Ok(Wanted::Over)
        }
        other => {
            drop(other);
            drop(up);
            Ok(give_up(flow))
        }
    }
}

// The server of this number is connected: the request goes to it, or what came of one that is streamed.
fn connect(
    place: &Place,
    now: Now,
    flow: Boxed<Flow>,
    server: u32,
    up: Option<Going>,
    out: &mut Vec<Command>,
) -> Result<Wanted, NoMemory>
    ensures gives { OnOk result (out.new.items ≡ out.old.items ++ connects place.now flow server up) }
    ensures ready { IfOk result (λ next. next ≡ Wanted.ResponseHead (reached place.now flow) server (connected_up up)) }
{
    match up {
        None => send_request(place, now, flow, server, out),
        Some(going) => send_going(place, now, flow, server, going, out),
    }
}

// A server's number is used by its dial, and no side is parked any more.
fn count_server(at: &mut At) -> u32
    requires { at.old.dials < 4294967295 }
    ensures number { result ≡ at.old.dials }
    ensures counted { at.new ≡ record at.old { dials = at.old.dials + 1; parked = None } }
{
    let server = at.dials;
    at.dials = server + 1;
    at.parked = None;
    server
}

// The hook of the response's head is answered.
fn turn_answer(
    streams: bool,
    now: Now,
    at: &mut At,
    flow: Boxed<Flow>,
    server: u32,
    up: Sending,
    reply: Reply,
    out: &mut Vec<Command>,
) -> Result<Wanted, NoMemory>
    ensures gives { OnOk result (out.new.items ≡ out.old.items ++ (taken_turn (taken_at_head_of flow.response reply) (λ taken. turn_taken_answer at.old flow server (sent_of up) (allowed_by streams reply) taken now.moment now.parked now.client_closed)).owed) }
    ensures leads { IfOk result (λ next. stage_of at.new next ≡ sequence (taken_turn (taken_at_head_of flow.response reply) (λ taken. turn_taken_answer at.old flow server (sent_of up) (allowed_by streams reply) taken now.moment now.parked now.client_closed)).stage) }
    ensures content { IfOk result (λ next. content_in next ≡ []) }
    ensures held { IfOk result (λ next. HeldFirst flow.response next) }
    ensures up { IfOk result (λ next. GoesUpFrom up next) }
{
    let most = allowed(streams, &reply);
    match take_at_head_of(now.alloc, &flow, reply)? {
        Some(taken) => receive_response(now, at, flow, server, up, most, taken, out),
        None => {
            drop(up);
            Ok(give_up(flow))
        }
    }
}

// The most that is kept of a body, by the answer to its head's hook, in a conversation that streams at all.
fn allowed(streams: bool, reply: &Reply) -> Option<u64>
    ensures { result ≡ allowed_by streams reply.now }
{
    if !streams {
        return None;
    }
    match reply {
        Reply::Go { flow, stream } => {
            if flow.response.is_some() {
                *stream
            } else {
                None
            }
        }
        _ => None,
    }
}

// The response's body is awaited, unless the flow is killed.
fn receive_response(
    now: Now,
    at: &mut At,
    flow: Boxed<Flow>,
    server: u32,
    up: Sending,
    most: Option<u64>,
    taken: Taken<Shared<Response>>,
    out: &mut Vec<Command>,
) -> Result<Wanted, NoMemory>
    ensures gives { OnOk result (out.new.items ≡ out.old.items ++ (turn_taken_answer at.old flow server (sent_of up) most taken now.moment now.parked now.client_closed).owed) }
    ensures leads { IfOk result (λ next. stage_of at.new next ≡ sequence (turn_taken_answer at.old flow server (sent_of up) most taken now.moment now.parked now.client_closed).stage) }
    ensures content { IfOk result (λ next. content_in next ≡ []) }
    ensures held { IfOk result (λ next. HeldFirst flow.response next) }
    ensures up { IfOk result (λ next. GoesUpFrom up next) }
{
    match taken {
        Taken::GoesOn(response) => {
            let held = hold_behind(now.alloc, &flow, response.get(), most)?;
            Ok(Wanted::ResponseBody {
                flow: flows::with_response(flow, response),
                server,
                up,
                most,
                body: Content::new(now.alloc),
                held,
            })
        }
        _ => {
            drop(up);
            kill(now, flows::without_response(flow), out)
        }
    }
}

// What is held of the body behind the head, whose hook left this response of the one that the flow has.
fn hold_behind(
    alloc: Global,
    flow: &Flow,
    response: &Response,
    most: Option<u64>,
) -> Result<Option<Held>, NoMemory>
    ensures { IfOk result (λ held. IsHeldBehind (is_head flow.now.request.method) flow.now.response response.now most held) }
{
    match &flow.response {
        Some(read) => Ok(hold(
            alloc,
            asks_head(flow.request.get().method.bytes()),
            read.try_clone()?,
            response,
            most,
        )),
        None => Ok(None),
    }
}

// The hook of the head of a response that was given in place of the server's is answered.
fn turn_given_head(
    now: Now,
    at: &mut At,
    flow: Boxed<Flow>,
    reply: Reply,
    out: &mut Vec<Command>,
) -> Result<Wanted, NoMemory>
    ensures gives { OnOk result (out.new.items ≡ out.old.items ++ (taken_turn (taken_at_head_of flow.response reply) (λ taken. turn_taken_given at.old flow taken now.moment now.parked now.client_closed)).owed) }
    ensures leads { IfOk result (λ next. stage_of at.new next ≡ sequence (taken_turn (taken_at_head_of flow.response reply) (λ taken. turn_taken_given at.old flow taken now.moment now.parked now.client_closed)).stage) }
    ensures content { IfOk result (λ next. content_in next ≡ []) }
{
    match take_at_head_of(now.alloc, &flow, reply)? {
        Some(taken) => give_body(now, at, flow, taken, out),
        None => Ok(give_up(flow)),
    }
}

// The hook of the whole of it is to be asked, unless the flow is killed.
fn give_body(
    now: Now,
    at: &mut At,
    flow: Boxed<Flow>,
    taken: Taken<Shared<Response>>,
    out: &mut Vec<Command>,
) -> Result<Wanted, NoMemory>
    ensures gives { OnOk result (out.new.items ≡ out.old.items ++ (turn_taken_given at.old flow taken now.moment now.parked now.client_closed).owed) }
    ensures leads { IfOk result (λ next. stage_of at.new next ≡ sequence (turn_taken_given at.old flow taken now.moment now.parked now.client_closed).stage) }
    ensures content { IfOk result (λ next. content_in next ≡ []) }
{
    match taken {
        Taken::GoesOn(response) => Ok(Wanted::GivenBody {
            flow: flows::with_response(flow, response),
        }),
        _ => kill(now, flows::without_response(flow), out),
    }
}

// The hook of the whole response of a server is answered.
fn turn_returned(
    place: &Place,
    now: Now,
    at: &mut At,
    side: &mut Option<Link>,
    flow: Boxed<Flow>,
    server: u32,
    up: Sending,
    reply: Reply,
    out: &mut Vec<Command>,
) -> Result<Wanted, NoMemory>
    requires few { at.old.flow < 1000000 }
    ensures gives { OnOk result (out.new.items ≡ out.old.items ++ (taken_turn (taken_at_body_of flow.response reply) (λ taken. turn_taken_whole place.now at.old flow server (sent_of up) (keeps_on flow.request side.old) taken now.moment now.parked now.client_closed)).owed) }
    ensures leads { IfOk result (λ next. stage_of at.new next ≡ sequence (taken_turn (taken_at_body_of flow.response reply) (λ taken. turn_taken_whole place.now at.old flow server (sent_of up) (keeps_on flow.request side.old) taken now.moment now.parked now.client_closed)).stage) }
    ensures side { IfOk result (λ next. SideCame next side.old side.new) }
    ensures content { IfOk result (λ next. content_in next ≡ []) }
{
    match take_at_body_of(now.alloc, &flow, reply)? {
        Some(taken) => end_exchange(place, now, at, side, flow, server, up, taken, out),
        None => {
            drop(up);
            Ok(give_up(flow))
        }
    }
}

// The response is sent, unless the flow is killed.
fn end_exchange(
    place: &Place,
    now: Now,
    at: &mut At,
    side: &mut Option<Link>,
    flow: Boxed<Flow>,
    server: u32,
    up: Sending,
    taken: Taken<Shared<Response>>,
    out: &mut Vec<Command>,
) -> Result<Wanted, NoMemory>
    requires few { at.old.flow < 1000000 }
    ensures gives { OnOk result (out.new.items ≡ out.old.items ++ (turn_taken_whole place.now at.old flow server (sent_of up) (keeps_on flow.request side.old) taken now.moment now.parked now.client_closed).owed) }
    ensures leads { IfOk result (λ next. stage_of at.new next ≡ sequence (turn_taken_whole place.now at.old flow server (sent_of up) (keeps_on flow.request side.old) taken now.moment now.parked now.client_closed).stage) }
    ensures side { IfOk result (λ next. SideCame next side.old side.new) }
    ensures content { IfOk result (λ next. content_in next ≡ []) }
{
    match taken {
        Taken::GoesOn(response) => {
            answer_client(place, now, at, side, flow, server, up, response, out)
        }
        _ => {
            drop(up);
            kill(now, flow, out)
        }
    }
}

// The response is sent. One of code 101 ends HTTP, where its request was whole; any other finishes the flow, and keeps or closes its server's side.
fn answer_client(
    place: &Place,
    now: Now,
    at: &mut At,
    side: &mut Option<Link>,
    flow: Boxed<Flow>,
    server: u32,
    up: Sending,
    response: Shared<Response>,
    out: &mut Vec<Command>,
) -> Result<Wanted, NoMemory>
    requires few { at.old.flow < 1000000 }
    ensures gives { OnOk result (out.new.items ≡ out.old.items ++ (finish_by (is_sent (sent_of up) && response.status == 101) place.now at.old flow (sent_of up) response (keeps_on flow.request side.old) server now.parked now.client_closed).owed) }
    ensures leads { IfOk result (λ next. stage_of at.new next ≡ sequence (finish_by (is_sent (sent_of up) && response.status == 101) place.now at.old flow (sent_of up) response (keeps_on flow.request side.old) server now.parked now.client_closed).stage) }
    ensures side { IfOk result (λ next. SideCame next side.old side.new) }
    ensures content { IfOk result (λ next. content_in next ≡ []) }
{
    match up {
        Sending::All => answer_whole(place, now, at, side, flow, server, response, out),
        Sending::GoingUp(sent) => {
            drop(sent);
            end_with(now, flow, response, out)?;
            Ok(Wanted::Over)
        }
    }
}

// So of a flow whose request was sent.
fn answer_whole(
    place: &Place,
    now: Now,
    at: &mut At,
    side: &mut Option<Link>,
    flow: Boxed<Flow>,
    server: u32,
    response: Shared<Response>,
    out: &mut Vec<Command>,
) -> Result<Wanted, NoMemory>
    requires few { at.old.flow < 1000000 }
    ensures gives { OnOk result (out.new.items ≡ out.old.items ++ (finish_by (response.status == 101) place.now at.old flow all_sent response (keeps_on flow.request side.old) server now.parked now.client_closed).owed) }
    ensures leads { IfOk result (λ next. stage_of at.new next ≡ sequence (finish_by (response.status == 101) place.now at.old flow all_sent response (keeps_on flow.request side.old) server now.parked now.client_closed).stage) }
    ensures side { IfOk result (λ next. SideCame next side.old side.new) }
    ensures content { IfOk result (λ next. content_in next ≡ []) }
{
    if response.get().status.code() == 101 {
        return upgrade(now, at, flow, server, response, out);
    }
    finish_used(place, now, at, side, flow, server, response, out)
}

// The flow is finished with a response of this server: its side is kept for the next one, or closed.
fn finish_used(
    place: &Place,
    now: Now,
    at: &mut At,
    side: &mut Option<Link>,
    flow: Boxed<Flow>,
    server: u32,
    response: Shared<Response>,
    out: &mut Vec<Command>,
) -> Result<Wanted, NoMemory>
    requires few { at.old.flow < 1000000 }
    ensures gives { OnOk result (out.new.items ≡ out.old.items ++ (finishes place.now at.old flow all_sent response (keeps_on flow.request side.old) server now.parked now.client_closed).owed) }
    ensures leads { IfOk result (λ next. stage_of at.new next ≡ sequence (finishes place.now at.old flow all_sent response (keeps_on flow.request side.old) server now.parked now.client_closed).stage) }
    ensures side { IfOk result (λ next. SideCame next side.old side.new) }
    ensures content { IfOk result (λ next. content_in next ≡ []) }
{
    let index = at.flow;
    let keeps = link::renew(now.alloc, side, flow.request.get())?;
    park(place, at, keeps, server, &flow)?;
    let stays = finish(
        now,
        index,
        flow,
        response,
        now.parked,
        keeps,
        Used::NoServer,
        out,
    )?;
    Ok(count_flow(at, stays))
}

// The side of this server is parked behind the flow, where it is kept.
pub(crate) fn park(
    place: &Place,
    at: &mut At,
    keeps: bool,
    server: u32,
    flow: &Flow,
) -> Result<(), NoMemory>
    ensures parks { OnOk result (at.new ≡ parks keeps place.now at.old flow.now.request server) }
    ensures flow { OnOk result (at.new.flow ≡ at.old.flow) }
{
    if !keeps {
        at.parked = None;
        return Ok(());
    }
    at.parked = Some(Kept {
        side: server,
        address: server_for(place, flow)?,
    });
    Ok(())
}

// Sends a response of code 101: what follows on both sides is of another protocol, and the flow is not finished.
fn upgrade(
    now: Now,
    at: &At,
    flow: Boxed<Flow>,
    server: u32,
    response: Shared<Response>,
    out: &mut Vec<Command>,
) -> Result<Wanted, NoMemory>
    ensures gives { OnOk result (out.new.items ≡ out.old.items ++ (upgrades at.now flow response server).owed) }
    ensures leads { IfOk result (λ next. stage_of at.now next ≡ sequence (upgrades at.now flow response server).stage) }
    ensures content { IfOk result (λ next. content_in next ≡ []) }
{
    let sent = settled(flow.request.get(), response.get())?;
    send(
        Side::Client,
        returned_text(now.alloc, flow.request.get(), &sent)?,
        out,
    )?;
    Ok(Wanted::Upgraded {
        flow: flows::with_response(flow, response),
        server,
    })
}

// The hook of the whole of a response that was given in place of the server's is answered.
fn turn_given_body(
    now: Now,
    at: &mut At,
    flow: Boxed<Flow>,
    reply: Reply,
    out: &mut Vec<Command>,
) -> Result<Wanted, NoMemory>
    requires few { at.old.flow < 1000000 }
    ensures gives { OnOk result (out.new.items ≡ out.old.items ++ (taken_turn (taken_at_body_of flow.response reply) (λ taken. turn_taken_returned at.old flow taken now.moment now.parked now.client_closed)).owed) }
    ensures leads { IfOk result (λ next. stage_of at.new next ≡ sequence (taken_turn (taken_at_body_of flow.response reply) (λ taken. turn_taken_returned at.old flow taken now.moment now.parked now.client_closed)).stage) }
    ensures content { IfOk result (λ next. content_in next ≡ []) }
{
    match take_at_body_of(now.alloc, &flow, reply)? {
        Some(taken) => end_flow(now, at, flow, taken, out),
        None => Ok(give_up(flow)),
    }
}

// The flow is finished with a response that was given in place of the server's, or killed.
fn end_flow(
    now: Now,
    at: &mut At,
    flow: Boxed<Flow>,
    taken: Taken<Shared<Response>>,
    out: &mut Vec<Command>,
) -> Result<Wanted, NoMemory>
    requires few { at.old.flow < 1000000 }
    ensures gives { OnOk result (out.new.items ≡ out.old.items ++ (turn_taken_returned at.old flow taken now.moment now.parked now.client_closed).owed) }
    ensures leads { IfOk result (λ next. stage_of at.new next ≡ sequence (turn_taken_returned at.old flow taken now.moment now.parked now.client_closed).stage) }
    ensures content { IfOk result (λ next. content_in next ≡ []) }
{
    match taken {
        Taken::GoesOn(response) => finish_given(now, at, flow, response, out),
        _ => kill(now, flow, out),
    }
}

// The flow is finished with a response that was given in place of the server's.
fn finish_given(
    now: Now,
    at: &mut At,
    flow: Boxed<Flow>,
    response: Shared<Response>,
    out: &mut Vec<Command>,
) -> Result<Wanted, NoMemory>
    requires few { at.old.flow < 1000000 }
    ensures gives { OnOk result (out.new.items ≡ out.old.items ++ (finishes_given at.old flow response now.parked now.client_closed).owed) }
    ensures leads { IfOk result (λ next. stage_of at.new next ≡ sequence (finishes_given at.old flow response now.parked now.client_closed).stage) }
    ensures content { IfOk result (λ next. content_in next ≡ []) }
{
    let stays = finish(
        now,
        at.flow,
        flow,
        response,
        Used::NoServer,
        false,
        now.parked,
        out,
    )?;
    Ok(count_flow(at, stays))
}

// The next flow's head is looked for behind a finished one, where the client's connection goes on.
pub(crate) fn count_flow(at: &mut At, stays: bool) -> Wanted
    requires { at.old.flow < 1000000 }
    ensures leads { stage_of at.new result ≡ sequence (behind_flow stays at.old) }
    ensures content { content_in result ≡ [] }
{
    if stays {
        at.flow = at.flow + 1;
        Wanted::Idle
    } else {
        Wanted::Over
    }
}
