//! A flow as it is told so far.
ghost use Rattle.std.specs.Prelude.{◌≡◌, false, true, Some, IfOk, MatchOption};
ghost use Rattle.px_exchange.specs.Finds.{is_relayed};
ghost use Rattle.px_exchange.specs.Flows.{filled, hook_of, response_of, with_answer, with_body, with_end, with_returned, with_start};
ghost use Rattle.px_exchange.specs.Endings.{with_error, without_response};
ghost use Rattle.px_exchange.specs.Places.{address_of, dialled_by, dialled_for, server_for};
ghost use Rattle.px_exchange.specs.Requests.{flow_of, is_http11};

use crate::asked::is_http11;
use crate::boxed::Boxed;
use crate::content::Content;
use crate::place::Place;
use crate::terms::{Now, Terms};
use px_event::{Ask, Hook};
use px_message::{
    Address, Body, Fields, Flow, FlowError, FlowId, Messages, Replayed, Request, Response, Shared,
    Status, Times,
};
use px_read::ResponseHead;
use px_text::{Bytes, NoMemory};
use std::alloc::Global;

/// The flow of a request whose head was read at this moment.
pub fn begin(
    alloc: Global,
    terms: &Terms,
    index: u32,
    request: Request,
    moment: u64,
) -> Result<Boxed<Flow>, NoMemory>
    ensures { IfOk result (λ flow. flow ≡ flow_of terms.now index request moment) }
{
    let request = Shared::new(alloc, request)?;
    let client = client_of(alloc, terms)?;
    let flow = Flow {
        id: FlowId {
            conv: terms.conv,
            index,
        },
        client,
        server: None,
        request,
        response: None,
        error: None,
        times: Times {
            request_start: moment,
            request_end: None,
            response_start: None,
            response_end: None,
        },
        replayed: Replayed::No,
        marked: false,
        websocket: false,
        message: None,
        messages: Messages::new(alloc),
    };
    Boxed::new(alloc, flow)
}

// Where the client is, to be shared by the copies of a flow.
fn client_of(alloc: Global, terms: &Terms) -> Result<Option<Shared<Address>>, NoMemory>
    ensures { IfOk result (λ client. client ≡ terms.now.client) }
{
    match &terms.client {
        None => Ok(None),
        Some(address) => Ok(Some(Shared::new(alloc, address.try_clone()?)?)),
    }
}

/// The flow with this request in place of its own.
pub fn with_request(flow: Boxed<Flow>, request: Shared<Request>) -> Boxed<Flow>
    ensures { result ≡ record flow { request = request } }
{
    let mut flow = flow;
    flow.request = request;
    flow
}

/// The flow with this response.
pub fn with_response(flow: Boxed<Flow>, response: Shared<Response>) -> Boxed<Flow>
    ensures { result ≡ record flow { response = Some response } }
{
    let mut flow = flow;
    flow.response = Some(response);
    flow
}

/// The flow with the server that it uses.
pub fn with_server(flow: Boxed<Flow>, server: Shared<Address>) -> Boxed<Flow>
    ensures { result ≡ record flow { server = Some server } }
{
    let mut flow = flow;
    flow.server = Some(server);
    flow
}

/// The flow with its whole request.
pub fn with_body(
    now: Now,
    flow: Boxed<Flow>,
    body: Content,
    trailers: Fields,
) -> Result<Boxed<Flow>, NoMemory>
    ensures { IfOk result (λ whole. whole ≡ with_body flow body trailers now.moment) }
{
    let mut flow = flow;
    flow.request = whole_request(now.alloc, flow.request.get(), body, trailers)?;
    flow.times.request_end = Some(now.moment);
    Ok(flow)
}

// The request with its body and trailers.
fn filled_request(request: Request, body: Content, trailers: Fields) -> Request
    ensures { result ≡ record request { body = body; trailers = trailers } }
{
    let mut filled = request;
    filled.body = body.into_body();
    filled.trailers = trailers;
    filled
}

// A copy of it with its body and trailers.
fn whole_request(
    alloc: Global,
    request: &Request,
    body: Content,
    trailers: Fields,
) -> Result<Shared<Request>, NoMemory>
    ensures { IfOk result (λ whole. whole ≡ record request.now { body = body; trailers = trailers }) }
{
    let copy = request.try_clone()?;
    Shared::new(alloc, filled_request(copy, body, trailers))
}

/// The flow with the head of its response.
pub fn with_answer(now: Now, flow: Boxed<Flow>, response: Response) -> Result<Boxed<Flow>, NoMemory>
    ensures { IfOk result (λ answered. answered ≡ with_answer flow response now.moment) }
{
    let mut flow = flow;
    flow.response = Some(Shared::new(now.alloc, response)?);
    flow.times.response_start = Some(now.moment);
    Ok(flow)
}

/// The flow with its whole response.
pub fn with_returned(
    now: Now,
    flow: Boxed<Flow>,
    body: Content,
    trailers: Fields,
) -> Result<Boxed<Flow>, NoMemory>
    ensures { IfOk result (λ whole. whole ≡ with_returned flow body trailers now.moment) }
{
    let mut flow = flow;
    flow.response = whole_response(now.alloc, &flow.response, body, trailers)?;
    flow.times.response_end = Some(now.moment);
    Ok(flow)
}

// The response with its body and trailers.
fn filled_response(response: Response, body: Content, trailers: Fields) -> Response
    ensures { result ≡ record response { body = body; trailers = trailers } }
{
    let mut filled = response;
    filled.body = body.into_body();
    filled.trailers = trailers;
    filled
}

// A copy of the response, if there is one, with its body and trailers.
fn whole_response(
    alloc: Global,
    response: &Option<Shared<Response>>,
    body: Content,
    trailers: Fields,
) -> Result<Option<Shared<Response>>, NoMemory>
    ensures { IfOk result (λ whole. whole ≡ filled response.now body trailers) }
{
    let Some(response) = response else {
        return Ok(None);
    };
    let copy = response.get().try_clone()?;
    let whole = Shared::new(alloc, filled_response(copy, body, trailers))?;
    Ok(Some(whole))
}

/// The flow with the start of its response.
pub fn with_start(flow: Boxed<Flow>, moment: u64) -> Boxed<Flow>
    ensures { result ≡ with_start flow moment }
{
    let mut flow = flow;
    flow.times.response_start = Some(moment);
    flow
}

/// The flow with the end of its response.
pub fn with_end(flow: Boxed<Flow>, moment: u64) -> Boxed<Flow>
    ensures { result ≡ with_end flow moment }
{
    let mut flow = flow;
    flow.times.response_end = Some(moment);
    flow
}

/// The flow without a response, which was not whole.
pub fn without_response(flow: Boxed<Flow>) -> Boxed<Flow>
    ensures { result ≡ without_response flow }
{
    let mut flow = flow;
    flow.response = None;
    flow.times.response_start = None;
    flow.times.response_end = None;
    flow
}

/// The flow with an error at this moment.
pub fn with_error(now: Now, flow: Boxed<Flow>, message: &[u8]) -> Result<Boxed<Flow>, NoMemory>
    ensures { IfOk result (λ told. told ≡ with_error flow message.now now.moment) }
{
    let mut flow = flow;
    let error = FlowError {
        msg: Bytes::copied(now.alloc, message)?,
        moment: now.moment,
    };
    flow.error = Some(Shared::new(now.alloc, error)?);
    Ok(flow)
}

/// The server of a flow: the proxy that its request goes to, or the request's host and port, as its hooks left them.
pub fn server_for(place: &Place, flow: &Flow) -> Result<Address, NoMemory>
    ensures { IfOk result (λ address. address ≡ server_for place.now flow.now.request) }
{
    match place {
        Place::Upstream(proxy) => proxy.try_clone(),
        _ => address_of(flow),
    }
}

/// What is dialled for the request of a flow: its server, or the proxy through which that is reached.
pub fn dialled_for(place: &Place, flow: &Flow) -> Result<Address, NoMemory>
    ensures { IfOk result (λ address. address ≡ dialled_for place.now flow.now.request) }
{
    match place {
        Place::Regular => server_for(place, flow),
        Place::Upstream(_) => server_for(place, flow),
        Place::Fixed { inside, .. } => dialled_by(inside, flow),
    }
}

// The proxy through which the server of a flow is reached, if there is one, or that server.
fn dialled_by(inside: &Option<Address>, flow: &Flow) -> Result<Address, NoMemory>
    ensures { IfOk result (λ address. address ≡ dialled_by inside.now flow.now.request) }
{
    match inside {
        Some(proxy) => proxy.try_clone(),
        None => address_of(flow),
    }
}

/// Where the request of a flow goes: to its own host and port, as its hooks left them.
pub fn address_of(flow: &Flow) -> Result<Address, NoMemory>
    ensures { IfOk result (λ address. address ≡ address_of flow.now.request) }
{
    let request = flow.request.get();
    Ok(Address {
        host: request.host.try_clone()?,
        port: request.port,
    })
}

/// The status of a response that this proxy relays: a final one, or 101, which switches protocols (RFC 9110 section 15.2.2).
/// None exactly where the code is no such status.
pub fn status_of(code: u16) -> Option<Status>
    ensures { MatchOption result (is_relayed code ≡ false) (λ status. (status ≡ code) × (is_relayed code ≡ true)) }
{
    Status::try_new(code)
}

/// The response of a head, without its body.
pub fn response_of(alloc: Global, head: ResponseHead, status: Status) -> Response
    requires { status ≡ head.code }
    ensures { result ≡ response_of head }
{
    Response {
        version: head.version,
        status,
        reason: head.reason,
        fields: head.fields,
        body: Body::empty(),
        trailers: Fields::new(alloc),
        streamed: false,
    }
}

/// The question of a hook about the flow.
pub fn hook_of(flow: &Flow, hook: Hook) -> Ask
    ensures { result ≡ hook_of flow.now hook }
{
    Ask::Hook {
        flow: flow.id.index,
        hook,
    }
}

/// Whether its request is of HTTP/1.1.
pub fn asks_http11(flow: &Flow) -> bool
    ensures { result ≡ is_http11 flow.now.request.version }
{
    is_http11(flow.request.get().version)
}
