//! The flow of a request that is sent again.
ghost use Rattle.std.specs.Prelude.{◌≡◌, None, IfOk};
ghost use Rattle.px_resend.specs.Chain.{first_flow, head_of, place_by, proxy_in, terms_by, whole_flow};

use px_exchange::flows::begin;
use px_exchange::terms::Terms;
use px_exchange::{Boxed, Mode, Place};
use px_message::{Address, Body, Fields, Flow, Replayed, Request, Shared};
use px_text::NoMemory;
use std::alloc::Global;

/// The proxy that requests go to in this mode, if they go to one.
pub fn proxy_of(mode: &Mode) -> Result<Option<Address>, NoMemory>
    ensures { IfOk result (λ proxy. proxy ≡ proxy_in mode.now) }
{
    match mode {
        Mode::Upstream(proxy) => Ok(Some(proxy.try_clone()?)),
        Mode::Regular | Mode::Reverse(_) | Mode::Socks => Ok(None),
    }
}

/// Where the request goes: to this proxy, or to its own host and port.
pub fn place_of(proxy: &Option<Address>) -> Result<Place, NoMemory>
    ensures { IfOk result (λ place. place ≡ place_by proxy.now) }
{
    match proxy {
        Some(proxy) => Ok(Place::Upstream(proxy.try_clone()?)),
        None => Ok(Place::Regular),
    }
}

/// The flow as it begins, at this moment: with the recorded request's head.
pub fn first_flow(
    alloc: Global,
    conv: u32,
    proxy: &Option<Address>,
    request: &Request,
    moment: u64,
) -> Result<Boxed<Flow>, NoMemory>
    ensures { IfOk result (λ flow. flow ≡ first_flow (terms_by conv proxy.now) request.now moment) }
{
    let terms = Terms {
        conv,
        client: None,
        place: place_of(proxy)?,
        streams: false,
    };
    let flow = begin(alloc, &terms, 0, head_of(alloc, request)?, moment)?;
    Ok(replayed(flow))
}

// The flow, which is one of a recorded request.
fn replayed(flow: Boxed<Flow>) -> Boxed<Flow>
    ensures { result ≡ record flow { replayed = Replayed.Request } }
{
    let mut flow = flow;
    flow.replayed = Replayed::Request;
    flow
}

// A copy of the request without its body.
fn head_of(alloc: Global, request: &Request) -> Result<Request, NoMemory>
    ensures { IfOk result (λ head. head ≡ head_of request.now) }
{
    let head = request.try_clone()?;
    Ok(without_body(alloc, head))
}

// The request without its body.
fn without_body(alloc: Global, request: Request) -> Request
    ensures { result ≡ head_of request }
{
    let mut head = request;
    head.body = Body::empty();
    head.trailers = Fields::new(alloc);
    head.streamed = false;
    head
}

/// The flow with all of the recorded request, which was there when it began.
pub fn whole_flow(
    alloc: Global,
    request: &Request,
    flow: Boxed<Flow>,
) -> Result<Boxed<Flow>, NoMemory>
    ensures { IfOk result (λ whole. whole ≡ whole_flow request.now flow) }
{
    let mut flow = flow;
    flow.request = whole_request(alloc, request, flow.request.get())?;
    flow.times.request_end = Some(flow.times.request_start);
    Ok(flow)
}

// A copy of the head with the recorded request's body and trailers.
fn whole_request(
    alloc: Global,
    recorded: &Request,
    head: &Request,
) -> Result<Shared<Request>, NoMemory>
    ensures { IfOk result (λ whole. whole ≡ record head.now { body = recorded.now.body; trailers = recorded.now.trailers }) }
{
    let head = head.try_clone()?;
    let body = recorded.body.try_clone()?;
    let trailers = recorded.trailers.try_clone()?;
    Shared::new(alloc, filled(head, body, trailers))
}

// The request with this body and these trailers.
fn filled(request: Request, body: Body, trailers: Fields) -> Request
    ensures { result ≡ record request { body = body; trailers = trailers } }
{
    let mut filled = request;
    filled.body = body;
    filled.trailers = trailers;
    filled
}
