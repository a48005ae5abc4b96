//! A WebSocket, whose frames are worked off and whose messages are asked about.
ghost use Rattle.std.specs.Prelude.{◌≡◌, ◌≤◌, ◌<◌, ◌&&◌, not, ℕ, None, IfOk};
ghost use Rattle.rand_chacha.specs.ChaCha.{key_of};
ghost use Rattle.px_event.specs.Layer.{AsksOnly, MayAnswer};
ghost use Rattle.px_stack.specs.Kept.{awaited_by, left_by, most_asked};
ghost use Rattle.px_stack.specs.Sockets.{is_websocket, names_it, takes_extensions};
ghost use Rattle.px_stack.specs.Stages.{Visitor};
ghost use Rattle.px_stack.specs.Stands.{IsSomewhere};
ghost use Rattle.px_stack.specs.Steps.{Adds, BeginsSocket, ResumesChild, TakesChild, comes_to};

use crate::child::Child;
use crate::closing::Sides;
use px_event::{Command, Event, Layer, Reply, Rests};
use px_message::{Fields, Flow};
use px_relay::WsLayer;
use px_text::NoMemory;
use std::alloc::Global;

/// What a WebSocket is made with: where memory comes from, and the key of the masks of frames to its server.
#[derive(Clone, Copy)]
pub struct Means {
    pub alloc: Global,
    pub mask_key: [u8; 32],
}

/// Whether the connection of a flow whose response of code 101 was sent is a WebSocket; `closed` says whether the client has closed.
pub fn is_websocket(flow: &Flow, closed: bool) -> bool
    ensures { result ≡ is_websocket flow.now closed }
{
    match &flow.response {
        Some(response) => agree(&flow.request.get().fields, &response.get().fields) && !closed,
        None => false,
    }
}

// Whether the fields of request and response agree to it.
fn agree(asked: &Fields, given: &Fields) -> bool
    ensures { result ≡ (names_it asked.now && names_it given.now && not (takes_extensions given.now)) }
{
    names_it(asked) && names_it(given) && !takes_extensions(given)
}

fn names_it(fields: &Fields) -> bool
    ensures { result ≡ names_it fields.now }
{
    fields.has_element(b"Upgrade", b"websocket")
}

fn takes_extensions(fields: &Fields) -> bool
    ensures { result ≡ takes_extensions fields.now }
{
    fields.get_all(b"Sec-WebSocket-Extensions").next().is_some()
}

/// Begins a WebSocket at this moment between these sides with what was left of both, of which the client has not closed. Where a Close frame
/// or a fault stands in what was left, or the server has closed, it may end at once.
pub fn begin_socket(
    means: Means,
    moment: u64,
    sides: Sides,
    rests: Rests,
    flow: Flow,
    out: &mut Vec<Command>,
) -> Result<Child, NoMemory>
    ensures begins { IfOk result (λ next. Adds (BeginsSocket (key_of means.mask_key) moment sides rests flow next) out.old.items out.new.items) }
    ensures asks { IfOk result (λ next. AsksOnly (awaited_by next) out.old.items out.new.items) }
    ensures left { IfOk result (λ next. left_by next ≤ most_asked) }
{
    let mut flow = flow;
    flow.websocket = true;
    let mut layer = WsLayer::new(means.alloc, flow, sides.server, means.mask_key, rests)?;
    layer.begin(moment, sides.shut, out)?;
    let boxed = Box::new(means.alloc, layer)?;
    Ok(come_to(boxed))
}

/// Takes an event at this moment, while nothing is asked.
pub fn socket_takes(
    layer: Box<WsLayer>,
    moment: u64,
    event: &Event,
    out: &mut Vec<Command>,
) -> Result<Child, NoMemory>
    requires somewhere { (conv : ℕ) × (client : Visitor) × IsSomewhere conv client (Child.Socket layer) }
    requires free { awaited_by (Child.Socket layer) ≡ None }
    ensures takes { IfOk result (λ next. Adds (λ more. (conv : ℕ) (client : Visitor) → TakesChild conv client (Child.Socket layer) next moment event.now more) out.old.items out.new.items) }
    ensures asks { IfOk result (λ next. AsksOnly (awaited_by next) out.old.items out.new.items) }
    ensures left { IfOk result (λ next. left_by next ≤ left_by (Child.Socket layer)) }
{
    let mut layer = layer;
    layer.hear(moment, event, out)?;
    Ok(come_to(layer))
}

/// Takes the reply to what is asked.
pub fn socket_resumes(
    layer: Box<WsLayer>,
    moment: u64,
    reply: &Reply,
    out: &mut Vec<Command>,
) -> Result<Child, NoMemory>
    requires somewhere { (conv : ℕ) × (client : Visitor) × IsSomewhere conv client (Child.Socket layer) }
    requires answers { MayAnswer (awaited_by (Child.Socket layer)) reply.now }
    ensures resumes { IfOk result (λ next. Adds (λ more. (conv : ℕ) (client : Visitor) → ResumesChild conv client (Child.Socket layer) next moment reply.now more) out.old.items out.new.items) }
    ensures asks { IfOk result (λ next. AsksOnly (awaited_by next) out.old.items out.new.items) }
    ensures left { IfOk result (λ next. left_by next < left_by (Child.Socket layer)) }
{
    let mut layer = layer;
    layer.answer(moment, reply, out)?;
    Ok(come_to(layer))
}

// Behind a call: the WebSocket, or nothing where it has ended.
fn come_to(layer: Box<WsLayer>) -> Child
    ensures { result ≡ comes_to layer }
{
    if layer.ended() {
        return Child::Over;
    }
    Child::Socket(layer)
}
