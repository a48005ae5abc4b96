//! A request that is streamed, or may yet be: what is held of it, and what is sent.
//!
//! What is said of a response (`coming`) holds of it too: what its parts say is held beside its content while it is not known whether it is
//! streamed. Where it is, and its server is to be dialled first, the text of what came waits for that; behind it each part is sent as it is given.
ghost use Rattle.std.specs.Prelude.{◌≡◌, ◌++◌, true, IfOk, OnOk};
ghost use Rattle.px_chain.specs.Going.{sending_on, with_whole};
ghost use Rattle.px_stream.specs.Goings.{IsHeldUpFor, framed_up_by, goes_up_with, may_go_up, sends_to};

use crate::coming::may_exceed;
use px_event::{Command, Side};
use px_exchange::Boxed;
use px_exchange::flows::with_request;
use px_exchange::said::send;
use px_message::{Flow, Request, Shared, length_of_request, settle_streamed};
use px_parts::is_streamed;
use px_text::{Bytes, NoMemory};
use std::alloc::Global;

/// What is held of a request's body that may yet be streamed: the request as its head was read, and what the parts of the body say that
/// came, as they are sent on.
#[derive(Debug, Drop)]
pub struct HeldRequest {
    pub read: Shared<Request>,
    pub said: Vec<u8>,
}

/// A request that is streamed, whose server is not connected yet: as it is sent, framed as it was read, and the text of what came of it.
#[derive(Debug, Drop)]
pub struct Going {
    pub sent: Shared<Request>,
    pub text: Vec<u8>,
}

/// How a request stands whose server is connected.
#[derive(Debug, Drop)]
pub enum Sending {
    /// All of it was sent on.
    All,
    /// It is streamed, as it is sent: framed as it was read. What came of it was sent, and nothing of it is kept.
    GoingUp(Shared<Request>),
}

/// What is held of a request's body behind its head, as that was read. Where its body is never streamed, by its length or since no size
/// was allowed, nothing is.
pub fn hold_request(alloc: Global, read: Shared<Request>, most: Option<u64>) -> Option<HeldRequest>
    ensures { IsHeldUpFor read most result }
{
    if may_go_up(read.get(), most) {
        Some(HeldRequest {
            read,
            said: Vec::new(alloc),
        })
    } else {
        drop(read);
        None
    }
}

// Whether a request's body may yet be streamed, once more of it has come.
fn may_go_up(read: &Request, most: Option<u64>) -> bool
    ensures { result ≡ may_go_up read.now most }
{
    let Some(most) = most else {
        return false;
    };
    match length_of_request(&read.fields) {
        Ok(length) => may_exceed(length, most),
        Err(_) => false,
    }
}

/// Whether a request is streamed that was read so, where so many bytes of its body came.
pub fn goes_up(read: &Request, most: Option<u64>, heard: u64) -> bool
    ensures { result ≡ goes_up_with read.now most heard }
{
    match length_of_request(&read.fields) {
        Ok(length) => is_streamed(length, most, heard),
        Err(_) => false,
    }
}

/// The flow, which says that its request is streamed.
pub fn sending_on(alloc: Global, flow: Boxed<Flow>) -> Result<Boxed<Flow>, NoMemory>
    ensures { IfOk result (λ told. told ≡ sending_on flow) }
{
    let told = as_streamed(flow.request.get().try_clone()?);
    let told = Shared::new(alloc, told)?;
    Ok(with_request(flow, told))
}

// The request, which says that it is streamed.
fn as_streamed(request: Request) -> Request
    ensures { result ≡ record request { streamed = true } }
{
    let mut told = request;
    told.streamed = true;
    told
}

/// The request as it is sent: framed as it was read.
pub fn framed_up(read: &Request, request: &Request) -> Result<Request, NoMemory>
    ensures { IfOk result (λ sent. sent ≡ framed_up_by read.now request.now) }
{
    let mut sent = request.try_clone()?;
    settle_streamed(&mut sent.fields, &read.fields)?;
    Ok(sent)
}

/// Sends bytes to the server of this number, if there are any.
pub fn send_to(server: u32, text: Vec<u8>, out: &mut Vec<Command>) -> Result<(), NoMemory>
    ensures { OnOk result (out.new.items ≡ out.old.items ++ sends_to server text.items) }
{
    if text.is_empty() {
        drop(text);
        return Ok(());
    }
    send(Side::Server(server), Bytes::new(text)?, out)
}

/// The flow, whose request came whole at this moment.
pub fn with_whole(flow: Boxed<Flow>, moment: u64) -> Boxed<Flow>
    ensures { result ≡ with_whole flow moment }
{
    let mut flow = flow;
    flow.times.request_end = Some(moment);
    flow
}
