//! Flows: a request with what became of it.
ghost use Rattle.std.specs.Prelude.{◌≡◌, IfOk};

use crate::{Address, Messages, Request, Response, Shared};
use px_text::{Bytes, NoMemory};
use std::alloc::AllocError;

/// Which flow: the number of its conversation, and its place in it from 0.
#[derive(Clone, Copy, Debug, PartialEq, Eq)]
pub struct FlowId {
    pub conv: u32,
    pub index: u32,
}

/// What ended a flow early, and when, in microseconds since 1970.
#[derive(Debug, Drop, PartialEq, Eq)]
pub struct FlowError {
    pub msg: Bytes,
    pub moment: u64,
}

/// When a head was read or a message was whole, each in microseconds since 1970: the moment of the step in which it was.
#[derive(Clone, Copy, Debug, PartialEq, Eq)]
pub struct Times {
    pub request_start: u64,
    pub request_end: Option<u64>,
    pub response_start: Option<u64>,
    pub response_end: Option<u64>,
}

/// Whether the flow was replayed, and from which end.
#[derive(Clone, Copy, Debug, PartialEq, Eq)]
pub enum Replayed {
    No,
    /// The proxy sent a recorded request.
    Request,
    /// The proxy gave a recorded response.
    Response,
}

/// A whole message of a WebSocket; it is in a flow only while its hook is asked (RFC 6455 section 5.6).
#[derive(Debug, Drop, PartialEq, Eq)]
pub struct WsMessage {
    pub from_client: bool,
    pub text: bool,
    pub payload: Bytes,
}

/// A request with its response, its error, its moments and what the proxy knows of it
/// (mitmproxy's manual, "mitmproxy.http").
///
/// Its larger parts are shared by the copies of the flow, so that it is small where it is handed on: see `Shared` for how one is changed.
#[derive(Debug, Drop, PartialEq, Eq)]
pub struct Flow {
    pub id: FlowId,
    /// Where the client is; none in a client replay.
    pub client: Option<Shared<Address>>,
    /// The address that was dialled, from when the flow begins to use that side.
    pub server: Option<Shared<Address>>,
    pub request: Shared<Request>,
    pub response: Option<Shared<Response>>,
    pub error: Option<Shared<FlowError>>,
    pub times: Times,
    pub replayed: Replayed,
    /// Whether an operator marked it.
    pub marked: bool,
    /// Whether it was upgraded to a WebSocket.
    pub websocket: bool,
    pub message: Option<Shared<WsMessage>>,
    /// The messages of its WebSocket that were relayed or discarded, in their order.
    pub messages: Messages,
}

impl Clone for FlowError {
    ghost is_clone = { λ x y. y ≡ x };

    fn clone(&self) -> Result<FlowError, AllocError> {
        Ok(FlowError {
            msg: self.msg.clone()?,
            moment: self.moment,
        })
    }
}

impl FlowError {
    /// A copy of the same error.
    pub fn try_clone(&self) -> Result<FlowError, NoMemory>
        ensures { IfOk result (λ copy. copy ≡ self.now) }
    {
        Ok(self.clone()?)
    }
}

impl Clone for WsMessage {
    ghost is_clone = { λ x y. y ≡ x };

    fn clone(&self) -> Result<WsMessage, AllocError> {
        Ok(WsMessage {
            from_client: self.from_client,
            text: self.text,
            payload: self.payload.clone()?,
        })
    }
}

impl WsMessage {
    /// A copy of the same message.
    pub fn try_clone(&self) -> Result<WsMessage, NoMemory>
        ensures { IfOk result (λ copy. copy ≡ self.now) }
    {
        Ok(self.clone()?)
    }
}

impl Clone for Flow {
    ghost is_clone = { λ x y. y ≡ x };

    fn clone(&self) -> Result<Flow, AllocError> {
        Ok(Flow {
            id: self.id,
            client: self.client.clone()?,
            server: self.server.clone()?,
            request: self.request.clone()?,
            response: self.response.clone()?,
            error: self.error.clone()?,
            times: self.times,
            replayed: self.replayed,
            marked: self.marked,
            websocket: self.websocket,
            message: self.message.clone()?,
            messages: self.messages.clone()?,
        })
    }
}

impl Flow {
    /// A copy of the same flow.
    pub fn try_clone(&self) -> Result<Flow, NoMemory>
        ensures { IfOk result (λ copy. copy ≡ self.now) }
    {
        Ok(self.clone()?)
    }
}
