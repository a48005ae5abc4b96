//! Flows that a row is about.
use crate::changes::{change_request, change_response};
use crate::parts::{address_at, host_of, name_of, path_of, status_of};
use px_message::{
    Address, Body, Fields, Flow, FlowError, FlowId, Messages, Replayed, Request, Shared, Times,
    Version, WsMessage, WsRecord,
};
use px_rows::{RowError, unescape};
use px_text::Bytes;
use px_write::short_response;
use std::alloc::Global;

/// The flow of `GET http://h/`, changed by each of these parts, which have strokes between them; `-` changes nothing.
pub(crate) fn flow_of(alloc: Global, text: &str) -> Result<Flow, RowError> {
    let mut flow = plain_flow(alloc)?;
    match change_parts(alloc, &mut flow, text) {
        Ok(()) => Ok(flow),
        Err(error) => {
            drop(flow);
            Err(error)
        }
    }
}

fn change_parts(alloc: Global, flow: &mut Flow, text: &str) -> Result<(), RowError> {
    for part in text.split(" | ") {
        change_flow(alloc, flow, part)?;
    }
    Ok(())
}

// `GET http://h/` without fields.
fn plain_request(alloc: Global) -> Result<Request, RowError> {
    let method = name_of(alloc, "GET")?;
    if method.bytes() == b"CONNECT".as_slice() {
        return Err(RowError::Bad);
    }
    let host = host_of(alloc, "h")?;
    let path = path_of(alloc, "/")?;
    Ok(Request {
        method,
        host,
        port: 80,
        path,
        version: Version::Http11,
        fields: Fields::new(alloc),
        body: Body::empty(),
        trailers: Fields::new(alloc),
        streamed: false,
    })
}

fn plain_flow(alloc: Global) -> Result<Flow, RowError> {
    let request = Shared::new(alloc, plain_request(alloc)?)?;
    Ok(Flow {
        id: FlowId { conv: 0, index: 0 },
        client: None,
        server: None,
        request,
        response: None,
        error: None,
        times: Times {
            request_start: 0,
            request_end: None,
            response_start: None,
            response_end: None,
        },
        replayed: Replayed::No,
        marked: false,
        websocket: false,
        message: None,
        messages: Messages::new(alloc),
    })
}

fn change_flow(alloc: Global, flow: &mut Flow, part: &str) -> Result<(), RowError> {
    let (what, text) = match part.split_once(' ') {
        Some(halves) => halves,
        None => (part, ""),
    };
    match what {
        "-" => Ok(()),
        "request" => put_request(alloc, flow, text),
        "response" => put_response(alloc, flow, text),
        "error" => put_error(alloc, flow, text),
        "client" => put_client(alloc, flow, text),
        "server" => put_server(alloc, flow, text),
        "message" => put_message(alloc, flow, text),
        "record" => put_record(alloc, flow, text, false),
        "discarded" => put_record(alloc, flow, text, true),
        _ => change_plainly(alloc, flow, what, text),
    }
}

/// Changes the flow's request.
pub fn put_request(alloc: Global, flow: &mut Flow, changes: &str) -> Result<(), RowError> {
    let mut request = flow.request.get().try_clone()?;
    match change_request(alloc, &mut request, changes) {
        Ok(()) => share_request(alloc, flow, request),
        Err(error) => {
            drop(request);
            Err(error)
        }
    }
}

fn share_request(alloc: Global, flow: &mut Flow, request: Request) -> Result<(), RowError> {
    flow.request = Shared::new(alloc, request)?;
    Ok(())
}

// The short response of a status, changed, as `404` or `200; body hi`.
fn put_response(alloc: Global, flow: &mut Flow, text: &str) -> Result<(), RowError> {
    let (status, changes) = match text.split_once("; ") {
        Some(halves) => halves,
        None => (text, ""),
    };
    let short = short_response(alloc, status_of(status)?)?;
    let response = change_response(alloc, short, changes)?;
    flow.response = Some(Shared::new(alloc, response)?);
    Ok(())
}

fn put_error(alloc: Global, flow: &mut Flow, text: &str) -> Result<(), RowError> {
    let msg = Bytes::new(unescape(alloc, text)?)?;
    flow.error = Some(Shared::new(alloc, FlowError { msg, moment: 0 })?);
    Ok(())
}

fn put_client(alloc: Global, flow: &mut Flow, text: &str) -> Result<(), RowError> {
    flow.client = Some(Shared::new(alloc, address_of(alloc, text)?)?);
    Ok(())
}

fn put_server(alloc: Global, flow: &mut Flow, text: &str) -> Result<(), RowError> {
    flow.server = Some(Shared::new(alloc, address_of(alloc, text)?)?);
    Ok(())
}

// `h:80`
fn address_of(alloc: Global, text: &str) -> Result<Address, RowError> {
    let Some((host, port)) = text.rsplit_once(':') else {
        return Err(RowError::Bad);
    };
    let Ok(port) = port.parse::<u16>() else {
        return Err(RowError::Bad);
    };
    address_at(alloc, host, port)
}

// `client TEXT` or `server TEXT`: whether it is the client's message, and what stands behind.
fn sender_of(text: &str) -> Result<(bool, &str), RowError> {
    match text.split_once(' ') {
        Some(("client", text)) => Ok((true, text)),
        Some(("server", text)) => Ok((false, text)),
        _ => Err(RowError::Bad),
    }
}

// `text TEXT` or `binary TEXT`: whether it is a text, and what stands behind.
fn opcode_of(text: &str) -> Result<(bool, &str), RowError> {
    match text.split_once(' ') {
        Some(("text", text)) => Ok((true, text)),
        Some(("binary", text)) => Ok((false, text)),
        _ => Err(RowError::Bad),
    }
}

// `client text 5 Hello`: a message that was relayed or discarded: its sender, its kind, when it was whole, and its payload.
fn put_record(alloc: Global, flow: &mut Flow, text: &str, dropped: bool) -> Result<(), RowError> {
    let (from_client, rest) = sender_of(text)?;
    let (text, rest) = opcode_of(rest)?;
    let (moment, payload) = match rest.split_once(' ') {
        Some(halves) => halves,
        None => (rest, ""),
    };
    let moment = number_of(moment)?;
    let payload = Bytes::new(unescape(alloc, payload)?)?;
    flow.messages.push(WsRecord {
        from_client,
        text,
        payload,
        moment,
        dropped,
    })?;
    Ok(())
}

fn put_message(alloc: Global, flow: &mut Flow, text: &str) -> Result<(), RowError> {
    let (from_client, text) = sender_of(text)?;
    let payload = Bytes::new(unescape(alloc, text)?)?;
    let message = WsMessage {
        from_client,
        text: false,
        payload,
    };
    flow.message = Some(Shared::new(alloc, message)?);
    Ok(())
}

fn change_plainly(alloc: Global, flow: &mut Flow, what: &str, text: &str) -> Result<(), RowError> {
    match (what, text) {
        ("marked", "") => flow.marked = true,
        ("websocket", "") => flow.websocket = true,
        ("replayed", "request") => flow.replayed = Replayed::Request,
        ("replayed", "response") => flow.replayed = Replayed::Response,
        ("id", text) => flow.id = id_of(text)?,
        ("moments", text) => flow.times = times_of(text)?,
        ("error-moment", text) => put_error_moment(alloc, flow, number_of(text)?)?,
        _ => return Err(RowError::Bad),
    }
    Ok(())
}

fn put_error_moment(alloc: Global, flow: &mut Flow, moment: u64) -> Result<(), RowError> {
    let Some(error) = &flow.error else {
        return Ok(());
    };
    let msg = error.get().msg.try_clone()?;
    flow.error = Some(Shared::new(alloc, FlowError { msg, moment })?);
    Ok(())
}

// `7.12`
fn id_of(text: &str) -> Result<FlowId, RowError> {
    let Some((conv, index)) = text.split_once('.') else {
        return Err(RowError::Bad);
    };
    match (conv.parse::<u32>(), index.parse::<u32>()) {
        (Ok(conv), Ok(index)) => Ok(FlowId { conv, index }),
        _ => Err(RowError::Bad),
    }
}

fn number_of(text: &str) -> Result<u64, RowError> {
    match text.parse::<u64>() {
        Ok(number) => Ok(number),
        Err(_) => Err(RowError::Bad),
    }
}

fn moment_of(text: Option<&str>) -> Result<Option<u64>, RowError> {
    match text {
        None | Some("-") => Ok(None),
        Some(text) => Ok(Some(number_of(text)?)),
    }
}

// When the request began and ended, and the response, as `1 2 3 -`.
fn times_of(text: &str) -> Result<Times, RowError> {
    let mut words = text.split(' ');
    let Some(request_start) = moment_of(words.next())? else {
        return Err(RowError::Bad);
    };
    Ok(Times {
        request_start,
        request_end: moment_of(words.next())?,
        response_start: moment_of(words.next())?,
        response_end: moment_of(words.next())?,
    })
}
