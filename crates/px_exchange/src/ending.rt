//! How flows and conversations end: the bytes, the finished flow and the closes, in this order.
ghost use Rattle.std.specs.Prelude.{◌≡◌, ◌++◌, ◌&&◌, OnOk, IfOk};
ghost use Rattle.px_message.specs.Length.{response_length, stands as has_field, transfer_encoding};
ghost use Rattle.px_message.specs.Settle.{settled_request, settled_response};
ghost use Rattle.px_write.specs.Error.{error_text as fault_text};
ghost use Rattle.px_exchange.specs.Endings.{connection_goes_on, ends_by_fault, ends_early, finished, finished_streamed, goes_on_behind, is_to_close, persists, persists_settled, read_persists, refuses, runs_to_close, sent_persists, shut_all, shut_client, shut_server, shut_unless, unless_kept};
ghost use Rattle.px_exchange.specs.Requests.{is_head as asks_head};
ghost use Rattle.px_exchange.specs.declared.ending.Used.TheVariants.{NoServer};

use crate::asked::is_head;
use crate::boxed::Boxed;
use crate::flows::{with_end, with_error, with_response, without_response};
use crate::said::{close, done, send};
use crate::terms::Now;
use crate::texts::returned_text;
use px_event::{Command, Side};
use px_message::{
    Fault, Fields, Flow, Length, Request, Response, Shared, Version, length_of_response,
    settle_request, settle_response,
};
use px_read::ResponseHead;
use px_text::{Bytes, NoMemory};
use px_write::{error_text, fault_message};
use std::alloc::Global;

/// The server that a flow uses, if it uses one, and whether it closed.
#[derive(Clone, Copy, Debug, PartialEq, Eq)]
pub enum Used {
    NoServer,
    ByServer { number: u32, closed: bool },
}

/// The most flows of a conversation.
pub const MOST_FLOWS: u32 = 1_000_000;

// Closes the server's side, unless it closed itself.
fn shut_server(used: Used, out: &mut Vec<Command>) -> Result<(), NoMemory>
    ensures { OnOk result (out.new.items ≡ out.old.items ++ shut_server used) }
{
    match used {
        Used::NoServer => Ok(()),
        Used::ByServer { closed: true, .. } => Ok(()),
        Used::ByServer {
            number,
            closed: false,
        } => close(Side::Server(number), out),
    }
}

// Closes the client's side, unless it closed itself.
fn shut_client(closed: bool, out: &mut Vec<Command>) -> Result<(), NoMemory>
    ensures { OnOk result (out.new.items ≡ out.old.items ++ shut_client closed) }
{
    if closed {
        return Ok(());
    }
    close(Side::Client, out)
}

// Closes all sides of a conversation: its server's, then its client's.
fn shut_all(used: Used, closed: bool, out: &mut Vec<Command>) -> Result<(), NoMemory>
    ensures { OnOk result (out.new.items ≡ out.old.items ++ shut_all used closed) }
{
    shut_server(used, out)?;
    shut_client(closed, out)
}

fn fault_text(alloc: Global, fault: Fault, asked_head: bool) -> Result<Bytes, NoMemory>
    ensures { IfOk result (λ text. text ≡ fault_text fault asked_head) }
{
    let mut text = Vec::new(alloc);
    error_text(fault, asked_head, &mut text)?;
    Bytes::new(text)
}

/// Ends the conversation by a head that makes no flow: its text, and the closes of the side that is parked, if one is, and of the client.
pub fn refuse(
    now: Now,
    fault: Fault,
    asked_head: bool,
    parked: Used,
    out: &mut Vec<Command>,
) -> Result<(), NoMemory>
    ensures { OnOk result (out.new.items ≡ out.old.items ++ refuses fault asked_head parked now.client_closed) }
{
    send(Side::Client, fault_text(now.alloc, fault, asked_head)?, out)?;
    shut_all(parked, now.client_closed, out)
}

/// Closes the side that is parked, if one is: behind a dial, where no flow takes it any more, or at the conversation's end.
pub fn part(parked: Used, out: &mut Vec<Command>) -> Result<(), NoMemory>
    ensures { OnOk result (out.new.items ≡ out.old.items ++ shut_server parked) }
{
    shut_server(parked, out)
}

/// Ends the flow early with this error, and its conversation; nothing is said to the client.
pub fn end_early(
    now: Now,
    flow: Boxed<Flow>,
    message: &[u8],
    used: Used,
    out: &mut Vec<Command>,
) -> Result<(), NoMemory>
    ensures { OnOk result (out.new.items ≡ out.old.items ++ ends_early flow message.now now.moment used now.client_closed) }
{
    done(with_error(now, flow, message)?.into_inner(), out)?;
    shut_all(used, now.client_closed, out)
}

/// Ends the flow by a fault, before a byte of the response was sent: its text tells the client.
pub fn end_by_fault(
    now: Now,
    flow: Boxed<Flow>,
    fault: Fault,
    used: Used,
    out: &mut Vec<Command>,
) -> Result<(), NoMemory>
    ensures { OnOk result (out.new.items ≡ out.old.items ++ ends_by_fault flow fault now.moment used now.client_closed) }
{
    let text = fault_text(now.alloc, fault, is_head(flow.request.get().method.bytes()))?;
    send(Side::Client, text, out)?;
    end_early(now, without_response(flow), fault_message(fault), used, out)
}

// Whether a message of this version persists (RFC 9112 section 9.3).
fn persists(version: Version, fields: &Fields) -> bool
    ensures { result ≡ persists version fields.now }
{
    let closes = fields.has_element(b"Connection", b"close");
    match version {
        Version::Http11 => !closes,
        Version::Http10 => {
            let stays = fields.has_element(b"Connection", b"keep-alive");
            let coded = is_coded(fields);
            stays && !closes && !coded
        }
    }
}

fn is_coded(fields: &Fields) -> bool
    ensures { result ≡ has_field transfer_encoding fields.now }
{
    fields.get_all(b"Transfer-Encoding").next().is_some()
}

// Whether the response, as it is sent, runs to the close.
fn runs_to_close(sent: &Response, asked_head: bool) -> bool
    ensures { result ≡ runs_to_close sent.now asked_head }
{
    is_to_close(sent.status.code(), asked_head, &sent.fields)
}

// Whether a response of this code runs to the close.
fn is_to_close(code: u16, asked_head: bool, fields: &Fields) -> bool
    ensures { result ≡ is_to_close (response_length code asked_head fields.now) }
{
    match length_of_response(code, asked_head, fields) {
        Ok(Length::ToClose) => true,
        _ => false,
    }
}

/// Whether a request persists as it is sent (RFC 9112 section 9.3): its server's side may be kept behind it.
pub fn sent_persists(request: &Request) -> Result<bool, NoMemory>
    ensures { IfOk result (λ persists. persists ≡ sent_persists request.now) }
{
    match request.version {
        Version::Http11 => persists_settled(request),
        Version::Http10 => {
            if request.streamed {
                return Ok(false);
            }
            persists_settled(request)
        }
    }
}

fn persists_settled(request: &Request) -> Result<bool, NoMemory>
    ensures { IfOk result (λ is_so. is_so ≡ persists request.now.version (settled_request request.now).fields) }
{
    let mut sent = request.try_clone()?;
    settle_request(&mut sent)?;
    Ok(persists(sent.version, &sent.fields))
}

/// Whether a response persists as its head was read, does not run to the close (RFC 9112 section 9.3) and does not switch protocols (RFC 9110
/// section 15.2.2): its server's side may be kept behind it.
pub fn read_persists(request: &Request, head: &ResponseHead) -> bool
    ensures { result ≡ read_persists request.now head.now }
{
    let persists = persists(head.version, &head.fields);
    let to_close = is_to_close(head.code, is_head(request.method.bytes()), &head.fields);
    persists && !to_close && head.code != 101
}

/// The response as it is sent: its framing made true to its body.
pub fn settled(request: &Request, response: &Response) -> Result<Response, NoMemory>
    ensures { IfOk result (λ sent. sent ≡ settled_response (asks_head request.now.method) response.now) }
{
    let mut sent = response.try_clone()?;
    settle_response(&mut sent, is_head(request.method.bytes()))?;
    Ok(sent)
}

// Whether the client's connection goes on behind this flow, whose response is sent as this one.
fn goes_on_behind(index: u32, request: &Request, response: &Response, sent: &Response) -> bool
    ensures { result ≡ goes_on_behind index request.now response.now sent.now }
{
    let asked = persists(request.version, &request.fields);
    let answered = persists(response.version, &response.fields);
    let to_close = runs_to_close(sent, is_head(request.method.bytes()));
    let stays = asked && answered && !to_close;
    stays && index < MOST_FLOWS - 1
}

// The text, the flow, and the close of its server's side. The response was settled to the one that is sent.
fn finish_flow(
    now: Now,
    flow: Boxed<Flow>,
    response: Shared<Response>,
    sent: &Response,
    used: Used,
    out: &mut Vec<Command>,
) -> Result<(), NoMemory>
    requires settled { sent.now ≡ settled_response (asks_head flow.request.method) response }
    ensures { OnOk result (out.new.items ≡ out.old.items ++ finished flow response used) }
{
    send(
        Side::Client,
        returned_text(now.alloc, flow.request.get(), sent)?,
        out,
    )?;
    done(with_response(flow, response).into_inner(), out)?;
    shut_server(used, out)
}

// No side, where it is kept.
fn unless_kept(kept: bool, used: Used) -> Used
    ensures { result ≡ unless_kept kept used }
{
    if kept { Used::NoServer } else { used }
}

/// Finishes the flow with this response: its text, the flow, the close of its server's side, unless `keeps` says that it is kept where the client's connection goes on,
/// and, where that ends there, the closes of the side that is parked, if one is, and of the client. Whether it goes on.
pub fn finish(
    now: Now,
    index: u32,
    flow: Boxed<Flow>,
    response: Shared<Response>,
    used: Used,
    keeps: bool,
    parked: Used,
    out: &mut Vec<Command>,
) -> Result<bool, NoMemory>
    ensures stays { IfOk result (λ stays. stays ≡ connection_goes_on index flow.request response) }
    ensures gives { OnOk result (out.new.items ≡ out.old.items ++ finished flow response (unless_kept (connection_goes_on index flow.request response && keeps) used) ++ shut_unless (connection_goes_on index flow.request response) parked now.client_closed) }
{
    let sent = settled(flow.request.get(), response.get())?;
    let stays = goes_on_behind(index, flow.request.get(), response.get(), &sent);
    let used = unless_kept(stays && keeps, used);
    finish_flow(now, flow, response, &sent, used, out)?;
    if stays {
        return Ok(true);
    }
    shut_all(parked, now.client_closed, out)?;
    Ok(false)
}

/// Finishes a flow whose response was sent on as it came, as `sent` says: the flow with the end of its response, the close of its
/// server's side, unless `keeps` says that it is kept where the client's connection goes on, and, where that ends there, the close of the client. Whether it goes on.
pub fn finish_streamed(
    now: Now,
    index: u32,
    flow: Boxed<Flow>,
    response: &Response,
    sent: &Response,
    used: Used,
    keeps: bool,
    out: &mut Vec<Command>,
) -> Result<bool, NoMemory>
    ensures stays { IfOk result (λ stays. stays ≡ goes_on_behind index flow.request response.now sent.now) }
    ensures gives { OnOk result (out.new.items ≡ out.old.items ++ finished_streamed flow now.moment (unless_kept (goes_on_behind index flow.request response.now sent.now && keeps) used) ++ shut_unless (goes_on_behind index flow.request response.now sent.now) NoServer now.client_closed) }
{
    let stays = goes_on_behind(index, flow.request.get(), response, sent);
    let used = unless_kept(stays && keeps, used);
    done(with_end(flow, now.moment).into_inner(), out)?;
    shut_server(used, out)?;
    if stays {
        return Ok(true);
    }
    shut_all(Used::NoServer, now.client_closed, out)?;
    Ok(false)
}
