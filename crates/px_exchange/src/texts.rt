//! The texts that a conversation sends.
ghost use Rattle.std.specs.Prelude.{◌≡◌, [], IfOk};
ghost use Rattle.px_read.specs.Heads.{is_interim};
ghost use Rattle.px_write.specs.Text.{interim_text, response_text};
ghost use Rattle.px_exchange.specs.Requests.{is_head as asks_head};
ghost use Rattle.px_exchange.specs.Texts.{connected_text, continue_text, onward_text};

use crate::asked::is_head;
use px_message::{Body, Request, Response, settle_request};
use px_read::ResponseHead;
use px_text::{Bytes, NoMemory};
use px_write::{Form, write_interim, write_request, write_response};
use std::alloc::Global;

/// Room for the head of a message, beside its body.
const HEAD_ROOM: usize = 512;

/// The request as it goes to the server, or to a proxy: its framing made true to its body.
pub fn onward_text(alloc: Global, form: Form, request: &Request) -> Result<Bytes, NoMemory>
    ensures { IfOk result (λ text. text ≡ onward_text form request.now) }
{
    let mut settled = request.try_clone()?;
    settle_request(&mut settled)?;
    let mut text = room_for(alloc, &settled.body)?;
    write_request(&settled, form, &mut text)?;
    Bytes::new(text)
}

/// The text of a settled response, as it goes to the client; to HEAD its head alone.
pub fn returned_text(alloc: Global, request: &Request, sent: &Response) -> Result<Bytes, NoMemory>
    ensures { IfOk result (λ text. text ≡ response_text sent.now (asks_head request.now.method)) }
{
    let mut text = room_for(alloc, &sent.body)?;
    write_response(sent, is_head(request.method.bytes()), &mut text)?;
    Bytes::new(text)
}

// Room for a message with this body, so that a large text is not moved as it grows.
fn room_for(alloc: Global, body: &Body) -> Result<Vec<u8>, NoMemory>
    ensures { IfOk result (λ text. text.items ≡ []) }
{
    Ok(Vec::with_capacity(alloc, body.bytes().len().saturating_add(HEAD_ROOM))?)
}

/// An interim response, as it goes to the client.
pub fn interim_text(alloc: Global, head: &ResponseHead) -> Result<Bytes, NoMemory>
    ensures { IfOk result (λ text. text ≡ interim_text head.now.version head.now.code head.now.reason head.now.fields) }
{
    let mut text = Vec::new(alloc);
    write_interim(
        head.version,
        head.code,
        &head.reason,
        &head.fields,
        &mut text,
    )?;
    Bytes::new(text)
}

/// The text that lets the body come (RFC 9110 section 15.2.1).
#[tactic(auto, unfolding(crate::specs::Texts::continue_text))]
pub fn continue_text(alloc: Global) -> Result<Bytes, NoMemory>
    ensures { IfOk result (λ text. text ≡ continue_text) }
{
    Bytes::copied(alloc, b"HTTP/1.1 100 Continue\r\n\r\n")
}

/// The text that answers a CONNECT whose server is connected: the tunnel stands (RFC 9110 section 9.3.6).
#[tactic(auto, unfolding(crate::specs::Texts::connected_text))]
pub fn connected_text(alloc: Global) -> Result<Bytes, NoMemory>
    ensures { IfOk result (λ text. text ≡ connected_text) }
{
    Bytes::copied(alloc, b"HTTP/1.1 200 Connection established\r\n\r\n")
}

/// An interim response: another one follows it (RFC 9110 section 15.2).
pub fn is_interim(head: &ResponseHead) -> bool
    ensures { result ≡ is_interim head.now }
{
    head.code / 100 == 1 && head.code != 101
}
