//! Heads, and what follows each of them by its length (RFC 9112 section 6.3).
ghost use Rattle.std.specs.Prelude.{◌≡◌, ℕ, Bool, List, [], None, IfOk, true};
ghost use Rattle.px_message.specs.Length.{response_length};
ghost use Rattle.px_read.specs.Heads.{request_body_length};
ghost use Rattle.px_read.specs.Reader.{IsTurn, is_client, is_clients, at_head, request, response};
ghost use Rattle.px_read.specs.Stages.{answered, IsStage, StandOnce, body_place, request_place, seen_as, state_at};

use super::pending::Pending;
use super::stage::{MessageStage, MessageTurn, Sender, refuse};
use crate::parts::{read_request_head, read_response_head};
use crate::{ChunkReader, Part, RequestHead, ResponseHead};
use px_head::{Found, HeadReader, RawHead};
use px_message::{Fault, Fields, Length, length_of_request, length_of_response};
use px_text::NoMemory;
use std::alloc::Global;

/// The head of a request. It is given before a fault of its length; behind that of a CONNECT the message ends.
pub fn take_request(
    alloc: Global,
    mut reader: HeadReader,
    rest: Pending,
    closed: bool,
) -> Result<MessageTurn, NoMemory>
    requires going { reader.failed ≡ None }
    requires once { rest ≡ [] }
    ensures turn { IfOk result (λ turn. IsTurn (state_at (at_head request) reader.rest closed) turn.part (seen_as turn.stage turn.rest closed)) }
    ensures client { IfOk result (λ turn. is_clients (seen_as turn.stage turn.rest closed).place ≡ true) }
    ensures stage { IfOk result (λ turn. IsStage turn.stage) }
    ensures once { IfOk result (λ turn. StandOnce turn.stage turn.rest) }
{
    match reader.take_request()? {
        Found::Partial => Ok(MessageTurn {
            part: Part::More,
            stage: MessageStage::Request(reader),
            rest,
        }),
        Found::TooLong => Ok(refuse(Fault::TooLong, rest_of(reader)?)),
        Found::BadHead => Ok(refuse(Fault::BadHead, rest_of(reader)?)),
        Found::Head(raw) => {
            let rest = rest_of(reader)?;
            let head = read_request_head(alloc, raw)?;
            let stage = behind_request(alloc, length_behind(&head));
            Ok(MessageTurn {
                part: Part::Request(head),
                stage,
                rest,
            })
        }
    }
}

// The length of the body behind a request's head: a CONNECT has no content, whatever its fields say (RFC 9110 section 9.3.6).
fn length_behind(head: &RequestHead) -> Result<Length, Fault>
    ensures { result ≡ request_body_length head.now.method head.now.fields }
{
    if head.method.bytes() == b"CONNECT".as_slice() {
        Ok(Length::None)
    } else {
        length_of_request(&head.fields)
    }
}

// What the reader of a head did not use.
fn rest_of(reader: HeadReader) -> Result<Pending, NoMemory>
    ensures { IfOk result (λ rest. rest ≡ reader.rest) }
{
    Ok(Pending::new(reader.into_rest()?))
}

/// The head of a response. Where its length is at fault, it is refused and not given.
pub fn take_response(
    alloc: Global,
    asked_head: bool,
    mut reader: HeadReader,
    rest: Pending,
    closed: bool,
) -> Result<MessageTurn, NoMemory>
    requires going { reader.failed ≡ None }
    requires once { rest ≡ [] }
    ensures turn { IfOk result (λ turn. IsTurn (state_at (at_head (response asked_head)) reader.rest closed) turn.part (seen_as turn.stage turn.rest closed)) }
    ensures stage { IfOk result (λ turn. IsStage turn.stage) }
    ensures once { IfOk result (λ turn. StandOnce turn.stage turn.rest) }
{
    match reader.take_response()? {
        Found::Partial if closed => Ok(refuse(Fault::ServerClosed, rest_of(reader)?)),
        Found::Partial => Ok(MessageTurn {
            part: Part::More,
            stage: MessageStage::Response { asked_head, reader },
            rest,
        }),
        Found::TooLong => refuse_response(reader),
        Found::BadHead => refuse_response(reader),
        Found::Head(raw) => {
            let rest = rest_of(reader)?;
            let head = read_response_head(alloc, raw)?;
            Ok(give_response(alloc, asked_head, head, rest))
        }
    }
}

// A response without a head.
fn refuse_response(reader: HeadReader) -> Result<MessageTurn, NoMemory>
    ensures { IfOk result (λ turn. turn ≡ record { part = Part.Bad Fault.BadResponse; stage = MessageStage.Refused Fault.BadResponse; rest = reader.rest }) }
{
    Ok(refuse(Fault::BadResponse, rest_of(reader)?))
}

// The head of a response, or its refusal for a fault of its length.
fn give_response(alloc: Global, asked_head: bool, head: ResponseHead, rest: Pending) -> MessageTurn
    ensures turn { (closed : Bool) → (result.part, seen_as result.stage result.rest closed) ≡ answered (response_length head.code asked_head head.fields) head rest closed }
    ensures stage { IsStage result.stage }
    ensures once { StandOnce result.stage result.rest }
{
    match length_of_response(head.code, asked_head, &head.fields) {
        Err(_) => refuse(Fault::BadResponse, rest),
        Ok(length) => MessageTurn {
            part: Part::Response(head),
            stage: behind_head(alloc, Sender::Server, length),
            rest,
        },
    }
}

// What follows the head of a request.
fn behind_request(alloc: Global, length: Result<Length, Fault>) -> MessageStage
    ensures seen { (rest : List ℕ) (closed : Bool) → seen_as result rest closed ≡ state_at (request_place length) rest closed }
    ensures client { (rest : List ℕ) (closed : Bool) → is_clients (seen_as result rest closed).place ≡ true }
    ensures stage { IsStage result }
    ensures once { (rest : List ℕ) → StandOnce result rest }
{
    match length {
        Ok(length) => behind_head(alloc, Sender::Client, length),
        Err(fault) => MessageStage::Refused(fault),
    }
}

// What follows a head, by the length of its body.
fn behind_head(alloc: Global, sender: Sender, length: Length) -> MessageStage
    ensures seen { (rest : List ℕ) (closed : Bool) → seen_as result rest closed ≡ state_at (body_place sender length) rest closed }
    ensures client { is_client sender ≡ true → (rest : List ℕ) (closed : Bool) → is_clients (seen_as result rest closed).place ≡ true }
    ensures stage { IsStage result }
    ensures once { (rest : List ℕ) → StandOnce result rest }
{
    match length {
        Length::None => MessageStage::Ended(Fields::new(alloc)),
        Length::Bytes(left) => MessageStage::Counted { sender, left },
        Length::Chunked => MessageStage::Chunked {
            sender,
            reader: ChunkReader::new(alloc),
        },
        Length::ToClose => MessageStage::ToClose { sender },
    }
}
