//! Where a reader is in its message, and one turn of it: the next part, and where it is behind it.
ghost use Rattle.std.specs.Prelude.{◌≡◌, IfOk, true, false};
ghost use Rattle.px_read.specs.Reader.{is_clients, IsTurn};
ghost use Rattle.px_read.specs.Stages.{IsStage, StandOnce, heeded, seen_as};
ghost use Rattle.px_read.specs.Waits.{waited};

use super::body::{is_shut, take_chunk, take_counted, take_to_close};
use super::head::{take_request, take_response};
use super::pending::Pending;
use crate::{ChunkReader, Part};
use px_head::HeadReader;
use px_message::{Fault, Fields};
use px_text::NoMemory;
use std::alloc::Global;

/// Whose message it is: a server's close counts, and its faults are one.
#[derive(Clone, Copy, Debug, PartialEq, Eq)]
pub enum Sender {
    Client,
    Server,
}

/// What the next byte belongs to.
#[derive(Debug, Drop)]
pub enum MessageStage {
    /// The head of a request. Its reader keeps the bytes.
    Request(HeadReader),
    /// The head of a response, to a HEAD or not. Its reader keeps the bytes.
    Response {
        asked_head: bool,
        reader: HeadReader,
    },
    /// A body of which so many bytes are to come.
    Counted {
        sender: Sender,
        left: u64,
    },
    /// A chunked body.
    Chunked {
        sender: Sender,
        reader: ChunkReader,
    },
    /// A body up to the close.
    ToClose {
        sender: Sender,
    },
    /// Nothing: the message is whole, with these trailers.
    Ended(Fields),
    /// Nothing: the message is refused.
    Refused(Fault),
}

/// A part, and where the reader is behind it.
#[derive(Debug, Drop)]
pub struct MessageTurn {
    pub part: Part,
    pub stage: MessageStage,
    pub rest: Pending,
}

/// The next part of the bytes. A client's close changes nothing, so bytes may come behind it.
pub fn take_turn(
    alloc: Global,
    stage: MessageStage,
    rest: Pending,
    closed: bool,
) -> Result<MessageTurn, NoMemory>
    requires stage { IsStage stage }
    requires once { StandOnce stage rest }
    ensures turn { IfOk result (λ turn. IsTurn (seen_as stage rest closed) turn.part (seen_as turn.stage turn.rest closed)) }
    ensures unclosed { is_clients (seen_as stage rest closed).place ≡ true → IfOk result (λ turn. IsTurn (seen_as stage rest false) turn.part (seen_as turn.stage turn.rest false)) }
    ensures client { is_clients (seen_as stage rest closed).place ≡ true → IfOk result (λ turn. is_clients (seen_as turn.stage turn.rest closed).place ≡ true) }
    ensures stage { IfOk result (λ turn. IsStage turn.stage) }
    ensures once { IfOk result (λ turn. StandOnce turn.stage turn.rest) }
{
    let shut = heeds(&stage, closed);
    take_part(alloc, stage, rest, shut)
}

// Whether the close counts there.
fn heeds(stage: &MessageStage, closed: bool) -> bool
    ensures { result ≡ heeded stage.now closed }
{
    match stage {
        MessageStage::Request(_) => false,
        MessageStage::Response { .. } => closed,
        MessageStage::Counted { sender, .. } => is_shut(*sender, closed),
        MessageStage::Chunked { sender, .. } => is_shut(*sender, closed),
        MessageStage::ToClose { sender } => is_shut(*sender, closed),
        MessageStage::Ended(_) => false,
        MessageStage::Refused(_) => false,
    }
}

// The same, where the close is one that counts.
fn take_part(
    alloc: Global,
    stage: MessageStage,
    rest: Pending,
    closed: bool,
) -> Result<MessageTurn, NoMemory>
    requires stage { IsStage stage }
    requires once { StandOnce stage rest }
    ensures turn { IfOk result (λ turn. IsTurn (seen_as stage rest closed) turn.part (seen_as turn.stage turn.rest closed)) }
    ensures client { is_clients (seen_as stage rest closed).place ≡ true → IfOk result (λ turn. is_clients (seen_as turn.stage turn.rest closed).place ≡ true) }
    ensures stage { IfOk result (λ turn. IsStage turn.stage) }
    ensures once { IfOk result (λ turn. StandOnce turn.stage turn.rest) }
{
    match stage {
        MessageStage::Request(reader) => take_request(alloc, reader, rest, closed),
        MessageStage::Response { asked_head, reader } => {
            take_response(alloc, asked_head, reader, rest, closed)
        }
        MessageStage::Counted { sender, left } => take_counted(alloc, sender, left, rest, closed),
        MessageStage::Chunked { sender, reader } => take_chunk(sender, reader, rest, closed),
        MessageStage::ToClose { sender } => take_to_close(alloc, sender, rest, closed),
        MessageStage::Ended(trailers) => end(trailers, rest),
        MessageStage::Refused(fault) => Ok(refuse(fault, rest)),
    }
}

/// The message is whole.
pub fn end(trailers: Fields, rest: Pending) -> Result<MessageTurn, NoMemory>
    ensures { IfOk result (λ turn. turn ≡ record { part = Part.End trailers; stage = MessageStage.Ended trailers; rest = rest }) }
{
    Ok(MessageTurn {
        part: Part::End(trailers.try_clone()?),
        stage: MessageStage::Ended(trailers),
        rest,
    })
}

/// The message is refused.
pub fn refuse(fault: Fault, rest: Pending) -> MessageTurn
    ensures { result ≡ record { part = Part.Bad fault; stage = MessageStage.Refused fault; rest = rest } }
{
    MessageTurn {
        part: Part::Bad(fault),
        stage: MessageStage::Refused(fault),
        rest,
    }
}

/// Nothing further is told: the message waits, unless its server has closed.
pub fn wait(stage: MessageStage, rest: Pending, is_cut_off: bool) -> MessageTurn
    ensures { result ≡ waited is_cut_off stage rest }
{
    if is_cut_off {
        refuse(Fault::ServerClosed, rest)
    } else {
        MessageTurn {
            part: Part::More,
            stage,
            rest,
        }
    }
}
