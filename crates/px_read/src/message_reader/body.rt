//! Bodies: counted, in chunks, or up to the close (RFC 9112 section 6.3). Each piece is as long as what is there.
ghost use Rattle.std.specs.Prelude.{◌≡◌, ◌≤◌, ◌<◌, min, take, drop, length, IfOk, true};
ghost use Rattle.px_read.specs.Chunking.{reads};
ghost use Rattle.px_read.specs.Chunks.{ChunkPlace};
ghost use Rattle.px_read.specs.Reader.{IsTurn, has_shut, is_client, is_clients, in_counted, in_chunks, up_to_close};
ghost use Rattle.px_read.specs.Stages.{IsStage, StandOnce, chunk_place, fault_of, seen_as, state_at};
ghost use Rattle.px_read.specs.Waits.{given};
ghost use Rattle.px_message.specs.declared.fault.Fault.TheVariants.{BadChunk};

use super::pending::Pending;
use super::stage::{MessageStage, MessageTurn, Sender, end, refuse, wait};
use crate::chunk_reader::ChunkError;
use crate::{ChunkPart, ChunkReader, Part};
use px_message::{Fault, Fields};
use px_text::NoMemory;
use std::alloc::Global;

/// A piece of a body of which so many bytes are to come, or its end.
pub fn take_counted(
    alloc: Global,
    sender: Sender,
    left: u64,
    rest: Pending,
    closed: bool,
) -> Result<MessageTurn, NoMemory>
    ensures turn { IfOk result (λ turn. IsTurn (state_at (in_counted sender left) rest closed) turn.part (seen_as turn.stage turn.rest closed)) }
    ensures client { is_client sender ≡ true → IfOk result (λ turn. is_clients (seen_as turn.stage turn.rest closed).place ≡ true) }
    ensures stage { IfOk result (λ turn. IsStage turn.stage) }
    ensures once { IfOk result (λ turn. StandOnce turn.stage turn.rest) }
{
    if left == 0 {
        return end(Fields::new(alloc), rest);
    }
    let count = piece_length(left, rest.len());
    if count == 0 {
        return Ok(wait(
            MessageStage::Counted { sender, left },
            rest,
            is_shut(sender, closed),
        ));
    }
    let left = left - count as u64;
    take_piece(count, MessageStage::Counted { sender, left }, rest)
}

/// A piece of a body up to the close, or its end.
pub fn take_to_close(
    alloc: Global,
    sender: Sender,
    rest: Pending,
    closed: bool,
) -> Result<MessageTurn, NoMemory>
    ensures turn { IfOk result (λ turn. IsTurn (state_at (up_to_close sender) rest closed) turn.part (seen_as turn.stage turn.rest closed)) }
    ensures client { is_client sender ≡ true → IfOk result (λ turn. is_clients (seen_as turn.stage turn.rest closed).place ≡ true) }
    ensures stage { IfOk result (λ turn. IsStage turn.stage) }
    ensures once { IfOk result (λ turn. StandOnce turn.stage turn.rest) }
{
    let count = rest.len();
    if count > 0 {
        return take_piece(count, MessageStage::ToClose { sender }, rest);
    }
    if is_shut(sender, closed) {
        return end(Fields::new(alloc), rest);
    }
    Ok(MessageTurn {
        part: Part::More,
        stage: MessageStage::ToClose { sender },
        rest,
    })
}

// How many bytes of a body are there, of those that are to come.
fn piece_length(left: u64, there: usize) -> usize
    ensures least { result ≡ min left there }
    ensures left { result ≤ left }
    ensures within { result ≤ there }
    ensures all { result ≡ 0 → 0 < left → there ≡ 0 }
{
    if there as u64 <= left {
        there
    } else {
        left as usize
    }
}

// A piece of so many bytes, and this stage behind it.
fn take_piece(count: usize, stage: MessageStage, mut rest: Pending) -> Result<MessageTurn, NoMemory>
    requires { count ≤ length rest }
    ensures { IfOk result (λ turn. turn ≡ record { part = Part.Piece (take count rest); stage = stage; rest = drop count rest }) }
{
    let piece = rest.split(count)?;
    Ok(MessageTurn {
        part: Part::Piece(piece),
        stage,
        rest,
    })
}

/// Whether the close counts.
pub fn is_shut(sender: Sender, closed: bool) -> bool
    ensures { result ≡ has_shut sender closed }
{
    match sender {
        Sender::Client => false,
        Sender::Server => closed,
    }
}

/// A part of a chunked body, or its end.
pub fn take_chunk(
    sender: Sender,
    mut reader: ChunkReader,
    mut rest: Pending,
    closed: bool,
) -> Result<MessageTurn, NoMemory>
    requires { (place : ChunkPlace) × (reader ≡ reads place) }
    ensures turn { IfOk result (λ turn. IsTurn (state_at (chunk_place sender reader) rest closed) turn.part (seen_as turn.stage turn.rest closed)) }
    ensures client { is_client sender ≡ true → IfOk result (λ turn. is_clients (seen_as turn.stage turn.rest closed).place ≡ true) }
    ensures stage { IfOk result (λ turn. IsStage turn.stage) }
    ensures once { IfOk result (λ turn. StandOnce turn.stage turn.rest) }
{
    match reader.step(rest.bytes()) {
        Ok(step) => {
            rest.skip(step.used);
            let stage = MessageStage::Chunked { sender, reader };
            give(step.part, stage, rest, is_shut(sender, closed))
        }
        Err(ChunkError::BadChunk) => Ok(refuse(chunk_fault(sender), rest)),
        Err(ChunkError::NoMemory) => Err(NoMemory),
    }
}

// The part of a chunked body as a part of the message, with this stage behind it.
fn give(
    part: Option<ChunkPart>,
    stage: MessageStage,
    rest: Pending,
    is_cut_off: bool,
) -> Result<MessageTurn, NoMemory>
    ensures { IfOk result (λ turn. turn ≡ given part stage rest is_cut_off) }
{
    match part {
        None => Ok(wait(stage, rest, is_cut_off)),
        Some(ChunkPart::Size(size)) => Ok(MessageTurn {
            part: Part::ChunkStart(size),
            stage,
            rest,
        }),
        Some(ChunkPart::Piece(bytes)) => Ok(MessageTurn {
            part: Part::Piece(bytes),
            stage,
            rest,
        }),
        Some(ChunkPart::EndOfChunk) => Ok(MessageTurn {
            part: Part::ChunkEnd,
            stage,
            rest,
        }),
        Some(ChunkPart::Trailers(trailers)) => end(trailers, rest),
    }
}

// What a malformed chunked body is told as.
fn chunk_fault(sender: Sender) -> Fault
    ensures { result ≡ fault_of sender BadChunk }
{
    match sender {
        Sender::Client => Fault::BadChunk,
        Sender::Server => Fault::BadResponse,
    }
}
