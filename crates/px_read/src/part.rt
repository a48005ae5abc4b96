//! The parts in which a message, or a chunked body, is given.
use crate::{RequestHead, ResponseHead};
use px_message::{Fault, Fields};
use px_text::Bytes;

/// One part of a message.
#[derive(Debug, Drop)]
pub enum Part {
    /// What was fed holds no further part.
    More,
    /// The head of the request.
    Request(RequestHead),
    /// The head of the response.
    Response(ResponseHead),
    /// Bytes of the body, at least one.
    Piece(Bytes),
    /// A chunk of so many bytes begins, at least one (RFC 9112 section 7.1).
    ChunkStart(u64),
    /// The chunk ends.
    ChunkEnd,
    /// The message is whole; these are its trailers. It is answered again for ever.
    End(Fields),
    /// The message is refused for this fault. It is answered again for ever.
    Bad(Fault),
}

/// One part of a chunked body.
#[derive(Debug, Drop)]
pub enum ChunkPart {
    /// A chunk of so many bytes begins, at least one.
    Size(u64),
    /// Bytes of the chunk, at least one.
    Piece(Bytes),
    /// The chunk ends.
    EndOfChunk,
    /// The body ends, with these trailers.
    Trailers(Fields),
}
