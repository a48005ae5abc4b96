//! How bodies stand on the wire.
use px_text::{NoMemory, push_decimal, push_hex};
use std::alloc::Global;

/// How a body is framed.
#[derive(Clone, Copy)]
pub(crate) enum Framing {
    Counted,
    Chunked,
}

/// The framing of this word.
pub(crate) fn read_framing(word: &str) -> Option<Framing> {
    match word {
        "counted" => Some(Framing::Counted),
        "chunked" => Some(Framing::Chunked),
        _ => None,
    }
}

/// The head with these first lines, of a message with a body of so many bytes (RFC 9112 section 6).
pub(crate) fn make_framed(
    alloc: Global,
    start: &[u8],
    framing: Framing,
    total: u64,
) -> Result<Vec<u8>, NoMemory> {
    let mut head = Vec::from_slice(alloc, start)?;
    match framing {
        Framing::Counted => {
            head.extend_from_slice(b"Content-Length: ")?;
            push_decimal(&mut head, total)?;
        }
        Framing::Chunked => head.extend_from_slice(b"Transfer-Encoding: chunked")?,
    }
    head.extend_from_slice(b"\r\n\r\n")?;
    Ok(head)
}

/// A piece of a body of so many bytes, as it stands on the wire: where the body is chunked, a chunk (RFC 9112 section 7.1).
pub(crate) fn make_piece(alloc: Global, framing: Framing, size: u64) -> Result<Vec<u8>, NoMemory> {
    let mut piece = Vec::new(alloc);
    if let Framing::Chunked = framing {
        push_hex(&mut piece, size)?;
        piece.extend_from_slice(b"\r\n")?;
    }
    for _ in 0..size {
        piece.push(b'x')?;
    }
    if let Framing::Chunked = framing {
        piece.extend_from_slice(b"\r\n")?;
    }
    Ok(piece)
}

/// What ends a body behind its pieces: the last chunk, or nothing.
pub(crate) fn end_of(framing: Framing) -> &'static [u8] {
    match framing {
        Framing::Counted => b"",
        Framing::Chunked => b"0\r\n\r\n",
    }
}
