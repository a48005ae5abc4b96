//! Whether a body is streamed.
//!
//! The answer to a message's head may allow a size. A body of a stated length is streamed where the length is above it, and that is
//! known with the head; one in chunks or up to the close is streamed from the byte on that is one more than the size. Both are told
//! by the bytes that were heard, not by how they came.
ghost use Rattle.std.specs.Prelude.{◌≡◌};
ghost use Rattle.px_parts.specs.Streamed.{exceeds, is_streamed, response_is_streamed};

use px_message::{Length, has_no_body};

/// Whether a body of that length, as its head was read, is streamed where `allowed` is the size that may be kept, and `heard` bytes
/// of the body came so far. Where no size is allowed, nothing is streamed.
pub fn is_streamed(length: Length, allowed: Option<u64>, heard: u64) -> bool
    ensures { result ≡ is_streamed length allowed heard }
{
    match allowed {
        None => false,
        Some(most) => exceeds(length, most, heard),
    }
}

/// The same of a response that is sent with this code, to a HEAD or not. One that can have no body with it (204 or 304, which an
/// answer may have set) is not streamed (RFC 9110 section 6.4.1).
pub fn response_is_streamed(
    status: u16,
    asked_head: bool,
    length: Length,
    allowed: Option<u64>,
    heard: u64,
) -> bool
    ensures { result ≡ response_is_streamed status asked_head length allowed heard }
{
    !has_no_body(status, asked_head) && is_streamed(length, allowed, heard)
}

// The body is more than may be kept.
fn exceeds(length: Length, most: u64, heard: u64) -> bool
    ensures { result ≡ exceeds length most heard }
{
    match length {
        Length::None => false,
        Length::Bytes(n) => most < n,
        Length::Chunked | Length::ToClose => most < heard,
    }
}
