//! Messages that are sent on as they come: what is sent of one, part by part, and which are.
//!
//! A message whose body is streamed is not kept until it is whole. Its head is sent as it was settled, and behind that goes what
//! comes. What was sent of it at a moment has to be told by the bytes that were heard until then, and by nothing else: by no piece
//! in which they came, and by no call that looked at them. So its text is a function of what the reading of the joined bytes tells
//! (`px_read`), mark by mark: a chunk begins with its size, a byte of the body is itself, a chunk ends with CRLF; and behind a whole
//! chunked body stand the last chunk and the trailers (`specs/Texts.antt`, RFC 9112 section 7.1). Chunks are the sender's: their sizes
//! are written anew, in lower case and without leading zeros, and their extensions are dropped. A body of a stated length, and one up
//! to the close, is its bytes and nothing at the end.
//!
//! More bytes tell more marks and change none, so this text only grows. Whoever sends it needs no more than how many bytes of it
//! were sent: what is sent next is the rest of the text as it is now (`left_of`), and the sum is the text, whichever pieces the bytes
//! came in. The parts that a reader gives say the same, one behind the other (`write_part`): so a sender that hands on each part as it
//! is given keeps nothing, and has sent the text at every moment at which the reader has no more to give.
//!
//! Such a message is still one message. Its framing fields are those that were read (`px_message::settle_streamed`), so its body is as
//! long as its head says, in the very chunks that came; and its text is read back with the head that was sent, with the same marks and
//! the same trailers, and not a byte of it is left for the next (RFC 9112 section 11.2).
//!
//! Which bodies are streamed is told by the length that was read, by the size that the answer to the head allowed and by how many
//! bytes of the body were heard (`is_streamed`): from one byte on, wherever the cuts are.
#![tactic(auto)]

pub mod laws;
mod rows;
mod streamed;
mod write;

pub use rows::{bodies_are_sent, bodies_are_streamed};
pub use streamed::{is_streamed, response_is_streamed};
pub use write::{write_end, write_part};
