//! Whole messages of HTTP/1.1, read from bytes that come in any pieces: heads with their bodies, in chunks (RFC 9112
//! section 7.1), by length or up to the close (section 6.3).
//!
//! What stands at the front of a stream is a function of its joined bytes (`specs/Readings.antt`, `specs/Items.antt`),
//! and a chunked body is a relation between a text and its chunks (`specs/Chunked.antt`), which copies no reader; the two
//! agree (`laws`). The readers give the parts of a message as they come, and what they gave is at every moment what the
//! function says of the bytes that were fed, however they were cut.
#![tactic(auto)]

pub mod chunk_laws;
mod chunk_reader;
mod head;
mod kept;
pub mod laws;
mod message_reader;
mod part;
mod parts;

pub use chunk_reader::{ChunkError, ChunkReader};
pub use head::{RequestHead, ResponseHead};
pub use message_reader::MessageReader;
pub use part::{ChunkPart, Part};
