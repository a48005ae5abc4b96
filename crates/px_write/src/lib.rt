//! Messages as they stand on the wire (RFC 9112 sections 2 to 7), and the answers to faults.
//!
//! A text is a function of what is handed in alone: the bytes are appended to a vector, piece by piece, and what stood in
//! it stays. After `NoMemory` the vector ends in the first bytes of the text, whichever they are. Start line and fields
//! are written as they are held, in their order and spelling; nothing is added to a message and nothing is left out but a
//! body that may not follow its head. The caller has settled its framing fields: a body is sent in chunks exactly where
//! the message's own codings say so (RFC 9112 section 7.1), and as it is otherwise.
//!
//! A whole chunked body is one chunk, or none where it is empty, then the last chunk and the trailers. A body that passes
//! by is written in its parts, by `write_chunk_start`, `write_chunk_end` and `write_last_chunk`.
#![tactic(auto)]

mod append;
mod body;
mod error;
mod fields;
mod form;
pub mod framing;
mod line;
mod message;
pub mod read_back;
mod short;

pub use body::{write_chunk_end, write_chunk_start, write_last_chunk};
pub use error::{error_text, fault_message};
pub use form::Form;
pub use message::{
    write_interim, write_request, write_request_head, write_response, write_response_head,
};
pub use short::short_response;
