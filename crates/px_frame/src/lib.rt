//! WebSocket frames (RFC 6455 section 5), read from bytes that come in any pieces, and written.
//!
//! A frame is a head and a payload (section 5.2). Byte 0 of the head has FIN, three reserved bits and the opcode; byte 1 has the mask bit
//! and 7 bits of the payload's length. Where these are 126 or 127, the length stands in the next 2 or 8 bytes, the most significant
//! first; the shortest form is used. A client masks its frames: the head ends with a key of four bytes, and byte i of the payload is
//! XORed with byte i modulo 4 of the key (section 5.3). A server does not mask. A message is one frame of data, text or binary, or
//! several: all but the last without FIN, all but the first with the opcode of a continuation (section 5.4). Control frames, which are
//! Close, ping and pong, may stand between them; each is one frame, of at most 125 bytes (section 5.5).
//!
//! Two limits are this reader's own: a message has at most 16,777,216 bytes, and a connection so many messages as its caller says.
//!
//! What the bytes are is a relation between them and a list of frames, with a rest that begins a frame, or with the fault behind them
//! (`specs/Frames.antt`). It goes from frame to frame, and of a frame's head it decides by computing (`specs/Head.antt`): no whole head
//! yet, a head, or a fault. Faults have an order, and each is told at its byte: those of bytes 0 and 1 as soon as that byte is heard,
//! those of the length at its last byte, and none waits for more. `FrameReader` answers this relation of all bytes that it was fed,
//! however they were cut. It keeps the bytes of a frame that has begun, in room for at most twice as many (`SnugBytes`). `write_frame` writes
//! the shortest form (`specs/Text.antt`). The laws say that what is written is read as itself, that whatever is read is what would be written,
//! and that no cut shows.
#![tactic(auto)]

mod fault;
mod frame;
mod head;
pub mod laws;
mod mask;
mod reader;
mod snug;
mod write;

pub use fault::{FrameError, FrameFault};
pub use frame::Frame;
pub use head::{FrameHead, HeadStep, read_head};
pub use reader::FrameReader;
pub use snug::SnugBytes;
pub use write::write_frame;
