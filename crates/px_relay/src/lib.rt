//! The relay of a WebSocket (RFC 6455) between a client and a server: frames go on, and each message is asked about.
//!
//! A connection becomes a WebSocket behind a 101 (section 4). From then on each side sends frames, which px_frame reads. A message comes in one
//! frame of data or in several, and control frames may stand between these (section 5.4). What a frame comes to:
//!
//! - A ping or a pong is sent on to the other side at once, also where the message that its side began before is not whole yet.
//! - A frame of data is kept until its message is whole. Then the message is asked about, by its number among those of both sides, from 0. While it is
//!   asked about nothing else is worked off, of neither side.
//! - A Close frame is sent on to the other side, then back to the one it came from (section 5.5.1), and the WebSocket has ended.
//! - A fault in the frames of a side, or a text that is no UTF-8 (section 8.1), fails the WebSocket (section 7.1.7): a Close frame that tells why goes to the
//!   other side, then to this one, with code 1002, or 1007 for the text, or 1009 where a message is too big (section 7.4.1); and it has ended.
//!
//! The answer decides of a message. Go sends it with the payload of the flow's message; a text that would be no UTF-8 any more is sent as it was read. Discard
//! sends nothing, but the message keeps its number. Kill ends the WebSocket, with the flow killed. Any other answer counts as Go with the flow as asked. A
//! message that is sent with as many bytes as it came with keeps the lengths of its fragments; else it is cut into frames of 4,000 bytes, and an empty one
//! is one empty frame.
//!
//! The flow keeps a record of each message that was answered, but of one that was killed: with the payload that was sent, or that was read where it was discarded,
//! and with the moment of the first step at whose end it was asked about. A flow that is asked about has the records of the messages in front of its own, and the
//! finished flow those of all; what a reply says of records does not count. Copies of a flow share them (`Messages`), so a message costs its record and no copy of those before.
//!
//! Frames to the server are masked (section 5.3). The key of the one of number n among them, from 0, is word n of ChaCha20 with the key that the layer was made
//! with, in the stream of the conversation's number. So a message that is not sent uses up no key, and no word is the key of two frames (before 2^68 of them).
//!
//! When a side closes, what came before is worked off, and the WebSocket has ended. At the end the flow is finished, without an error unless it was killed; then
//! each side that has not closed is closed, the server first.
//!
//! What is due is a chain of stages over the bytes of each side and nothing else (`specs/Chain.antt`): not pieces, queues or readers. A stage says of each side how
//! many bytes were used, what has come of a message, and the records so far (`specs/Stages.antt`); where it stands in the bytes the next frame is read by computing.
//! `specs/Records.antt` says what the records are without stages, and `laws` has that as a law. The layer reads
//! bytes once, into a queue of frames; `specs/Stands.antt` says what its fields are at a stage and in a sight. Units are worked off in the order of the events that
//! complete them, and within an event in the order of its bytes. What the layer before had read of both sides already (`Rests`) is worked off when it begins
//! (`Event::Begun`), the client's first.
//!
//! `WsLayer` is a layer by itself. For one whose chain has a WebSocket's stages among others, `begin`, `hear` and `answer` say what a call does wherever it stands.
//!
//! # Examples
//!
//! The client sends 01 82 .. `He`, 89 80 .., 80 83 .. `llo`, which is a text in two fragments with a ping between them. The server is sent the ping first, under key 0,
//! and when the text was answered with Go, 01 82 and `He` under key 1, and 80 83 and `llo` under key 2.
#![tactic(auto)]

mod chained;
mod failure;
mod gathered;
mod half;
pub mod laws;
mod layer;
mod lengths;
mod peer;
mod phase;
mod sender;

pub use failure::Failure;
pub use layer::WsLayer;
pub use peer::Peer;
