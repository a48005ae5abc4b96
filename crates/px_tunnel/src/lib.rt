//! A raw tunnel between a client and a server: each side's bytes go to the other, as they come. And another proxy, which is
//! asked for a tunnel.
//!
//! A connection becomes a tunnel in two ways. Behind a successful CONNECT whatever comes of one side goes to the other, until a
//! side closes (RFC 9110, section 9.3.6); behind a 101 the connection speaks another protocol, which the proxy need not
//! know (RFC 9110, section 7.8). The layer before may have read bytes of both sides that belong to the tunnel already.
//! They are handed to it (`Rests`), and sent when it begins (`Event::Begun`), before all that comes behind.
//!
//! When one of the two sides closes, what came of it has been sent, and the other is closed behind it; then the tunnel is
//! over and hears nothing more. "A tunnel is closed when a tunnel intermediary detects that either side has closed its
//! connection: the intermediary MUST attempt to send any outstanding data that came from the closed side to the other
//! side, close both connections, and discard any remaining data left undelivered." (RFC 9110, section 9.3.6) The side
//! that closed has no close to be told of.
//!
//! What is due is a chain with two stages over the joined bytes of each side (`specs/Tunnel.antt`). While it goes on, the
//! client's bytes are owed to the server and the server's to the client, as one text each, with no piece in it; at the
//! first close the two texts and the other side's close are owed, and it is over. It keeps nothing but the bytes that it
//! was handed, until it begins; a piece is handed on whole, with the memory that it came in.
//!
//! A tunnel asks nothing, so no reply ever comes to it, and it is no `Layer` by itself: nothing could call its `resume`. A
//! layer that turns into a tunnel holds one and calls `take`, which has `goes` and `asks` of `Layer::take`; its chain goes on
//! with this one, by the same laws (`laws`). One whose chain has a stage of its own for tunnels (px_stack) calls `go_on`, which
//! says what one event has the tunnel give.
//!
//! Where a server is reached through another proxy, that proxy is asked for the tunnel first (RFC 9110, section 9.3.6). It is sent
//! `CONNECT` with the server's host and port, and the same in `Host` (`connect_text`), and answers by the head of a response
//! (`UpstreamTunnel`, `ProxyAnswer`; `specs/Upstream.antt`). A code from 200 to 299 says that the tunnel stands: such a response
//! has no body, whatever its fields say, so the bytes behind that head are the server's, and they are handed on. Any other code
//! refuses the tunnel, one from 100 to 199 too, and so does a head that is malformed or longer than 65,536 bytes. While no head
//! is whole the answer is awaited, and a proxy that closes meanwhile has refused.
//!
//! The answer is a function of all that has come of the proxy, in whatever pieces it came, and of whether it has closed. A close
//! decides only what is awaited, and what is decided stays, whatever follows (`laws`).
#![tactic(auto)]

pub mod laws;
mod tunnel;
mod upstream;

pub use tunnel::RawTunnel;
pub use upstream::{ProxyAnswer, UpstreamTunnel, connect_text};
