//! One conversation with a client, through CONNECT and through another protocol's upgrade.
//!
//! What is due of it is a chain (`stack_chain`) that begins with flows of HTTP in sequence. Where those end at a CONNECT, its server is
//! dialled; the client is told of the connection by a response of code 200 without a body, or of the refusal by an error, and behind it the
//! bytes of the client are no HTTP of this conversation any more (RFC 9110 sections 9.3.6 and 15.3.1). Nothing says what follows in such a
//! tunnel, so its first bytes decide: where the client's begin with a method and a space, HTTP goes on inside, at the address that the
//! CONNECT named, and on the side that is connected, which is kept from flow to flow as any server's is (px_chain); where they can't become
//! that any more, or where the server speaks first, each side's bytes go to the other unread. That also follows a response of code 101 (RFC 9110 section 15.2.2), on the connections of its flow, which
//! is done when the tunnel ends. A tunnel ends at the first close of either side: what is still connected is closed.
//!
//! A server's side that is kept for a next flow when a CONNECT comes is of no use any more: it is closed behind the dial, unless its keeping
//! had ended before. So `GET http://a/` and then `CONNECT b:443` on one connection dial `a` as server 0 and `b` as server 1, and close
//! server 0 right behind the second dial. Where a byte of `a` came before the CONNECT, it was closed at that byte: what HTTP owed while it
//! waited is owed for good where it hands over.
//!
//! Where request and response both name `websocket` in `Upgrade`, and the server takes no extension (RFC 6455 sections 4.1, 4.2.2 and 9.1), the
//! connection is a WebSocket, unless the client has closed. px_relay works off its frames, beginning with the bytes of both sides that HTTP has
//! not used, and asks about each whole message; frames to the server are masked by the key that `Stack::new` was handed. At its end its flow
//! is finished. An extension may change what frames mean, so a connection with one is not read.
//!
//! In mode `socks5` a client first says by SOCKS5 (RFC 1928) which server it wants (px_socks). That is dialled as server 0, and once it is
//! connected and the client was told so, the first bytes behind the request decide as behind a CONNECT: HTTP at the address that was asked for,
//! on the side that is connected, or what is not read.
//!
//! In mode `upstream` the other proxy is dialled for a CONNECT, and asked for a tunnel to where the client asks to (px_tunnel); what the
//! client sends meanwhile waits. An answer with a code from 200 to 299 makes the tunnel stand, and what comes behind its head is the
//! server's: the client's bytes up to there decide what follows, and the server's do where those leave it open. Any other answer, a head
//! that is none, or the proxy's close is told to the client as a refusal, and the proxy's side is closed. In such a tunnel requests for
//! the address use the tunnel as long as it is kept; each other one dials the proxy again, which is asked for a tunnel to that request's own
//! host and port, and the request goes there once that stands. The proxy's answer is heard also behind the client's close.
//!
//! All of it looks at the joined bytes of a front alone, so it does not matter in which pieces they came, and what one part has not used
//! is there for the next one. What is due names this conversation alone; so a gate before it is a conversation of a router.
//!
//! `Stack` is the layer, `Placed` makes one for each connection that is accepted, and `Mode`, which is px_exchange's, says where its
//! requests go at first. What follows of the definitions stands in `laws`.
#![tactic(auto)]

mod asking;
mod chained;
mod child;
mod closing;
mod deciding;
mod following;
pub mod laws;
mod placed;
mod reaching;
mod relay;
mod socket;
mod stack;

pub use placed::Placed;
pub use px_exchange::Mode;
pub use stack::Stack;
