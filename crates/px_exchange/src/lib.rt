//! One exchange of HTTP/1.1, a request and its response, in small total functions (RFC 9110, RFC 9112). Nothing here knows
//! where a conversation stands or what has come so far: what a step needs it is given, and what it makes it gives back. The
//! crate above says in which order the steps come.
//!
//! `asked`: what a request's head makes, by the place where it is asked. A target in a form that is not allowed there is
//! refused (RFC 9112 section 3.2), then framing fields that contradict themselves; else it is the flow's request, without an
//! expectation that the proxy meets itself (RFC 9110 section 10.1.1). So at `Place::Regular` `GET http://h/a HTTP/1.1` asks
//! the host `h` for the path `/a`, and `GET /a HTTP/1.1` is a bad target; at `Place::Fixed` both ask its address for `/a`.
//! `CONNECT h:443 HTTP/1.1` makes no flow: at `Place::Regular` and `Place::Upstream` it asks for a tunnel to port 443 of `h`
//! (RFC 9110 section 9.3.6), and at `Place::Fixed` it is a bad target.
//!
//! `taken`: what a reply to a hook is taken for. A hook of a head takes a head, one of a body a body besides, and what makes
//! no sense there goes on as it was asked. A status 101 that a server sent stays one as long as each hook leaves it so, and
//! one that no server sent becomes 502 (RFC 9110 section 15.2.2).
//!
//! `flows`: a flow as it is told so far, each part with the moment at which it came. `content` is a body while it comes, and `body`
//! reads it, part by part. A flow is handed on in a place of its own (`Boxed`): what a step makes of it is changed there, and one word moves.
//!
//! `texts`: what is sent: the request onward and the response, each with its framing made true to its body, an interim
//! response, `100 Continue` (RFC 9110 section 15.2.1), and the answer to a CONNECT whose server is connected (section 9.3.6).
//! To HEAD a response is its head alone (section 9.3.2).
//!
//! `ending`: how a flow ends: its bytes, the finished flow, then the closes of sides that did not close themselves, in this
//! order (`laws`). Behind it the client's connection goes on where both messages persist and the response does not run to
//! the close (RFC 9112 section 9.3): so `Connection: close` in either of them ends it, and so does an answer of version 1.0
//! that does not say `keep-alive`.
//!
//! `Mode` says where requests go, and a conversation's `Place` follows from it, unless its client says that first (SOCKS5).
//! `Place::goes_to` tells whether a request goes to an address. The server of a request and what
//! is dialled for it (`flows::server_for`, `flows::dialled_for`) are two addresses where a place is reached through another proxy.
//!
//! What is found where a message is awaited (`specs/Finds.antt`), and what a dial's answer brings (`specs/Dials.antt`), are
//! definitions for the crate above.
#![tactic(auto)]

pub mod asked;
pub mod body;
mod boxed;
pub mod content;
pub mod ending;
pub mod flows;
pub mod laws;
mod mode;
mod outcome;
mod place;
pub mod said;
pub mod taken;
pub mod terms;
pub mod texts;

pub use boxed::Boxed;
pub use mode::Mode;
pub use outcome::Outcome;
pub use place::Place;
