//! A recorded request that is sent again, as mitmproxy's client replay does, and who makes such conversations.
//!
//! It is a conversation with no client: its first event begins it, and its request is whole from the start. So both hooks of the request are asked, with the
//! body at the second one; then the flow goes on as any flow does whose request is whole, which is px_stream's: the host and port that the hooks left are dialled
//! and get the request in origin form, or in mode `upstream:` the proxy is dialled and gets it in absolute form (RFC 9112 section 3.2); the response is read, its
//! hooks are asked, and the flow is finished. A hook may give a response in place of the server's, or kill the flow.
//!
//! What is due (`specs/Chain.antt`) is the chain of flows in sequence (px_chain) behind those two hooks, up to the end of its first flow: its own last step is that a
//! flow that is finished ends it, also by a response of code 101, and that nothing is said to a client. No next flow comes, so a server's side that flows in sequence keep
//! for that is closed there at once. What is heard of a client counts for nothing.
//!
//! So `GET / HTTP/1.1` recorded of `http://h:80` asks `RequestHead` and `RequestBody`, dials `h:80` as server 0, sends it `GET / HTTP/1.1` with the recorded
//! fields, and behind its answer asks `ResponseHead` and `ResponseBody`, says that the flow is done, and closes the server's side,
//! whether its answer lets it be kept or not.
//!
//! `Replays` makes them: the i-th recorded request is the conversation of number 2^31 + i, and those with a client are made by whom it has for that (`ClientMaker`). `Conversation`
//! is what it makes: one with a client, or such a request.
#![tactic(auto)]

mod chained;
mod child;
mod client_maker;
mod conversation;
mod flow;
mod joined;
pub mod laws;
mod pass_on;
mod replays;
mod resend;

pub use client_maker::ClientMaker;
pub use conversation::Conversation;
pub use flow::proxy_of;
pub use replays::Replays;
pub use resend::Resend;
