//! That no cut of the network shows.
//!
//! TCP has no pieces: a network may hand over the same bytes of a side in one piece or in many (RFC 9293 section 3.8), and
//! those of two sides in either order. So what a proxy does may hang on the bytes alone. Here are the laws that it does:
//! the same bytes, closes and replies, in whatever pieces and at whatever moments, make the same due of a conversation but
//! for the moments that its flows tell (`cuts`). So `GET / HT` and then `TP/1.1` ask the same hooks, and send the same
//! bytes to the same sides, as `GET / HTTP/1.1` in one piece.
//!
//! The reason is one word. What a place shows, a stage over a prefix, is its stage and the joined bytes of its sides
//! (`specs/Shown.antt`), and all that the chain finds and brings is a function of that: so places that show the same owe the
//! same (`compared`), and a piece that waits changes nothing that is found without it. A byte of a parked side ends its keeping,
//! whatever follows it.
//!
//! One thing the joined bytes do not tell: whether a server spoke before it was asked. Its side is kept behind a whole response
//! behind which nothing stands (RFC 9112 section 9.3), and that is judged as soon as the response is whole. Say that two `GET`s for
//! one host come at once, and of the server a whole response and then `X`. In one piece with the response `X` is stray: the
//! side is closed, and a new server is dialled for the second `GET`. Where the piece is cut before `X`, the side is kept, and the second
//! `GET` has gone to it before `X` is heard: `X` begins the response to that. No rule could tell the same of both. What is heard behind a
//! response in a piece of its own is, on every side that is kept, the next response; and where both stand in one piece, nobody has
//! asked for the second one yet. So the laws have the premise that the rule has: *nothing stray stands behind a response*. It says
//! nothing of the client's bytes, and of a server's only right behind a response whose side is kept (`specs/Cuts.antt`, `MayFollow` and
//! `NothingStrays`; `proofs/StrayExamples.antt`). A run whose servers say nothing unasked meets it.
//!
//! How much of a request that goes up was told before is of what a place shows. It is told with an ask, and none is found while a piece of the
//! client waits beside such a request: so two walks of the same bytes tell as much with each ask (`specs/Alike.antt`, `WaitsBeside`).
#![tactic(auto)]

mod compared;
pub mod cuts;

pub use compared::{AtAnyMoments, Exactly, alike_starts_owe_the_same, conversations_are_compared};
