//! A server is sent one request after another, each behind the whole answer to the one before: a law of the chain of `px_chain`, over whole lists. Nothing
//! here runs, and nothing stands on it.
//!
//! A side of a server that is kept takes the next request to its address (RFC 9112 section 9.3). Answers carry no number: which request one is for is told by
//! its place alone, and where it ends by the method of that request (sections 9.2 and 6.3). So a second request may not be sent before the answer to the first is whole, and to
//! this side none that goes elsewhere.
//!
//! `specs/Turns.antt` says it of what is sent to a server and what it says, with no word of stages: each request but the last has its whole answer, one behind the other from the first
//! byte that the server says on, and all go to one address (`Exchanges`). The moves are any moves, so it holds at each moment of a conversation: a request is there only where the answers
//! to all before had come by then. What a server says counts from the answer that connects it, up to its close or the client's (`heard_of`): replies and events are in no order but that
//! of the walk, so that is said of the walk, and where nothing of the server comes in front it is all that the moves bring.
//!
//! So over `GET / HTTP/1.1`, twice, to one host: while of the answer to the first there is `HTTP/1.1 204 No Con`, the server is sent the first alone, and behind the blank line of the 204 it may be
//! sent the second (`proofs/TurnsExamples.antt`). Where it said one byte more by then, its side is closed: that is of the chain (`px_chain`, `Keeping.antt`), and so it is that nothing is sent to a side that has closed.
#![tactic(auto)]

pub mod laws;
