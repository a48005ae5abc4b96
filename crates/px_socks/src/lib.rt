//! What a client of SOCKS5 (RFC 1928) says before its own bytes come, read from all bytes so far, and the answers to it.
//!
//! A client greets with 05, the number of its methods and the methods, a byte each (section 3). Then it asks: 05, a command, 00, the
//! type of an address, the address, and a port in two bytes, the higher one first (section 4). An address of type 1 is four bytes, one
//! of type 3 a length and so many bytes, which are a name, and one of type 4 sixteen bytes (section 5). The answer is 05, a code, 00 and
//! an address (section 6). Of the methods only 00, no authentication, is served here, and of the commands only CONNECT.
//!
//! What the bytes are is a machine that goes over them one by one (`specs/Greeting.antt`, `specs/Request.antt`): each byte is judged as it
//! comes, so the first that is wrong decides, and what follows changes nothing. What an address says is the text of a host: decimal digits
//! with dots, the name as it is, or eight groups in hexadecimal digits in brackets. Whether that is a host `px_message::Host` decides, when
//! the port is there; so does the port, which is not 0. Both readers equal that machine for every text, and begin anew with all bytes at
//! each call: a request has at most 262 of them.
//!
//! `SocksLayer` is the client as a layer, from its first byte until the server that it asks for is connected or refused
//! (`specs/Stages.antt`, `specs/Chain.antt`). It is greeted by 05 00, or by 05 FF where 00 is none of its methods; a first byte other than 05 is answered by nothing. A request
//! that is served is a dial, which is answered by code 0 where it connects and by 1 where it does not. Behind any other answer
//! than 05 00 and code 0 the client is closed. Greeting and request may come in one piece, in many, and with bytes of the next protocol behind
//! them (`SocksTunnel`): only the joined bytes count.
//!
//! The laws say that what was decided stays, whatever follows, that more is awaited only where nothing was decided, and that the bytes
//! that a greeting or a request is said to have are there.
#![tactic(auto)]

mod answer;
mod chained;
mod greeting;
mod host;
pub mod laws;
mod layer;
mod request;

pub use answer::{push_answer, push_method};
pub use greeting::{Greeting, read_greeting};
pub use layer::{SocksLayer, SocksTunnel};
pub use request::{SocksStep, read_request};
