//! The messages of HTTP/1.1 as the proxy holds, shows and changes them: names, values, fields, requests, responses and
//! flows, and the four forms of a request's target (RFC 9112 section 3.2).
//!
//! A value is right by its type: a `Name` is a token, a `Value` has no CR, LF or NUL, a `Host` is one that an authority
//! may have, a `Path` has no blank and no control byte. So whatever is written from these types is read back as one
//! message. A constructor that refuses hands its bytes back, unless out of memory; the refusal is exact in both
//! directions.
//!
//! Copies share what they hold: the bytes of names, values, paths and bodies, and a list of fields as a whole until one of
//! its copies is changed. Copies of a flow share its request and response, its addresses, its error, the message of a WebSocket
//! and the messages before it. So a copy costs the same whatever its length, and a change of one copy is seen in no other.
//!
//! Contracts see a `Name`, a `Value`, a `Host`, a `Path` and a `Body` as the list of their bytes, a `Status` as its
//! number and `Fields` as the list of their pairs, in the sender's order and spelling.
#![tactic(auto)]

mod address;
mod authority;
mod body;
mod codings;
mod elements;
mod fault;
mod fields;
mod flow;
mod host;
mod length;
mod measured;
mod messages;
mod name;
mod path;
mod request;
mod response;
mod settle;
pub mod settle_laws;
mod shared;
mod stated;
mod status;
mod target;
mod url;
mod value;
mod version;

pub use address::Address;
pub use authority::address_is_authority;
pub use body::Body;
pub use codings::is_framed_in_chunks;
pub use fault::Fault;
pub use fields::{Fields, FieldsOf, fields_are_valid, settle_streamed};
pub use flow::{Flow, FlowError, FlowId, Replayed, Times, WsMessage};
pub use host::{BadHost, Host};
pub use length::{Length, has_no_body, length_of_request, length_of_response};
pub use messages::{Messages, WsRecord};
pub use name::{BadName, Name};
pub use path::{BadPath, Path};
pub use request::Request;
pub use response::Response;
pub use settle::{settle_request, settle_response};
pub use shared::Shared;
pub use status::Status;
pub use target::{Target, TargetError, read_target};
pub use url::{UrlError, written_url_is_read};
pub use value::{BadValue, Value};
pub use version::Version;
