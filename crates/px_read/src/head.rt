//! Heads of messages, in the types of messages.
use px_message::{Fields, Name, Value, Version};
use px_text::Bytes;

/// The head of a request as it was read (RFC 9112 section 3). Its target is not judged yet.
#[derive(Debug, Drop, PartialEq, Eq)]
pub struct RequestHead {
    pub method: Name,
    pub target: Bytes,
    pub version: Version,
    pub fields: Fields,
}

/// The head of a response as it was read (RFC 9112 section 4). Its code is 100 to 999; from 100 to 199, but for 101, it is
/// an interim one.
#[derive(Debug, Drop, PartialEq, Eq)]
pub struct ResponseHead {
    pub version: Version,
    pub code: u16,
    pub reason: Value,
    pub fields: Fields,
}
