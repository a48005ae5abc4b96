//! Responses.
ghost use Rattle.std.specs.Prelude.{◌≡◌, IfOk};

use crate::{Body, Fields, Status, Value, Version};
use px_text::NoMemory;
use std::alloc::AllocError;

/// A final response as the proxy holds it (RFC 9112 section 4). Where `streamed` is true the body passes by and is not
/// held here.
#[derive(Debug, Drop, PartialEq, Eq)]
pub struct Response {
    pub version: Version,
    pub status: Status,
    pub reason: Value,
    pub fields: Fields,
    pub body: Body,
    pub trailers: Fields,
    pub streamed: bool,
}

impl Clone for Response {
    ghost is_clone = { λ x y. y ≡ x };

    fn clone(&self) -> Result<Response, AllocError> {
        Ok(Response {
            version: self.version,
            status: self.status,
            reason: self.reason.clone()?,
            fields: self.fields.clone()?,
            body: self.body.clone()?,
            trailers: self.trailers.clone()?,
            streamed: self.streamed,
        })
    }
}

impl Response {
    /// A copy of the same response.
    pub fn try_clone(&self) -> Result<Response, NoMemory>
        ensures { IfOk result (λ copy. copy ≡ self.now) }
    {
        Ok(self.clone()?)
    }
}
