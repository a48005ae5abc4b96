//! Requests.
ghost use Rattle.std.specs.Prelude.{◌≡◌, ◌≢◌, codes, IfOk, IfErr, OnOk, OnErr};

use crate::{Body, Fields, Host, Name, Path, Version};
use px_text::NoMemory;
use std::alloc::AllocError;

/// A request as the proxy holds it (RFC 9112 section 3). Its host and port are those that it goes to, whatever its
/// `Host` field says. It is no CONNECT, and its port is not 0. Where `streamed` is true the body passes by and is not
/// held here.
#[derive(Debug, Drop, PartialEq, Eq)]
pub struct Request {
    pub method: Name,
    pub host: Host,
    pub port: u16,
    pub path: Path,
    pub version: Version,
    pub fields: Fields,
    pub body: Body,
    pub trailers: Fields,
    pub streamed: bool,
    ghost not_connect: { method ≢ codes "CONNECT" },
    ghost port_not_zero: { port ≢ 0 },
}

impl Clone for Request {
    ghost is_clone = { λ x y. y ≡ x };

    fn clone(&self) -> Result<Request, AllocError> {
        Ok(Request {
            method: self.method.clone()?,
            host: self.host.clone()?,
            port: self.port,
            path: self.path.clone()?,
            version: self.version,
            fields: self.fields.clone()?,
            body: self.body.clone()?,
            trailers: self.trailers.clone()?,
            streamed: self.streamed,
        })
    }
}

impl Request {
    ghost use Rattle.px_message.specs.Request.{IsSameButMethod};

    /// Puts the method. Refused, with the method, exactly for CONNECT; the request is then as before. A CONNECT asks for
    /// a tunnel and is no message (RFC 9110 section 9.3.6).
    pub fn set_method(&mut self, method: Name) -> Result<(), Name>
        ensures set { OnOk result ((self.new.method ≡ method) × IsSameButMethod self.old self.new) }
        ensures refused { IfErr result (λ name. (name ≡ method) × (method ≡ codes "CONNECT")) }
        ensures unchanged { OnErr result (self.new ≡ self.old) }
    {
        if method.bytes() == b"CONNECT".as_slice() {
            return Err(method);
        }
        self.method = method;
        Ok(())
    }

    /// A copy of the same request.
    pub fn try_clone(&self) -> Result<Request, NoMemory>
        ensures { IfOk result (λ copy. copy ≡ self.now) }
    {
        Ok(self.clone()?)
    }
}
