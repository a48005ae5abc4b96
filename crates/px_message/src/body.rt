//! Bodies of messages.
ghost use Rattle.std.specs.Prelude.{◌≡◌, [], IfOk};

use px_text::{Bytes, NoMemory};
use std::alloc::AllocError;
use std::marker::Model;

/// The content of a message, without its framing (RFC 9112 section 6).
#[derive(Debug, Drop, PartialEq, Eq)]
pub struct Body {
    bytes: Bytes,
}

impl Model for Body {
    ghost use Rattle.std.specs.Prelude.{List, ℕ};

    ghost Value = { List ℕ };

    ghost view = { λ b. b.bytes };

    ghost inverse = { λ text. record { bytes = text } };
}

impl Clone for Body {
    ghost is_clone = { λ x y. y ≡ x };

    fn clone(&self) -> Result<Body, AllocError> {
        Ok(Body {
            bytes: self.bytes.clone()?,
        })
    }
}

impl Body {
    /// No body, without taking memory.
    pub fn empty() -> Body
        ensures { result ≡ [] }
    {
        Body {
            bytes: Bytes::empty(),
        }
    }

    /// The body of these bytes. They are not copied; the count of those who share them takes memory.
    pub fn new(bytes: Vec<u8>) -> Result<Body, NoMemory>
        ensures { IfOk result (λ body. body ≡ bytes.items) }
    {
        Ok(Body {
            bytes: Bytes::new(bytes)?,
        })
    }

    /// The body of these bytes, shared. It takes no memory.
    pub fn from_bytes(bytes: Bytes) -> Body
        ensures { result ≡ bytes }
    {
        Body { bytes }
    }

    /// The bytes.
    pub fn bytes(&self) -> &[u8]
        ensures { result.now ≡ self.now }
    {
        self.bytes.as_slice()
    }

    /// A copy with the same bytes.
    pub fn try_clone(&self) -> Result<Body, NoMemory>
        ensures { IfOk result (λ copy. copy ≡ self.now) }
    {
        Ok(self.clone()?)
    }
}
