//! Names of fields and methods: tokens.
ghost use Rattle.std.specs.Prelude.{◌≡◌, true, false, IfOk, IfErr};
ghost use Rattle.httparse.specs.Grammar.{is_token};
ghost use Rattle.px_message.specs.Refused.{IsNoName};

use px_text::{Bytes, NoMemory};
use std::alloc::{AllocError, Global};
use std::marker::Model;

/// The name of a field, or a method: a token (RFC 9110 section 5.6.2), in the sender's spelling.
#[derive(Debug, Drop, PartialEq, Eq)]
pub struct Name {
    bytes: Bytes,
}

/// Why a name was refused.
#[derive(Debug, Drop)]
pub enum BadName {
    /// The bytes that were handed in: they are no token.
    Malformed(Vec<u8>),
    /// Memory ran out; it says nothing of the bytes.
    NoMemory,
}

impl Model for Name {
    ghost use Rattle.std.specs.Prelude.{◌≡◌, List, ℕ, true};
    ghost use Rattle.httparse.specs.Grammar.{is_token};

    ghost Value = { List ℕ };

    ghost view = { λ n. n.bytes };

    ghost inverse = { λ text. record { bytes = text } };

    ghost invariant = { λ n. is_token n.bytes ≡ true };
}

impl Clone for Name {
    ghost is_clone = { λ x y. y ≡ x };

    fn clone(&self) -> Result<Name, AllocError> {
        Ok(Name {
            bytes: self.bytes.clone()?,
        })
    }
}

impl Name {
    /// The name of these bytes. Refused, with the bytes, exactly where they are no token: none at all, or a byte that is
    /// neither a letter, a digit nor one of ``!#$%&'*+-.^_`|~``.
    pub fn try_new(bytes: Vec<u8>) -> Result<Name, BadName>
        ensures ok { IfOk result (λ name. (name ≡ bytes.items) × (is_token bytes.items ≡ true)) }
        ensures refused { IfErr result (IsNoName bytes.items) }
    {
        if !httparse::is_token(&bytes) {
            return Err(BadName::Malformed(bytes));
        }
        match Bytes::new(bytes) {
            Ok(bytes) => Ok(Name { bytes }),
            Err(NoMemory) => Err(BadName::NoMemory),
        }
    }

    /// The name of these bytes, shared. Refused, with the bytes, exactly where `try_new` refuses them. It takes no memory.
    pub fn from_bytes(bytes: Bytes) -> Result<Name, Bytes>
        ensures ok { IfOk result (λ name. (name ≡ bytes) × (is_token bytes ≡ true)) }
        ensures refused { IfErr result (λ back. (back ≡ bytes) × (is_token bytes ≡ false)) }
    {
        if httparse::is_token(bytes.as_slice()) {
            Ok(Name { bytes })
        } else {
            Err(bytes)
        }
    }

    /// A name of a text that is known to be a token, copied.
    pub fn of_token(alloc: Global, text: &[u8]) -> Result<Name, NoMemory>
        requires { is_token text.now ≡ true }
        ensures { IfOk result (λ name. name ≡ text.now) }
    {
        Ok(Name {
            bytes: Bytes::copied(alloc, text)?,
        })
    }

    /// The bytes.
    pub fn bytes(&self) -> &[u8]
        ensures bytes { result.now ≡ self.now }
        ensures token { is_token self.now ≡ true }
    {
        self.bytes.as_slice()
    }

    /// A copy with the same bytes.
    pub fn try_clone(&self) -> Result<Name, NoMemory>
        ensures { IfOk result (λ copy. copy ≡ self.now) }
    {
        Ok(self.clone()?)
    }
}
