//! Values of fields: bytes that end no line.
ghost use Rattle.std.specs.Prelude.{◌≡◌, true, false, decimal, IfOk, IfErr};
ghost use Rattle.px_message.specs.Value.{is_value};
ghost use Rattle.px_message.specs.Refused.{IsNoValue};

use itoa::Buffer;
use px_text::{Bytes, NoMemory};
use std::alloc::{AllocError, Global};
use std::marker::Model;

/// The value of a field, or a response's reason: any bytes but CR, LF and NUL (RFC 9110 section 5.5).
#[derive(Debug, Drop, PartialEq, Eq)]
pub struct Value {
    bytes: Bytes,
}

/// Why a value was refused.
#[derive(Debug, Drop)]
pub enum BadValue {
    /// The bytes that were handed in: they have a CR, an LF or a NUL.
    Malformed(Vec<u8>),
    /// Memory ran out; it says nothing of the bytes.
    NoMemory,
}

impl Model for Value {
    ghost use Rattle.std.specs.Prelude.{◌≡◌, List, ℕ, true};
    ghost use Rattle.px_message.specs.Value.{is_value};

    ghost Value = { List ℕ };

    ghost view = { λ v. v.bytes };

    ghost inverse = { λ text. record { bytes = text } };

    ghost invariant = { λ v. is_value v.bytes ≡ true };
}

impl Clone for Value {
    ghost is_clone = { λ x y. y ≡ x };

    fn clone(&self) -> Result<Value, AllocError> {
        Ok(Value {
            bytes: self.bytes.clone()?,
        })
    }
}

impl Value {
    /// The value of these bytes. Refused, with the bytes, exactly where a CR, an LF or a NUL stands among them.
    pub fn try_new(bytes: Vec<u8>) -> Result<Value, BadValue>
        ensures ok { IfOk result (λ value. (value ≡ bytes.items) × (is_value bytes.items ≡ true)) }
        ensures refused { IfErr result (IsNoValue bytes.items) }
    {
        if !is_value(&bytes) {
            return Err(BadValue::Malformed(bytes));
        }
        match Bytes::new(bytes) {
            Ok(bytes) => Ok(Value { bytes }),
            Err(NoMemory) => Err(BadValue::NoMemory),
        }
    }

    /// The value of these bytes, shared. Refused, with the bytes, exactly where `try_new` refuses them. It takes no memory.
    pub fn from_bytes(bytes: Bytes) -> Result<Value, Bytes>
        ensures ok { IfOk result (λ value. (value ≡ bytes) × (is_value bytes ≡ true)) }
        ensures refused { IfErr result (λ back. (back ≡ bytes) × (is_value bytes ≡ false)) }
    {
        if is_value(bytes.as_slice()) {
            Ok(Value { bytes })
        } else {
            Err(bytes)
        }
    }

    /// A value of a text that is known to have no CR, LF and NUL, copied.
    pub fn of_text(alloc: Global, text: &[u8]) -> Result<Value, NoMemory>
        requires { is_value text.now ≡ true }
        ensures { IfOk result (λ value. value ≡ text.now) }
    {
        Ok(Value {
            bytes: Bytes::copied(alloc, text)?,
        })
    }

    /// The decimal digits of the number.
    #[tactic(auto, using(crate::proofs::DecimalLemmas::decimal_is_value))]
    pub fn of_number(alloc: Global, n: u64) -> Result<Value, NoMemory>
        ensures { IfOk result (λ value. value ≡ decimal n) }
    {
        let mut digits = Buffer::new();
        let text = digits.format(n).as_bytes();
        Value::of_text(alloc, text)
    }

    /// The bytes.
    pub fn bytes(&self) -> &[u8]
        ensures bytes { result.now ≡ self.now }
        ensures valid { is_value self.now ≡ true }
    {
        self.bytes.as_slice()
    }

    /// A copy with the same bytes.
    pub fn try_clone(&self) -> Result<Value, NoMemory>
        ensures { IfOk result (λ copy. copy ≡ self.now) }
    {
        Ok(self.clone()?)
    }
}

fn is_value(bytes: &[u8]) -> bool
    ensures { result ≡ is_value bytes.now }
{
    bytes.iter().all(|b| !matches!(*b, 0 | b'\n' | b'\r'))
}
