//! What the last line gave, to which more may be added.
ghost use Rattle.std.specs.Prelude.{◌≡◌, ◌⊎◌, ◌++◌, [], true, false, IfOk, IfErr, OnOk, OnErr, MatchOption};
ghost use Rattle.px_message.specs.Value.{is_value};
ghost use Rattle.px_draft.specs.declared.error.EditError.TheVariants as error;

use crate::EditError;
use px_message::{Name, Value};
use px_text::{Bytes, NoMemory};
use std::alloc::Global;
use std::marker::Model;

/// How a field is put among the others.
#[derive(Clone, Copy)]
pub enum Placing {
    /// In place of the first of its name, and no other of it stays.
    Set,
    /// Behind all others.
    Add,
}

/// What the last line gave.
#[derive(Drop)]
pub enum Given {
    /// Nothing that goes on.
    Nothing,
    /// A field, of which the value is open.
    Field {
        placing: Placing,
        name: Name,
        value: OpenValue,
    },
    /// A body, or the payload of a WebSocket's message.
    Body(OpenBody),
}

/// A body that grows. In a contract it is the list of its bytes.
#[derive(Drop)]
pub struct OpenBody {
    bytes: Vec<u8>,
}

impl Model for OpenBody {
    ghost use Rattle.std.specs.Prelude.{List, ℕ};

    ghost Value = { List ℕ };

    ghost view = { λ b. b.bytes.items };
}

impl OpenBody {
    /// No bytes.
    pub(crate) fn new(alloc: Global) -> OpenBody
        ensures { result ≡ [] }
    {
        OpenBody {
            bytes: Vec::new(alloc),
        }
    }

    /// Adds bytes at the end. After `NoMemory` it is as before.
    pub(crate) fn push(&mut self, more: &[u8]) -> Result<(), NoMemory>
        ensures pushed { OnOk result (self.new ≡ self.old ++ more.now) }
        ensures unchanged { OnErr result (self.new ≡ self.old) }
    {
        self.bytes.extend_from_slice(more)?;
        Ok(())
    }

    /// The bytes, copied.
    pub(crate) fn copied(&self, alloc: Global) -> Result<Bytes, NoMemory>
        ensures { IfOk result (λ bytes. bytes ≡ self.now) }
    {
        Bytes::copied(alloc, &self.bytes)
    }
}

/// The value of a field that grows: any bytes but CR, LF and NUL. In a contract it is the list of its bytes.
#[derive(Drop)]
pub struct OpenValue {
    bytes: Vec<u8>,
}

impl Model for OpenValue {
    ghost use Rattle.std.specs.Prelude.{◌≡◌, List, ℕ, true};
    ghost use Rattle.px_message.specs.Value.{is_value};

    ghost Value = { List ℕ };

    ghost view = { λ v. v.bytes.items };

    ghost invariant = { λ v. is_value v.bytes.items ≡ true };
}

impl OpenValue {
    /// The value of these bytes; none exactly where a CR, an LF or a NUL stands among them.
    pub(crate) fn new(bytes: Vec<u8>) -> Option<OpenValue>
        ensures { MatchOption result (is_value bytes.items ≡ false) (λ value. (value ≡ bytes.items) × (is_value bytes.items ≡ true)) }
    {
        if is_value(&bytes) {
            Some(OpenValue { bytes })
        } else {
            None
        }
    }

    /// Adds bytes at the end. `BadValue` exactly where a CR, an LF or a NUL stands among them. After a refusal it is as before.
    #[tactic(auto, using(crate::proofs::ValueLemmas::value_append, crate::proofs::ValueLemmas::value_refused))]
    pub(crate) fn push(&mut self, more: &[u8]) -> Result<(), EditError>
        ensures pushed { OnOk result ((self.new ≡ self.old ++ more.now) × (is_value (self.old ++ more.now) ≡ true)) }
        ensures refused { IfErr result (λ e. (e ≡ error.NoMemory) ⊎ ((e ≡ error.BadValue) × (is_value (self.old ++ more.now) ≡ false))) }
        ensures unchanged { OnErr result (self.new ≡ self.old) }
    {
        if !is_value(more) {
            return Err(EditError::BadValue);
        }
        match self.bytes.extend_from_slice(more) {
            Ok(()) => Ok(()),
            Err(_) => Err(EditError::NoMemory),
        }
    }

    /// The value, copied.
    pub(crate) fn copied(&self, alloc: Global) -> Result<Value, NoMemory>
        ensures { IfOk result (λ value. value ≡ self.now) }
    {
        Value::of_text(alloc, &self.bytes)
    }
}

// Whether the bytes may be the value of a field.
fn is_value(bytes: &[u8]) -> bool
    ensures { result ≡ is_value bytes.now }
{
    bytes.iter().all(|b| !matches!(*b, 0 | b'\n' | b'\r'))
}
