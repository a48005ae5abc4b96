//! Parts of keys, with an order: byte by byte, and the shorter one first where it is the beginning of the other.
ghost use Rattle.std.specs.Prelude.{◌≡◌, true, nat_eq, IfOk};
ghost use Rattle.std.specs.Cmp.Lexicographic.{pointwise, slice_cmp};
ghost use Rattle.std.proofs.Common.{rules};
ghost use Rattle.std.specs.Cmp.{partial_order_from_own_ties};
ghost use Rattle.std.specs.Cmp.Rules.{comparing};
ghost use Rattle.std.specs.Ordering.{nat_cmp, as_partial_cmp};
ghost use Rattle.px_message.specs.Value.{is_value};
ghost use Rattle.px_refresh.specs.Text.{is_same_text};

use px_message::Value;
use px_text::{Bytes, NoMemory};
use std::alloc::AllocError;
use std::cmp::Ordering;
use std::marker::Model;

/// Bytes, in their order.
#[derive(Debug, Drop)]
pub struct OrderedBytes {
    bytes: Bytes,
}

impl Model for OrderedBytes {
    ghost use Rattle.std.specs.Prelude.{List, ℕ};

    ghost Value = { List ℕ };

    ghost view = { λ part. part.bytes };
}

impl Clone for OrderedBytes {
    ghost is_clone = { λ x y. y ≡ x };

    fn clone(&self) -> Result<OrderedBytes, AllocError> {
        Ok(OrderedBytes {
            bytes: self.bytes.clone()?,
        })
    }
}

impl PartialEq for OrderedBytes {
    ghost eq = { pointwise nat_eq };

    ghost laws = { Prim.search (comparing, rules) };

    fn eq(&self, other: &OrderedBytes) -> bool {
        self.bytes() == other.bytes()
    }
}

impl Eq for OrderedBytes {
    ghost laws = { Prim.search (comparing, rules) };
}

impl Ord for OrderedBytes {
    ghost cmp = { slice_cmp nat_cmp };

    ghost total = { Prim.search (comparing, rules) };

    ghost matches_partial_cmp = { Prim.search (comparing, rules) };

    ghost matches_eq = { Prim.search (comparing, rules) };

    fn cmp(&self, other: &OrderedBytes) -> Ordering {
        self.bytes().cmp(other.bytes())
    }
}

impl PartialOrd for OrderedBytes {
    ghost partial_cmp = { as_partial_cmp (slice_cmp nat_cmp) };

    ghost laws = { partial_order_from_own_ties (Prim.search (comparing, rules)) (Prim.search (comparing, rules)) };

    fn partial_cmp(&self, other: &OrderedBytes) -> Option<Ordering> {
        Some(self.cmp(other))
    }
}

impl OrderedBytes {
    /// The same bytes, shared.
    pub fn new(bytes: Bytes) -> OrderedBytes
        ensures { result ≡ bytes }
    {
        OrderedBytes { bytes }
    }

    /// The bytes.
    pub fn bytes(&self) -> &[u8]
        ensures { result.now ≡ self.now }
    {
        self.bytes.as_slice()
    }

    /// Whether the two are the same.
    pub fn is_same(&self, other: &OrderedBytes) -> bool
        ensures { result ≡ is_same_text self.now other.now }
    {
        self == other
    }

    /// A copy with the same bytes, shared.
    pub fn try_clone(&self) -> Result<OrderedBytes, NoMemory>
        ensures { IfOk result (λ copy. copy ≡ self.now) }
    {
        Ok(self.clone()?)
    }
}

/// A value of a field, in the order of its bytes.
#[derive(Debug, Drop)]
pub struct OrderedValue {
    value: Value,
}

impl Model for OrderedValue {
    ghost use Rattle.std.specs.Prelude.{List, ℕ};

    ghost Value = { List ℕ };

    ghost view = { λ part. part.value };
}

impl Clone for OrderedValue {
    ghost is_clone = { λ x y. y ≡ x };

    fn clone(&self) -> Result<OrderedValue, AllocError> {
        Ok(OrderedValue {
            value: self.value.clone()?,
        })
    }
}

impl PartialEq for OrderedValue {
    ghost eq = { pointwise nat_eq };

    ghost laws = { Prim.search (comparing, rules) };

    fn eq(&self, other: &OrderedValue) -> bool {
        self.bytes() == other.bytes()
    }
}

impl Eq for OrderedValue {
    ghost laws = { Prim.search (comparing, rules) };
}

impl Ord for OrderedValue {
    ghost cmp = { slice_cmp nat_cmp };

    ghost total = { Prim.search (comparing, rules) };

    ghost matches_partial_cmp = { Prim.search (comparing, rules) };

    ghost matches_eq = { Prim.search (comparing, rules) };

    fn cmp(&self, other: &OrderedValue) -> Ordering {
        self.bytes().cmp(other.bytes())
    }
}

impl PartialOrd for OrderedValue {
    ghost partial_cmp = { as_partial_cmp (slice_cmp nat_cmp) };

    ghost laws = { partial_order_from_own_ties (Prim.search (comparing, rules)) (Prim.search (comparing, rules)) };

    fn partial_cmp(&self, other: &OrderedValue) -> Option<Ordering> {
        Some(self.cmp(other))
    }
}

impl OrderedValue {
    /// The same bytes, shared.
    pub fn new(value: Value) -> OrderedValue
        ensures { result ≡ value }
    {
        OrderedValue { value }
    }

    /// The bytes.
    pub fn bytes(&self) -> &[u8]
        ensures bytes { result.now ≡ self.now }
        ensures valid { is_value self.now ≡ true }
    {
        self.value.bytes()
    }
}
