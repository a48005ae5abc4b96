//! Parts of keys, with an order: byte by byte, and the shorter one first where it is the beginning of the other.
ghost use Rattle.std.specs.Prelude.{◌≡◌, nat_eq};
ghost use Rattle.std.specs.Cmp.Lexicographic.{pointwise, slice_cmp};
ghost use Rattle.std.proofs.Common.{rules};
ghost use Rattle.std.specs.Cmp.{partial_order_from_own_ties};
ghost use Rattle.std.specs.Cmp.Rules.{comparing};
ghost use Rattle.std.specs.Ordering.{nat_cmp, as_partial_cmp};

use px_message::{Body, Host, Name, Value};
use px_text::Bytes;
use std::alloc::AllocError;
use std::cmp::Ordering;
use std::marker::Model;

/// Bytes, in their order.
#[derive(Debug, Drop)]
pub struct OrderedBytes {
    bytes: Bytes,
}

impl Model for OrderedBytes {
    ghost use Rattle.std.specs.Prelude.{List, ℕ};

    ghost Value = { List ℕ };

    ghost view = { λ part. part.bytes };
}

impl Clone for OrderedBytes {
    ghost is_clone = { λ x y. y ≡ x };

    fn clone(&self) -> Result<OrderedBytes, AllocError> {
        Ok(OrderedBytes {
            bytes: self.bytes.clone()?,
        })
    }
}

impl PartialEq for OrderedBytes {
    ghost eq = { pointwise nat_eq };

    ghost laws = { Prim.search (comparing, rules) };

    fn eq(&self, other: &OrderedBytes) -> bool {
        self.bytes() == other.bytes()
    }
}

impl Eq for OrderedBytes {
    ghost laws = { Prim.search (comparing, rules) };
}

impl Ord for OrderedBytes {
    ghost cmp = { slice_cmp nat_cmp };

    ghost total = { Prim.search (comparing, rules) };

    ghost matches_partial_cmp = { Prim.search (comparing, rules) };

    ghost matches_eq = { Prim.search (comparing, rules) };

    fn cmp(&self, other: &OrderedBytes) -> Ordering {
        self.bytes().cmp(other.bytes())
    }
}

impl PartialOrd for OrderedBytes {
    ghost partial_cmp = { as_partial_cmp (slice_cmp nat_cmp) };

    ghost laws = { partial_order_from_own_ties (Prim.search (comparing, rules)) (Prim.search (comparing, rules)) };

    fn partial_cmp(&self, other: &OrderedBytes) -> Option<Ordering> {
        Some(self.cmp(other))
    }
}

impl OrderedBytes {
    /// The same bytes, shared.
    pub fn new(bytes: Bytes) -> OrderedBytes
        ensures { result ≡ bytes }
    {
        OrderedBytes { bytes }
    }

    /// The bytes.
    pub fn bytes(&self) -> &[u8]
        ensures { result.now ≡ self.now }
    {
        self.bytes.as_slice()
    }
}

/// A name, in the order of its bytes: case counts.
#[derive(Debug, Drop)]
pub struct OrderedName {
    name: Name,
}

impl Model for OrderedName {
    ghost use Rattle.std.specs.Prelude.{List, ℕ};

    ghost Value = { List ℕ };

    ghost view = { λ part. part.name };
}

impl Clone for OrderedName {
    ghost is_clone = { λ x y. y ≡ x };

    fn clone(&self) -> Result<OrderedName, AllocError> {
        Ok(OrderedName {
            name: self.name.clone()?,
        })
    }
}

impl PartialEq for OrderedName {
    ghost eq = { pointwise nat_eq };

    ghost laws = { Prim.search (comparing, rules) };

    fn eq(&self, other: &OrderedName) -> bool {
        self.bytes() == other.bytes()
    }
}

impl Eq for OrderedName {
    ghost laws = { Prim.search (comparing, rules) };
}

impl Ord for OrderedName {
    ghost cmp = { slice_cmp nat_cmp };

    ghost total = { Prim.search (comparing, rules) };

    ghost matches_partial_cmp = { Prim.search (comparing, rules) };

    ghost matches_eq = { Prim.search (comparing, rules) };

    fn cmp(&self, other: &OrderedName) -> Ordering {
        self.bytes().cmp(other.bytes())
    }
}

impl PartialOrd for OrderedName {
    ghost partial_cmp = { as_partial_cmp (slice_cmp nat_cmp) };

    ghost laws = { partial_order_from_own_ties (Prim.search (comparing, rules)) (Prim.search (comparing, rules)) };

    fn partial_cmp(&self, other: &OrderedName) -> Option<Ordering> {
        Some(self.cmp(other))
    }
}

impl OrderedName {
    /// The same bytes, shared.
    pub fn new(name: Name) -> OrderedName
        ensures { result ≡ name }
    {
        OrderedName { name }
    }

    /// The bytes.
    pub fn bytes(&self) -> &[u8]
        ensures { result.now ≡ self.now }
    {
        self.name.bytes()
    }
}

/// A value of a field, in the order of its bytes.
#[derive(Debug, Drop)]
pub struct OrderedValue {
    value: Value,
}

impl Model for OrderedValue {
    ghost use Rattle.std.specs.Prelude.{List, ℕ};

    ghost Value = { List ℕ };

    ghost view = { λ part. part.value };
}

impl Clone for OrderedValue {
    ghost is_clone = { λ x y. y ≡ x };

    fn clone(&self) -> Result<OrderedValue, AllocError> {
        Ok(OrderedValue {
            value: self.value.clone()?,
        })
    }
}

impl PartialEq for OrderedValue {
    ghost eq = { pointwise nat_eq };

    ghost laws = { Prim.search (comparing, rules) };

    fn eq(&self, other: &OrderedValue) -> bool {
        self.bytes() == other.bytes()
    }
}

impl Eq for OrderedValue {
    ghost laws = { Prim.search (comparing, rules) };
}

impl Ord for OrderedValue {
    ghost cmp = { slice_cmp nat_cmp };

    ghost total = { Prim.search (comparing, rules) };

    ghost matches_partial_cmp = { Prim.search (comparing, rules) };

    ghost matches_eq = { Prim.search (comparing, rules) };

    fn cmp(&self, other: &OrderedValue) -> Ordering {
        self.bytes().cmp(other.bytes())
    }
}

impl PartialOrd for OrderedValue {
    ghost partial_cmp = { as_partial_cmp (slice_cmp nat_cmp) };

    ghost laws = { partial_order_from_own_ties (Prim.search (comparing, rules)) (Prim.search (comparing, rules)) };

    fn partial_cmp(&self, other: &OrderedValue) -> Option<Ordering> {
        Some(self.cmp(other))
    }
}

impl OrderedValue {
    /// The same bytes, shared.
    pub fn new(value: Value) -> OrderedValue
        ensures { result ≡ value }
    {
        OrderedValue { value }
    }

    /// The bytes.
    pub fn bytes(&self) -> &[u8]
        ensures { result.now ≡ self.now }
    {
        self.value.bytes()
    }
}

/// A body, in the order of its bytes.
#[derive(Debug, Drop)]
pub struct OrderedBody {
    body: Body,
}

impl Model for OrderedBody {
    ghost use Rattle.std.specs.Prelude.{List, ℕ};

    ghost Value = { List ℕ };

    ghost view = { λ part. part.body };
}

impl Clone for OrderedBody {
    ghost is_clone = { λ x y. y ≡ x };

    fn clone(&self) -> Result<OrderedBody, AllocError> {
        Ok(OrderedBody {
            body: self.body.clone()?,
        })
    }
}

impl PartialEq for OrderedBody {
    ghost eq = { pointwise nat_eq };

    ghost laws = { Prim.search (comparing, rules) };

    fn eq(&self, other: &OrderedBody) -> bool {
        self.bytes() == other.bytes()
    }
}

impl Eq for OrderedBody {
    ghost laws = { Prim.search (comparing, rules) };
}

impl Ord for OrderedBody {
    ghost cmp = { slice_cmp nat_cmp };

    ghost total = { Prim.search (comparing, rules) };

    ghost matches_partial_cmp = { Prim.search (comparing, rules) };

    ghost matches_eq = { Prim.search (comparing, rules) };

    fn cmp(&self, other: &OrderedBody) -> Ordering {
        self.bytes().cmp(other.bytes())
    }
}

impl PartialOrd for OrderedBody {
    ghost partial_cmp = { as_partial_cmp (slice_cmp nat_cmp) };

    ghost laws = { partial_order_from_own_ties (Prim.search (comparing, rules)) (Prim.search (comparing, rules)) };

    fn partial_cmp(&self, other: &OrderedBody) -> Option<Ordering> {
        Some(self.cmp(other))
    }
}

impl OrderedBody {
    /// The same bytes, shared.
    pub fn new(body: Body) -> OrderedBody
        ensures { result ≡ body }
    {
        OrderedBody { body }
    }

    /// The bytes.
    pub fn bytes(&self) -> &[u8]
        ensures { result.now ≡ self.now }
    {
        self.body.bytes()
    }
}

/// A host, in the order of its bytes: case counts.
#[derive(Debug, Drop)]
pub struct OrderedHost {
    host: Host,
}

impl Model for OrderedHost {
    ghost use Rattle.std.specs.Prelude.{List, ℕ};

    ghost Value = { List ℕ };

    ghost view = { λ part. part.host };
}

impl Clone for OrderedHost {
    ghost is_clone = { λ x y. y ≡ x };

    fn clone(&self) -> Result<OrderedHost, AllocError> {
        Ok(OrderedHost {
            host: self.host.clone()?,
        })
    }
}

impl PartialEq for OrderedHost {
    ghost eq = { pointwise nat_eq };

    ghost laws = { Prim.search (comparing, rules) };

    fn eq(&self, other: &OrderedHost) -> bool {
        self.bytes() == other.bytes()
    }
}

impl Eq for OrderedHost {
    ghost laws = { Prim.search (comparing, rules) };
}

impl Ord for OrderedHost {
    ghost cmp = { slice_cmp nat_cmp };

    ghost total = { Prim.search (comparing, rules) };

    ghost matches_partial_cmp = { Prim.search (comparing, rules) };

    ghost matches_eq = { Prim.search (comparing, rules) };

    fn cmp(&self, other: &OrderedHost) -> Ordering {
        self.bytes().cmp(other.bytes())
    }
}

impl PartialOrd for OrderedHost {
    ghost partial_cmp = { as_partial_cmp (slice_cmp nat_cmp) };

    ghost laws = { partial_order_from_own_ties (Prim.search (comparing, rules)) (Prim.search (comparing, rules)) };

    fn partial_cmp(&self, other: &OrderedHost) -> Option<Ordering> {
        Some(self.cmp(other))
    }
}

impl OrderedHost {
    /// The same bytes, shared.
    pub fn new(host: Host) -> OrderedHost
        ensures { result ≡ host }
    {
        OrderedHost { host }
    }

    /// The bytes.
    pub fn bytes(&self) -> &[u8]
        ensures { result.now ≡ self.now }
    {
        self.host.bytes()
    }
}
