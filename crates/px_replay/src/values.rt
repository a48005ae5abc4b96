//! The values of the fields that count.
ghost use Rattle.std.specs.Prelude.{◌≡◌, ◌++◌, ◌∷◌, [], map, IfOk, OnOk, nat_eq};
ghost use Rattle.std.specs.Ordering.{as_partial_cmp, nat_cmp};
ghost use Rattle.std.specs.Cmp.{partial_order_from_own_ties};
ghost use Rattle.std.specs.Cmp.Lexicographic.{pointwise, slice_cmp};
ghost use Rattle.std.proofs.Common.{rules};
ghost use Rattle.std.specs.Cmp.Rules.{comparing};
ghost use Rattle.px_message.specs.Fields.{values_of};
ghost use Rattle.px_replay.specs.Key.{values_under};
ghost use Rattle.px_replay.specs.Ties.{all_values_tie, values_tie};

use crate::Names;
use crate::ordered::OrderedValue;
use px_message::Fields;
use px_text::NoMemory;
use std::alloc::{AllocError, Global};
use std::cmp::Ordering;
use std::marker::Model;

/// The values of the fields of one name, in their order.
#[derive(Debug, Drop)]
pub struct Values {
    items: Vec<OrderedValue>,
}

impl Model for Values {
    ghost use Rattle.std.specs.Prelude.{List, ℕ};

    ghost Value = { List (List ℕ) };

    ghost view = { λ v. v.items.items };
}

impl PartialEq for Values {
    ghost eq = { pointwise (pointwise nat_eq) };

    ghost laws = { Prim.search (comparing, rules) };

    fn eq(&self, other: &Values) -> bool {
        self.items.as_slice() == other.items.as_slice()
    }
}

impl Eq for Values {
    ghost laws = { Prim.search (comparing, rules) };
}

impl Ord for Values {
    ghost cmp = { slice_cmp (slice_cmp nat_cmp) };

    ghost total = { Prim.search (comparing, rules) };

    ghost matches_partial_cmp = { Prim.search (comparing, rules) };

    ghost matches_eq = { values_tie };

    fn cmp(&self, other: &Values) -> Ordering {
        self.items.as_slice().cmp(other.items.as_slice())
    }
}

impl PartialOrd for Values {
    ghost partial_cmp = { as_partial_cmp (slice_cmp (slice_cmp nat_cmp)) };

    ghost laws = { partial_order_from_own_ties (Prim.search (comparing, rules)) values_tie };

    fn partial_cmp(&self, other: &Values) -> Option<Ordering> {
        Some(self.cmp(other))
    }
}

impl Clone for Values {
    ghost is_clone = { λ x y. y ≡ x };

    fn clone(&self) -> Result<Values, AllocError> {
        Ok(Values {
            items: self.items.clone()?,
        })
    }
}

impl Values {
    // The values of the fields of that name.
    fn of(alloc: Global, fields: &Fields, name: &[u8]) -> Result<Values, NoMemory>
        ensures { IfOk result (λ made. made ≡ values_of name.now fields.now) }
    {
        let mut items = Vec::new(alloc);
        let mut rest = fields.get_all(name);
        while let Some(value) = rest.next() {
            items.push(OrderedValue::new(value.try_clone()?))?;
        }
        Ok(Values { items })
    }
}

/// For each of some names, the values of its fields.
#[derive(Debug, Drop)]
pub struct NamedValues {
    lists: Vec<Values>,
}

impl Model for NamedValues {
    ghost use Rattle.std.specs.Prelude.{List, ℕ};

    ghost Value = { List (List (List ℕ)) };

    ghost view = { λ v. v.lists.items };
}

impl PartialEq for NamedValues {
    ghost eq = { pointwise (pointwise (pointwise nat_eq)) };

    ghost laws = { Prim.search (comparing, rules) };

    fn eq(&self, other: &NamedValues) -> bool {
        self.lists.as_slice() == other.lists.as_slice()
    }
}

impl Eq for NamedValues {
    ghost laws = { Prim.search (comparing, rules) };
}

impl Ord for NamedValues {
    ghost cmp = { slice_cmp (slice_cmp (slice_cmp nat_cmp)) };

    ghost total = { Prim.search (comparing, rules) };

    ghost matches_partial_cmp = { Prim.search (comparing, rules) };

    ghost matches_eq = { all_values_tie };

    fn cmp(&self, other: &NamedValues) -> Ordering {
        self.lists.as_slice().cmp(other.lists.as_slice())
    }
}

impl PartialOrd for NamedValues {
    ghost partial_cmp = { as_partial_cmp (slice_cmp (slice_cmp (slice_cmp nat_cmp))) };

    ghost laws = { partial_order_from_own_ties (Prim.search (comparing, rules)) all_values_tie };

    fn partial_cmp(&self, other: &NamedValues) -> Option<Ordering> {
        Some(self.cmp(other))
    }
}

impl Clone for NamedValues {
    ghost is_clone = { λ x y. y ≡ x };

    fn clone(&self) -> Result<NamedValues, AllocError> {
        Ok(NamedValues {
            lists: self.lists.clone()?,
        })
    }
}

impl NamedValues {
    /// The values under each of the names, in the order of the names.
    pub fn of(alloc: Global, fields: &Fields, names: &Names) -> Result<NamedValues, NoMemory>
        ensures { IfOk result (λ made. made ≡ values_under names.now fields.now) }
    {
        let mut lists = Vec::new(alloc);
        for name in names.as_slice() {
            lists.push(Values::of(alloc, fields, name.as_slice())?)?;
        }
        Ok(NamedValues { lists })
    }
}
