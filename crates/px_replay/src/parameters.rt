//! The parameters of a query that count.
ghost use Rattle.std.specs.Prelude.{◌≡◌, ◌++◌, ◌∷◌, [], IfOk, OnOk, nat_eq};
ghost use Rattle.std.specs.Ordering.{as_partial_cmp, eq_of_both, nat_cmp, on, then_cmp};
ghost use Rattle.std.specs.Cmp.{partial_order_from_own_ties};
ghost use Rattle.std.specs.Cmp.Lexicographic.{pointwise, slice_cmp};
ghost use Rattle.std.proofs.Common.{rules};
ghost use Rattle.std.specs.Cmp.Rules.{comparing};
ghost use Rattle.px_replay.specs.Key.{counted, decoded, decoded_pair, parameters};
ghost use Rattle.px_replay.specs.Ties.{pairs_tie};

use crate::Names;
use crate::ordered::OrderedBytes;
use px_text::{Bytes, NoMemory};
use std::alloc::{AllocError, Global};
use std::cmp::Ordering;
use std::marker::Model;

/// Names with their values, decoded, in their order.
#[derive(Debug, Drop)]
pub struct Parameters {
    pairs: Vec<(OrderedBytes, OrderedBytes)>,
}

impl Model for Parameters {
    ghost use Rattle.std.specs.Prelude.{List, ℕ};

    ghost Value = { List (List ℕ × List ℕ) };

    ghost view = { λ p. p.pairs.items };
}

impl PartialEq for Parameters {
    ghost eq = { pointwise (eq_of_both (on (λ p. p.0) (pointwise nat_eq)) (on (λ p. p.1) (pointwise nat_eq))) };

    ghost laws = { Prim.search (comparing, rules) };

    fn eq(&self, other: &Parameters) -> bool {
        self.pairs.as_slice() == other.pairs.as_slice()
    }
}

impl Eq for Parameters {
    ghost laws = { Prim.search (comparing, rules) };
}

impl Ord for Parameters {
    ghost cmp = { slice_cmp (then_cmp (on (λ p. p.0) (slice_cmp nat_cmp)) (on (λ p. p.1) (slice_cmp nat_cmp))) };

    ghost total = { Prim.search (comparing, rules) };

    ghost matches_partial_cmp = { Prim.search (comparing, rules) };

    ghost matches_eq = { pairs_tie };

    fn cmp(&self, other: &Parameters) -> Ordering {
        self.pairs.as_slice().cmp(other.pairs.as_slice())
    }
}

impl PartialOrd for Parameters {
    ghost partial_cmp = { as_partial_cmp (slice_cmp (then_cmp (on (λ p. p.0) (slice_cmp nat_cmp)) (on (λ p. p.1) (slice_cmp nat_cmp)))) };

    ghost laws = { partial_order_from_own_ties (Prim.search (comparing, rules)) pairs_tie };

    fn partial_cmp(&self, other: &Parameters) -> Option<Ordering> {
        Some(self.cmp(other))
    }
}

impl Clone for Parameters {
    ghost is_clone = { λ x y. y ≡ x };

    fn clone(&self) -> Result<Parameters, AllocError> {
        Ok(Parameters {
            pairs: self.pairs.clone()?,
        })
    }
}

impl Parameters {
    /// The parameters of the query but those whose names are ignored.
    pub fn of(alloc: Global, query: &[u8], ignored: &Names) -> Result<Parameters, NoMemory>
        ensures { IfOk result (λ made. made ≡ counted ignored.now (parameters query.now)) }
    {
        let mut pairs = Vec::new(alloc);
        let mut rest = form_urlencoded::raw_pairs(query);
        while let Some((name, value)) = rest.next() {
            add(alloc, &mut pairs, ignored, name, value)?;
        }
        Ok(Parameters { pairs })
    }
}

// Adds the pair, decoded, unless its name is ignored.
fn add(
    alloc: Global,
    pairs: &mut Vec<(OrderedBytes, OrderedBytes)>,
    ignored: &Names,
    name: &[u8],
    value: &[u8],
) -> Result<(), NoMemory>
    ensures { OnOk result (pairs.new.items ≡ pairs.old.items ++ counted ignored.now (decoded_pair (name.now, value.now) ∷ [])) }
{
    let name = decoded(alloc, name)?;
    if ignored.contains(name.as_slice()) {
        return Ok(());
    }
    let value = decoded(alloc, value)?;
    pairs.push((OrderedBytes::new(name), OrderedBytes::new(value)))?;
    Ok(())
}

// The text of a name or a value.
fn decoded(alloc: Global, text: &[u8]) -> Result<Bytes, NoMemory>
    ensures { IfOk result (λ made. made ≡ decoded text.now) }
{
    let text = form_urlencoded::decode(alloc, text)?;
    Ok(Bytes::copied(alloc, text.as_bytes())?)
}
