//! Why a text is no rule.
use crate::SpecError;
use px_filter::FilterError;
use px_text::NoMemory;
use std::alloc::AllocFailed;

/// Why a text is no rule: the first cause in this order.
#[derive(Clone, Copy, Debug, PartialEq, Eq)]
pub enum RuleCause {
    /// It has no separator, or too few parts.
    Spec(SpecError),
    /// Its first part is no filter.
    Filter(FilterError),
    /// Its subject is no pattern, or nests too deep.
    Pattern,
    /// Its subject is no field's name.
    Name,
    /// Its replacement is no field's value.
    Value,
    /// Its last part is no status.
    Status,
    /// No memory, or a pattern that takes more than `regex` may build; it says nothing of the text.
    NoMemory,
}

/// The first text of a list that is no rule.
#[derive(Clone, Copy, Debug, PartialEq, Eq)]
pub struct RuleError {
    /// Where it stands in the list, from 0.
    pub index: usize,
    pub cause: RuleCause,
}

impl From<NoMemory> for RuleCause {
    ghost use Rattle.std.specs.Prelude.{◌≡◌};
    ghost use Rattle.px_rule.specs.declared.cause.RuleCause.TheVariants as causes;

    ghost from_gives = { λ _ cause. cause ≡ causes.NoMemory };

    fn from(_: NoMemory) -> RuleCause {
        RuleCause::NoMemory
    }
}

impl<T: Drop> From<AllocFailed<T>> for RuleCause {
    ghost use Rattle.std.specs.Prelude.{◌≡◌};
    ghost use Rattle.px_rule.specs.declared.cause.RuleCause.TheVariants as causes;

    ghost from_gives = { λ _ cause. cause ≡ causes.NoMemory };

    fn from(_: AllocFailed<T>) -> RuleCause {
        RuleCause::NoMemory
    }
}
