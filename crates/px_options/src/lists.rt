//! The kinds of rules, each a list of rules that texts are read as.
ghost use Rattle.std.specs.Prelude.{◌≡◌, ◌⊎◌, ℕ, List, Some, Ok, Err, Result, IfOk, IfErr, map, take, slice_get, string_bytes};
ghost use Rattle.px_rule.specs.declared.cause.RuleCause.TheVariants as causes;

use px_map::{BlockRules, LocalRules, RemoteRules};
use px_rule::{BodyRules, HeaderRules, RuleError};
use std::alloc::Global;

/// Rules of one kind, in their order.
pub(crate) trait RuleList: Drop {
    ghost use Rattle.std.specs.Prelude.{ℕ, List, Result};
    ghost use Rattle.px_rule.specs.declared.cause.RuleCause.{RuleCause};

    /// What one rule says.
    ghost Said: { Type 0 };

    /// What they say.
    ghost says: { Self → List Said };

    /// The rule that a text is, or why it is none.
    ghost reads: { List ℕ → Result Said RuleCause };

    /// The rules of these texts. Refused with the first that is no rule, at its first cause.
    fn read_all(alloc: Global, texts: &[String]) -> Result<Self, RuleError>
        ensures ok { IfOk result (λ list. map reads (map string_bytes texts.now) ≡ map Ok (says list)) }
        ensures err { IfErr result (λ e. (e.cause ≡ causes.NoMemory) ⊎
            (((front : List Said) × (map reads (take e.index (map string_bytes texts.now)) ≡ map Ok front))
            × (slice_get (map reads (map string_bytes texts.now)) e.index ≡ Some (Err e.cause)))) };
}

impl RuleList for BlockRules {
    ghost use Rattle.px_map.specs.Block.{BlockRule, block_rule};
    ghost use Rattle.px_map.specs.View.{block_views};

    ghost Said = { BlockRule };

    ghost says = { block_views };

    ghost reads = { block_rule };

    fn read_all(alloc: Global, texts: &[String]) -> Result<BlockRules, RuleError> {
        BlockRules::read(alloc, texts)
    }
}

impl RuleList for BodyRules {
    ghost use Rattle.px_rule.specs.Rule.{Rule, body_rule};
    ghost use Rattle.px_rule.specs.View.{body_views};

    ghost Said = { Rule };

    ghost says = { body_views };

    ghost reads = { body_rule };

    fn read_all(alloc: Global, texts: &[String]) -> Result<BodyRules, RuleError> {
        BodyRules::read(alloc, texts)
    }
}

impl RuleList for HeaderRules {
    ghost use Rattle.px_rule.specs.Rule.{Rule, header_rule};
    ghost use Rattle.px_rule.specs.View.{header_views};

    ghost Said = { Rule };

    ghost says = { header_views };

    ghost reads = { header_rule };

    fn read_all(alloc: Global, texts: &[String]) -> Result<HeaderRules, RuleError> {
        HeaderRules::read(alloc, texts)
    }
}

impl RuleList for LocalRules {
    ghost use Rattle.px_map.specs.View.{local_views};
    ghost use Rattle.px_rule.specs.Rule.{Rule, body_rule};

    ghost Said = { Rule };

    ghost says = { local_views };

    ghost reads = { body_rule };

    fn read_all(alloc: Global, texts: &[String]) -> Result<LocalRules, RuleError> {
        LocalRules::read(alloc, texts)
    }
}

impl RuleList for RemoteRules {
    ghost use Rattle.px_map.specs.View.{remote_views};
    ghost use Rattle.px_rule.specs.Rule.{Rule, body_rule};

    ghost Said = { Rule };

    ghost says = { remote_views };

    ghost reads = { body_rule };

    fn read_all(alloc: Global, texts: &[String]) -> Result<RemoteRules, RuleError> {
        RemoteRules::read(alloc, texts)
    }
}
