//! Block rules: flows that are answered with a status and no more, or not at all.
//!
//! The rules are taken in their order, and the first whose filter holds on the flow decides. A rule's text has a filter, which
//! may be missing, and a status from 200 to 999. The status 444 means that the connection is closed without a response; it is
//! told like any other.
ghost use Rattle.std.specs.Prelude.{◌≡◌, ◌⊎◌, [], true, map, option_map, string_bytes, Some, None, Ok, Err, IfOk, IfErr, IfSome, OnOk, OnErr, MatchOption};
ghost use Rattle.px_filter.specs.Parsing.{parse};
ghost use Rattle.px_filter.specs.View.{expression};
ghost use Rattle.px_message.specs.Status.{is_status};
ghost use Rattle.px_rule.specs.Causes.{filter_cause};
ghost use Rattle.px_rule.specs.declared.cause.RuleCause.TheVariants as causes;
ghost use Rattle.px_map.specs.Block.{AreBlockRules, IsFirstBadBlock, IsNextBlock, block_of_parts, block_rule, block_status, blocking_status, in_range, with_filter, with_status};
ghost use Rattle.px_map.specs.View.{block_view, block_views};

use px_filter::{Filter, FilterError};
use px_message::{Flow, Status};
use px_rule::{RuleCause, RuleError, Spec, SpecError, applies, split_spec};
use px_text::{NoMemory, read_decimal};
use std::alloc::Global;

/// One rule: on which flows, and the status.
#[derive(Debug, Drop)]
pub struct BlockRule {
    filter: Option<Filter>,
    status: Status,
}

/// Block rules, in their order (mitmproxy's option `block_list`).
#[derive(Debug, Drop)]
pub struct BlockRules {
    rules: Vec<BlockRule>,
}

impl BlockRules {
    /// No rule. It takes no memory.
    pub fn none(alloc: Global) -> BlockRules
        ensures none { block_views result ≡ [] }
    {
        BlockRules {
            rules: Vec::new(alloc),
        }
    }

    /// The rules of these texts, each `/status` or `/filter/status`. Refused with the first that is no rule, at its first
    /// cause.
    pub fn read(alloc: Global, texts: &[String]) -> Result<BlockRules, RuleError>
        ensures ok { IfOk result (λ rules. AreBlockRules (map string_bytes texts.now) (block_views rules)) }
        ensures err { IfErr result (λ e. (e.cause ≡ causes.NoMemory) ⊎ IsFirstBadBlock (map string_bytes texts.now) e.index e.cause) }
    {
        let mut rules = Vec::new(alloc);
        for index in 0..texts.len() {
            match read_next(alloc, texts[index].as_str(), &mut rules) {
                Ok(()) => {}
                Err(cause) => return Err(RuleError { index, cause }),
            }
        }
        Ok(BlockRules { rules })
    }

    /// The status of the first rule that holds on the flow, or none where none holds. 444 asks to close the connection
    /// without a response. After `NoMemory` nothing is told.
    pub fn answer(&self, flow: &Flow) -> Result<Option<u16>, NoMemory>
        ensures first { IfOk result (λ status. status ≡ block_status (block_views self.now) flow.now) }
        ensures valid { IfOk result (λ status. IfSome status (λ code. is_status code ≡ true)) }
    {
        for rule in &self.rules {
            if applies(&rule.filter, flow)? {
                return Ok(Some(rule.status.code()));
            }
        }
        Ok(None)
    }
}

// Adds the rule of the text.
fn read_next(alloc: Global, text: &str, rules: &mut Vec<BlockRule>) -> Result<(), RuleCause>
    ensures ok { OnOk result (IsNextBlock text.now (map block_view rules.old.items) (map block_view rules.new.items)) }
    ensures err { IfErr result (λ cause. (cause ≡ causes.NoMemory) ⊎ (block_rule text.now ≡ Err cause)) }
{
    let rule = read_block(alloc, text)?;
    rules.push(rule)?;
    Ok(())
}

// The rule of the text.
fn read_block(alloc: Global, text: &str) -> Result<BlockRule, RuleCause>
    ensures ok { IfOk result (λ rule. block_rule text.now ≡ Ok (block_view rule)) }
    ensures err { IfErr result (λ cause. (cause ≡ causes.NoMemory) ⊎ (block_rule text.now ≡ Err cause)) }
{
    match split_spec(text, 1) {
        Ok(spec) => read_parts(alloc, &spec),
        Err(error) => Err(RuleCause::Spec(error)),
    }
}

// The rule of the parts.
fn read_parts(alloc: Global, spec: &Spec) -> Result<BlockRule, RuleCause>
    ensures ok { IfOk result (λ rule. block_of_parts spec.now ≡ Ok (block_view rule)) }
    ensures err { IfErr result (λ cause. (cause ≡ causes.NoMemory) ⊎ (block_of_parts spec.now ≡ Err cause)) }
{
    match spec.len() {
        0 => Err(RuleCause::Spec(SpecError::Empty)),
        1 => of_status(None, spec.part(0)),
        _ => of_filter(alloc, spec.part(0), spec.part(1)),
    }
}

// The rule with the filter of this text.
fn of_filter(alloc: Global, filter: &str, status: &str) -> Result<BlockRule, RuleCause>
    ensures ok { IfOk result (λ rule. with_filter (parse filter.now) (blocking_status status.now) ≡ Ok (block_view rule)) }
    ensures err { IfErr result (λ cause. (cause ≡ causes.NoMemory) ⊎ (with_filter (parse filter.now) (blocking_status status.now) ≡ Err cause)) }
{
    match Filter::parse(alloc, filter) {
        Ok(filter) => of_status(Some(filter), status),
        Err(error) => Err(filter_cause(error)),
    }
}

// The rule with this filter.
fn of_status(filter: Option<Filter>, status: &str) -> Result<BlockRule, RuleCause>
    ensures ok { IfOk result (λ rule. with_status (option_map expression filter) (blocking_status status.now) ≡ Ok (block_view rule)) }
    ensures err { IfErr result (λ cause. with_status (option_map expression filter) (blocking_status status.now) ≡ Err cause) }
{
    match blocking_status(status.as_bytes()) {
        Some(status) => Ok(BlockRule { filter, status }),
        None => Err(RuleCause::Status),
    }
}

// The cause of a rule whose filter was refused.
fn filter_cause(error: FilterError) -> RuleCause
    ensures { result ≡ filter_cause error }
{
    match error {
        FilterError::NoMemory => RuleCause::NoMemory,
        other => RuleCause::Filter(other),
    }
}

// The status that a text is.
fn blocking_status(text: &[u8]) -> Option<Status>
    ensures { result ≡ blocking_status text.now }
{
    if text.len() != 3 {
        return None;
    }
    in_range(read_decimal(text)?)
}

// The status of a number that may be one.
fn in_range(number: u64) -> Option<Status>
    ensures { result ≡ in_range (Some number) }
{
    if !(200..=999).contains(&number) {
        return None;
    }
    Status::try_new(number as u16)
}
