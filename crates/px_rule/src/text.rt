//! Rules of three parts: a filter, a subject and a replacement.
ghost use Rattle.std.specs.Prelude.{◌≡◌, ◌⊎◌, option_map, Ok, Err, IfOk, IfErr};
ghost use Rattle.px_filter.specs.View.{expression};
ghost use Rattle.px_rule.specs.Causes.{filter_cause};
ghost use Rattle.px_rule.specs.Rule.{applies, rule_of, rule_of_parts};
ghost use Rattle.px_rule.specs.Parts.{parts_in};
ghost use Rattle.px_rule.specs.View.{text_view};
ghost use Rattle.px_rule.specs.declared.cause.RuleCause.TheVariants as causes;

use crate::spec::{Parts, split_spec};
use crate::{RuleCause, SpecError};
use px_filter::{Filter, FilterError};
use px_message::Flow;
use px_text::NoMemory;
use std::alloc::Global;

/// What the text of a rule says, before its subject and its replacement are judged. The two are lent from the text.
#[derive(Debug, Drop)]
pub struct RuleText<'a> {
    /// On which flows it holds; none says on every flow.
    pub filter: Option<Filter>,
    pub subject: &'a str,
    pub replacement: &'a str,
}

/// What the text of a rule says: `/subject/replacement` or `/filter/subject/replacement`, with any character in the place
/// of `/`. Refused exactly where it has fewer parts, or its filter is none.
pub fn read_rule(alloc: Global, text: &str) -> Result<RuleText<'_>, RuleCause>
    ensures ok { IfOk result (λ read. rule_of text.now ≡ Ok (text_view read)) }
    ensures err { IfErr result (λ cause. (cause ≡ causes.NoMemory) ⊎ (rule_of text.now ≡ Err cause)) }
{
    match split_spec(text, 2) {
        Ok(spec) => read_parts(alloc, &spec.parts),
        Err(error) => Err(RuleCause::Spec(error)),
    }
}

fn read_parts<'a>(alloc: Global, parts: &Parts<'a>) -> Result<RuleText<'a>, RuleCause>
    ensures ok { IfOk result (λ read. rule_of_parts (parts_in parts.now) ≡ Ok (text_view read)) }
    ensures err { IfErr result (λ cause. (cause ≡ causes.NoMemory) ⊎ (rule_of_parts (parts_in parts.now) ≡ Err cause)) }
{
    match *parts {
        Parts::One(_) => Err(RuleCause::Spec(SpecError::WrongCount(1))),
        Parts::Two(subject, replacement) => Ok(RuleText {
            filter: None,
            subject,
            replacement,
        }),
        Parts::Three(filter, subject, replacement) => match Filter::parse(alloc, filter) {
            Ok(filter) => Ok(RuleText {
                filter: Some(filter),
                subject,
                replacement,
            }),
            Err(error) => Err(filter_cause(error)),
        },
    }
}

// The cause of a rule whose filter was refused.
fn filter_cause(error: FilterError) -> RuleCause
    ensures { result ≡ filter_cause error }
{
    match error {
        FilterError::NoMemory => RuleCause::NoMemory,
        other => RuleCause::Filter(other),
    }
}

/// Whether a rule with this filter holds on the flow.
pub fn applies(filter: &Option<Filter>, flow: &Flow) -> Result<bool, NoMemory>
    ensures { IfOk result (λ answer. answer ≡ applies (option_map expression filter.now) flow.now) }
{
    match filter {
        None => Ok(true),
        Some(filter) => filter.matches(flow),
    }
}
