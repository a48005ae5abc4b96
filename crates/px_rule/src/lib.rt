//! Rules that change flows, each written as one text: header rules, body rules, and the two wishes `anticache` and `anticomp`.
//!
//! A rule's text is split at its first character (`specs/Spec.antt`, over characters): a filter, which may be missing, a subject and a
//! replacement. What a text is, is one function (`specs/Rule.antt`): a rule, or the first cause for which it is none, in the order
//! parts, filter, then what the kind of rule asks of subject and replacement. A list of texts is read whole or refused with the
//! first that is no rule; so a list that was read stands for the rules of its texts and nothing else.
//!
//! What header rules make of a list of fields is said of the whole list (`specs/Header.antt`): the fields whose name no rule has,
//! and behind them the fields that the rules put, in their order. All filters are asked of the flow as it stands before, so no
//! rule sees what another one did. Body rules (`specs/Body.antt`) are taken one by one, each asked of the flow as those before it left
//! it, and replace all matches of a pattern by a template. What a pattern matches and what a template writes are `regex`'s own
//! definitions, over the texts of both (`specs/Pattern.antt`): not over what was built from them.
//!
//! The types of px_message keep what is put right: a name is a token and a value ends no line, so no rule can add a line to a head. A
//! body may be any bytes. What the framing fields then say of it is settled where the message is sent.
#![tactic(auto)]

mod body;
mod cause;
mod content;
mod fields;
mod header;
mod laws;
mod replacing;
mod requests;
mod spec;
mod text;

pub use body::{BodyRule, BodyRules};
pub use cause::{RuleCause, RuleError};
pub use content::Content;
pub use header::{HeaderRule, HeaderRules};
pub use laws::{
    a_header_rule_puts_a_field, a_rules_name_has_what_the_rules_put, another_name_keeps_its_values,
    body_rules_go_on, body_rules_that_hold_nowhere_change_nothing,
    changed_fields_are_names_and_values, header_rules_that_hold_nowhere_change_nothing,
    no_coding_is_wished, no_condition_is_left, parts_are_the_text,
};
pub use replacing::{Replacing, ReplacingError};
pub use requests::{anticache, anticomp};
pub use spec::{Spec, SpecError, split_spec};
pub use text::{RuleText, applies, read_rule};
