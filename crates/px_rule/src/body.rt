//! Body rules: matches of a pattern that are replaced by a template.
//!
//! The rules are taken in their order, and each is asked of the flow as those before it left it; where its filter holds, all
//! matches in the body are replaced.
ghost use Rattle.std.specs.Prelude.{◌≡◌, ◌⊎◌, ℕ, [], map, take, string_bytes, Ok, Err, IfOk, IfErr, OnOk, OnErr};
ghost use Rattle.px_rule.specs.Body.{body_of, body_rules, body_step, with_content};
ghost use Rattle.px_rule.specs.Pattern.{replaced_all};
ghost use Rattle.px_rule.specs.Rule.{AreRules, IsFirstBad, IsNext, body_rule};
ghost use Rattle.px_rule.specs.View.{body_view, body_views};
ghost use Rattle.px_rule.specs.declared.cause.RuleCause.TheVariants as causes;
ghost use Rattle.px_rule.specs.declared.content.Content.TheVariants as contents;

use crate::content::{Content, content_of, put_content};
use crate::text::{applies, read_rule};
use crate::{Replacing, ReplacingError, RuleCause, RuleError};
use px_filter::Filter;
use px_message::Flow;
use px_text::{Bytes, NoMemory};
use std::alloc::Global;

/// One rule: on which flows, the pattern, and the template of its matches.
#[derive(Debug, Drop)]
pub struct BodyRule {
    filter: Option<Filter>,
    replacing: Replacing,
}

/// Body rules, in their order (mitmproxy's option `modify_body`).
#[derive(Debug, Drop)]
pub struct BodyRules {
    alloc: Global,
    rules: Vec<BodyRule>,
}

impl BodyRules {
    /// No rule. It takes no memory.
    pub fn none(alloc: Global) -> BodyRules
        ensures none { body_views result ≡ [] }
    {
        BodyRules {
            alloc,
            rules: Vec::new(alloc),
        }
    }

    /// The rules of these texts, each `/pattern/template` or `/filter/pattern/template`. Refused with the first that is no
    /// rule, at its first cause.
    pub fn read(alloc: Global, texts: &[String]) -> Result<BodyRules, RuleError>
        ensures ok { IfOk result (λ rules. AreRules body_rule (map string_bytes texts.now) (body_views rules)) }
        ensures err { IfErr result (λ e. (e.cause ≡ causes.NoMemory) ⊎ IsFirstBad body_rule (map string_bytes texts.now) e.index e.cause) }
    {
        let mut rules = Vec::new(alloc);
        for index in 0..texts.len() {
            match read_next(alloc, texts[index].as_str(), &mut rules) {
                Ok(()) => {}
                Err(cause) => return Err(RuleError { index, cause }),
            }
        }
        Ok(BodyRules { alloc, rules })
    }

    /// Changes the body of the response, or of the request. A flow without the response is not changed. After `NoMemory` the
    /// flow is as some of the first rules left it.
    pub fn apply(&self, flow: &mut Flow, response: bool) -> Result<(), NoMemory>
        ensures changed { OnOk result (flow.new ≡ body_rules (body_of response) (body_views self.now) flow.old) }
        ensures stopped { OnErr result ((done : ℕ) × (flow.new ≡ body_rules (body_of response) (take done (body_views self.now)) flow.old)) }
    {
        let content = if response {
            Content::Response
        } else {
            Content::Request
        };
        self.apply_to(flow, content)
    }

    /// Changes the payload of the message. A flow without one is not changed. After `NoMemory` the flow is as some of the first
    /// rules left it.
    pub fn apply_message(&self, flow: &mut Flow) -> Result<(), NoMemory>
        ensures changed { OnOk result (flow.new ≡ body_rules contents.Message (body_views self.now) flow.old) }
        ensures stopped { OnErr result ((done : ℕ) × (flow.new ≡ body_rules contents.Message (take done (body_views self.now)) flow.old)) }
    {
        self.apply_to(flow, Content::Message)
    }

    fn apply_to(&self, flow: &mut Flow, content: Content) -> Result<(), NoMemory>
        ensures changed { OnOk result (flow.new ≡ body_rules content (body_views self.now) flow.old) }
        ensures stopped { OnErr result ((done : ℕ) × (flow.new ≡ body_rules content (take done (body_views self.now)) flow.old)) }
    {
        for rule in &self.rules {
            apply_one(self.alloc, rule, flow, content)?;
        }
        Ok(())
    }
}

// Changes the bytes, if the rule holds on the flow. After `NoMemory` the flow is as before.
fn apply_one(
    alloc: Global,
    rule: &BodyRule,
    flow: &mut Flow,
    content: Content,
) -> Result<(), NoMemory>
    ensures changed { OnOk result (flow.new ≡ body_step content (body_view rule.now) flow.old) }
    ensures unchanged { OnErr result (flow.new ≡ flow.old) }
{
    if !applies(&rule.filter, flow)? {
        return Ok(());
    }
    replace_content(alloc, &rule.replacing, flow, content)
}

// Replaces all matches in the bytes. After `NoMemory` the flow is as before.
fn replace_content(
    alloc: Global,
    replacing: &Replacing,
    flow: &mut Flow,
    content: Content,
) -> Result<(), NoMemory>
    ensures changed { OnOk result (flow.new ≡ with_content content (replaced_all replacing.now.0 replacing.now.1) flow.old) }
    ensures unchanged { OnErr result (flow.new ≡ flow.old) }
{
    let changed = match content_of(flow, content) {
        None => return Ok(()),
        Some(bytes) => Bytes::new(replacing.replace_all(bytes)?)?,
    };
    put_content(alloc, flow, content, changed)
}

// Adds the rule of the text.
fn read_next(alloc: Global, text: &str, rules: &mut Vec<BodyRule>) -> Result<(), RuleCause>
    ensures ok { OnOk result (IsNext body_rule text.now (map body_view rules.old.items) (map body_view rules.new.items)) }
    ensures err { IfErr result (λ cause. (cause ≡ causes.NoMemory) ⊎ (body_rule text.now ≡ Err cause)) }
{
    let rule = read_body(alloc, text)?;
    rules.push(rule)?;
    Ok(())
}

// The rule of the text.
fn read_body(alloc: Global, text: &str) -> Result<BodyRule, RuleCause>
    ensures ok { IfOk result (λ rule. body_rule text.now ≡ Ok (body_view rule)) }
    ensures err { IfErr result (λ cause. (cause ≡ causes.NoMemory) ⊎ (body_rule text.now ≡ Err cause)) }
{
    let read = read_rule(alloc, text)?;
    match Replacing::new(alloc, read.subject, read.replacement) {
        Ok(replacing) => Ok(BodyRule {
            filter: read.filter,
            replacing,
        }),
        Err(ReplacingError::Pattern) => Err(RuleCause::Pattern),
        Err(ReplacingError::NoMemory) => Err(RuleCause::NoMemory),
    }
}
