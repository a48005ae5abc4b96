//! Header rules: fields that are taken away, put in another's place, or added.
//!
//! All filters are asked of the flow as it stands before. Then every name of a rule that holds is taken away, and then each of
//! these rules with a value adds its field, in their order. So no rule sees what another one did, and two rules of one name
//! leave two fields.
ghost use Rattle.std.specs.Prelude.{◌≡◌, ◌⊎◌, ◌++◌, ◌∷◌, [], map, string_bytes, true, false, Ok, Err, IfOk, IfErr, OnOk, OnErr};
ghost use Rattle.httparse.specs.Grammar.{is_token};
ghost use Rattle.px_message.specs.Value.{is_value};
ghost use Rattle.px_rule.specs.Header.{changed, header_rules, holding, put, spared};
ghost use Rattle.px_rule.specs.Rule.{AreRules, IsFirstBad, IsNext, header_rule};
ghost use Rattle.px_rule.specs.View.{header_view, header_views, lent_views};
ghost use Rattle.px_rule.specs.declared.cause.RuleCause.TheVariants as causes;

use crate::fields::{fields_of, put_fields};
use crate::text::{applies, read_rule};
use crate::{RuleCause, RuleError};
use px_filter::Filter;
use px_message::{Fields, Flow, Name, Value};
use px_text::{Bytes, NoMemory};
use std::alloc::Global;

/// One rule: on which flows, the name that is taken away, and the value that is put; an empty value puts none.
#[derive(Debug, Drop)]
pub struct HeaderRule {
    filter: Option<Filter>,
    name: Name,
    value: Value,
}

/// Header rules, in their order (mitmproxy's option `modify_headers`).
#[derive(Debug, Drop)]
pub struct HeaderRules {
    alloc: Global,
    rules: Vec<HeaderRule>,
}

impl HeaderRules {
    /// No rule. It takes no memory.
    pub fn none(alloc: Global) -> HeaderRules
        ensures none { header_views result ≡ [] }
    {
        HeaderRules {
            alloc,
            rules: Vec::new(alloc),
        }
    }

    /// The rules of these texts, each `/name/value` or `/filter/name/value`. Refused with the first that is no rule, at its
    /// first cause.
    pub fn read(alloc: Global, texts: &[String]) -> Result<HeaderRules, RuleError>
        ensures ok { IfOk result (λ rules. AreRules header_rule (map string_bytes texts.now) (header_views rules)) }
        ensures err { IfErr result (λ e. (e.cause ≡ causes.NoMemory) ⊎ IsFirstBad header_rule (map string_bytes texts.now) e.index e.cause) }
    {
        let mut rules = Vec::new(alloc);
        for index in 0..texts.len() {
            match read_next(alloc, texts[index].as_str(), &mut rules) {
                Ok(()) => {}
                Err(cause) => return Err(RuleError { index, cause }),
            }
        }
        Ok(HeaderRules { alloc, rules })
    }

    /// Changes the fields of the response, or of the request. A flow without the response is not changed. After `NoMemory` the
    /// flow is as before.
    pub fn apply(&self, flow: &mut Flow, response: bool) -> Result<(), NoMemory>
        ensures changed { OnOk result (flow.new ≡ header_rules response (header_views self.now) flow.old) }
        ensures unchanged { OnErr result (flow.new ≡ flow.old) }
    {
        let changed = match fields_of(flow, response) {
            None => return Ok(()),
            Some(fields) => self.changed(flow, fields)?,
        };
        put_fields(self.alloc, flow, response, changed)
    }

    // The fields as the rules that hold on the flow leave them.
    fn changed(&self, flow: &Flow, fields: &Fields) -> Result<Fields, NoMemory>
        ensures { IfOk result (λ out. out ≡ changed (holding flow.now (header_views self.now)) fields.now) }
    {
        let holding = holding(self.alloc, &self.rules, flow)?;
        let mut out = fields.try_clone()?;
        remove_all(&mut out, &holding)?;
        add_all(&mut out, &holding)?;
        Ok(out)
    }
}

// Adds the rule of the text.
fn read_next(alloc: Global, text: &str, rules: &mut Vec<HeaderRule>) -> Result<(), RuleCause>
    ensures ok { OnOk result (IsNext header_rule text.now (map header_view rules.old.items) (map header_view rules.new.items)) }
    ensures err { IfErr result (λ cause. (cause ≡ causes.NoMemory) ⊎ (header_rule text.now ≡ Err cause)) }
{
    let rule = read_header(alloc, text)?;
    rules.push(rule)?;
    Ok(())
}

// The rule of the text.
fn read_header(alloc: Global, text: &str) -> Result<HeaderRule, RuleCause>
    ensures ok { IfOk result (λ rule. header_rule text.now ≡ Ok (header_view rule)) }
    ensures err { IfErr result (λ cause. (cause ≡ causes.NoMemory) ⊎ (header_rule text.now ≡ Err cause)) }
{
    let read = read_rule(alloc, text)?;
    let name = read_name(alloc, read.subject)?;
    let value = read_value(alloc, read.replacement)?;
    Ok(HeaderRule {
        filter: read.filter,
        name,
        value,
    })
}

// The name that the text is.
fn read_name(alloc: Global, text: &str) -> Result<Name, RuleCause>
    ensures ok { IfOk result (λ name. (name ≡ text.now) × (is_token text.now ≡ true)) }
    ensures err { IfErr result (λ cause. (cause ≡ causes.NoMemory) ⊎ ((cause ≡ causes.Name) × (is_token text.now ≡ false))) }
{
    match Name::from_bytes(Bytes::copied(alloc, text.as_bytes())?) {
        Ok(name) => Ok(name),
        Err(_) => Err(RuleCause::Name),
    }
}

// The value that the text is.
fn read_value(alloc: Global, text: &str) -> Result<Value, RuleCause>
    ensures ok { IfOk result (λ value. (value ≡ text.now) × (is_value text.now ≡ true)) }
    ensures err { IfErr result (λ cause. (cause ≡ causes.NoMemory) ⊎ ((cause ≡ causes.Value) × (is_value text.now ≡ false))) }
{
    match Value::from_bytes(Bytes::copied(alloc, text.as_bytes())?) {
        Ok(value) => Ok(value),
        Err(_) => Err(RuleCause::Value),
    }
}

// The rules that hold on the flow, in their order.
fn holding<'a>(
    alloc: Global,
    rules: &'a [HeaderRule],
    flow: &Flow,
) -> Result<Vec<&'a HeaderRule>, NoMemory>
    ensures { IfOk result (λ held. lent_views held.items ≡ holding flow.now (map header_view rules.now)) }
{
    let mut held = Vec::new(alloc);
    for rule in rules {
        hold(&mut held, rule, flow)?;
    }
    Ok(held)
}

// Adds the rule, if it holds on the flow.
fn hold<'a>(
    held: &mut Vec<&'a HeaderRule>,
    rule: &'a HeaderRule,
    flow: &Flow,
) -> Result<(), NoMemory>
    ensures { OnOk result (lent_views held.new.items ≡ lent_views held.old.items ++ holding flow.now (header_view rule.now ∷ [])) }
{
    if !applies(&rule.filter, flow)? {
        return Ok(());
    }
    held.push(rule)?;
    Ok(())
}

// Takes away every name of the rules.
fn remove_all(fields: &mut Fields, rules: &[&HeaderRule]) -> Result<(), NoMemory>
    ensures { OnOk result (fields.new ≡ spared (lent_views rules.now) fields.old) }
{
    for rule in rules {
        fields.remove(rule.name.bytes())?;
    }
    Ok(())
}

// Adds the fields of the rules.
fn add_all(fields: &mut Fields, rules: &[&HeaderRule]) -> Result<(), NoMemory>
    ensures { OnOk result (fields.new ≡ fields.old ++ put (lent_views rules.now)) }
{
    for rule in rules {
        add(fields, rule)?;
    }
    Ok(())
}

// Adds the field of the rule, if it puts a value.
fn add(fields: &mut Fields, rule: &HeaderRule) -> Result<(), NoMemory>
    ensures { OnOk result (fields.new ≡ fields.old ++ put (header_view rule.now ∷ [])) }
{
    if rule.value.bytes().is_empty() {
        return Ok(());
    }
    fields.add(rule.name.try_clone()?, rule.value.try_clone()?)
}
