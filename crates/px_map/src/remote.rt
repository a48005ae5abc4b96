//! Map remote: the URL of a request is changed before it is sent.
//!
//! The rules are taken in their order, and each is asked of the flow as those before it left it. Where its filter holds, all
//! matches in the request's URL are replaced. Where this changed the URL, the request's host, port and path are set to those of
//! the new one, and so is its `Host` field, if it has one.
ghost use Rattle.std.specs.Prelude.{◌≡◌, ◌⊎◌, ◌≢◌, ℕ, [], map, take, string_bytes, Some, None, Ok, Err, IfOk, IfErr, OnOk, OnErr, MatchOption};
ghost use Rattle.px_rule.specs.Pattern.{replaced_all};
ghost use Rattle.px_rule.specs.Rule.{AreRules, IsFirstBad, IsNext, applies, body_rule};
ghost use Rattle.px_rule.specs.declared.cause.RuleCause.TheVariants as causes;
ghost use Rattle.px_map.specs.Remote.{remote_rules, remote_step, with_url};
ghost use Rattle.px_map.specs.Url.{url_of};
ghost use Rattle.px_map.specs.View.{remote_view, remote_views};

use crate::url::share_moved;
use px_filter::Filter;
use px_message::{Flow, UrlError};
use px_rule::{Replacing, ReplacingError, RuleCause, RuleError, applies, read_rule};
use px_text::NoMemory;
use std::alloc::Global;

/// One rule: on which flows, the pattern, and the template of its matches.
#[derive(Debug, Drop)]
pub struct RemoteRule {
    filter: Option<Filter>,
    replacing: Replacing,
}

/// Map remote rules, in their order (mitmproxy's option `map_remote`).
#[derive(Debug, Drop)]
pub struct RemoteRules {
    alloc: Global,
    rules: Vec<RemoteRule>,
}

impl RemoteRules {
    /// No rule. It takes no memory.
    pub fn none(alloc: Global) -> RemoteRules
        ensures none { remote_views result ≡ [] }
    {
        RemoteRules {
            alloc,
            rules: Vec::new(alloc),
        }
    }

    /// The rules of these texts, each `/pattern/template` or `/filter/pattern/template`, with the patterns and templates of
    /// px_rule's body rules. Refused with the first that is no rule, at its first cause.
    pub fn read(alloc: Global, texts: &[String]) -> Result<RemoteRules, RuleError>
        ensures ok { IfOk result (λ rules. AreRules body_rule (map string_bytes texts.now) (remote_views rules)) }
        ensures err { IfErr result (λ e. (e.cause ≡ causes.NoMemory) ⊎ IsFirstBad body_rule (map string_bytes texts.now) e.index e.cause) }
    {
        let mut rules = Vec::new(alloc);
        for index in 0..texts.len() {
            match read_next(alloc, texts[index].as_str(), &mut rules) {
                Ok(()) => {}
                Err(cause) => return Err(RuleError { index, cause }),
            }
        }
        Ok(RemoteRules { alloc, rules })
    }

    /// Changes the request's URL. `NotPlainHttp` exactly where a rule makes a URL that is none of the scheme `http` with a
    /// host (RFC 9112 section 3.2.2); the flow is then as the rules before that one left it. After `NoMemory` it is as some of
    /// the first rules left it.
    pub fn apply(&self, flow: &mut Flow) -> Result<(), UrlError>
        ensures changed { OnOk result (remote_rules (remote_views self.now) flow.old ≡ Ok flow.new) }
        ensures refused { result ≡ Err UrlError.NotPlainHttp → remote_rules (remote_views self.now) flow.old ≡ Err flow.new }
        ensures stopped { result ≡ Err UrlError.NoMemory → (done : ℕ) × (remote_rules (take done (remote_views self.now)) flow.old ≡ Ok flow.new) }
    {
        for rule in &self.rules {
            match apply_one(self.alloc, rule, flow) {
                Ok(()) => {}
                Err(error) => return Err(error),
            }
        }
        Ok(())
    }
}

// Changes the URL, if the rule holds on the flow. After a refusal the flow is as before.
fn apply_one(alloc: Global, rule: &RemoteRule, flow: &mut Flow) -> Result<(), UrlError>
    ensures changed { OnOk result (remote_step (remote_view rule.now) flow.old ≡ Some flow.new) }
    ensures refused { result ≡ Err UrlError.NotPlainHttp → remote_step (remote_view rule.now) flow.old ≡ None }
    ensures unchanged { OnErr result (flow.new ≡ flow.old) }
{
    match applies(&rule.filter, flow) {
        Ok(true) => replace_url(alloc, &rule.replacing, flow),
        Ok(false) => Ok(()),
        Err(NoMemory) => Err(UrlError::NoMemory),
    }
}

// Replaces all matches in the URL. After a refusal the flow is as before.
fn replace_url(alloc: Global, replacing: &Replacing, flow: &mut Flow) -> Result<(), UrlError>
    ensures changed { OnOk result (with_url flow.old (replaced_all replacing.now.0 replacing.now.1 (url_of flow.old.request)) ≡ Some flow.new) }
    ensures refused { result ≡ Err UrlError.NotPlainHttp → with_url flow.old (replaced_all replacing.now.0 replacing.now.1 (url_of flow.old.request)) ≡ None }
    ensures unchanged { OnErr result (flow.new ≡ flow.old) }
{
    match changed_url(replacing, flow) {
        Ok(None) => Ok(()),
        Ok(Some(url)) => put_url(alloc, flow, &url),
        Err(NoMemory) => Err(UrlError::NoMemory),
    }
}

// The URL with all matches replaced, where this makes another of it.
fn changed_url(replacing: &Replacing, flow: &Flow) -> Result<Option<Vec<u8>>, NoMemory>
    ensures { IfOk result (λ changed. MatchOption changed
        (replaced_all replacing.now.0 replacing.now.1 (url_of flow.now.request) ≡ url_of flow.now.request)
        (λ url. (url.items ≡ replaced_all replacing.now.0 replacing.now.1 (url_of flow.now.request)) × (url.items ≢ url_of flow.now.request))) }
{
    let url = flow.request.get().url()?;
    let changed = replacing.replace_all(&url)?;
    if changed.as_slice() == url.as_slice() {
        Ok(None)
    } else {
        Ok(Some(changed))
    }
}

// Sets the URL, which is not the flow's. After a refusal the flow is as before.
fn put_url(alloc: Global, flow: &mut Flow, url: &[u8]) -> Result<(), UrlError>
    requires { url.now ≢ url_of flow.old.request }
    ensures changed { OnOk result (with_url flow.old url.now ≡ Some flow.new) }
    ensures refused { result ≡ Err UrlError.NotPlainHttp → with_url flow.old url.now ≡ None }
    ensures unchanged { OnErr result (flow.new ≡ flow.old) }
{
    flow.request = share_moved(alloc, flow.request.get(), url)?;
    Ok(())
}

// Adds the rule of the text.
fn read_next(alloc: Global, text: &str, rules: &mut Vec<RemoteRule>) -> Result<(), RuleCause>
    ensures ok { OnOk result (IsNext body_rule text.now (map remote_view rules.old.items) (map remote_view rules.new.items)) }
    ensures err { IfErr result (λ cause. (cause ≡ causes.NoMemory) ⊎ (body_rule text.now ≡ Err cause)) }
{
    let rule = read_remote(alloc, text)?;
    rules.push(rule)?;
    Ok(())
}

// The rule of the text.
fn read_remote(alloc: Global, text: &str) -> Result<RemoteRule, RuleCause>
    ensures ok { IfOk result (λ rule. body_rule text.now ≡ Ok (remote_view rule)) }
    ensures err { IfErr result (λ cause. (cause ≡ causes.NoMemory) ⊎ (body_rule text.now ≡ Err cause)) }
{
    let read = read_rule(alloc, text)?;
    match Replacing::new(alloc, read.subject, read.replacement) {
        Ok(replacing) => Ok(RemoteRule {
            filter: read.filter,
            replacing,
        }),
        Err(ReplacingError::Pattern) => Err(RuleCause::Pattern),
        Err(ReplacingError::NoMemory) => Err(RuleCause::NoMemory),
    }
}
