//! Map local: flows that are answered with files.
//!
//! A rule matches where its filter holds and its pattern is found in the URL. The rules that match are tried in their order, and
//! the first whose file is there answers. The reads are made in that order too, each of one file, and no file is changed.
ghost use Rattle.std.specs.Prelude.{◌≡◌, ◌⊎◌, List, [], ◌∷◌, map, string_bytes, Some, Ok, Err, IfOk, IfErr, OnOk, OnErr};
ghost use Rattle.px_outside.specs.declared.files.FileCall.{FileCall};
ghost use Rattle.px_rule.specs.Rule.{AreRules, IsFirstBad, IsNext, body_rule};
ghost use Rattle.px_rule.specs.declared.cause.RuleCause.TheVariants as causes;
ghost use Rattle.px_map.specs.Reads.{Begins, IsAnswer, Made, seen};
ghost use Rattle.px_map.specs.Served.{file_of, local_names, named_by, rule_names};
ghost use Rattle.px_map.specs.Tried.{Tries, names_in};
ghost use Rattle.px_map.specs.Url.{url_of};
ghost use Rattle.px_map.specs.View.{local_view, local_views};

use crate::responses::{file_response, internal_error, not_found};
use crate::seeking::Seeking;
use crate::served::file_of;
use px_filter::Filter;
use px_message::{Flow, Response};
use px_outside::{FileError, Files};
use px_rule::{RuleCause, RuleError, applies, read_rule};
use px_text::NoMemory;
use std::alloc::Global;

/// One rule: on which flows, the pattern, and the path.
#[derive(Debug, Drop)]
pub struct LocalRule {
    filter: Option<Filter>,
    seeking: Seeking,
    path: String,
}

/// Map local rules, in their order (mitmproxy's option `map_local`).
#[derive(Debug, Drop)]
pub struct LocalRules {
    alloc: Global,
    rules: Vec<LocalRule>,
}

// What a rule means for a flow.
#[derive(Debug, Drop)]
pub(crate) enum Named {
    // It does not match.
    Other,
    // A path that would lead up.
    Nothing,
    // A file.
    File(String),
}

// What came of a rule.
#[derive(Debug, Drop)]
pub(crate) enum Tried {
    // It does not match.
    Passed,
    // Its file is not there.
    Absent,
    // It answers.
    Answered(Response),
}

impl LocalRules {
    /// No rule. It takes no memory.
    pub fn none(alloc: Global) -> LocalRules
        ensures none { local_views result ≡ [] }
    {
        LocalRules {
            alloc,
            rules: Vec::new(alloc),
        }
    }

    /// The rules of these texts, each `/pattern/path` or `/filter/pattern/path`, with the patterns of px_rule's body rules.
    /// Refused with the first that is no rule, at its first cause. Any text is a path; whether a file is there is told by
    /// each read, and an empty path names none.
    pub fn read(alloc: Global, texts: &[String]) -> Result<LocalRules, RuleError>
        ensures ok { IfOk result (λ rules. AreRules body_rule (map string_bytes texts.now) (local_views rules)) }
        ensures err { IfErr result (λ e. (e.cause ≡ causes.NoMemory) ⊎ IsFirstBad body_rule (map string_bytes texts.now) e.index e.cause) }
    {
        let mut rules = Vec::new(alloc);
        for index in 0..texts.len() {
            match read_next(alloc, texts[index].as_str(), &mut rules) {
                Ok(()) => {}
                Err(cause) => return Err(RuleError { index, cause }),
            }
        }
        Ok(LocalRules { alloc, rules })
    }

    /// The response to the flow's request, or none where no rule matches: the first file of a rule that matches which is
    /// there; 500 where a read before that failed; 404 where no rule's file is there. Exactly the reads up to the one that
    /// answers are made, and no file is changed. After `NoMemory` some of the first of them were made. Where no rule matches, files are
    /// not touched.
    pub fn answer<F: Files>(&self, flow: &Flow, files: &mut F) -> Result<Option<Response>, NoMemory>
        ensures answered { IfOk result (λ answer. (made : List FileCall) × IsAnswer (local_names (local_views self.now) flow.now) made answer
            × Made made (seen F.contents F.calls F.misses F.faults F.losses files.old) (seen F.contents F.calls F.misses F.faults F.losses files.new)) }
        ensures stopped { OnErr result ((made : List FileCall) × Begins (local_names (local_views self.now) flow.now) made
            × Made made (seen F.contents F.calls F.misses F.faults F.losses files.old) (seen F.contents F.calls F.misses F.faults F.losses files.new)) }
        ensures unread { local_names (local_views self.now) flow.now ≡ [] → files.new ≡ files.old }
    {
        let url = flow.request.get().url()?;
        let mut matched = false;
        for rule in &self.rules {
            match try_rule(self.alloc, rule, flow, &url, files)? {
                Tried::Passed => {}
                Tried::Absent => matched = true,
                Tried::Answered(response) => return Ok(Some(response)),
            }
        }
        if matched {
            Ok(Some(not_found(self.alloc)?))
        } else {
            Ok(None)
        }
    }
}

// Reads the file that the rule means for the flow, if it matches.
fn try_rule<F: Files>(
    alloc: Global,
    rule: &LocalRule,
    flow: &Flow,
    url: &[u8],
    files: &mut F,
) -> Result<Tried, NoMemory>
    requires { url.now ≡ url_of flow.now.request }
    ensures tried { IfOk result (λ tried. (made : List FileCall) × Tries (rule_names (local_view rule.now) flow.now) made tried
        × Made made (seen F.contents F.calls F.misses F.faults F.losses files.old) (seen F.contents F.calls F.misses F.faults F.losses files.new)) }
    ensures stopped { OnErr result ((made : List FileCall) × Begins (rule_names (local_view rule.now) flow.now) made
        × Made made (seen F.contents F.calls F.misses F.faults F.losses files.old) (seen F.contents F.calls F.misses F.faults F.losses files.new)) }
    ensures unread { rule_names (local_view rule.now) flow.now ≡ [] → files.new ≡ files.old }
{
    match name(alloc, rule, flow, url)? {
        Named::Other => Ok(Tried::Passed),
        Named::Nothing => Ok(Tried::Absent),
        Named::File(path) => read_file(alloc, path.as_str(), files),
    }
}

// Reads the file.
fn read_file<F: Files>(alloc: Global, path: &str, files: &mut F) -> Result<Tried, NoMemory>
    ensures tried { IfOk result (λ tried. (made : List FileCall) × Tries (Some path.now ∷ []) made tried
        × Made made (seen F.contents F.calls F.misses F.faults F.losses files.old) (seen F.contents F.calls F.misses F.faults F.losses files.new)) }
    ensures stopped { OnErr result ((made : List FileCall) × Begins (Some path.now ∷ []) made
        × Made made (seen F.contents F.calls F.misses F.faults F.losses files.old) (seen F.contents F.calls F.misses F.faults F.losses files.new)) }
{
    match files.read(path) {
        Ok(bytes) => match file_response(alloc, path, bytes) {
            Ok(response) => Ok(Tried::Answered(response)),
            Err(NoMemory) => Err(NoMemory),
        },
        Err(FileError::Absent) => Ok(Tried::Absent),
        Err(FileError::Failed) => match internal_error(alloc) {
            Ok(response) => Ok(Tried::Answered(response)),
            Err(NoMemory) => Err(NoMemory),
        },
        Err(FileError::NoMemory) => Err(NoMemory),
    }
}

// What the rule means for the flow.
fn name(alloc: Global, rule: &LocalRule, flow: &Flow, url: &[u8]) -> Result<Named, NoMemory>
    requires { url.now ≡ url_of flow.now.request }
    ensures { IfOk result (λ named. names_in named ≡ rule_names (local_view rule.now) flow.now) }
{
    if !applies(&rule.filter, flow)? {
        return Ok(Named::Other);
    }
    match rule.seeking.after(url)? {
        None => Ok(Named::Other),
        Some(tail) => name_file(alloc, rule.path.as_str(), tail),
    }
}

// What a rule with this path means where this follows its match.
fn name_file(alloc: Global, path: &str, tail: &[u8]) -> Result<Named, NoMemory>
    ensures { IfOk result (λ named. names_in named ≡ file_of path.now tail.now ∷ []) }
{
    match file_of(alloc, path, tail)? {
        Some(file) => Ok(Named::File(file)),
        None => Ok(Named::Nothing),
    }
}

// Adds the rule of the text.
fn read_next(alloc: Global, text: &str, rules: &mut Vec<LocalRule>) -> Result<(), RuleCause>
    ensures ok { OnOk result (IsNext body_rule text.now (map local_view rules.old.items) (map local_view rules.new.items)) }
    ensures err { IfErr result (λ cause. (cause ≡ causes.NoMemory) ⊎ (body_rule text.now ≡ Err cause)) }
{
    let rule = read_local(alloc, text)?;
    rules.push(rule)?;
    Ok(())
}

// The rule of the text.
fn read_local(alloc: Global, text: &str) -> Result<LocalRule, RuleCause>
    ensures ok { IfOk result (λ rule. body_rule text.now ≡ Ok (local_view rule)) }
    ensures err { IfErr result (λ cause. (cause ≡ causes.NoMemory) ⊎ (body_rule text.now ≡ Err cause)) }
{
    let read = read_rule(alloc, text)?;
    let seeking = Seeking::new(alloc, read.subject)?;
    let path = copied(alloc, read.replacement)?;
    Ok(LocalRule {
        filter: read.filter,
        seeking,
        path,
    })
}

fn copied(alloc: Global, text: &str) -> Result<String, NoMemory>
    ensures { IfOk result (λ copy. string_bytes copy ≡ text.now) }
{
    Ok(String::from_str(alloc, text)?)
}
