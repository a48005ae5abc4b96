//! A pattern that is looked for in a URL, in the words of `regex`, with what stands behind its first match.
//!
//! The case of letters counts, and the dot matches a line feed.
ghost use Rattle.std.specs.Prelude.{◌≡◌, ◌⊎◌, true, false, option_map, IfOk, IfErr};
ghost use Rattle.regex.specs.Views.{builder_config, builder_source};
ghost use Rattle.px_rule.specs.Pattern.{is_pattern, rule_config};
ghost use Rattle.px_rule.specs.declared.cause.RuleCause.TheVariants as causes;
ghost use Rattle.px_map.specs.Found.{after_match};

use px_rule::RuleCause;
use px_text::NoMemory;
use regex::RegexBuilder;
use regex::bytes::Regex;
use std::alloc::Global;
use std::marker::Model;

/// A pattern that is looked for. In a contract it is its text.
#[derive(Debug, Drop)]
pub(crate) struct Seeking {
    alloc: Global,
    pattern: Regex,
}

impl Model for Seeking {
    ghost use Rattle.std.specs.Prelude.{◌≡◌, List, ℕ};
    ghost use Rattle.regex.specs.Bytes.{IsReadFromSource, regex_config, regex_source};
    ghost use Rattle.px_rule.specs.Pattern.{rule_config};

    ghost Value = { List ℕ };

    ghost view = { λ s. regex_source s.pattern };

    ghost invariant = { λ s. (regex_config s.pattern ≡ rule_config) × IsReadFromSource s.pattern };
}

impl Seeking {
    /// The pattern of this text.
    pub(crate) fn new(alloc: Global, pattern: &str) -> Result<Seeking, RuleCause>
        ensures ok { IfOk result (λ made. (made ≡ pattern.now) × (is_pattern pattern.now ≡ true)) }
        ensures err { IfErr result (λ cause. (cause ≡ causes.NoMemory) ⊎ ((cause ≡ causes.Pattern) × (is_pattern pattern.now ≡ false))) }
    {
        match builder(pattern).build_bytes(alloc) {
            Ok(pattern) => Ok(Seeking { alloc, pattern }),
            Err(regex::Error::Syntax(_)) => Err(RuleCause::Pattern),
            Err(_) => Err(RuleCause::NoMemory),
        }
    }

    /// What stands behind the first match in the text; none where there is no match.
    pub(crate) fn after<'t>(&self, text: &'t [u8]) -> Result<Option<&'t [u8]>, NoMemory>
        ensures { IfOk result (λ behind. option_map (λ b. b.now) behind ≡ after_match self.now text.now) }
    {
        let mut matcher = self.pattern.matcher(self.alloc)?;
        match matcher.find(text) {
            None => Ok(None),
            Some(found) => Ok(Some(&text[found.end()..])),
        }
    }
}

// What builds the patterns of rules.
fn builder(pattern: &str) -> RegexBuilder<'_>
    ensures source { builder_source result ≡ pattern.now }
    ensures config { (record (builder_config result) { utf8 = false }) ≡ rule_config }
{
    RegexBuilder::new(pattern).dot_matches_new_line(true)
}
