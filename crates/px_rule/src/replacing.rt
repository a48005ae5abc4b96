//! A pattern with the template that is put in the place of its matches, in the words of `regex`.
//!
//! The case of letters counts, and the dot matches a line feed. In a template `$1` and `$name` are what a group of the
//! pattern matched, and `$$` is a dollar sign.
ghost use Rattle.std.specs.Prelude.{◌≡◌, true, false, IfOk, IfErr};
ghost use Rattle.regex.specs.Views.{builder_config, builder_source};
ghost use Rattle.px_rule.specs.Pattern.{is_pattern, replaced_all, rule_config};
ghost use Rattle.px_rule.specs.Refused.{IsNoReplacing};

use px_text::{Bytes, NoMemory};
use regex::RegexBuilder;
use regex::bytes::{Regex, Template};
use std::alloc::Global;
use std::marker::Model;

/// A pattern with a template. In a contract it is the two texts.
#[derive(Debug, Drop)]
pub struct Replacing {
    alloc: Global,
    pattern: Regex,
    template: Bytes,
}

/// Why two texts are no pattern with a template.
#[derive(Clone, Copy, Debug, PartialEq, Eq)]
pub enum ReplacingError {
    /// The first is no pattern, or nests deeper than 250.
    Pattern,
    /// No memory, or a pattern that takes more than `regex` may build.
    NoMemory,
}

impl Model for Replacing {
    ghost use Rattle.std.specs.Prelude.{◌≡◌, List, ℕ};
    ghost use Rattle.regex.specs.Bytes.{IsReadFromSource, regex_config, regex_source};
    ghost use Rattle.px_rule.specs.Pattern.{rule_config};

    ghost Value = { List ℕ × List ℕ };

    ghost view = { λ r. (regex_source r.pattern, r.template) };

    ghost invariant = { λ r. (regex_config r.pattern ≡ rule_config) × IsReadFromSource r.pattern };
}

impl Replacing {
    /// The pattern and the template of these texts. Refused exactly where the first is no pattern; any text is a template.
    pub fn new(alloc: Global, pattern: &str, template: &str) -> Result<Replacing, ReplacingError>
        ensures texts { IfOk result (λ made. (made ≡ (pattern.now, template.now)) × (is_pattern pattern.now ≡ true)) }
        ensures refused { IfErr result (IsNoReplacing pattern.now) }
    {
        let template = match Bytes::copied(alloc, template.as_bytes()) {
            Ok(template) => template,
            Err(NoMemory) => return Err(ReplacingError::NoMemory),
        };
        match builder(pattern).build_bytes(alloc) {
            Ok(pattern) => Ok(Replacing {
                alloc,
                pattern,
                template,
            }),
            Err(regex::Error::Syntax(_)) => Err(ReplacingError::Pattern),
            Err(_) => Err(ReplacingError::NoMemory),
        }
    }

    /// The bytes with all matches of the pattern replaced by what the template writes there.
    pub fn replace_all(&self, bytes: &[u8]) -> Result<Vec<u8>, NoMemory>
        ensures { IfOk result (λ out. out.items ≡ replaced_all self.now.0 self.now.1 bytes.now) }
    {
        let names = self.pattern.capture_names();
        let template = Template::new(self.alloc, names, self.template.as_slice())?;
        let mut matcher = self.pattern.matcher(self.alloc)?;
        Ok(matcher.replace_all(self.alloc, bytes, &template)?)
    }
}

// What builds the patterns of rules.
fn builder(pattern: &str) -> RegexBuilder<'_>
    ensures source { builder_source result ≡ pattern.now }
    ensures config { (record (builder_config result) { utf8 = false }) ≡ rule_config }
{
    RegexBuilder::new(pattern).dot_matches_new_line(true)
}
