//! Patterns: the words of `regex`, over bytes.
ghost use Rattle.std.specs.Prelude.{◌≡◌, ◌⊎◌, false, true, IfOk, IfErr};
ghost use Rattle.px_filter.specs.Pattern as specs;
ghost use Rattle.regex.specs.Views.{builder_config, builder_source};
ghost use Rattle.px_filter.specs.declared.pattern.BadPattern.TheVariants as bad;

use px_text::NoMemory;
use regex::bytes::{Matcher, Regex};
use regex::{Error, RegexBuilder};
use std::alloc::Global;
use std::marker::Model;
use std::str;

/// A pattern, by its word. A search ignores the case of letters, and the dot matches a line feed.
#[derive(Debug, Drop)]
pub struct Pattern {
    regex: Regex,
}

/// Why a word was not built.
#[derive(Debug, Clone, Copy, PartialEq, Eq)]
pub enum BadPattern {
    /// It is no pattern to `regex`, or nests too deep.
    NoPattern,
    /// Memory ran out, or the pattern takes more than `regex` may build.
    NoMemory,
}

impl Model for Pattern {
    ghost use Rattle.std.specs.Prelude.{◌≡◌, List, ℕ, true};
    ghost use Rattle.regex.specs.Bytes.{IsReadFromSource, regex_config, regex_source};
    ghost use Rattle.px_filter.specs.Pattern.{filter_config};
    ghost use Rattle.std.specs.Str.{is_utf8};

    ghost Value = { List ℕ };

    ghost view = { λ p. regex_source p.regex };

    ghost invariant = { λ p. (regex_config p.regex ≡ filter_config) × IsReadFromSource p.regex
        × (is_utf8 (regex_source p.regex) ≡ true) };
}

impl Pattern {
    /// The pattern of this word.
    pub fn new(alloc: Global, word: &[u8]) -> Result<Pattern, BadPattern>
        ensures ok { IfOk result (λ pattern. (pattern ≡ word.now) × (specs.is_pattern word.now ≡ true)) }
        ensures err { IfErr result (λ e. (e ≡ bad.NoMemory) ⊎ ((e ≡ bad.NoPattern) × (specs.is_pattern word.now ≡ false))) }
    {
        let Ok(text) = str::from_utf8(word) else {
            return Err(BadPattern::NoPattern);
        };
        match builder(text).build_bytes(alloc) {
            Ok(regex) => Ok(Pattern { regex }),
            Err(Error::Syntax(_)) => Err(BadPattern::NoPattern),
            Err(_) => Err(BadPattern::NoMemory),
        }
    }

    /// What looks for it.
    pub fn seeker(&self, alloc: Global) -> Result<Seeker<'_>, NoMemory>
        ensures { IfOk result (λ seeker. seeker ≡ self.now) }
    {
        Ok(Seeker {
            word: self.regex.as_str(),
            matcher: self.regex.matcher(alloc)?,
        })
    }
}

fn builder(word: &str) -> RegexBuilder<'_>
    ensures source { builder_source result ≡ word.now }
    ensures config { (record (builder_config result) { utf8 = false }) ≡ specs.filter_config }
{
    RegexBuilder::new(word)
        .case_insensitive(true)
        .dot_matches_new_line(true)
}

/// A pattern that is looked for, by its word.
#[derive(Drop)]
pub struct Seeker<'p> {
    word: &'p str,
    matcher: Matcher<'p>,
}

impl<'p> Model for Seeker<'p> {
    ghost use Rattle.std.specs.Prelude.{◌≡◌, List, ℕ};
    ghost use Rattle.regex.specs.Bytes.{matcher_pattern};
    ghost use Rattle.px_filter.specs.Pattern.{Seeks};

    ghost Value = { List ℕ };

    ghost view = { λ s. s.word.now };

    ghost invariant = { λ s. Seeks (matcher_pattern s.matcher) s.word.now };
}

impl<'p> Seeker<'p> {
    /// Whether the pattern is found in the text.
    pub fn found(&mut self, text: &[u8]) -> bool
        ensures value { result ≡ specs.found self.old text.now }
        ensures same { self.new ≡ self.old }
    {
        self.matcher.is_match(text)
    }
}
