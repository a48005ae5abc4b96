//! The text of a rule: its parts.
//!
//! The first character of the text is the separator, and the parts stand behind it: `/~q/name/value`. It is looked for a
//! fixed number of times, so the last part may have it. A text chooses its separator, and so no part needs an escape.
ghost use Rattle.std.specs.Prelude.{◌≡◌, ◌<◌, ◌≤◌, ◌==◌, ◌∷◌, length, map, None, Some, slice_get, IfOk, IfErr, MatchOption};
ghost use Rattle.std.specs.Str.{chars, encode_utf8_all};
ghost use Rattle.px_rule.specs.Parts.{IsCut, IsWhole, parts_in};
ghost use Rattle.px_rule.specs.Spec.{spec_parts, spec_refusal, split_up_to};

use std::marker::Model;

/// Why a text is no rule's text.
#[derive(Clone, Copy, Debug, PartialEq, Eq)]
pub enum SpecError {
    /// It is empty, so it names no separator.
    Empty,
    /// It has so many parts, and the rule needs more.
    WrongCount(usize),
}

#[derive(Clone, Copy, Debug)]
pub(crate) enum Parts<'a> {
    One(&'a str),
    Two(&'a str, &'a str),
    Three(&'a str, &'a str, &'a str),
}

/// The parts of a rule's text, in its order. They are lent from it. In a contract they are the list of their bytes.
#[derive(Debug, Drop)]
pub struct Spec<'a> {
    pub(crate) parts: Parts<'a>,
}

impl<'a> Model for Spec<'a> {
    ghost use Rattle.std.specs.Prelude.{List, ℕ};
    ghost use Rattle.px_rule.specs.Parts.{parts_in};

    ghost Value = { List (List ℕ) };

    ghost view = { λ s. parts_in s.parts };
}

impl<'a> Spec<'a> {
    /// How many parts there are.
    pub fn len(&self) -> usize
        ensures { result ≡ length self.now }
    {
        match self.parts {
            Parts::One(_) => 1,
            Parts::Two(_, _) => 2,
            Parts::Three(_, _, _) => 3,
        }
    }

    /// Whether there are none.
    pub fn is_empty(&self) -> bool
        ensures { result ≡ (length self.now == 0) }
    {
        self.len() == 0
    }

    /// The part at that index, counted from 0.
    pub fn part(&self, i: usize) -> &'a str
        requires { i < length self.now }
        ensures { slice_get self.now i ≡ Some result.now }
    {
        match self.parts {
            Parts::One(first) => first,
            Parts::Two(first, second) => [first, second][i],
            Parts::Three(first, second, third) => [first, second, third][i],
        }
    }
}

/// The parts of a rule's text, which is split at most so many times: twice for a rule with a subject and a replacement,
/// once for one with a subject alone. One part more stands in front where the rule has a filter. It takes no memory.
///
/// Refused exactly where the text is empty, or has fewer parts than `most`.
pub fn split_spec(text: &str, most: usize) -> Result<Spec<'_>, SpecError>
    requires some { 1 ≤ most }
    requires few { most ≤ 2 }
    ensures parts { IfOk result (λ spec. (spec ≡ spec_parts most text.now) × (spec_refusal most text.now ≡ None)) }
    ensures refused { IfErr result (λ error. spec_refusal most text.now ≡ Some error) }
{
    let mut rest = text.chars();
    let separator = match rest.next() {
        None => return Err(SpecError::Empty),
        Some(separator) => separator,
    };
    let spec = Spec {
        parts: split_at(separator, rest.as_str(), most),
    };
    if spec.len() < most {
        return Err(SpecError::WrongCount(spec.len()));
    }
    Ok(spec)
}

// The parts of what stands behind the separator.
fn split_at(separator: char, text: &str, most: usize) -> Parts<'_>
    requires some { 1 ≤ most }
    requires few { most ≤ 2 }
    ensures { parts_in result ≡ map encode_utf8_all (split_up_to most separator (chars text.now)) }
{
    match cut(separator, text) {
        None => Parts::One(text),
        Some((first, rest)) => {
            if most == 1 {
                Parts::Two(first, rest)
            } else {
                split_rest(separator, first, rest)
            }
        }
    }
}

// The part in front, with those of what stands behind it.
fn split_rest<'a>(separator: char, first: &'a str, rest: &'a str) -> Parts<'a>
    ensures { parts_in result ≡ first.now ∷ map encode_utf8_all (split_up_to 1 separator (chars rest.now)) }
{
    match cut(separator, rest) {
        None => Parts::Two(first, rest),
        Some((second, third)) => Parts::Three(first, second, third),
    }
}

// What stands before the first separator, and what stands behind it.
fn cut(separator: char, text: &str) -> Option<(&str, &str)>
    ensures { MatchOption result (IsWhole separator text.now) (λ p. IsCut separator text.now p.0.now p.1.now) }
{
    match text.split_once(separator) {
        None => None,
        Some((front, back)) => Some((front, back)),
    }
}
