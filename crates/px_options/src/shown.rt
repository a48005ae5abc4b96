//! What a person is shown of a refusal.
ghost use Rattle.std.specs.Prelude.{◌≡◌, ◌<◌, ◌≤◌, ◌++◌, ◌∷◌, [], length, take, codes, decimal, OnOk, OnErr};
ghost use Rattle.px_filter.specs.Shown.{shown};
ghost use Rattle.px_rule.specs.declared.cause.RuleCause.TheVariants as causes;
ghost use Rattle.px_options.specs.Parts.{capped};
ghost use Rattle.px_options.specs.Shown.{behind_parts, filter_note, part_place, refusal_line, refusal_note, refusal_place, rule_note, separator_length};

use crate::OptionsError;
use px_filter::{FilterError, show_refusal};
use px_rule::{RuleCause, Spec, SpecError, split_spec};
use px_text::{Bytes, NoMemory, push_decimal};
use std::str;

/// Appends the line that names what is refused: `bad options: toml` for `BadToml`, `bad options: mode` for `BadMode`,
/// `bad option NAME` for `UnknownOption` and `WrongKind`, `bad rule NAME INDEX` for `BadRule`, and `bad rule NAME 0` for `BadFilter`, with
/// a line feed behind it. When out of memory nothing is appended. After `NoMemory` nothing was appended.
pub fn refusal_line(error: &OptionsError, out: &mut Vec<u8>) -> Result<(), NoMemory>
    ensures ok { OnOk result (out.new.items ≡ out.old.items ++ refusal_line error.now) }
    ensures err { OnErr result (out.new.items ≡ out.old.items) }
{
    let mut line = Vec::new(*out.allocator());
    push_line(error, &mut line)?;
    out.extend_from_slice(&line)?;
    Ok(())
}

#[tactic(auto, unfolding(crate::specs::Shown::refusal_line))]
fn push_line(error: &OptionsError, line: &mut Vec<u8>) -> Result<(), NoMemory>
    ensures { OnOk result (line.new.items ≡ line.old.items ++ refusal_line error.now) }
{
    match error {
        OptionsError::BadToml => line.extend_from_slice(b"bad options: toml\n")?,
        OptionsError::BadMode => line.extend_from_slice(b"bad options: mode\n")?,
        OptionsError::UnknownOption(name) => push_option(name, line)?,
        OptionsError::WrongKind(name) => push_option(name, line)?,
        OptionsError::BadRule { name, index, .. } => push_rule(name, *index, line)?,
        OptionsError::BadFilter { name, .. } => push_rule(name, 0, line)?,
        OptionsError::NoMemory => {}
    }
    Ok(())
}

fn push_option(name: &Bytes, line: &mut Vec<u8>) -> Result<(), NoMemory>
    ensures { OnOk result (line.new.items ≡ line.old.items ++ (codes "bad option " ++ (name.now ++ 10 ∷ []))) }
{
    line.extend_from_slice(b"bad option ")?;
    line.extend_from_slice(name.as_slice())?;
    line.push(b'\n')?;
    Ok(())
}

fn push_rule(name: &Bytes, index: usize, line: &mut Vec<u8>) -> Result<(), NoMemory>
    ensures { OnOk result (line.new.items ≡ line.old.items ++ (codes "bad rule " ++ (name.now ++ 32 ∷ (decimal index ++ 10 ∷ [])))) }
{
    line.extend_from_slice(b"bad rule ")?;
    line.extend_from_slice(name.as_slice())?;
    line.push(b' ')?;
    push_decimal(line, index as u64)?;
    line.push(b'\n')?;
    Ok(())
}

/// Appends what is shown of a `BadRule` below its line: two lines, the rule's text and a `^` under the place that is meant, as
/// px_filter shows a filter's refusal. The place is that of the part which is refused, in a filter that of the filter's own refusal,
/// and the text's end where a part is missing. Of a `BadFilter` the filter's text and its mark are appended. For all else nothing is
/// appended. After `NoMemory` nothing was appended.
#[tactic(auto, unfolding(crate::specs::Shown::refusal_note))]
pub fn refusal_note(error: &OptionsError, out: &mut Vec<u8>) -> Result<(), NoMemory>
    ensures ok { OnOk result (out.new.items ≡ out.old.items ++ refusal_note error.now) }
    ensures err { OnErr result (out.new.items ≡ out.old.items) }
{
    match error {
        OptionsError::BadRule { text, cause, .. } => push_note(text.as_slice(), *cause, out),
        OptionsError::BadFilter { text, cause, .. } => push_filter(text.as_slice(), cause, out),
        OptionsError::BadToml | OptionsError::BadMode | OptionsError::NoMemory => Ok(()),
        OptionsError::UnknownOption(_) | OptionsError::WrongKind(_) => Ok(()),
    }
}

fn push_note(text: &[u8], cause: RuleCause, out: &mut Vec<u8>) -> Result<(), NoMemory>
    ensures ok { OnOk result (out.new.items ≡ out.old.items ++ rule_note text.now cause) }
    ensures err { OnErr result (out.new.items ≡ out.old.items) }
{
    match str::from_utf8(text) {
        Ok(text) => push_marked(text, cause, out),
        Err(_) => Ok(()),
    }
}

fn push_filter(text: &[u8], cause: &FilterError, out: &mut Vec<u8>) -> Result<(), NoMemory>
    ensures ok { OnOk result (out.new.items ≡ out.old.items ++ filter_note text.now cause.now) }
    ensures err { OnErr result (out.new.items ≡ out.old.items) }
{
    match str::from_utf8(text) {
        Ok(text) => show_refusal(text, cause, out),
        Err(_) => Ok(()),
    }
}

fn push_marked(text: &str, cause: RuleCause, out: &mut Vec<u8>) -> Result<(), NoMemory>
    ensures ok { OnOk result (out.new.items ≡ out.old.items ++ shown text.now (refusal_place text.now cause)) }
    ensures err { OnErr result (out.new.items ≡ out.old.items) }
{
    // Of a filter's refusal the place alone is shown, so any that has it will do.
    let marked = FilterError::Unknown(refusal_place(text, cause));
    show_refusal(text, &marked, out)
}

// The place that the refusal of a rule's text means.
fn refusal_place(text: &str, cause: RuleCause) -> usize
    ensures { result ≡ capped (refusal_place text.now cause) }
{
    match cause {
        RuleCause::Spec(error) => missing_place(text, error),
        RuleCause::Filter(error) => separator_length(text).saturating_add(error.place()),
        RuleCause::Pattern => part_place(text, 2, 1),
        RuleCause::Name => part_place(text, 2, 1),
        RuleCause::Value => part_place(text, 2, 0),
        RuleCause::Status => part_place(text, 1, 0),
        RuleCause::NoMemory => 0,
    }
}

// The place where parts are missing.
fn missing_place(text: &str, error: SpecError) -> usize
    ensures { result ≡ refusal_place text.now (causes.Spec error) }
{
    match error {
        SpecError::Empty => 0,
        SpecError::WrongCount(_) => text.len(),
    }
}

// Where the part begins that so many follow.
fn part_place(text: &str, most: usize, following: usize) -> usize
    requires some { 1 ≤ most }
    requires few { most ≤ 2 }
    requires last { following < most }
    ensures { result ≡ capped (part_place most following text.now) }
{
    let separator = separator_length(text);
    match split_spec(text, most) {
        Ok(spec) => behind_parts(separator, &spec, spec.len().saturating_sub(following + 1)),
        Err(_) => separator,
    }
}

// Where the part begins in front of which so many stand.
fn behind_parts(separator: usize, spec: &Spec, count: usize) -> usize
    requires { count ≤ length spec.now }
    ensures { result ≡ capped (behind_parts separator (take count spec.now)) }
{
    let mut place = separator;
    for i in 0..count {
        place = place
            .saturating_add(spec.part(i).len())
            .saturating_add(separator);
    }
    place
}

// How many bytes the first character has.
fn separator_length(text: &str) -> usize
    ensures { result ≡ separator_length text.now }
{
    match text.chars().next() {
        Some(separator) => separator.len_utf8(),
        None => 0,
    }
}
