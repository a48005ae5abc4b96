//! Lists of rules.
ghost use Rattle.std.specs.Prelude.{◌≡◌, ◌⊎◌, Ok, Err, IfOk, IfErr, map, string_bytes};
ghost use Rattle.px_rule.specs.declared.cause.RuleCause.TheVariants as causes;
ghost use Rattle.toml.specs.View.{view};
ghost use Rattle.px_options.specs.Keys.{name_of};
ghost use Rattle.px_options.specs.Rules.{rules};
ghost use Rattle.px_options.specs.Refused.{IsBadRule};
ghost use Rattle.px_options.specs.declared.error.OptionsError.TheVariants as error;

use crate::OptionsError;
use crate::key::{Key, name_of};
use crate::lists::RuleList;
use crate::texts::read_texts;
use px_rule::{RuleCause, RuleError};
use px_text::Bytes;
use std::alloc::Global;
use toml::Value;

/// The rules that a value is.
pub(crate) fn read_rules<L: RuleList>(
    alloc: Global,
    key: Key,
    value: &Value,
) -> Result<L, OptionsError>
    ensures ok { IfOk result (λ list. rules L.reads key (view value.now) ≡ Ok (L.says list)) }
    ensures err { IfErr result (λ e. (e ≡ error.NoMemory) ⊎ (rules L.reads key (view value.now) ≡ Err e)) }
{
    let texts = read_texts(alloc, key, value)?;
    match L::read_all(alloc, &texts) {
        Ok(list) => Ok(list),
        Err(e) => Err(bad_rule(alloc, key, &texts, e)),
    }
}

// The refusal of a list, by the text that is no rule.
fn bad_rule(alloc: Global, key: Key, texts: &[String], refused: RuleError) -> OptionsError
    ensures full { refused.cause ≡ causes.NoMemory → result ≡ error.NoMemory }
    ensures bad { (result ≡ error.NoMemory) ⊎ IsBadRule key (map string_bytes texts.now) refused.index refused.cause result }
{
    if refused.cause == RuleCause::NoMemory {
        return OptionsError::NoMemory;
    }
    match texts.get(refused.index) {
        Some(text) => bad_text(alloc, key, refused, text.as_bytes()),
        None => OptionsError::NoMemory,
    }
}

fn bad_text(alloc: Global, key: Key, refused: RuleError, text: &[u8]) -> OptionsError
    ensures { (result ≡ error.NoMemory) ⊎ (result ≡ error.BadRule (name_of key) refused.index text.now refused.cause) }
{
    let Ok(name) = Bytes::copied(alloc, name_of(key)) else {
        return OptionsError::NoMemory;
    };
    match Bytes::copied(alloc, text) {
        Ok(text) => OptionsError::BadRule {
            name,
            index: refused.index,
            text,
            cause: refused.cause,
        },
        Err(_) => OptionsError::NoMemory,
    }
}
