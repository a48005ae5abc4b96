//! Lists of texts.
ghost use Rattle.std.specs.Prelude.{◌≡◌, ◌⊎◌, None, Some, IfOk, IfErr, OnOk, map, string_bytes};
ghost use Rattle.toml.specs.Data.{as_array, as_str};
ghost use Rattle.toml.specs.View.{items_view, view};
ghost use Rattle.px_options.specs.Keys.{name_of};
ghost use Rattle.px_options.specs.Refused.{IsTextMore};
ghost use Rattle.px_options.specs.Rules.{texts_in, texts_of};
ghost use Rattle.px_options.specs.declared.error.OptionsError.TheVariants as error;

use crate::OptionsError;
use crate::error::wrong_kind;
use crate::key::Key;
use std::alloc::Global;
use toml::Value;

/// The texts that a value is.
pub(crate) fn read_texts(
    alloc: Global,
    key: Key,
    value: &Value,
) -> Result<Vec<String>, OptionsError>
    ensures ok { IfOk result (λ texts. texts_of (as_array (view value.now)) ≡ Some (map string_bytes texts.items)) }
    ensures err { IfErr result (λ e. (e ≡ error.NoMemory) ⊎ ((e ≡ error.WrongKind (name_of key)) × (texts_of (as_array (view value.now)) ≡ None))) }
{
    match value.as_array() {
        Some(values) => copy_texts(alloc, key, values),
        None => Err(wrong_kind(alloc, key)),
    }
}

// Copies of the texts that the values are.
fn copy_texts(alloc: Global, key: Key, values: &[Value]) -> Result<Vec<String>, OptionsError>
    ensures ok { IfOk result (λ texts. texts_in (items_view values.now) ≡ Some (map string_bytes texts.items)) }
    ensures err { IfErr result (λ e. (e ≡ error.NoMemory) ⊎ ((e ≡ error.WrongKind (name_of key)) × (texts_in (items_view values.now) ≡ None))) }
{
    let mut texts = Vec::new(alloc);
    for value in values {
        match push_text(alloc, key, value, &mut texts) {
            Ok(()) => {}
            Err(e) => return Err(e),
        }
    }
    Ok(texts)
}

// Adds the text that the value is.
fn push_text(
    alloc: Global,
    key: Key,
    value: &Value,
    texts: &mut Vec<String>,
) -> Result<(), OptionsError>
    ensures ok { OnOk result (IsTextMore (view value.now) (map string_bytes texts.old.items) (map string_bytes texts.new.items)) }
    ensures err { IfErr result (λ e. (e ≡ error.NoMemory) ⊎ ((e ≡ error.WrongKind (name_of key)) × (as_str (view value.now) ≡ None))) }
{
    match value.as_str() {
        Some(text) => {
            texts.push(String::from_str(alloc, text)?)?;
            Ok(())
        }
        None => Err(wrong_kind(alloc, key)),
    }
}
