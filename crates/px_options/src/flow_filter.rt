//! Filters.
ghost use Rattle.std.specs.Prelude.{◌≡◌, ◌⊎◌, Ok, Err, IfOk, IfErr, Some};
ghost use Rattle.px_filter.specs.Parsing.{parse};
ghost use Rattle.px_filter.specs.View.{expression};
ghost use Rattle.px_filter.specs.declared.filter.FilterError.TheVariants as causes;
ghost use Rattle.toml.specs.View.{view};
ghost use Rattle.px_options.specs.Keys.{name_of};
ghost use Rattle.px_options.specs.Save.{flow_filter, or_bad_filter};
ghost use Rattle.px_options.specs.declared.error.OptionsError.TheVariants as error;

use crate::OptionsError;
use crate::error::wrong_kind;
use crate::key::{Key, name_of};
use px_filter::{Filter, FilterError};
use px_text::{Bytes, NoMemory};
use std::alloc::Global;
use toml::Value;

/// The filter that a value is.
pub(crate) fn read_filter(alloc: Global, key: Key, value: &Value) -> Result<Filter, OptionsError>
    ensures ok { IfOk result (λ f. flow_filter key (view value.now) ≡ Ok (Some (expression f))) }
    ensures err { IfErr result (λ e. (e ≡ error.NoMemory) ⊎ (flow_filter key (view value.now) ≡ Err e)) }
{
    match value.as_str() {
        Some(text) => filter_of(alloc, key, text),
        None => Err(wrong_kind(alloc, key)),
    }
}

// The filter that a text is.
fn filter_of(alloc: Global, key: Key, text: &str) -> Result<Filter, OptionsError>
    ensures ok { IfOk result (λ f. or_bad_filter key text.now (parse text.now) ≡ Ok (Some (expression f))) }
    ensures err { IfErr result (λ e. (e ≡ error.NoMemory) ⊎ (or_bad_filter key text.now (parse text.now) ≡ Err e)) }
{
    match Filter::parse(alloc, text) {
        Ok(filter) => Ok(filter),
        Err(FilterError::NoMemory) => Err(OptionsError::NoMemory),
        Err(cause) => Err(bad_filter(alloc, key, text.as_bytes(), cause)),
    }
}

// That a text is no filter.
fn bad_filter(alloc: Global, key: Key, text: &[u8], cause: FilterError) -> OptionsError
    ensures { (result ≡ error.NoMemory) ⊎ (result ≡ error.BadFilter (name_of key) text.now cause) }
{
    let Ok(name) = Bytes::copied(alloc, name_of(key)) else {
        return OptionsError::NoMemory;
    };
    match Bytes::copied(alloc, text) {
        Ok(text) => OptionsError::BadFilter { name, text, cause },
        Err(NoMemory) => OptionsError::NoMemory,
    }
}
