//! Whole numbers.
ghost use Rattle.std.specs.Prelude.{◌≡◌, ◌⊎◌, Some, Ok, Err, IfOk, IfErr};
ghost use Rattle.toml.specs.View.{view};
ghost use Rattle.px_options.specs.Values.{count, from_one, from_zero, size};
ghost use Rattle.px_options.specs.declared.error.OptionsError.TheVariants as error;

use crate::OptionsError;
use crate::error::wrong_kind;
use crate::key::Key;
use std::alloc::Global;
use toml::Value;

/// The number from 1 that a value is.
pub(crate) fn read_count(alloc: Global, key: Key, value: &Value) -> Result<u64, OptionsError>
    ensures ok { IfOk result (λ n. count key (view value.now) ≡ Ok n) }
    ensures err { IfErr result (λ e. (e ≡ error.NoMemory) ⊎ (count key (view value.now) ≡ Err e)) }
{
    match from_one(value.as_integer()) {
        Some(count) => Ok(count),
        None => Err(wrong_kind(alloc, key)),
    }
}

/// The number from 0 that a value is.
pub(crate) fn read_size(alloc: Global, key: Key, value: &Value) -> Result<u64, OptionsError>
    ensures ok { IfOk result (λ n. size key (view value.now) ≡ Ok (Some n)) }
    ensures err { IfErr result (λ e. (e ≡ error.NoMemory) ⊎ (size key (view value.now) ≡ Err e)) }
{
    match from_zero(value.as_integer()) {
        Some(size) => Ok(size),
        None => Err(wrong_kind(alloc, key)),
    }
}

fn from_zero(number: Option<i64>) -> Option<u64>
    ensures { result ≡ from_zero number }
{
    match number {
        Some(number) => match u64::try_from(number) {
            Ok(size) => Some(size),
            Err(_) => None,
        },
        None => None,
    }
}

fn from_one(number: Option<i64>) -> Option<u64>
    ensures { result ≡ from_one number }
{
    match number {
        Some(number) => match u64::try_from(number) {
            Ok(0) => None,
            Ok(count) => Some(count),
            Err(_) => None,
        },
        None => None,
    }
}
