//! Truth values.
ghost use Rattle.std.specs.Prelude.{◌≡◌, ◌⊎◌, Ok, Err, IfOk, IfErr};
ghost use Rattle.toml.specs.View.{view};
ghost use Rattle.px_options.specs.Values.{truth};
ghost use Rattle.px_options.specs.declared.error.OptionsError.TheVariants as error;

use crate::OptionsError;
use crate::error::wrong_kind;
use crate::key::Key;
use std::alloc::Global;
use toml::Value;

/// The truth value that a value is.
pub(crate) fn read_truth(alloc: Global, key: Key, value: &Value) -> Result<bool, OptionsError>
    ensures ok { IfOk result (λ b. truth key (view value.now) ≡ Ok b) }
    ensures err { IfErr result (λ e. (e ≡ error.NoMemory) ⊎ (truth key (view value.now) ≡ Err e)) }
{
    match value.as_bool() {
        Some(value) => Ok(value),
        None => Err(wrong_kind(alloc, key)),
    }
}
