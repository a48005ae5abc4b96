//! Why bytes are no options file.
ghost use Rattle.std.specs.Prelude.{◌≡◌, ◌⊎◌};
ghost use Rattle.px_options.specs.Keys.{name_of};
ghost use Rattle.px_options.specs.declared.error.OptionsError.TheVariants as error;

use crate::key::{Key, name_of};
use px_filter::FilterError;
use px_rule::RuleCause;
use px_text::{Bytes, NoMemory};
use std::alloc::{AllocError, AllocFailed, Global};

/// Why bytes are no options file. After `BadToml` the first bad key in rising order of bytes decides.
#[derive(Debug, Drop)]
pub enum OptionsError {
    /// The bytes are no UTF-8, or no TOML.
    BadToml,
    /// No option has this name.
    UnknownOption(Bytes),
    /// The option of this name has a value of another kind, a number out of its range, a text that is no address, an empty text for a
    /// path, or a text that is none of those that it takes.
    WrongKind(Bytes),
    /// The mode is a text that is no mode.
    BadMode,
    /// A text in the list of the option `name` is no rule: the first of them, where it stands in the list, from 0, and why.
    BadRule {
        name: Bytes,
        index: usize,
        text: Bytes,
        cause: RuleCause,
    },
    /// The text of the option `name` is no filter: all of the text, and why.
    BadFilter {
        name: Bytes,
        text: Bytes,
        cause: FilterError,
    },
    /// No memory, or a pattern that takes more than `regex` may build; it says nothing of the bytes.
    NoMemory,
}

impl From<NoMemory> for OptionsError {
    ghost use Rattle.std.specs.Prelude.{◌≡◌};
    ghost use Rattle.px_options.specs.declared.error.OptionsError.TheVariants as error;

    ghost from_gives = { λ _ e. e ≡ error.NoMemory };

    fn from(_: NoMemory) -> OptionsError {
        OptionsError::NoMemory
    }
}

impl From<AllocError> for OptionsError {
    ghost use Rattle.std.specs.Prelude.{◌≡◌};
    ghost use Rattle.px_options.specs.declared.error.OptionsError.TheVariants as error;

    ghost from_gives = { λ _ e. e ≡ error.NoMemory };

    fn from(_: AllocError) -> OptionsError {
        OptionsError::NoMemory
    }
}

impl<T: Drop> From<AllocFailed<T>> for OptionsError {
    ghost use Rattle.std.specs.Prelude.{◌≡◌};
    ghost use Rattle.px_options.specs.declared.error.OptionsError.TheVariants as error;

    ghost from_gives = { λ _ e. e ≡ error.NoMemory };

    fn from(_: AllocFailed<T>) -> OptionsError {
        OptionsError::NoMemory
    }
}

/// That the key has a value of another kind.
pub(crate) fn wrong_kind(alloc: Global, key: Key) -> OptionsError
    ensures { (result ≡ error.NoMemory) ⊎ (result ≡ error.WrongKind (name_of key)) }
{
    match Bytes::copied(alloc, name_of(key)) {
        Ok(name) => OptionsError::WrongKind(name),
        Err(NoMemory) => OptionsError::NoMemory,
    }
}

/// That no option has this name.
pub(crate) fn unknown_option(alloc: Global, name: &[u8]) -> OptionsError
    ensures { (result ≡ error.NoMemory) ⊎ (result ≡ error.UnknownOption name.now) }
{
    match Bytes::copied(alloc, name) {
        Ok(name) => OptionsError::UnknownOption(name),
        Err(NoMemory) => OptionsError::NoMemory,
    }
}
