//! Why a text is no tree, and why a tree has no text.
use px_text::NoMemory;
use std::alloc::{AllocError, AllocFailed};

/// Why a text begins with no tree, in the order in which each item is judged. Inside a list or a dictionary an item that
/// is cut is a bad payload.
#[derive(Debug, PartialEq, Eq, Clone, Copy)]
pub enum TnetError {
    /// The text ends before the item does, and nothing else is wrong so far.
    Cut,
    /// No digit, a leading zero, a tenth digit, or another byte than a colon behind the digits.
    BadLength,
    /// The byte behind the payload tells no kind.
    BadTag,
    /// A list or a dictionary inside 64 others.
    TooDeep,
    /// The payload is not of its kind, or its items do not end with it.
    BadPayload,
    /// Two keys of a dictionary have equal bytes.
    DuplicateKey,
    /// No memory.
    NoMemory,
}

impl From<NoMemory> for TnetError {
    ghost use Rattle.std.specs.Prelude.{◌≡◌};
    ghost use Rattle.px_tnet.specs.declared.error.TnetError.TheVariants as error;

    ghost from_gives = { λ _ e. e ≡ error.NoMemory };

    fn from(_: NoMemory) -> TnetError {
        TnetError::NoMemory
    }
}

impl From<AllocError> for TnetError {
    ghost use Rattle.std.specs.Prelude.{◌≡◌};
    ghost use Rattle.px_tnet.specs.declared.error.TnetError.TheVariants as error;

    ghost from_gives = { λ _ e. e ≡ error.NoMemory };

    fn from(_: AllocError) -> TnetError {
        TnetError::NoMemory
    }
}

/// Why a tree has no text.
#[derive(Debug, PartialEq, Eq, Clone, Copy)]
pub enum WriteError {
    /// A payload has 1,000,000,000 bytes or more.
    TooLong,
    /// No memory.
    NoMemory,
}

impl From<AllocError> for WriteError {
    ghost use Rattle.std.specs.Prelude.{◌≡◌};
    ghost use Rattle.px_tnet.specs.declared.error.WriteError.TheVariants as error;

    ghost from_gives = { λ _ e. e ≡ error.NoMemory };

    fn from(_: AllocError) -> WriteError {
        WriteError::NoMemory
    }
}

impl<T: Drop> From<AllocFailed<T>> for TnetError {
    ghost use Rattle.std.specs.Prelude.{◌≡◌};
    ghost use Rattle.px_tnet.specs.declared.error.TnetError.TheVariants as error;

    ghost from_gives = { λ _ e. e ≡ error.NoMemory };

    fn from(_: AllocFailed<T>) -> TnetError {
        TnetError::NoMemory
    }
}

impl<T: Drop> From<AllocFailed<T>> for WriteError {
    ghost use Rattle.std.specs.Prelude.{◌≡◌};
    ghost use Rattle.px_tnet.specs.declared.error.WriteError.TheVariants as error;

    ghost from_gives = { λ _ e. e ≡ error.NoMemory };

    fn from(_: AllocFailed<T>) -> WriteError {
        WriteError::NoMemory
    }
}
