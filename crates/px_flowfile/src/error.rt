//! Why a tree is loaded as no flow.
use crate::Key;
use px_text::NoMemory;
use std::alloc::{AllocError, AllocFailed};

/// Why a tree is loaded as no flow. Of several causes the first in the order of the keys' tables is told, and within a key
/// that it is missing, its kind, and what it holds.
#[derive(Debug, PartialEq, Eq, Clone, Copy)]
pub enum FlowFileError {
    /// The key is missing.
    MissingKey(Key),
    /// What stands under the key is of another kind than its table says, or a list of another number of items; `Key::Flow` is
    /// the whole tree.
    WrongKind(Key),
    /// What stands under the key is of its kind, and is a value that no message or flow has.
    BadMessage(Key),
    /// The dictionary has another form than 1 and 2.
    OtherVersion(i64),
    /// No memory.
    NoMemory,
}

impl From<NoMemory> for FlowFileError {
    ghost use Rattle.std.specs.Prelude.{◌≡◌};
    ghost use Rattle.px_flowfile.specs.declared.error.FlowFileError.TheVariants as error;

    ghost from_gives = { λ _ e. e ≡ error.NoMemory };

    fn from(_: NoMemory) -> FlowFileError {
        FlowFileError::NoMemory
    }
}

impl From<AllocError> for FlowFileError {
    ghost use Rattle.std.specs.Prelude.{◌≡◌};
    ghost use Rattle.px_flowfile.specs.declared.error.FlowFileError.TheVariants as error;

    ghost from_gives = { λ _ e. e ≡ error.NoMemory };

    fn from(_: AllocError) -> FlowFileError {
        FlowFileError::NoMemory
    }
}

impl<T: Drop> From<AllocFailed<T>> for FlowFileError {
    ghost use Rattle.std.specs.Prelude.{◌≡◌};
    ghost use Rattle.px_flowfile.specs.declared.error.FlowFileError.TheVariants as error;

    ghost from_gives = { λ _ e. e ≡ error.NoMemory };

    fn from(_: AllocFailed<T>) -> FlowFileError {
        FlowFileError::NoMemory
    }
}
