//! Why a change is not made.
ghost use Rattle.std.specs.Prelude.{◌≡◌};
ghost use Rattle.px_draft.specs.declared.error.EditError.TheVariants as error;

use px_text::NoMemory;

/// Why a change is not made. The draft is as before then.
#[derive(Clone, Copy, Debug, PartialEq, Eq)]
pub enum EditError {
    /// The hook is about something else, or nothing stands that `more` goes on with.
    NotThere,
    /// A word is no method, no URL, no status, no name, or no base64 of what may stand there.
    BadValue,
    /// Memory ran out; it says nothing of the change.
    NoMemory,
}

impl From<NoMemory> for EditError {
    ghost from_gives = { λ _ y. y ≡ error.NoMemory };

    fn from(_value: NoMemory) -> EditError {
        EditError::NoMemory
    }
}
