//! What an answer can fail with.
ghost use Rattle.std.specs.Prelude.{◌≡◌};

use px_text::NoMemory;

/// Why an answer was not taken.
#[derive(Clone, Copy, Debug, PartialEq, Eq)]
pub enum GateError {
    /// Another ask, or none, is awaited. Nothing has changed.
    NotAwaited,
    /// Memory ran out; the gate may only be dropped.
    NoMemory,
}

impl From<NoMemory> for GateError {
    ghost use Rattle.px_gate.specs.declared.error.GateError.{GateError};

    ghost from_gives = { λ _ error. error ≡ GateError.NoMemory };

    fn from(_: NoMemory) -> GateError {
        GateError::NoMemory
    }
}
