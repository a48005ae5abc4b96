//! What becomes of an operator's connection.

/// What becomes of an operator's connection behind its lines.
#[derive(Clone, Copy, Debug, PartialEq, Eq)]
pub enum Outcome {
    /// It goes on.
    GoesOn,
    /// It was closed, since a line was too long.
    Leaves,
    /// The run ends.
    Quits,
}
