//! The forms of a flow's dictionary.

/// The form of a flow's dictionary, which its key `version` tells.
#[derive(Clone, Copy, Debug)]
pub(crate) enum Form {
    /// Version 1, which tells of a WebSocket only that it was one.
    First,
    /// Version 2, which tells its messages too, and is what is written.
    Second,
}
