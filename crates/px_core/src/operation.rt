//! What an operator does to flows and addons while they are live.

use px_draft::Edit;
use px_message::FlowId;
use px_text::{Bytes, NoMemory};

/// What an operator asks for.
#[derive(Debug, Drop, PartialEq, Eq)]
pub enum Operation {
    /// The flow, which waits, goes on.
    Resume(FlowId),
    /// The flow, which waits, ends.
    Kill(FlowId),
    /// The draft with which the flow waits is changed.
    Edit(FlowId, Edit),
    /// The flow gets its mark.
    Mark(FlowId),
    /// The first addon of this name is taken away.
    DropAddon(Bytes),
}

/// Why an operation was not done.
#[derive(Debug, Clone, Copy, PartialEq, Eq)]
pub enum OperateError {
    /// No hook of the flow was asked, or it is finished.
    NoSuchFlow,
    /// The flow is live, and no hook of it waits.
    NotWaiting,
    /// The hook of the flow that waits is about something else, or nothing stands that `more` goes on with.
    NotThere,
    /// A word of the change is none of its kind.
    BadValue,
    /// No addon has the name.
    NoSuchAddon,
    /// Memory ran out.
    NoMemory,
}

impl From<NoMemory> for OperateError {
    fn from(_: NoMemory) -> OperateError {
        OperateError::NoMemory
    }
}
