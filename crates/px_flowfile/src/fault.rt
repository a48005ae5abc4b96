//! Where a file has no entry, and why.
use crate::FlowFileError;
use px_tnet::TnetError;

/// Why there is no entry at a place of a file.
#[derive(Debug, PartialEq, Eq, Clone, Copy)]
pub enum ReadCause {
    /// No tree stands there.
    Tnet(TnetError),
    /// A tree stands there that is no flow.
    Flow(FlowFileError),
}

/// Where a file has no entry, and why.
#[derive(Debug, PartialEq, Eq, Clone, Copy)]
pub struct ReadFault {
    /// How many bytes stand in front of the place.
    pub offset: usize,
    pub cause: ReadCause,
}
