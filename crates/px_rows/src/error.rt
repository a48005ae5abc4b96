//! Why rows are not read.
use px_text::NoMemory;
use std::alloc::{AllocError, AllocFailed};

/// Why a text is none of a row.
#[derive(Clone, Copy)]
pub enum RowError {
    /// It has no form of a row.
    Bad,
    /// Memory ran out.
    NoMemory,
}

impl From<NoMemory> for RowError {
    fn from(_: NoMemory) -> RowError {
        RowError::NoMemory
    }
}

impl From<AllocError> for RowError {
    fn from(_: AllocError) -> RowError {
        RowError::NoMemory
    }
}

impl<T: Drop> From<AllocFailed<T>> for RowError {
    fn from(_: AllocFailed<T>) -> RowError {
        RowError::NoMemory
    }
}

/// Why the rows of a file are not played.
#[derive(Clone, Copy)]
pub enum Trouble {
    /// The line of this number, counted from 1, has no form of a row.
    Line(usize),
    /// Memory ran out.
    NoMemory,
}

impl RowError {
    /// The trouble, where it is in the line of this number.
    pub fn in_line(self, number: usize) -> Trouble {
        match self {
            RowError::Bad => Trouble::Line(number),
            RowError::NoMemory => Trouble::NoMemory,
        }
    }
}

impl From<NoMemory> for Trouble {
    fn from(_: NoMemory) -> Trouble {
        Trouble::NoMemory
    }
}

impl From<AllocError> for Trouble {
    fn from(_: AllocError) -> Trouble {
        Trouble::NoMemory
    }
}

impl<T: Drop> From<AllocFailed<T>> for Trouble {
    fn from(_: AllocFailed<T>) -> Trouble {
        Trouble::NoMemory
    }
}
