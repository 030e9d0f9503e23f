//! What the calls of this crate refuse.

use std::alloc::{AllocError, AllocFailed};

/// There was no memory for what a call had to keep.
#[derive(Clone, Copy, Debug, PartialEq, Eq)]
pub struct NoMemory;

/// A number or a count of places leaves what a `Dec` holds.
#[derive(Clone, Copy, Debug, PartialEq, Eq)]
pub struct Range;

/// Why a text is not read as a decimal.
#[derive(Clone, Copy, Debug, PartialEq, Eq)]
pub enum NumFault {
    /// The text has another form.
    NotNumber,
    /// The trimmed value has more places than are allowed.
    TooManyPlaces,
    /// The trimmed value does not fit a `Dec`.
    Range,
}

impl From<AllocError> for NoMemory {
    fn from(_fault: AllocError) -> NoMemory {
        NoMemory
    }
}

impl<T: Drop> From<AllocFailed<T>> for NoMemory {
    fn from(_fault: AllocFailed<T>) -> NoMemory {
        NoMemory
    }
}
