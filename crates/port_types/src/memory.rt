//! Want of memory. It touches nothing.

use std::alloc::{AllocError, AllocFailed};

/// Memory could not be had. A call that answers it leaves what it was lent by `&mut` as it was,
/// except where it says otherwise.
#[derive(Clone, Copy, Debug, PartialEq, Eq)]
pub struct NoMemory;

impl From<AllocError> for NoMemory {
    fn from(_error: AllocError) -> NoMemory {
        NoMemory
    }
}

impl<T: Drop> From<AllocFailed<T>> for NoMemory {
    fn from(_failed: AllocFailed<T>) -> NoMemory {
        NoMemory
    }
}
