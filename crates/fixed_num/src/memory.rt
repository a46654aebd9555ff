//! Want of memory, the one answer that any allocating call may give at any time.

use std::alloc::{AllocError, AllocFailed};
use thiserror::Error;

/// Memory ran out. The call that answers so has left its object as it was.
#[derive(Clone, Copy, Debug, PartialEq, Eq, Error)]
#[error("out of memory")]
pub struct Memory;

impl From<AllocError> for Memory {
    fn from(_fault: AllocError) -> Memory {
        Memory
    }
}

impl<T: Drop> From<AllocFailed<T>> for Memory {
    fn from(_fault: AllocFailed<T>) -> Memory {
        Memory
    }
}
