//! The one answer of a source or a sink that failed.

use thiserror::Error;

/// A read, a write or a flush that failed. The source or sink has counted it among its faults.
#[derive(Clone, Copy, Debug, PartialEq, Eq, Error)]
#[error("the read or write failed")]
pub struct Failed;
