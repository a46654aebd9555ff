//! Why a call of a component is refused.

use thiserror::Error;

/// Two different command interfaces that stand on one joint were claimed together.
#[derive(Clone, Copy, Debug, PartialEq, Eq, Error)]
#[error("mode_refused {joint}")]
pub struct ModeFault {
    /// The least such joint, counted from 0 within the component.
    pub joint: u32,
}

/// Why a component did not move to a lifecycle state.
#[derive(Clone, Copy, Debug, PartialEq, Eq, Error)]
pub enum HwFault {
    /// It is finalized, and was to move to another state.
    #[error("no_such_move")]
    NoSuchMove,
}
