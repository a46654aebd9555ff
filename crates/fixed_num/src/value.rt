//! What an interface holds, how a joint is driven, and where its body is.

use crate::fx::Fx;

/// What a state, command or reference interface holds. Nothing stands in for a number that is missing: no zero, no
/// not-a-number.
#[derive(Clone, Copy, Debug, PartialEq, Eq)]
pub enum Value {
    /// Nobody has set the interface.
    Unset,
    /// The number that was set last.
    Num(Fx),
}

/// How a joint is driven: the kind of the command interface that an active controller claims on it.
#[derive(Clone, Copy, Debug, PartialEq, Eq)]
pub enum JointMode {
    /// No command interface of the joint is claimed.
    Idle,
    /// Its position is commanded.
    Position,
    /// Its velocity is commanded.
    Velocity,
    /// Its effort is commanded.
    Effort,
}

/// Where the body of a joint is: what its three state interfaces hold.
#[derive(Clone, Copy, Debug, PartialEq, Eq)]
pub struct BodyState {
    /// Its position, in units.
    pub x: Fx,
    /// Its velocity, in units a second.
    pub v: Fx,
    /// The effort that was applied last.
    pub f: Fx,
}
