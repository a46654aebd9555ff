//! The kinds of fault that speak against a member of a set of controllers.

/// A kind of fault of a controller that is to be active among others.
#[derive(Clone, Copy, Debug, PartialEq, Eq)]
pub enum FaultKind {
    /// A reference that it claims has no active exporter.
    Follower,
    /// An interface that it claims or reads is not available.
    Availability,
    /// Another controller claims what it claims.
    Conflict,
    /// On a joint of which it claims an interface another one is claimed.
    Mode,
    /// It is not ready to be activated.
    Readiness,
}

/// The kinds, in the order in which they count.
pub const FAULT_KINDS: [FaultKind; 5] = [
    FaultKind::Follower,
    FaultKind::Availability,
    FaultKind::Conflict,
    FaultKind::Mode,
    FaultKind::Readiness,
];
