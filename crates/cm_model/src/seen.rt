//! A loaded controller, as a switch is decided by it.

use cm_document::Life;

/// A loaded controller, as a switch is decided by it.
#[derive(Clone, Copy, Debug, PartialEq, Eq)]
pub struct Seen {
    /// The number that its load gave.
    pub serial: u32,
    /// Its place in the description.
    pub place: u32,
    /// Its lifecycle state.
    pub life: Life,
    /// Whether it is active and an active controller claims one of its references.
    pub chained: bool,
    /// Whether it is ready to be activated in the cycle to come.
    pub ready: bool,
}
