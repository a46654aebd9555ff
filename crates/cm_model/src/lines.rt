//! The lines of the three lists.

use cm_document::{CtlKind, Life};
use fixed_num::StoredValue;
use iface_names::Name;
use sequence::Shared;

/// A line of the list of controllers.
#[derive(Clone, Debug, PartialEq, Eq, Drop)]
pub struct CtlLine {
    /// Its name, which is kept once for all lines.
    pub name: Shared<Name>,
    /// The number that its load gave.
    pub serial: u32,
    /// In how many cycles it is updated once; none where it is not configured.
    pub divisor: Option<u32>,
    /// Its kind.
    pub kind: CtlKind,
    /// Its lifecycle state.
    pub life: Life,
    /// Whether an active controller claims one of its references.
    pub chained: bool,
}

/// A line of the list of interfaces.
#[derive(Clone, Debug, PartialEq, Eq, Drop)]
pub struct IfaceLine {
    /// What it holds.
    pub value: StoredValue,
    /// Its place among all interfaces.
    pub place: u32,
    /// The serial of the active controller that claims it; none where nobody does.
    pub owner: Option<u32>,
    /// Whether it is a command interface or a reference; otherwise it is a state interface.
    pub command: bool,
    /// Whether its component is inactive or active, or its exporter active.
    pub available: bool,
}

/// A line of the list of components.
#[derive(Clone, Copy, Debug, PartialEq, Eq)]
pub struct CompLine {
    /// Its place in the description.
    pub place: u32,
    /// Its lifecycle state.
    pub life: Life,
}
