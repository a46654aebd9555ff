//! `JointInterface`: an interface of a component.

use iface_names::Kind;

/// A state or a command interface of a component, as it is numbered there.
#[derive(Clone, Copy, Debug, PartialEq, Eq)]
pub struct JointInterface {
    /// Its joint, counted from 0 within the component.
    pub joint: u32,
    /// What it carries.
    pub kind: Kind,
}
