//! A whole document.

use crate::checked::Checked;
use crate::script::Script;

/// An accepted description with an accepted script.
#[derive(Debug, PartialEq, Eq, Drop)]
pub struct Document {
    /// What is described, without a fault.
    pub description: Checked,
    /// What the sessions ask.
    pub script: Script,
}
