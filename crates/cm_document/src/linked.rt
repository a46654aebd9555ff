//! What joints have of interfaces, and what controllers read and export.

ghost use Rattle.std.specs.Prelude.{◌≡◌, take, IfOk};
ghost use Rattle.cm_document.specs.Links.{exported_for, reference_for};
ghost use Rattle.cm_document.specs.Places.{kinds_of};

use crate::description::{CtlDesc, Exports, JointDesc};
use iface_names::{IfaceName, Kind};
use std::alloc::AllocError;

impl JointDesc {
    /// The kinds of its command interfaces, or else of its state interfaces.
    pub fn kinds(&self, is_command: bool) -> &[Kind]
        ensures { result.now ≡ kinds_of is_command self.now }
    {
        if is_command {
            self.commands.as_slice()
        } else {
            self.states.as_slice()
        }
    }
}

impl CtlDesc {
    /// The state interfaces that it reads, in written order.
    pub fn reads(&self) -> &[IfaceName]
        ensures { result.now ≡ self.now.reads }
    {
        self.reads.get().as_slice()
    }

    /// The interfaces for which it exports references, one for each.
    pub fn exported_for(&self) -> &[IfaceName]
        ensures { result.now ≡ exported_for self.now.params self.now }
    {
        match self.params.exports() {
            Exports::Nothing => &[],
            Exports::FirstRead => first(self.reads()),
            Exports::EachClaim => self.claims.as_slice(),
        }
    }

    /// The reference that it exports for one of these.
    pub fn reference_for(&self, own: &IfaceName) -> Result<IfaceName, AllocError>
        ensures { IfOk result (λ reference. reference ≡ reference_for self.now.name own.now) }
    {
        let (IfaceName::Joint { joint, kind } | IfaceName::Reference { joint, kind, .. }) = own;
        Ok(IfaceName::Reference {
            controller: self.name.clone()?,
            joint: joint.clone()?,
            kind: *kind,
        })
    }
}

/// The first of these alone, or none where there is none.
fn first(interfaces: &[IfaceName]) -> &[IfaceName]
    ensures { result.now ≡ take 1 interfaces.now }
{
    &interfaces[..interfaces.len().min(1)]
}
