//! The table of a joint.

ghost use Rattle.cm_document.specs.Described.{joint_table};
ghost use Rattle.cm_document.specs.Tables.{walk};

use crate::forms::{ListOf, One, TableForm};
use crate::keys::Keys;
use crate::values::{Named, NewKind, Quantity};
use cm_document::{DescFault, JointDesc};
use fixed_num::Fx;
use sequence::Seq;

/// The keys that a joint may have.
const KEYS: [&str; 8] = [
    "name", "vmax", "gain", "damping", "position", "velocity", "command", "state",
];

/// The table of a joint.
#[derive(Drop)]
pub struct Joint;

impl TableForm for Joint {
    type Read = JointDesc;

    ghost table_form = { λ _. walk joint_table };

    #[tactic(auto, unfolding(cm_document::specs::Described::joint_table))]
    fn read(&self, keys: &Keys<'_>) -> Result<JointDesc, DescFault> {
        keys.none_but(&KEYS)?;
        let name = keys.required("name", &One(Named))?;
        let vmax = keys.required("vmax", &One(Quantity))?;
        let gain = keys.defaulted("gain", &One(Quantity), Fx::ONE)?;
        let damping = keys.defaulted("damping", &One(Quantity), Fx::ZERO)?;
        let position = keys.defaulted("position", &One(Quantity), Fx::ZERO)?;
        let velocity = keys.defaulted("velocity", &One(Quantity), Fx::ZERO)?;
        let commands = keys.defaulted("command", &ListOf(NewKind), Seq::new(keys.alloc))?;
        let states = keys.defaulted("state", &ListOf(NewKind), Seq::new(keys.alloc))?;
        Ok(JointDesc {
            name,
            vmax,
            gain,
            damping,
            position,
            velocity,
            commands,
            states,
        })
    }
}
