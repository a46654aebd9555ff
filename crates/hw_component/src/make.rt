//! A component from its description.

ghost use Rattle.std.specs.Prelude.{◌≡◌, ◌+◌, ◌<◌, ◌≤◌, ◌^◌, ◌++◌, map, length, IfOk, OnOk, All};
ghost use Rattle.fixed_num.specs.Bodies.{IsPlant};
ghost use Rattle.cm_model.specs.Components.{plant_of, body_at_start, interfaces_from};
ghost use Rattle.hw_component.specs.Hardware.{CanBeMade, at_start};
ghost use Rattle.hw_component.specs.Drives.{body_made, of_joint};

use crate::component::Component;
use cm_document::{CompDesc, JointDesc};
use cm_model::JointInterface;
use fixed_num::{BodyState, Fx, Memory, Value};
use iface_names::Kind;
use joint_body::Body;
use std::alloc::Global;

impl Component {
    /// The component of a description, as it is at start: nobody claims an interface, and nothing was written.
    pub fn make(alloc: Global, description: &CompDesc) -> Result<Component, Memory>
        requires { CanBeMade description.now }
        ensures { IfOk result (λ component. component ≡ at_start description.now) }
    {
        let joints = description.joints.as_slice();
        let commands = command_interfaces(alloc, joints)?;
        Ok(Component {
            life: description.initial,
            bodies: bodies(alloc, joints)?,
            claimed: vec![in alloc; None; joints.len()]?,
            states: state_interfaces(alloc, joints)?,
            applied: vec![in alloc; Value::Unset; commands.len()]?,
            commands,
            written: false,
            description: copied(description)?,
        })
    }
}

/// The description again.
fn copied(description: &CompDesc) -> Result<CompDesc, Memory>
    ensures { IfOk result (λ copy. copy ≡ description.now) }
{
    Ok(description.clone()?)
}

/// The body of each joint, at rest where it begins.
fn bodies(alloc: Global, joints: &[JointDesc]) -> Result<Vec<Body>, Memory>
    requires { All (λ joint. IsPlant (plant_of joint)) joints.now }
    ensures { IfOk result (λ bodies. bodies.items ≡ map body_made joints.now) }
{
    let mut bodies = Vec::with_capacity(alloc, joints.len())?;
    for joint in joints {
        bodies.push(body(joint))?;
    }
    Ok(bodies)
}

/// The body of a joint.
fn body(joint: &JointDesc) -> Body
    requires { IsPlant (plant_of joint.now) }
    ensures { result ≡ body_made joint.now }
{
    let start = BodyState {
        x: joint.position,
        v: joint.velocity,
        f: Fx::ZERO,
    };
    Body::make(start, joint.vmax, joint.gain, joint.damping)
}

/// The state interfaces of the joints, each at its number.
fn state_interfaces(alloc: Global, joints: &[JointDesc]) -> Result<Vec<JointInterface>, Memory>
    requires { length joints.now < 2 ^ 32 }
    ensures { IfOk result (λ interfaces. interfaces.items ≡ interfaces_from (λ j. j.states) 0 joints.now) }
{
    let mut interfaces = Vec::new(alloc);
    for (number, joint) in joints.iter().enumerate() {
        push_interfaces(&mut interfaces, number as u32, joint.states.as_slice())?;
    }
    Ok(interfaces)
}

/// The command interfaces of the joints, each at its number.
fn command_interfaces(alloc: Global, joints: &[JointDesc]) -> Result<Vec<JointInterface>, Memory>
    requires { length joints.now < 2 ^ 32 }
    ensures { IfOk result (λ interfaces. interfaces.items ≡ interfaces_from (λ j. j.commands) 0 joints.now) }
{
    let mut interfaces = Vec::new(alloc);
    for (number, joint) in joints.iter().enumerate() {
        push_interfaces(&mut interfaces, number as u32, joint.commands.as_slice())?;
    }
    Ok(interfaces)
}

/// One interface of a joint more for each of these kinds.
fn push_interfaces(
    interfaces: &mut Vec<JointInterface>,
    joint: u32,
    kinds: &[Kind],
) -> Result<(), Memory>
    ensures { OnOk result (interfaces.new.items ≡ interfaces.old.items ++ of_joint joint kinds.now) }
{
    for kind in kinds {
        interfaces.push(JointInterface { joint, kind: *kind })?;
    }
    Ok(())
}
