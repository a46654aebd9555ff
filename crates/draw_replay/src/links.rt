//! What each controller claims and reads, by places: joints and controllers are looked up by name once.

use cm_document::{CtlDesc, Description, JointDesc};
use fixed_num::Memory;
use iface_names::{IfaceName, Kind, Name};
use std::alloc::Global;

/// What a claim or a read is of.
#[derive(Clone, Copy)]
pub struct Link {
    /// The place of the joint among all joints.
    pub joint: usize,
    /// What the interface carries.
    pub kind: Kind,
    /// The place of the controller whose reference it is; none if the interface is the joint's own.
    pub follower: Option<usize>,
}

/// What one controller claims and reads, in written order.
#[derive(Drop)]
pub struct ControllerLinks {
    /// The command interfaces and references that it claims.
    pub claims: Vec<Link>,
    /// The state interfaces that it reads.
    pub reads: Vec<Link>,
}

/// A description with its joints and links.
#[derive(Clone, Copy)]
pub struct Linked<'a> {
    /// The description.
    pub description: &'a Description,
    /// The joints of all components, each with the place of its component.
    pub joints: &'a [(usize, &'a JointDesc)],
    /// What each controller claims and reads, by place.
    pub links: &'a [ControllerLinks],
}

/// The joints of all components, in their order, each with the place of its component.
pub fn joints_of<'a>(
    alloc: Global,
    description: &'a Description,
) -> Result<Vec<(usize, &'a JointDesc)>, Memory> {
    let mut joints = Vec::new(alloc);
    for (place, component) in description.components.as_slice().iter().enumerate() {
        push_joints(&mut joints, place, component.joints.as_slice())?;
    }
    Ok(joints)
}

fn push_joints<'a>(
    joints: &mut Vec<(usize, &'a JointDesc)>,
    component: usize,
    more: &'a [JointDesc],
) -> Result<(), Memory> {
    for joint in more {
        joints.push((component, joint))?;
    }
    Ok(())
}

/// The links of each controller, by place.
pub fn links_of(
    alloc: Global,
    description: &Description,
    joints: &[(usize, &JointDesc)],
) -> Result<Vec<ControllerLinks>, Memory> {
    let controllers = description.controllers.as_slice();
    let mut links = Vec::new(alloc);
    for controller in controllers {
        links.push(ControllerLinks {
            claims: resolved(alloc, controllers, joints, controller.claims.as_slice())?,
            reads: resolved(alloc, controllers, joints, controller.reads())?,
        })?;
    }
    Ok(links)
}

fn resolved(
    alloc: Global,
    controllers: &[CtlDesc],
    joints: &[(usize, &JointDesc)],
    interfaces: &[IfaceName],
) -> Result<Vec<Link>, Memory> {
    let mut links = Vec::new(alloc);
    for interface in interfaces {
        links.push(link_to(controllers, joints, interface))?;
    }
    Ok(links)
}

/// What an interface is of. An accepted description has its joint and its controller.
fn link_to(controllers: &[CtlDesc], joints: &[(usize, &JointDesc)], interface: &IfaceName) -> Link {
    match interface {
        IfaceName::Joint { joint, kind } => Link {
            joint: joint_place(joints, joint),
            kind: *kind,
            follower: None,
        },
        IfaceName::Reference {
            controller,
            joint,
            kind,
        } => Link {
            joint: joint_place(joints, joint),
            kind: *kind,
            follower: controller_place(controllers, controller),
        },
    }
}

fn joint_place(joints: &[(usize, &JointDesc)], name: &Name) -> usize {
    joints
        .iter()
        .position(|(_, joint)| joint.name == *name)
        .unwrap_or(0)
}

/// The place of the controller of this name.
pub fn controller_place(controllers: &[CtlDesc], name: &Name) -> Option<usize> {
    controllers
        .iter()
        .position(|controller| controller.name == *name)
}

/// The place of the component of this name.
pub fn component_place(description: &Description, name: &Name) -> Option<usize> {
    description
        .components
        .as_slice()
        .iter()
        .position(|component| component.name == *name)
}
