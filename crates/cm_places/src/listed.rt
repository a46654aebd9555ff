//! The interfaces of a description, listed once by their names.

ghost use Rattle.std.specs.Prelude.{◌≡◌, ◌<◌, ◌^◌, ◌++◌, map, flat_map, length, IfOk, OnOk};
ghost use Rattle.cm_document.specs.Places.{interfaces_of, kinds_of};
ghost use Rattle.cm_places.specs.Listing.{listed_of, listed_at, listed_joint, listed_joints};
ghost use Rattle.cm_places.specs.Listing.{listed_references, listed_controllers};

use cm_document::{Checked, CompDesc, CtlDesc, JointDesc};
use fixed_num::Memory;
use iface_names::{IfaceName, Kind, Name};
use std::alloc::Global;

/// An interface as it is listed, at its place: what it is called, and the controller that exports it.
#[derive(Debug, Drop)]
pub(crate) struct ListedInterface {
    pub(crate) is_command: bool,
    pub(crate) name: IfaceName,
    pub(crate) exporter: Option<u32>,
}

/// All interfaces of a description, each at its place.
pub(crate) fn list(alloc: Global, checked: &Checked) -> Result<Vec<ListedInterface>, Memory>
    ensures { IfOk result (λ listed. listed.items ≡ map listed_of (interfaces_of checked.now)) }
{
    let description = checked.description();
    let components = description.components.as_slice();
    let mut listed = Vec::new(alloc);
    push_components(&mut listed, components, false)?;
    push_components(&mut listed, components, true)?;
    push_controllers(&mut listed, description.controllers.as_slice())?;
    Ok(listed)
}

/// The command interfaces of components, or else their state interfaces.
fn push_components(
    listed: &mut Vec<ListedInterface>,
    components: &[CompDesc],
    is_command: bool,
) -> Result<(), Memory>
    ensures { OnOk result (listed.new.items ≡ listed.old.items ++ listed_joints is_command components.now) }
{
    for component in components {
        push_joints(listed, component.joints.as_slice(), is_command)?;
    }
    Ok(())
}

/// The command interfaces of joints, or else their state interfaces.
fn push_joints(
    listed: &mut Vec<ListedInterface>,
    joints: &[JointDesc],
    is_command: bool,
) -> Result<(), Memory>
    ensures { OnOk result (listed.new.items ≡ listed.old.items ++ flat_map (listed_joint is_command) joints.now) }
{
    for joint in joints {
        push_kinds(listed, &joint.name, joint.kinds(is_command), is_command)?;
    }
    Ok(())
}

/// An interface of each of these kinds, of the joint of this name.
fn push_kinds(
    listed: &mut Vec<ListedInterface>,
    joint: &Name,
    kinds: &[Kind],
    is_command: bool,
) -> Result<(), Memory>
    ensures { OnOk result (listed.new.items ≡ listed.old.items ++ map (listed_at is_command joint.now) kinds.now) }
{
    for kind in kinds {
        listed.push(listed_at(joint, *kind, is_command)?)?;
    }
    Ok(())
}

/// An interface of this joint and kind.
fn listed_at(joint: &Name, kind: Kind, is_command: bool) -> Result<ListedInterface, Memory>
    ensures { IfOk result (λ listed. listed ≡ listed_at is_command joint.now kind) }
{
    let joint = joint.clone()?;
    Ok(ListedInterface {
        is_command,
        name: IfaceName::Joint { joint, kind },
        exporter: None,
    })
}

/// The references of controllers.
fn push_controllers(
    listed: &mut Vec<ListedInterface>,
    controllers: &[CtlDesc],
) -> Result<(), Memory>
    requires { length controllers.now < 2 ^ 32 }
    ensures { OnOk result (listed.new.items ≡ listed.old.items ++ listed_controllers 0 controllers.now) }
{
    for (place, controller) in controllers.iter().enumerate() {
        push_references(listed, controller, place as u32)?;
    }
    Ok(())
}

/// The references of the controller at this place.
fn push_references(
    listed: &mut Vec<ListedInterface>,
    controller: &CtlDesc,
    place: u32,
) -> Result<(), Memory>
    ensures { OnOk result (listed.new.items ≡ listed.old.items ++ listed_references place controller.now) }
{
    for interface in controller.exported_for() {
        listed.push(ListedInterface {
            is_command: true,
            name: controller.reference_for(interface)?,
            exporter: Some(place),
        })?;
    }
    Ok(())
}
