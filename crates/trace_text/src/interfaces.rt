//! The names of all interfaces as texts, by place.

ghost use Rattle.std.specs.Prelude.{◌≡◌, ◌++◌, if◌then◌else◌, map, flat_map, IfOk, OnOk, string_bytes};
ghost use Rattle.iface_names.specs.Interfaces.{interface_text};
ghost use Rattle.iface_names.specs.declared.interface.IfaceName.TheVariants as interface;
ghost use Rattle.cm_document.specs.Links.{references_of, refs_of, reference_for};
ghost use Rattle.cm_document.specs.Places.{interfaces_of, kinds_of};
ghost use Rattle.trace_text.specs.Sides.{names_on, names_in};

use cm_document::{CompDesc, CtlDesc, Description, JointDesc};
use fixed_num::Memory;
use iface_names::{IfaceName, Kind, Name};
use std::alloc::Global;

/// The texts of all interfaces: the states of all joints, then the commands of all joints, then the references of all
/// controllers.
#[tactic(auto, using(crate::proofs::NameLemmas::all_interfaces))]
pub(crate) fn interface_texts(
    alloc: Global,
    description: &Description,
) -> Result<Vec<String>, Memory>
    ensures { IfOk result
        (λ texts.
        map string_bytes texts.items
        ≡ map (λ i. interface_text i.called.name) (interfaces_of description.now)) }
{
    let components = description.components.as_slice();
    let mut texts = Vec::new(alloc);
    push_components(alloc, &mut texts, components, false)?;
    push_components(alloc, &mut texts, components, true)?;
    push_references(alloc, &mut texts, description.controllers.as_slice())?;
    Ok(texts)
}

/// The command interfaces of components, or else their state interfaces.
fn push_components(
    alloc: Global,
    texts: &mut Vec<String>,
    components: &[CompDesc],
    is_command: bool,
) -> Result<(), Memory>
    ensures { OnOk result
        (map string_bytes texts.new.items
        ≡ map string_bytes texts.old.items ++ map interface_text (names_in is_command components.now)) }
{
    for component in components {
        push_joints(alloc, texts, component.joints.as_slice(), is_command)?;
    }
    Ok(())
}

/// The command interfaces of joints, or else their state interfaces.
fn push_joints(
    alloc: Global,
    texts: &mut Vec<String>,
    joints: &[JointDesc],
    is_command: bool,
) -> Result<(), Memory>
    ensures { OnOk result
        (map string_bytes texts.new.items
        ≡ map string_bytes texts.old.items ++ map interface_text (flat_map (names_on is_command) joints.now)) }
{
    for joint in joints {
        push_kinds(alloc, texts, &joint.name, joint.kinds(is_command))?;
    }
    Ok(())
}

/// The interfaces of these kinds on a joint.
fn push_kinds(
    alloc: Global,
    texts: &mut Vec<String>,
    joint: &Name,
    kinds: &[Kind],
) -> Result<(), Memory>
    ensures { OnOk result
        (map string_bytes texts.new.items
        ≡ map string_bytes texts.old.items ++ map interface_text (map (interface.Joint joint.now) kinds.now)) }
{
    for kind in kinds {
        texts.push(joint_interface(alloc, joint, *kind)?)?;
    }
    Ok(())
}

/// The text of the interface of this kind on a joint.
fn joint_interface(alloc: Global, joint: &Name, kind: Kind) -> Result<String, Memory>
    ensures { IfOk result (λ text. string_bytes text ≡ interface_text (interface.Joint joint.now kind)) }
{
    Ok(format!(in alloc; "{joint}/{kind}")?)
}

fn push_references(
    alloc: Global,
    texts: &mut Vec<String>,
    controllers: &[CtlDesc],
) -> Result<(), Memory>
    ensures { OnOk result
        (map string_bytes texts.new.items
        ≡ map string_bytes texts.old.items ++ map interface_text (references_of controllers.now)) }
{
    for controller in controllers {
        push_references_of(alloc, texts, &controller.name, controller.exported_for())?;
    }
    Ok(())
}

/// The references of a controller for these interfaces.
fn push_references_of(
    alloc: Global,
    texts: &mut Vec<String>,
    controller: &Name,
    interfaces: &[IfaceName],
) -> Result<(), Memory>
    ensures { OnOk result
        (map string_bytes texts.new.items
        ≡ map string_bytes texts.old.items
        ++ map interface_text (map (reference_for controller.now) interfaces.now)) }
{
    for interface in interfaces {
        texts.push(reference(alloc, controller, interface)?)?;
    }
    Ok(())
}

/// The text of the reference of a controller that stands for this interface.
fn reference(alloc: Global, controller: &Name, interface: &IfaceName) -> Result<String, Memory>
    ensures { IfOk result (λ text. string_bytes text ≡ interface_text (reference_for controller.now interface.now)) }
{
    match interface {
        IfaceName::Joint { joint, kind } => reference_text(alloc, controller, joint, *kind),
        IfaceName::Reference { joint, kind, .. } => reference_text(alloc, controller, joint, *kind),
    }
}

/// The text of the reference of this kind of a controller for a joint.
fn reference_text(
    alloc: Global,
    controller: &Name,
    joint: &Name,
    kind: Kind,
) -> Result<String, Memory>
    ensures { IfOk result
        (λ text. string_bytes text ≡ interface_text (interface.Reference controller.now joint.now kind)) }
{
    Ok(format!(in alloc; "{controller}/{joint}/{kind}")?)
}
