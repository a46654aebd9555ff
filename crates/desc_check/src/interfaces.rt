//! What controllers claim and read is there.

ghost use Rattle.std.specs.Prelude.{◌≡◌, not, ◌++◌, map, flat_map, find, option_copied, IfOk};
ghost use Rattle.sequence.specs.Answers.{Answers};
ghost use Rattle.iface_names.specs.Interfaces.{same_interface};
ghost use Rattle.iface_names.specs.declared.interface.IfaceName.TheVariants.{Joint};
ghost use Rattle.cm_document.specs.Described.{states_of, states_of_joint};
ghost use Rattle.cm_document.specs.Links.{commands_of, commands_of_joint, is_among};
ghost use Rattle.cm_document.specs.Valid.{claimable, all_among, links_exist};

use crate::references::references;
use cm_document::{CheckFault, CompDesc, CtlDesc, Description, JointDesc};
use iface_names::{IfaceName, Kind, Name};
use std::alloc::{AllocError, Global};

/// Each claim is a command interface of a component or a reference, and each read a state interface: else NoInterface
/// of the first that is not, controllers in order and of each its claims before its reads.
pub fn links_exist(alloc: Global, description: &Description) -> Result<(), CheckFault>
    ensures { Answers CheckFault.Memory
        (links_exist (claimable description.now) (states_of description.now.components)
        description.now.controllers) result }
{
    let controllers = description.controllers.as_slice();
    let references = references(alloc, controllers)?;
    each_link_exists(
        description.components.as_slice(),
        references.as_slice(),
        controllers,
    )
}

/// The same, where these are all references.
fn each_link_exists(
    components: &[CompDesc],
    references: &[IfaceName],
    controllers: &[CtlDesc],
) -> Result<(), CheckFault>
    ensures { Answers CheckFault.Memory
        (links_exist (commands_of components.now ++ references.now) (states_of components.now) controllers.now)
        result }
{
    for controller in controllers {
        claims_exist(components, references, controller)?;
        reads_exist(components, controller)?;
    }
    Ok(())
}

/// Each claim of the controller is a command interface of these components, or one of these references.
fn claims_exist(
    components: &[CompDesc],
    references: &[IfaceName],
    controller: &CtlDesc,
) -> Result<(), CheckFault>
    ensures { Answers CheckFault.Memory
        (all_among (commands_of components.now ++ references.now) controller.now.name controller.now.claims)
        result }
{
    match missing_claim(components, references, controller.claims.as_slice()) {
        Some(missing) => Err(no_interface(controller, missing)?),
        None => Ok(()),
    }
}

/// Each read of the controller is a state interface of these components.
fn reads_exist(components: &[CompDesc], controller: &CtlDesc) -> Result<(), CheckFault>
    ensures { Answers CheckFault.Memory (all_among (states_of components.now) controller.now.name controller.now.reads)
        result }
{
    match missing_read(components, controller.reads()) {
        Some(missing) => Err(no_interface(controller, missing)?),
        None => Ok(()),
    }
}

/// The first of these claims that is neither a command interface of these components nor one of these references.
fn missing_claim<'a>(
    components: &[CompDesc],
    references: &[IfaceName],
    claims: &'a [IfaceName],
) -> Option<&'a IfaceName>
    ensures { option_copied result
        ≡ find (λ i. not (is_among i (commands_of components.now ++ references.now))) claims.now }
{
    claims
        .iter()
        .find(|claim| !is_claimable(components, references, *claim))
}

/// The first of these reads that is no state interface of these components.
fn missing_read<'a>(components: &[CompDesc], reads: &'a [IfaceName]) -> Option<&'a IfaceName>
    ensures { option_copied result ≡ find (λ i. not (is_among i (states_of components.now))) reads.now }
{
    reads.iter().find(|read| !is_state(components, *read))
}

/// That the controller claims or reads this, and it is not there.
fn no_interface(controller: &CtlDesc, interface: &IfaceName) -> Result<CheckFault, AllocError>
    ensures { IfOk result (λ fault. fault ≡ CheckFault.NoInterface controller.now.name interface.now) }
{
    Ok(CheckFault::NoInterface {
        controller: controller.name.clone()?,
        interface: interface.clone()?,
    })
}

/// Whether the interface is a command interface of these components, or one of these references.
#[tactic(auto, using(sequence::proofs::ListLemmas::any_append))]
fn is_claimable(components: &[CompDesc], references: &[IfaceName], interface: &IfaceName) -> bool
    ensures { result ≡ is_among interface.now (commands_of components.now ++ references.now) }
{
    is_command(components, interface) || is_in(references, interface)
}

/// Whether the interface is one of these references.
fn is_in(references: &[IfaceName], interface: &IfaceName) -> bool
    ensures { result ≡ is_among interface.now references.now }
{
    references.iter().any(|reference| *interface == *reference)
}

/// Whether one of the components has this command interface.
fn is_command(components: &[CompDesc], interface: &IfaceName) -> bool
    ensures { result ≡ is_among interface.now (commands_of components.now) }
{
    components.iter().any(|component| is_command_in(component.joints.as_slice(), interface))
}

/// Whether one of the joints has this command interface.
fn is_command_in(joints: &[JointDesc], interface: &IfaceName) -> bool
    ensures { result ≡ is_among interface.now (flat_map commands_of_joint joints.now) }
{
    joints.iter().any(|joint| is_interface_of(&joint.name, joint.commands.as_slice(), interface))
}

/// Whether one of the components has this state interface.
fn is_state(components: &[CompDesc], interface: &IfaceName) -> bool
    ensures { result ≡ is_among interface.now (states_of components.now) }
{
    components.iter().any(|component| is_state_in(component.joints.as_slice(), interface))
}

/// Whether one of the joints has this state interface.
fn is_state_in(joints: &[JointDesc], interface: &IfaceName) -> bool
    ensures { result ≡ is_among interface.now (flat_map states_of_joint joints.now) }
{
    joints.iter().any(|joint| is_interface_of(&joint.name, joint.states.as_slice(), interface))
}

/// Whether the interface is one of this joint, of one of these kinds.
fn is_interface_of(joint: &Name, kinds: &[Kind], interface: &IfaceName) -> bool
    ensures { result ≡ is_among interface.now (map (Joint joint.now) kinds.now) }
{
    let IfaceName::Joint {
        joint: named,
        kind: wanted,
    } = interface
    else {
        return false;
    };
    // Most joints are others: their names are compared once, and not for each kind.
    if *named != *joint {
        return false;
    }
    kinds
        .iter()
        .any(|kind| *named == *joint && *wanted == *kind)
}
