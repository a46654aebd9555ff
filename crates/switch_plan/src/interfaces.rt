//! What is asked of one interface.

ghost use Rattle.std.specs.Prelude.{◌≡◌, ◌<◌, not, ◌&&◌, length, position, find, Option, slice_index_or, option_map};
ghost use Rattle.std.specs.List.{list_any};
ghost use Rattle.std.specs.Option.{option_map_or};
ghost use Rattle.iface_names.specs.Names.{same_name};
ghost use Rattle.iface_names.specs.Interfaces.{same_interface};
ghost use Rattle.cm_document.specs.Links.{exporter, is_among, refs_of};
ghost use Rattle.cm_model.specs.Order.{set_of};
ghost use Rattle.cm_model.specs.Components.{is_available};
ghost use Rattle.cm_model.specs.Faults.{is_missing, component_with, is_beside, joint_name};

use chain_order::{PlaceSet, exports};
use cm_document::{CompDesc, CtlDesc, Life};
use iface_names::{IfaceName, Name};

/// The place of the controller that exports a reference.
pub fn exporter(controllers: &[CtlDesc], interface: &IfaceName) -> Option<usize>
    ensures { result ≡ exporter controllers.now interface.now }
{
    controllers
        .iter()
        .position(|controller| exports(controller, interface))
}

/// Whether it is a reference whose exporter is not in the set.
pub fn is_missing(controllers: &[CtlDesc], set: &PlaceSet, interface: &IfaceName) -> bool
    ensures { result ≡ is_missing controllers.now (set_of set.now) interface.now }
{
    match exporter(controllers, interface) {
        Some(place) => !set.holds(place),
        None => false,
    }
}

/// The place of the component that has the interface. No component has a reference.
pub fn component_with(components: &[CompDesc], interface: &IfaceName) -> Option<usize>
    ensures { result ≡ component_with components.now interface.now }
{
    match interface {
        IfaceName::Joint { joint, .. } => component_of(components, joint),
        IfaceName::Reference { .. } => None,
    }
}

/// The place of the component that has the joint of this name.
fn component_of(components: &[CompDesc], joint: &Name) -> Option<usize>
    ensures { result ≡ position (λ c. list_any (λ j. same_name j.name joint.now) c.joints) components.now }
{
    components
        .iter()
        .position(|component| has_joint(component, joint))
}

/// Whether the component has the joint of this name.
fn has_joint(component: &CompDesc, joint: &Name) -> bool
    ensures { result ≡ list_any (λ j. same_name j.name joint.now) component.now.joints }
{
    component
        .joints
        .as_slice()
        .iter()
        .any(|described| described.name == *joint)
}

/// Whether the interfaces of a component in this state are available.
pub fn is_available(life: Life) -> bool
    ensures { result ≡ is_available life }
{
    match life {
        Life::Inactive | Life::Active => true,
        Life::Unconfigured | Life::Finalized => false,
    }
}

/// Whether the two are different command interfaces of one joint.
pub fn is_beside(interface: &IfaceName, other: &IfaceName) -> bool
    ensures { result ≡ is_beside interface.now other.now }
{
    match (interface, other) {
        (
            IfaceName::Joint { joint, kind },
            IfaceName::Joint {
                joint: other_joint,
                kind: other_kind,
            },
        ) => joint == other_joint && kind != other_kind,
        _ => false,
    }
}

/// The joint that an interface is named with.
pub fn joint_name(interface: &IfaceName) -> &Name
    ensures { result.now ≡ joint_name interface.now }
{
    match interface {
        IfaceName::Joint { joint, .. } | IfaceName::Reference { joint, .. } => joint,
    }
}

/// Whether the controller claims the interface.
pub fn claims(controller: &CtlDesc, interface: &IfaceName) -> bool
    ensures { result ≡ list_any (λ claim. same_interface claim interface.now) controller.now.claims }
{
    controller
        .claims
        .as_slice()
        .iter()
        .any(|claim| claim == interface)
}

/// Whether the controller claims another command interface of the joint.
pub fn claims_beside(controller: &CtlDesc, interface: &IfaceName) -> bool
    ensures { result ≡ list_any (is_beside interface.now) controller.now.claims }
{
    controller
        .claims
        .as_slice()
        .iter()
        .any(|claim| is_beside(interface, claim))
}
