//! Names of interfaces, and where they stand among those that are listed.

ghost use Rattle.std.specs.Prelude.{◌≡◌, ◌<◌, ◌^◌, length, IfSome};
ghost use Rattle.std.specs.List.{list_any};
ghost use Rattle.iface_names.specs.Interfaces.{same_interface};
ghost use Rattle.cm_places.specs.Listing.{state_in, command_in};

use crate::listed::ListedInterface;
use cm_document::CtlDesc;
use iface_names::IfaceName;

/// The place of the state interface of this name.
pub(crate) fn state_place(listed: &[ListedInterface], name: &IfaceName) -> Option<u32>
    requires { length listed.now < 2 ^ 32 }
    ensures { result ≡ state_in listed.now name.now }
{
    let place = find_state(listed, name)?;
    Some(place as u32)
}

/// The same, as an index.
fn find_state(listed: &[ListedInterface], name: &IfaceName) -> Option<usize>
    ensures place { result ≡ state_in listed.now name.now }
    ensures within { IfSome result (λ place. place < length listed.now) }
{
    listed
        .iter()
        .position(|each| !each.is_command && each.name == *name)
}

/// The place of the command interface or reference of this name.
pub(crate) fn command_place(listed: &[ListedInterface], name: &IfaceName) -> Option<u32>
    requires { length listed.now < 2 ^ 32 }
    ensures { result ≡ command_in listed.now name.now }
{
    let place = find_command(listed, name)?;
    Some(place as u32)
}

/// The same, as an index.
fn find_command(listed: &[ListedInterface], name: &IfaceName) -> Option<usize>
    ensures place { result ≡ command_in listed.now name.now }
    ensures within { IfSome result (λ place. place < length listed.now) }
{
    listed
        .iter()
        .position(|each| each.is_command && each.name == *name)
}

/// Whether the controller claims the interface of this name.
pub(crate) fn claims(controller: &CtlDesc, name: &IfaceName) -> bool
    ensures { result ≡ list_any (λ claim. same_interface claim name.now) controller.now.claims }
{
    controller
        .claims
        .as_slice()
        .iter()
        .any(|claim| *claim == *name)
}
