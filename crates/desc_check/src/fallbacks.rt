//! Fallbacks are other controllers that are described.

ghost use Rattle.std.specs.Prelude.{◌≡◌, not, map, find, option_copied, IfOk};
ghost use Rattle.std.specs.List.{list_any};
ghost use Rattle.sequence.specs.Answers.{Answers};
ghost use Rattle.iface_names.specs.Names.{same_name};
ghost use Rattle.cm_document.specs.Valid.{can_stand_in, stand_in, fallbacks_exist};

use cm_document::{CheckFault, CtlDesc, Description};
use iface_names::Name;
use std::alloc::AllocError;

/// Each fallback is another controller that is described: else NoFallback of the first that is not, in the order of the
/// controllers.
pub fn fallbacks_exist(description: &Description) -> Result<(), CheckFault>
    ensures { Answers CheckFault.Memory
        (fallbacks_exist (map (λ c. c.name) description.now.controllers) description.now.controllers) result }
{
    let controllers = description.controllers.as_slice();
    for controller in controllers {
        stand_in(controllers, controller)?;
    }
    Ok(())
}

/// Each fallback of the controller is another one of these.
fn stand_in(described: &[CtlDesc], controller: &CtlDesc) -> Result<(), CheckFault>
    ensures { Answers CheckFault.Memory (stand_in (map (λ c. c.name) described.now) controller.now) result }
{
    match unfit(described, controller) {
        Some(name) => Err(no_fallback(controller, name)?),
        None => Ok(()),
    }
}

/// Its first fallback that is no other one of these.
fn unfit<'a>(described: &[CtlDesc], controller: &'a CtlDesc) -> Option<&'a Name>
    ensures { option_copied result
        ≡ find (λ name. not (can_stand_in (map (λ c. c.name) described.now) controller.now name))
        controller.now.fallback }
{
    controller
        .fallback
        .as_slice()
        .iter()
        .find(|name| !can_stand_in(described, controller, *name))
}

/// Whether a controller of this name may stand in for the controller.
fn can_stand_in(described: &[CtlDesc], controller: &CtlDesc, name: &Name) -> bool
    ensures { result ≡ can_stand_in (map (λ c. c.name) described.now) controller.now name.now }
{
    is_described(described, name) && *name != controller.name
}

/// Whether one of these has this name.
pub(crate) fn is_described(described: &[CtlDesc], name: &Name) -> bool
    ensures { result ≡ list_any (same_name name.now) (map (λ c. c.name) described.now) }
{
    described.iter().any(|other| *name == other.name)
}

/// That the name is no fallback of the controller.
fn no_fallback(controller: &CtlDesc, name: &Name) -> Result<CheckFault, AllocError>
    ensures { IfOk result (λ fault. fault ≡ CheckFault.NoFallback controller.now.name name.now) }
{
    Ok(CheckFault::NoFallback {
        controller: controller.name.clone()?,
        name: name.clone()?,
    })
}
