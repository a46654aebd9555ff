//! Members of groups are controllers that are described.

ghost use Rattle.std.specs.Prelude.{◌≡◌, not, map, find, option_copied, IfOk};
ghost use Rattle.std.specs.List.{list_any};
ghost use Rattle.sequence.specs.Answers.{Answers};
ghost use Rattle.iface_names.specs.Names.{same_name};
ghost use Rattle.cm_document.specs.Valid.{are_described, members_exist};

use crate::fallbacks::is_described;
use cm_document::{CheckFault, CtlDesc, Description, GroupDesc};
use iface_names::Name;
use std::alloc::AllocError;

/// Each member of a group is a controller that is described: else NoMember of the first that is not, in the order of
/// the groups.
pub fn members_exist(description: &Description) -> Result<(), CheckFault>
    ensures { Answers CheckFault.Memory
        (members_exist (map (λ c. c.name) description.now.controllers) description.now.groups) result }
{
    let controllers = description.controllers.as_slice();
    for group in description.groups.as_slice() {
        are_described(controllers, group)?;
    }
    Ok(())
}

/// Each member of the group is one of these.
fn are_described(described: &[CtlDesc], group: &GroupDesc) -> Result<(), CheckFault>
    ensures { Answers CheckFault.Memory (are_described (map (λ c. c.name) described.now) group.now) result }
{
    match unknown(described, group) {
        Some(name) => Err(no_member(group, name)?),
        None => Ok(()),
    }
}

/// Its first member that is none of these.
fn unknown<'a>(described: &[CtlDesc], group: &'a GroupDesc) -> Option<&'a Name>
    ensures { option_copied result
        ≡ find (λ name. not (list_any (same_name name) (map (λ c. c.name) described.now))) group.now.members }
{
    group
        .members
        .as_slice()
        .iter()
        .find(|name| !is_described(described, *name))
}

/// That the name is no member of the group.
fn no_member(group: &GroupDesc, name: &Name) -> Result<CheckFault, AllocError>
    ensures { IfOk result (λ fault. fault ≡ CheckFault.NoMember group.now.name name.now) }
{
    Ok(CheckFault::NoMember {
        group: group.name.clone()?,
        name: name.clone()?,
    })
}
