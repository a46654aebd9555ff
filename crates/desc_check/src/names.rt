//! No name stands twice in one space.

ghost use Rattle.std.specs.Prelude.{◌≡◌, [], map, option_copied, IfOk, OnOk, ◌++◌};
ghost use Rattle.std.specs.List.{list_any};
ghost use Rattle.sequence.specs.Answers.{Answers};
ghost use Rattle.iface_names.specs.Interfaces.{same_interface};
ghost use Rattle.iface_names.specs.Names.{same_name};
ghost use Rattle.cm_document.specs.Links.{joints_of};
ghost use Rattle.cm_document.specs.Valid.{repeated_after, names_apart, interfaces_apart};
ghost use Rattle.cm_document.specs.Valid.{links_apart, members_apart, named_apart};

use crate::references::references;
use cm_document::{CheckFault, CompDesc, CtlDesc, Description, GroupDesc, JointDesc, Text};
use iface_names::{IfaceName, Name};
use std::alloc::{AllocError, Global};

/// No name stands twice among the components, the joints, the controllers, the references, the groups, the claims,
/// reads or fallbacks of one controller, or the members of one group: else NameTwice of the first that does.
pub fn named_apart(alloc: Global, description: &Description) -> Result<(), CheckFault>
    ensures { Answers CheckFault.Memory (named_apart description.now) result }
{
    let components = description.components.as_slice();
    let controllers = description.controllers.as_slice();
    let groups = description.groups.as_slice();
    names_apart(alloc, component_names(alloc, components)?.as_slice())?;
    names_apart(alloc, joint_names(alloc, components)?.as_slice())?;
    names_apart(alloc, controller_names(alloc, controllers)?.as_slice())?;
    interfaces_apart(alloc, references(alloc, controllers)?.as_slice())?;
    names_apart(alloc, group_names(alloc, groups)?.as_slice())?;
    links_apart(alloc, controllers)?;
    members_apart(alloc, groups)
}

/// No controller claims an interface twice, reads one twice, or names a fallback twice.
fn links_apart(alloc: Global, controllers: &[CtlDesc]) -> Result<(), CheckFault>
    ensures { Answers CheckFault.Memory (links_apart controllers.now) result }
{
    for controller in controllers {
        interfaces_apart(alloc, controller.claims.as_slice())?;
        interfaces_apart(alloc, controller.reads())?;
        listed_apart(alloc, controller.fallback.as_slice())?;
    }
    Ok(())
}

/// No group names a member twice.
fn members_apart(alloc: Global, groups: &[GroupDesc]) -> Result<(), CheckFault>
    ensures { Answers CheckFault.Memory (members_apart groups.now) result }
{
    for group in groups {
        listed_apart(alloc, group.members.as_slice())?;
    }
    Ok(())
}

/// Names that differ: else NameTwice of the first that stands earlier too.
fn names_apart(alloc: Global, names: &[&Name]) -> Result<(), CheckFault>
    ensures { Answers CheckFault.Memory (names_apart (map (λ name. name.now) names.now)) result }
{
    match repeated(names) {
        Some(name) => Err(CheckFault::NameTwice(Text::from_string(format!(in alloc; "{name}")?))),
        None => Ok(()),
    }
}

/// Names of a list that differ: else NameTwice of the first that stands earlier too.
fn listed_apart(alloc: Global, names: &[Name]) -> Result<(), CheckFault>
    ensures { Answers CheckFault.Memory (names_apart names.now) result }
{
    match repeated(names) {
        Some(name) => Err(CheckFault::NameTwice(Text::from_string(format!(in alloc; "{name}")?))),
        None => Ok(()),
    }
}

/// Interfaces that differ: else NameTwice of the first that stands earlier too.
fn interfaces_apart(alloc: Global, interfaces: &[IfaceName]) -> Result<(), CheckFault>
    ensures { Answers CheckFault.Memory (interfaces_apart interfaces.now) result }
{
    match repeated(interfaces) {
        Some(interface) => Err(CheckFault::NameTwice(Text::from_string(format!(in alloc;
            "{interface}"
        )?))),
        None => Ok(()),
    }
}

/// The first that stands earlier in the list too.
fn repeated<T: PartialEq>(items: &[T]) -> Option<&T>
    ensures { option_copied result ≡ repeated_after T.eq [] items.now }
{
    for (index, item) in items.iter().enumerate() {
        if is_among(item, &items[..index]) {
            return Some(item);
        }
    }
    None
}

/// Whether the item is among these.
fn is_among<T: PartialEq>(item: &T, items: &[T]) -> bool
    ensures { result ≡ list_any (T.eq item.now) items.now }
{
    items.iter().any(|other| *item == *other)
}

/// The names of the components.
fn component_names<'a>(
    alloc: Global,
    components: &'a [CompDesc],
) -> Result<Vec<&'a Name>, AllocError>
    ensures { IfOk result (λ names. map (λ name. name.now) names.items ≡ map (λ c. c.name) components.now) }
{
    let mut names = Vec::new(alloc);
    for component in components {
        names.push(&component.name)?;
    }
    Ok(names)
}

/// The names of the controllers.
fn controller_names<'a>(
    alloc: Global,
    controllers: &'a [CtlDesc],
) -> Result<Vec<&'a Name>, AllocError>
    ensures { IfOk result (λ names. map (λ name. name.now) names.items ≡ map (λ c. c.name) controllers.now) }
{
    let mut names = Vec::new(alloc);
    for controller in controllers {
        names.push(&controller.name)?;
    }
    Ok(names)
}

/// The names of the groups.
fn group_names<'a>(alloc: Global, groups: &'a [GroupDesc]) -> Result<Vec<&'a Name>, AllocError>
    ensures { IfOk result (λ names. map (λ name. name.now) names.items ≡ map (λ g. g.name) groups.now) }
{
    let mut names = Vec::new(alloc);
    for group in groups {
        names.push(&group.name)?;
    }
    Ok(names)
}

/// The names of the joints, component by component.
fn joint_names<'a>(alloc: Global, components: &'a [CompDesc]) -> Result<Vec<&'a Name>, AllocError>
    ensures { IfOk result (λ names. map (λ name. name.now) names.items ≡ map (λ j. j.name) (joints_of components.now)) }
{
    let mut names = Vec::new(alloc);
    for component in components {
        push_names(&mut names, component.joints.as_slice())?;
    }
    Ok(names)
}

/// Then the names of these joints.
fn push_names<'a>(names: &mut Vec<&'a Name>, joints: &'a [JointDesc]) -> Result<(), AllocError>
    ensures { OnOk result
        (map (λ name. name.now) names.new.items
        ≡ map (λ name. name.now) names.old.items ++ map (λ j. j.name) joints.now) }
{
    for joint in joints {
        names.push(&joint.name)?;
    }
    Ok(())
}
