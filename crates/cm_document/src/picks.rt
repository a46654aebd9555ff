//! Which controllers the words of a switch name: a group stands for its members.

ghost use Rattle.std.specs.Prelude.{◌≡◌, ◌++◌, map, find, option_copied, IfOk, OnOk};
ghost use Rattle.std.specs.List.{list_any};
ghost use Rattle.iface_names.specs.Names.{same_name};
ghost use Rattle.cm_document.specs.Picks.{is_group, group_of, flat_pick, flat};
ghost use Rattle.cm_document.specs.declared.call.Pick.TheVariants.{One};

use crate::call::Pick;
use crate::description::{Description, GroupDesc};
use iface_names::Name;
use std::alloc::{AllocError, Global};

/// Whether one of these is a group.
pub fn has_group(picks: &[Pick]) -> bool
    ensures { result ≡ list_any is_group picks.now }
{
    picks.iter().any(|pick| is_group(pick))
}

/// Whether it is a group.
fn is_group(pick: &Pick) -> bool
    ensures { result ≡ is_group pick.now }
{
    matches!(pick, Pick::Group(_))
}

/// These, with each group that is described replaced by its members at its place.
pub fn flat(
    alloc: Global,
    description: &Description,
    picks: &[Pick],
) -> Result<Vec<Pick>, AllocError>
    ensures { IfOk result (λ list. list.items ≡ flat description.now picks.now) }
{
    let mut list = Vec::with_capacity(alloc, picks.len())?;
    for pick in picks {
        push_pick(description, pick, &mut list)?;
    }
    Ok(list)
}

/// Appends what a pick stands for.
fn push_pick(description: &Description, pick: &Pick, list: &mut Vec<Pick>) -> Result<(), AllocError>
    ensures { OnOk result (list.new.items ≡ list.old.items ++ flat_pick description.now pick.now) }
{
    match pick {
        Pick::One(name) => list.push(Pick::One(name.clone()?))?,
        Pick::Group(name) => match group_of(description, name) {
            Some(group) => push_members(group.members.as_slice(), list)?,
            None => list.push(Pick::Group(name.clone()?))?,
        },
    }
    Ok(())
}

/// The described group of this name.
pub fn group_of<'a>(description: &'a Description, name: &Name) -> Option<&'a GroupDesc>
    ensures { option_copied result ≡ group_of description.now name.now }
{
    description
        .groups
        .as_slice()
        .iter()
        .find(|group| *name == group.name)
}

/// Appends these controllers.
fn push_members(members: &[Name], list: &mut Vec<Pick>) -> Result<(), AllocError>
    ensures { OnOk result (list.new.items ≡ list.old.items ++ map One members.now) }
{
    list.reserve(members.len())?;
    for name in members {
        list.push(Pick::One(name.clone()?))?;
    }
    Ok(())
}
