//! The groups that a switch names, and who their members are.

use crate::present::Asked;
use cm_document::{Call, Description, GroupDesc, Pick, group_of};
use fixed_num::Memory;
use iface_names::Name;
use std::alloc::Global;

/// The members of a group; none where no such group is described.
pub fn members_of<'a>(description: &'a Description, name: &Name) -> &'a [Name] {
    match group_of(description, name) {
        Some(group) => group.members.as_slice(),
        None => &[],
    }
}

/// The described groups that a request names, each once: those that are to leave first.
pub fn groups_of<'a>(
    alloc: Global,
    description: &'a Description,
    asked: Option<Asked<'a>>,
) -> Result<Vec<&'a GroupDesc>, Memory> {
    let mut groups = Vec::new(alloc);
    if let Some(asked) = asked {
        if let Call::Switch(request) = asked.call {
            push_groups(&mut groups, description, request.off.as_slice())?;
            push_groups(&mut groups, description, request.on.as_slice())?;
        }
    }
    Ok(groups)
}

fn push_groups<'a>(
    groups: &mut Vec<&'a GroupDesc>,
    description: &'a Description,
    picks: &[Pick],
) -> Result<(), Memory> {
    for pick in picks {
        if let Pick::Group(name) = pick {
            push_group(groups, description, name)?;
        }
    }
    Ok(())
}

fn push_group<'a>(
    groups: &mut Vec<&'a GroupDesc>,
    description: &'a Description,
    name: &Name,
) -> Result<(), Memory> {
    match group_of(description, name) {
        Some(group) if !is_among(groups.as_slice(), name) => groups.push(group)?,
        _ => {}
    }
    Ok(())
}

/// Whether a group of this name is among these.
fn is_among(groups: &[&GroupDesc], name: &Name) -> bool {
    groups.iter().any(|group| group.name == *name)
}
