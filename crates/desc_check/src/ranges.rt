//! Numbers and numbers of items within their ranges, in the order of the walk.

ghost use Rattle.std.specs.Prelude.{◌≡◌, ◌++◌, codes, length, IfOk};
ghost use Rattle.std.specs.List.{list_all};
ghost use Rattle.sequence.specs.Answers.{Answers};
ghost use Rattle.iface_names.specs.Interfaces.{same_kind};
ghost use Rattle.cm_document.specs.Forms.{item_path, inside};
ghost use Rattle.cm_document.specs.Limits.{is_version};
ghost use Rattle.cm_document.specs.Params.{kind_at};
ghost use Rattle.cm_document.specs.Valid.{ranged, not_negative, each_ranged, may_have, joint_ranged, joint_count_fits};
ghost use Rattle.cm_document.specs.Valid.{component_ranged, claims_fit, reads_fit, limits_ranged, controller_ranged};
ghost use Rattle.cm_document.specs.Valid.{group_ranged, in_range, are_all_of, claims_carried, links_ranged};

use cm_document::{
    CheckFault, CompDesc, CompKind, CtlDesc, Description, FIRST_VERSION, GroupDesc, HIGHEST_RATE,
    JointDesc, MOST_CYCLES, MOST_FALLBACKS, MOST_MEMBERS, Params, SECOND_VERSION, Text, kind_at,
};
use fixed_num::Fx;
use iface_names::{IfaceName, Kind};
use std::alloc::{AllocError, Global};

/// Every number is within its range: else BadRange of the first that is not, with its path.
pub fn in_range(alloc: Global, description: &Description) -> Result<(), CheckFault>
    ensures { Answers CheckFault.Memory (in_range description.now) result }
{
    let rate = description.update_rate;
    ranged(alloc, is_version(description.version), "", "version")?;
    ranged(alloc, 1 <= rate && rate <= HIGHEST_RATE, "", "update_rate")?;
    ranged(alloc, description.cycles <= MOST_CYCLES, "", "cycles")?;
    components_ranged(alloc, description.components.as_slice())?;
    controllers_ranged(alloc, description.controllers.as_slice())?;
    groups_ranged(alloc, description.groups.as_slice())
}

/// There is such a version.
fn is_version(version: u32) -> bool
    ensures { result ≡ is_version version }
{
    version == FIRST_VERSION || version == SECOND_VERSION
}

/// The ranges of each component.
fn components_ranged(alloc: Global, components: &[CompDesc]) -> Result<(), CheckFault>
    ensures { Answers CheckFault.Memory (each_ranged component_ranged (codes "component") 0 components.now) result }
{
    for (index, component) in components.iter().enumerate() {
        let prefix = item_prefix(alloc, "component", index)?;
        component_ranged(alloc, prefix.as_str(), component)?;
    }
    Ok(())
}

/// The number of joints, then each joint.
fn component_ranged(alloc: Global, prefix: &str, component: &CompDesc) -> Result<(), CheckFault>
    ensures { Answers CheckFault.Memory (component_ranged prefix.now component.now) result }
{
    let joints = component.joints.as_slice();
    ranged(
        alloc,
        joint_count_fits(component.kind, joints.len()),
        prefix,
        "joint",
    )?;
    let path = key_path(alloc, prefix, "joint")?;
    joints_ranged(alloc, component.kind, path.as_str(), joints)
}

/// One joint at least, and of an actuator one at most.
fn joint_count_fits(kind: CompKind, count: usize) -> bool
    ensures { result ≡ joint_count_fits kind count }
{
    match kind {
        CompKind::Actuator => count == 1,
        CompKind::Sensor | CompKind::System => 1 <= count,
    }
}

/// The ranges of each joint of a component, in the list at this path.
fn joints_ranged(
    alloc: Global,
    kind: CompKind,
    path: &str,
    joints: &[JointDesc],
) -> Result<(), CheckFault>
    ensures { Answers CheckFault.Memory (each_ranged (joint_ranged kind) path.now 0 joints.now) result }
{
    for (index, joint) in joints.iter().enumerate() {
        let prefix = item_prefix(alloc, path, index)?;
        joint_ranged(alloc, kind, prefix.as_str(), joint)?;
    }
    Ok(())
}

/// `vmax`, `gain` and `damping` are not negative, and a sensor takes no command.
fn joint_ranged(
    alloc: Global,
    kind: CompKind,
    prefix: &str,
    joint: &JointDesc,
) -> Result<(), CheckFault>
    ensures { Answers CheckFault.Memory (joint_ranged kind prefix.now joint.now) result }
{
    ranged(alloc, not_negative(joint.vmax), prefix, "vmax")?;
    ranged(alloc, not_negative(joint.gain), prefix, "gain")?;
    ranged(alloc, not_negative(joint.damping), prefix, "damping")?;
    ranged(alloc, may_have(kind, joint), prefix, "command")
}

/// A sensor takes no command.
fn may_have(kind: CompKind, joint: &JointDesc) -> bool
    ensures { result ≡ may_have kind joint.now }
{
    match kind {
        CompKind::Sensor => joint.commands.as_slice().is_empty(),
        CompKind::Actuator | CompKind::System => true,
    }
}

/// The ranges of each controller.
fn controllers_ranged(alloc: Global, controllers: &[CtlDesc]) -> Result<(), CheckFault>
    ensures { Answers CheckFault.Memory (each_ranged controller_ranged (codes "controller") 0 controllers.now) result }
{
    for (index, controller) in controllers.iter().enumerate() {
        let prefix = item_prefix(alloc, "controller", index)?;
        controller_ranged(alloc, prefix.as_str(), controller)?;
    }
    Ok(())
}

/// The rate, the number of fallbacks, then what it claims and what it reads, and the limits.
fn controller_ranged(alloc: Global, prefix: &str, controller: &CtlDesc) -> Result<(), CheckFault>
    ensures { Answers CheckFault.Memory (controller_ranged prefix.now controller.now) result }
{
    let fallbacks = controller.fallback.as_slice().len();
    ranged(
        alloc,
        controller.rate <= HIGHEST_RATE,
        prefix,
        "update_rate",
    )?;
    ranged(alloc, fallbacks <= MOST_FALLBACKS, prefix, "fallback")?;
    links_ranged(alloc, prefix, controller)?;
    limits_ranged(alloc, prefix, &controller.params)
}

/// As many claims as its kind may have, of what it may claim; then the same of reads.
fn links_ranged(alloc: Global, prefix: &str, controller: &CtlDesc) -> Result<(), CheckFault>
    ensures { Answers CheckFault.Memory (links_ranged prefix.now controller.now) result }
{
    let params = &controller.params;
    let claims = controller.claims.as_slice();
    let reads = controller.reads();
    ranged(alloc, claims_fit(params, claims.len()), prefix, "claims")?;
    ranged(alloc, claims_carried(params, claims), prefix, "claims")?;
    ranged(
        alloc,
        reads_fit(params, claims.len(), reads.len()),
        prefix,
        "reads",
    )?;
    ranged(
        alloc,
        are_all_of(params.read_kind(), reads),
        prefix,
        "reads",
    )
}

/// Whether the claims carry what a controller with these parameters may claim.
fn claims_carried(params: &Params, claims: &[IfaceName]) -> bool
    ensures { result ≡ claims_carried params.now claims.now }
{
    params.may_carry() && are_all_of(params.claimed_kind(), claims)
}

/// Whether each of these interfaces is of this kind, if one is asked.
fn are_all_of(asked: Option<Kind>, interfaces: &[IfaceName]) -> bool
    ensures { result ≡ are_all_of asked interfaces.now }
{
    match asked {
        Some(kind) => are_of(kind, interfaces),
        None => true,
    }
}

/// Whether each of these interfaces is of this kind.
fn are_of(kind: Kind, interfaces: &[IfaceName]) -> bool
    ensures { result ≡ list_all (λ interface. same_kind (kind_at interface) kind) interfaces.now }
{
    interfaces
        .iter()
        .all(|interface| kind_at(interface) == kind)
}

/// Whether so many claims are as many as a controller with these parameters may have.
fn claims_fit(params: &Params, count: usize) -> bool
    ensures { result ≡ claims_fit params.now count }
{
    params.fewest_claims() <= count && count <= params.most_claims()
}

/// Whether so many reads are as many beside so many claims.
fn reads_fit(params: &Params, claims: usize, count: usize) -> bool
    ensures { result ≡ reads_fit params.now claims count }
{
    match params.reads_beside(claims) {
        Some(reads) => count == reads,
        None => true,
    }
}

/// No limit of a controller is below its least: else BadRange of the first that is.
fn limits_ranged(alloc: Global, prefix: &str, params: &Params) -> Result<(), CheckFault>
    ensures { Answers CheckFault.Memory (limits_ranged prefix.now params.now) result }
{
    match params.below_least() {
        Some(key) => ranged(alloc, false, prefix, key),
        None => Ok(()),
    }
}

/// The ranges of each group.
fn groups_ranged(alloc: Global, groups: &[GroupDesc]) -> Result<(), CheckFault>
    ensures { Answers CheckFault.Memory (each_ranged group_ranged (codes "group") 0 groups.now) result }
{
    for (index, group) in groups.iter().enumerate() {
        let prefix = item_prefix(alloc, "group", index)?;
        group_ranged(alloc, prefix.as_str(), group)?;
    }
    Ok(())
}

/// One member at least, and no more than a group may have.
fn group_ranged(alloc: Global, prefix: &str, group: &GroupDesc) -> Result<(), CheckFault>
    ensures { Answers CheckFault.Memory (group_ranged prefix.now group.now) result }
{
    let members = group.members.as_slice().len();
    ranged(
        alloc,
        1 <= members && members <= MOST_MEMBERS,
        prefix,
        "members",
    )
}

/// Not below 0.
fn not_negative(number: Fx) -> bool
    ensures { result ≡ not_negative number }
{
    0 <= number.micro()
}

/// What this key of the table with this prefix has is within its range.
fn ranged(alloc: Global, fits: bool, prefix: &str, key: &str) -> Result<(), CheckFault>
    ensures { Answers CheckFault.Memory (ranged fits (prefix.now ++ key.now)) result }
{
    if fits {
        return Ok(());
    }
    Err(CheckFault::BadRange(key_path(alloc, prefix, key)?))
}

/// A key of the table with this prefix.
fn key_path(alloc: Global, prefix: &str, key: &str) -> Result<Text, AllocError>
    ensures { IfOk result (λ path. path ≡ prefix.now ++ key.now) }
{
    Ok(Text::from_string(format!(in alloc; "{prefix}{key}")?))
}

/// What stands before the keys of a table that is an item of the list at this path.
fn item_prefix(alloc: Global, path: &str, index: usize) -> Result<Text, AllocError>
    ensures { IfOk result (λ prefix. prefix ≡ inside (item_path path.now index)) }
{
    Ok(Text::from_string(format!(in alloc; "{path}[{index}].")?))
}
