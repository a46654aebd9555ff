//! How many there are of each thing, against the limits.

ghost use Rattle.std.specs.Prelude.{◌≡◌, ◌<◌, ◌^◌, length, flat_map, sum_by, OnOk};
ghost use Rattle.cm_document.specs.Described.{states_of, states_of_joint};
ghost use Rattle.cm_document.specs.Links.{joints_of, commands_of, commands_of_joint, references_of};
ghost use Rattle.cm_document.specs.Valid.{limited, few_enough};
ghost use Rattle.desc_check.specs.Counts.{counted};

use cm_document::{CheckFault, CompDesc, CtlDesc, Description, JointDesc, What, limits_of};

/// None of the counts is above the limit of the version: else TooMany of the first that is.
#[tactic(auto, using(crate::proofs::LimitLemmas::joints_counted, crate::proofs::LimitLemmas::states_counted, crate::proofs::LimitLemmas::commands_counted, crate::proofs::LimitLemmas::references_counted, crate::proofs::LimitLemmas::claims_counted, crate::proofs::LimitLemmas::reads_counted, crate::proofs::LimitLemmas::few_controllers))]
pub fn few_enough(description: &Description) -> Result<(), CheckFault>
    ensures few { OnOk result (length description.now.controllers < 2 ^ 32) }
    ensures exact { result ≡ few_enough description.now }
{
    let components = description.components.as_slice();
    let controllers = description.controllers.as_slice();
    let groups = description.groups.as_slice();
    let limits = limits_of(description.version);
    let robot = count_robot(components);
    let linked = count_links(controllers);
    limited(What::Components, components.len(), limits.components)?;
    limited(What::Joints, robot.joints, limits.joints)?;
    limited(What::States, robot.states, limits.states)?;
    limited(What::Commands, robot.commands, limits.commands)?;
    limited(What::Controllers, controllers.len(), limits.controllers)?;
    limited(What::References, linked.references, limits.references)?;
    limited(What::Claims, linked.claims, limits.claims)?;
    limited(What::Reads, linked.reads, limits.reads)?;
    limited(What::Groups, groups.len(), limits.groups)
}

/// There are no more of these than the limit.
fn limited(what: What, number: usize, limit: usize) -> Result<(), CheckFault>
    ensures { result ≡ limited what number limit }
{
    if number > limit {
        return Err(CheckFault::TooMany(what));
    }
    Ok(())
}

/// How many joints and interfaces components have.
#[derive(Clone, Copy)]
struct RobotCounts {
    joints: usize,
    states: usize,
    commands: usize,
}

/// How many joints these components have, and how many interfaces those have.
fn count_robot(components: &[CompDesc]) -> RobotCounts
    ensures joints { result.joints ≡ counted (length (joints_of components.now)) }
    ensures states { result.states ≡ counted (length (states_of components.now)) }
    ensures commands { result.commands ≡ counted (length (commands_of components.now)) }
{
    let (mut joints, mut states, mut commands) = (0usize, 0usize, 0usize);
    for component in components {
        let own = component.joints.as_slice();
        let (own_states, own_commands) = count_interfaces(own);
        joints = joints.saturating_add(own.len());
        states = states.saturating_add(own_states);
        commands = commands.saturating_add(own_commands);
    }
    RobotCounts {
        joints,
        states,
        commands,
    }
}

/// How many states these joints have, and how many commands.
fn count_interfaces(joints: &[JointDesc]) -> (usize, usize)
    ensures states { result.0 ≡ counted (length (flat_map states_of_joint joints.now)) }
    ensures commands { result.1 ≡ counted (length (flat_map commands_of_joint joints.now)) }
{
    let (mut states, mut commands) = (0usize, 0usize);
    for joint in joints {
        states = states.saturating_add(joint.states.as_slice().len());
        commands = commands.saturating_add(joint.commands.as_slice().len());
    }
    (states, commands)
}

/// How many interfaces controllers export, claim and read.
#[derive(Clone, Copy)]
struct LinkCounts {
    references: usize,
    claims: usize,
    reads: usize,
}

/// How many references, claims and reads these controllers have together.
fn count_links(controllers: &[CtlDesc]) -> LinkCounts
    ensures references { result.references ≡ counted (length (references_of controllers.now)) }
    ensures claims { result.claims ≡ counted (sum_by (λ c. length c.claims) controllers.now) }
    ensures reads { result.reads ≡ counted (sum_by (λ c. length c.reads) controllers.now) }
{
    let (mut references, mut claims, mut reads) = (0usize, 0usize, 0usize);
    for controller in controllers {
        references = references.saturating_add(controller.exported_for().len());
        claims = claims.saturating_add(controller.claims.as_slice().len());
        reads = reads.saturating_add(controller.reads().len());
    }
    LinkCounts {
        references,
        claims,
        reads,
    }
}
