//! The lines of a summary.

ghost use Rattle.std.specs.Prelude.{◌≡◌, ◌++◌, ◌<◌, ◌^◌, map, IfOk, OnOk, string_bytes};
ghost use Rattle.cm_document.specs.Links.{joints_of};
ghost use Rattle.summary_text.specs.Few.{outcomes};
ghost use Rattle.summary_text.specs.Summary.{number_line, asks_line, count_lines, position_at};
ghost use Rattle.summary_text.specs.Summary.{joint_line, joint_lines, lines_of};

use crate::tally::Tally;
use cm_document::{CompDesc, Description, JointDesc};
use fixed_num::{BodyState, Fx, Memory};
use std::alloc::Global;

/// The lines of the summary of what was counted.
pub fn summary_lines(
    alloc: Global,
    description: &Description,
    tally: &Tally<'_>,
) -> Result<Vec<String>, Memory>
    requires { outcomes tally.now < 2 ^ 128 }
    ensures { IfOk result (λ lines. map string_bytes lines.items ≡ lines_of description.now tally.now) }
{
    let joints = described_joints(alloc, description.components.as_slice())?;
    let mut lines = count_lines(alloc, tally)?;
    push_joint_lines(alloc, &mut lines, joints.as_slice(), tally.bodies)?;
    Ok(lines)
}

/// The lines of the counts.
fn count_lines(alloc: Global, tally: &Tally<'_>) -> Result<Vec<String>, Memory>
    requires { outcomes tally.now < 2 ^ 128 }
    ensures { IfOk result (λ lines. map string_bytes lines.items ≡ count_lines tally.now) }
{
    let mut lines = Vec::new(alloc);
    lines.push(number_line(alloc, "cycles", tally.cycles)?)?;
    lines.push(number_line(alloc, "entries", tally.entries)?)?;
    lines.push(number_line(alloc, "updates", tally.updates)?)?;
    lines.push(asks_line(alloc, tally)?)?;
    Ok(lines)
}

fn number_line(alloc: Global, word: &str, number: u128) -> Result<String, Memory>
    ensures { IfOk result (λ line. string_bytes line ≡ number_line word.now number) }
{
    Ok(format!(in alloc; "{word} {number}\n")?)
}

/// How many requests were decided, and how each ended.
fn asks_line(alloc: Global, tally: &Tally<'_>) -> Result<String, Memory>
    requires { outcomes tally.now < 2 ^ 128 }
    ensures { IfOk result (λ line. string_bytes line ≡ asks_line tally.now) }
{
    let (done, refused, ended) = (tally.done, tally.refused, tally.ended);
    let asks = done + refused + ended;
    Ok(format!(in alloc; "asks {asks} done {done} refused {refused} ended {ended}\n")?)
}

/// The joints of all components.
fn described_joints(alloc: Global, components: &[CompDesc]) -> Result<Vec<&JointDesc>, Memory>
    ensures { IfOk result (λ joints. map (λ r. r.now) joints.items ≡ joints_of components.now) }
{
    let mut joints = Vec::new(alloc);
    for component in components {
        push_joints(&mut joints, component.joints.as_slice())?;
    }
    Ok(joints)
}

fn push_joints<'a>(joints: &mut Vec<&'a JointDesc>, more: &'a [JointDesc]) -> Result<(), Memory>
    ensures { OnOk result (map (λ r. r.now) joints.new.items ≡ map (λ r. r.now) joints.old.items ++ more.now) }
{
    for joint in more {
        joints.push(joint)?;
    }
    Ok(())
}

/// Appends the lines of the joints, whose places count from 0.
fn push_joint_lines(
    alloc: Global,
    lines: &mut Vec<String>,
    joints: &[&JointDesc],
    bodies: &[BodyState],
) -> Result<(), Memory>
    ensures { OnOk result
        (map string_bytes lines.new.items
        ≡ map string_bytes lines.old.items ++ joint_lines bodies.now 0 (map (λ r. r.now) joints.now)) }
{
    for (place, joint) in joints.iter().enumerate() {
        lines.push(joint_line(alloc, bodies, place, *joint)?)?;
    }
    Ok(())
}

fn joint_line(
    alloc: Global,
    bodies: &[BodyState],
    place: usize,
    joint: &JointDesc,
) -> Result<String, Memory>
    ensures { IfOk result (λ line. string_bytes line ≡ joint_line bodies.now place joint.now) }
{
    let name = &joint.name;
    let position = position_at(bodies, place, joint);
    Ok(format!(in alloc; "joint {name} {position}\n")?)
}

/// Where the joint at this place is: as described, where no body tells it.
fn position_at(bodies: &[BodyState], place: usize, joint: &JointDesc) -> Fx
    ensures { result ≡ position_at bodies.now place joint.now }
{
    match bodies.get(place) {
        Some(body) => body.x,
        None => joint.position,
    }
}
