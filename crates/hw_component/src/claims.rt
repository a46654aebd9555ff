//! Claims of command interfaces: on which joint each stands, and how a claimed interface drives its joint.

ghost use Rattle.std.specs.Prelude.{◌≡◌, ◌<◌, ◌^◌, ◌==◌, not, ◌&&◌, map, length, find, slice_get};
ghost use Rattle.std.specs.List.{list_any, range_with_len};
ghost use Rattle.std.specs.Option.{option_copied};
ghost use Rattle.cm_model.specs.Components.{stands_on, is_contested, claim_on, mode_of_kind, mode_of, command_of};

use cm_model::JointInterface;
use fixed_num::{JointMode, Value};
use iface_names::Kind;

/// Whether a claim stands on the joint.
pub(crate) fn stands_on(commands: &[JointInterface], joint: u32, claim: u32) -> bool
    ensures { result ≡ stands_on commands.now joint claim }
{
    match commands.get(claim as usize) {
        Some(interface) => interface.joint == joint,
        None => false,
    }
}

/// The first of the claims that stands on the joint.
pub(crate) fn claim_on(commands: &[JointInterface], claims: &[u32], joint: u32) -> Option<u32>
    ensures { result ≡ claim_on commands.now claims.now joint }
{
    first_on(commands, claims, joint).copied()
}

fn first_on<'a>(commands: &[JointInterface], claims: &'a [u32], joint: u32) -> Option<&'a u32>
    ensures { option_copied result ≡ find (stands_on commands.now joint) claims.now }
{
    claims
        .iter()
        .find(|claim| stands_on(commands, joint, **claim))
}

/// Whether two different ones of the claims stand on the joint.
#[tactic(auto, using(crate::proofs::ClaimLemmas::contested, crate::proofs::ClaimLemmas::uncontested))]
pub(crate) fn is_contested(commands: &[JointInterface], claims: &[u32], joint: u32) -> bool
    ensures { result ≡ is_contested commands.now claims.now joint }
{
    match claim_on(commands, claims, joint) {
        Some(first) => is_another_on(commands, claims, joint, first),
        None => false,
    }
}

/// Whether one of the claims stands on the joint that is not this one.
fn is_another_on(commands: &[JointInterface], claims: &[u32], joint: u32, this: u32) -> bool
    ensures { result ≡ list_any (λ claim. stands_on commands.now joint claim && not (this == claim)) claims.now }
{
    claims.iter().any(|claim| stands_on(commands, joint, *claim) && this != *claim)
}

/// The claim of each joint.
pub(crate) fn claim_joints(claimed: &mut [Option<u32>], commands: &[JointInterface], claims: &[u32])
    requires { length claimed.old < 2 ^ 32 }
    ensures { claimed.new ≡ map (claim_on commands.now claims.now) (range_with_len 0 (length claimed.old)) }
{
    for joint in 0..claimed.len() {
        claimed[joint] = claim_on(commands, claims, joint as u32);
    }
}

/// How an interface of this kind drives its joint.
fn mode_of_kind(kind: Kind) -> JointMode
    ensures { result ≡ mode_of_kind kind }
{
    match kind {
        Kind::Position => JointMode::Position,
        Kind::Velocity => JointMode::Velocity,
        Kind::Effort => JointMode::Effort,
    }
}

/// The mode of a joint on which this interface is claimed, or none.
pub(crate) fn mode_of(commands: &[JointInterface], claim: Option<u32>) -> JointMode
    ensures { result ≡ mode_of commands.now claim }
{
    let Some(number) = claim else {
        return JointMode::Idle;
    };
    match commands.get(number as usize) {
        Some(interface) => mode_of_kind(interface.kind),
        None => JointMode::Idle,
    }
}

/// What is commanded of a joint on which this interface is claimed, or none.
pub(crate) fn command_of(values: &[Value], claim: Option<u32>) -> Value
    ensures { result ≡ command_of values.now claim }
{
    let Some(number) = claim else {
        return Value::Unset;
    };
    match values.get(number as usize) {
        Some(value) => *value,
        None => Value::Unset,
    }
}
