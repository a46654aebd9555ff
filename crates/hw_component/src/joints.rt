//! The joints of a component: what their bodies measure, and how these go on.

ghost use Rattle.std.specs.Prelude.{◌≡◌, ◌≤◌, map, length};
ghost use Rattle.cm_model.specs.Components.{measured, measured_at};
ghost use Rattle.hw_component.specs.Drives.{states_in, each_driven, at_rest, each_stepped};

use crate::claims::{command_of, mode_of};
use cm_model::JointInterface;
use fixed_num::{BodyState, Fx, JointMode, Value};
use iface_names::Kind;
use joint_body::{Body, LONGEST_STEP};

/// Which number of a body an interface of this kind measures.
fn measured(kind: Kind, body: BodyState) -> Fx
    ensures { result ≡ measured kind body }
{
    match kind {
        Kind::Position => body.x,
        Kind::Velocity => body.v,
        Kind::Effort => body.f,
    }
}

/// What an interface measures of the body of its joint.
fn measured_at(bodies: &[Body], interface: JointInterface) -> Value
    ensures { result ≡ measured_at (states_in bodies.now) interface }
{
    match bodies.get(interface.joint as usize) {
        Some(body) => Value::Num(measured(interface.kind, body.state())),
        None => Value::Unset,
    }
}

/// Sets each place to what its interface measures.
pub(crate) fn measure(places: &mut [Value], interfaces: &[JointInterface], bodies: &[Body])
    requires { length places.old ≡ length interfaces.now }
    ensures { places.new ≡ map (measured_at (states_in bodies.now)) interfaces.now }
{
    for (place, interface) in interfaces.iter().enumerate() {
        places[place] = measured_at(bodies, *interface);
    }
}

/// Steps each body: where the joints are commanded, as each is driven by its claimed interface, else where nobody
/// commands them.
pub(crate) fn step_bodies(
    bodies: &mut [Body],
    is_commanded: bool,
    claimed: &[Option<u32>],
    commands: &[JointInterface],
    values: &[Value],
    dt_us: u32,
)
    requires some_time { 1 ≤ dt_us }
    requires no_longer { dt_us ≤ LONGEST_STEP }
    requires claims { length claimed.now ≡ length bodies.old }
    ensures { bodies.new ≡ each_stepped is_commanded commands.now values.now dt_us claimed.now bodies.old }
{
    if is_commanded {
        drive(bodies, claimed, commands, values, dt_us);
    } else {
        rest(bodies, dt_us);
    }
}

/// Steps each body, as its joint is driven by its claimed interface.
fn drive(
    bodies: &mut [Body],
    claimed: &[Option<u32>],
    commands: &[JointInterface],
    values: &[Value],
    dt_us: u32,
)
    requires some_time { 1 ≤ dt_us }
    requires no_longer { dt_us ≤ LONGEST_STEP }
    requires claims { length claimed.now ≡ length bodies.old }
    ensures { bodies.new ≡ each_driven commands.now values.now dt_us claimed.now bodies.old }
{
    for (joint, claim) in claimed.iter().enumerate() {
        let (mode, command) = (mode_of(commands, *claim), command_of(values, *claim));
        bodies[joint].step(mode, command, dt_us);
    }
}

/// Steps each body, where nobody commands its joint.
fn rest(bodies: &mut [Body], dt_us: u32)
    requires some_time { 1 ≤ dt_us }
    requires no_longer { dt_us ≤ LONGEST_STEP }
    ensures { bodies.new ≡ map at_rest bodies.old }
{
    for joint in 0..bodies.len() {
        bodies[joint].step(JointMode::Idle, Value::Unset, dt_us);
    }
}
