//! The hardware of a description at work: its components moved, and run for a cycle in which no controller is active.

ghost use Rattle.std.specs.Prelude.{◌<◌, length};

use crate::acts::{push_body, push_end};
use crate::starts::{push_component_list, push_interface_list};
use cm_document::{Checked, Description};
use cm_hardware::ResourceManager;
use cm_storage::FailedPart;
use fixed_num::BodyState;
use pages_calls::calls::life_of;
use pages_calls::described::checked_description;
use pages_cases::acts::{Player, hold_acts};
use pages_cases::pages::{halves, joined, push_parted};
use sequence::ListRoom;
use std::alloc::Global;
use std::test::Fail;

#[test]
fn hardware_moves_and_runs(rt: HostRuntime) -> Result<(), Fail> {
    hold_acts::<Robot>(rt.alloc(), TOP, ACTS)
}

/// What stands before the components of a case.
const TOP: &str = "version = 1\nupdate_rate = 100\ncycles = 1\n";

/// How long a cycle takes: ten milliseconds.
const CYCLE_US: u32 = 10_000;

/// A described robot, each of whose acts begins at its start: `move PLACE STATE` of a component, or `cycle N`. Behind
/// what became of it stand the components and what their interfaces hold then.
#[derive(Drop)]
struct Robot {
    checked: Checked,
}

impl Player for Robot {
    fn begin(alloc: Global, before: &str, head: &str) -> Result<Robot, Fail> {
        let text = joined(alloc, before, head)?;
        Ok(Robot {
            checked: checked_description(alloc, text.as_str())?,
        })
    }

    fn told(&mut self, alloc: Global, act: &str) -> Result<String, Fail> {
        let mut told = String::new(alloc);
        match act.strip_prefix("move ") {
            Some(rest) => moved(alloc, &mut told, &self.checked, rest)?,
            None => run(alloc, &mut told, &self.checked, act)?,
        }
        Ok(told)
    }
}

/// `PLACE STATE`: whether the component moved, and what stands then.
fn moved(alloc: Global, told: &mut String, checked: &Checked, rest: &str) -> Result<(), Fail> {
    let (place, state) = halves(rest, " ")?;
    let place = place.parse()?;
    if place as usize >= checked.description().components.as_slice().len() {
        return Err(Fail::new("no such component"));
    }
    let target = life_of(state)?;
    let mut hardware = ResourceManager::make(alloc, checked)?;
    let end = hardware.move_component(place, target);
    let listed = match push_end(told, end) {
        Ok(()) => push_lists(alloc, told, checked.description(), &hardware),
        Err(fail) => Err(fail),
    };
    drop(hardware);
    listed
}

/// `cycle N`: what failed, the bodies, and what stands then.
fn run(alloc: Global, told: &mut String, checked: &Checked, act: &str) -> Result<(), Fail> {
    let (_, number) = halves(act, " ")?;
    let number = number.parse()?;
    let mut hardware = ResourceManager::make(alloc, checked)?;
    let listed = match push_cycle(alloc, told, &mut hardware, number) {
        Ok(()) => push_lists(alloc, told, checked.description(), &hardware),
        Err(fail) => Err(fail),
    };
    drop(hardware);
    listed
}

/// Runs a cycle, and appends what failed and the bodies after it.
fn push_cycle(
    alloc: Global,
    told: &mut String,
    hardware: &mut ResourceManager,
    number: u64,
) -> Result<(), Fail> {
    let mut failed = ListRoom::with_room(alloc, hardware.most_failures())?;
    let mut bodies = ListRoom::with_room(alloc, hardware.joints())?;
    hardware.cycle(number, CYCLE_US, &mut failed, &mut bodies);
    push_failed(told, failed.as_slice())?;
    push_bodies(told, bodies.as_slice())
}

/// Appends each failure, a read or a write, with the place of its component.
fn push_failed(told: &mut String, failed: &[FailedPart]) -> Result<(), Fail> {
    for part in failed {
        push_parted(told, ", ", if part.reading { "read" } else { "write" })?;
        write!(told, " {}", part.place)?;
    }
    Ok(())
}

/// Appends where the body of each joint is.
fn push_bodies(told: &mut String, bodies: &[BodyState]) -> Result<(), Fail> {
    for body in bodies {
        push_body(told, ", ", body)?;
    }
    Ok(())
}

/// Appends the two lists, behind a bar each.
fn push_lists(
    alloc: Global,
    told: &mut String,
    description: &Description,
    hardware: &ResourceManager,
) -> Result<(), Fail> {
    told.push_str(" | ")?;
    push_component_list(alloc, told, description, hardware)?;
    told.push_str(" | ")?;
    push_interface_list(alloc, told, description, hardware)
}

/// A component moves from each state to each, but that one which is finalized stays so; while it can be read its state
/// interfaces hold numbers. A cycle reads those that are inactive or active, writes those that are active, and lets
/// every body go on that nobody commands: it stands. Who fails has its state on error then.
const ACTS: &str = r#"component = [
  { name = "arm", kind = "actuator", initial = "unconfigured", joint = [
    { name = "j", vmax = 1, position = 1, velocity = 3, command = ["position"], state = ["position", "velocity"] }] }]
move 0 unconfigured => ok | arm actuator unconfigured | state j/position unavailable; state j/velocity unavailable; \
command j/position unavailable
move 0 inactive => ok | arm actuator inactive | state j/position 1.000000; state j/velocity 3.000000; \
command j/position unset free
move 0 active => ok | arm actuator active | state j/position 1.000000; state j/velocity 3.000000; \
command j/position unset free
move 0 finalized => ok | arm actuator finalized | state j/position unavailable; state j/velocity unavailable; \
command j/position unavailable
cycle 0 => 1.000000 0.000000 0.000000 | arm actuator unconfigured | state j/position unavailable; \
state j/velocity unavailable; command j/position unavailable

component = [
  { name = "arm", kind = "actuator", fail_write = [4], joint = [
    { name = "j", vmax = 1, position = 1, velocity = 3, command = ["position"] }] },
  { name = "imu", kind = "sensor", on_error = "finalized", fail_read = [3, 4], joint = [
    { name = "k", vmax = 1, position = 2, state = ["position"] }] }]
move 0 inactive => ok | arm actuator inactive; imu sensor active | state k/position 2.000000; \
command j/position unset free
move 1 inactive => ok | arm actuator active; imu sensor inactive | state k/position 2.000000; \
command j/position unset free
move 1 active => ok | arm actuator active; imu sensor active | state k/position 2.000000; command j/position unset free
move 1 unconfigured => ok | arm actuator active; imu sensor unconfigured | state k/position unavailable; \
command j/position unset free
cycle 2 => 1.000000 0.000000 0.000000, 2.000000 0.000000 0.000000 | arm actuator active; imu sensor active | \
state k/position 2.000000; command j/position unset free
cycle 3 => read 1, 1.000000 0.000000 0.000000, 2.000000 0.000000 0.000000 | arm actuator active; \
imu sensor finalized | state k/position unavailable; command j/position unset free
cycle 4 => read 1, write 0, 1.000000 0.000000 0.000000, 2.000000 0.000000 0.000000 | \
arm actuator unconfigured; imu sensor finalized | state k/position unavailable; command j/position unavailable

component = [
  { name = "gone", kind = "system", initial = "finalized", fail_read = [0], fail_write = [0], joint = [
    { name = "j", vmax = 1, state = ["effort"] }] }]
move 0 finalized => ok | gone system finalized | state j/effort unavailable
move 0 unconfigured => no_such_move | gone system finalized | state j/effort unavailable
move 0 inactive => no_such_move | gone system finalized | state j/effort unavailable
move 0 active => no_such_move | gone system finalized | state j/effort unavailable
cycle 0 => 0.000000 0.000000 0.000000 | gone system finalized | state j/effort unavailable"#;
