//! Hardware at start, as its two lists tell it: components in every lifecycle state, of several joints and kinds.

use crate::acts::push_value;
use cm_document::{Checked, CompDesc, CtlDesc, Description, JointDesc};
use cm_hardware::ResourceManager;
use cm_model::{CompLine, IfaceLine};
use iface_names::{IfaceName, Kind, Name};
use pages_calls::described::checked_description;
use pages_cases::largest::AT_ALL_LIMITS;
use pages_cases::pages::{Teller, hold};
use std::alloc::Global;
use std::test::Fail;

#[test]
fn hardware_starts_as_described(rt: HostRuntime) -> Result<(), Fail> {
    let alloc = rt.alloc();
    hold(alloc, &Lists, TOP, STARTS)?;
    hold(alloc, &Counts, AT_ALL_LIMITS, LARGEST)
}

/// What is told of the largest description: of its 288 interfaces the 96 references are not available.
const LARGEST: &str = "=> 16 components, 192 of 288 interfaces available";

/// What stands before the components and controllers of a case.
const TOP: &str = "version = 1\nupdate_rate = 100\ncycles = 1\n";

/// Tells the list of components in a line, and the list of interfaces in the next, as replies print them.
#[derive(Clone, Copy)]
struct Lists;

impl Teller for Lists {
    fn told(&self, alloc: Global, text: &str) -> Result<String, Fail> {
        lists_of(alloc, &checked_description(alloc, text)?)
    }
}

fn lists_of(alloc: Global, checked: &Checked) -> Result<String, Fail> {
    let hardware = ResourceManager::make(alloc, checked)?;
    told_of(alloc, checked.description(), &hardware)
}

fn told_of(
    alloc: Global,
    description: &Description,
    hardware: &ResourceManager,
) -> Result<String, Fail> {
    let mut told = String::new(alloc);
    push_component_list(alloc, &mut told, description, hardware)?;
    told.push_str("\n")?;
    push_interface_list(alloc, &mut told, description, hardware)?;
    Ok(told)
}

/// Appends the list of components.
pub(crate) fn push_component_list(
    alloc: Global,
    told: &mut String,
    description: &Description,
    hardware: &ResourceManager,
) -> Result<(), Fail> {
    let lines = hardware.component_lines(alloc)?;
    push_components(told, description, lines.as_slice())
}

/// Appends the list of interfaces.
pub(crate) fn push_interface_list(
    alloc: Global,
    told: &mut String,
    description: &Description,
    hardware: &ResourceManager,
) -> Result<(), Fail> {
    let names = names_of(alloc, description)?;
    let lines = hardware.interface_lines(alloc)?;
    push_interfaces(told, names.as_slice(), lines.as_slice())
}

/// Tells how many components there are, and how many of the interfaces are available.
#[derive(Clone, Copy)]
struct Counts;

impl Teller for Counts {
    fn told(&self, alloc: Global, text: &str) -> Result<String, Fail> {
        counts_of(alloc, &checked_description(alloc, text)?)
    }
}

fn counts_of(alloc: Global, checked: &Checked) -> Result<String, Fail> {
    let hardware = ResourceManager::make(alloc, checked)?;
    let components = hardware.component_lines(alloc)?;
    let interfaces = hardware.interface_lines(alloc)?;
    counted(alloc, components.as_slice(), interfaces.as_slice())
}

fn counted(
    alloc: Global,
    components: &[CompLine],
    interfaces: &[IfaceLine],
) -> Result<String, Fail> {
    let available = interfaces.iter().filter(|line| line.available).count();
    let (components, all) = (components.len(), interfaces.len());
    Ok(format!(in alloc; "{components} components, {available} of {all} interfaces available")?)
}

/// Appends each component with its kind and its lifecycle state.
fn push_components(
    told: &mut String,
    description: &Description,
    lines: &[CompLine],
) -> Result<(), Fail> {
    if lines.is_empty() {
        told.push_str("none")?;
    }
    for (index, line) in lines.iter().enumerate() {
        push_separator(told, index)?;
        push_component(told, description.components.as_slice(), line)?;
    }
    Ok(())
}

/// Appends what parts an item from the one before it.
fn push_separator(told: &mut String, index: usize) -> Result<(), Fail> {
    if index > 0 {
        told.push_str("; ")?;
    }
    Ok(())
}

fn push_component(told: &mut String, components: &[CompDesc], line: &CompLine) -> Result<(), Fail> {
    let described = components.get(line.place as usize);
    let described = described.ok_or("no such component")?;
    let (name, kind, life) = (&described.name, described.kind, line.life);
    write!(told, "{name} {kind} {life}")?;
    Ok(())
}

/// Appends each interface with what it holds.
fn push_interfaces(told: &mut String, names: &[String], lines: &[IfaceLine]) -> Result<(), Fail> {
    if lines.is_empty() {
        told.push_str("none")?;
    }
    for (index, line) in lines.iter().enumerate() {
        push_separator(told, index)?;
        push_interface(told, names, line)?;
    }
    Ok(())
}

fn push_interface(told: &mut String, names: &[String], line: &IfaceLine) -> Result<(), Fail> {
    let name = names.get(line.place as usize).ok_or("no such interface")?;
    let side = if line.command { "command" } else { "state" };
    write!(told, "{side} {name}")?;
    push_held(told, line)
}

/// What the interface holds and, of a command interface, who claims it; or that it is not available.
fn push_held(told: &mut String, line: &IfaceLine) -> Result<(), Fail> {
    if !line.available {
        told.push_str(" unavailable")?;
        return Ok(());
    }
    push_value(told, &line.value.get())?;
    match line.owner {
        Some(serial) => write!(told, " {serial}")?,
        None if line.command => told.push_str(" free")?,
        None => {}
    }
    Ok(())
}

/// What the interfaces are called, by place: states first, then commands, then references.
fn names_of(alloc: Global, description: &Description) -> Result<Vec<String>, Fail> {
    let mut names = Vec::new(alloc);
    let components = description.components.as_slice();
    push_side(alloc, &mut names, components, false)?;
    push_side(alloc, &mut names, components, true)?;
    push_references(alloc, &mut names, description.controllers.as_slice())?;
    Ok(names)
}

/// The commands of these components, or their states.
fn push_side(
    alloc: Global,
    names: &mut Vec<String>,
    components: &[CompDesc],
    is_command: bool,
) -> Result<(), Fail> {
    for component in components {
        push_joints(alloc, names, component.joints.as_slice(), is_command)?;
    }
    Ok(())
}

fn push_joints(
    alloc: Global,
    names: &mut Vec<String>,
    joints: &[JointDesc],
    is_command: bool,
) -> Result<(), Fail> {
    for joint in joints {
        push_kinds(alloc, names, joint, joint.kinds(is_command))?;
    }
    Ok(())
}

fn push_references(
    alloc: Global,
    names: &mut Vec<String>,
    controllers: &[CtlDesc],
) -> Result<(), Fail> {
    for controller in controllers {
        push_exported(alloc, names, controller)?;
    }
    Ok(())
}

fn push_exported(alloc: Global, names: &mut Vec<String>, controller: &CtlDesc) -> Result<(), Fail> {
    for interface in controller.exported_for() {
        names.push(reference_for(alloc, &controller.name, interface)?)?;
    }
    Ok(())
}

/// A reference is called by its controller, and then by the joint and the kind of what it stands for.
fn reference_for(alloc: Global, controller: &Name, interface: &IfaceName) -> Result<String, Fail> {
    match interface {
        IfaceName::Joint { joint, kind } | IfaceName::Reference { joint, kind, .. } => {
            Ok(format!(in alloc; "{controller}/{joint}/{kind}")?)
        }
    }
}

fn push_kinds(
    alloc: Global,
    names: &mut Vec<String>,
    joint: &JointDesc,
    kinds: &[Kind],
) -> Result<(), Fail> {
    for kind in kinds {
        names.push(format!(in alloc; "{}/{kind}", joint.name)?)?;
    }
    Ok(())
}

/// Components in each lifecycle state, joints of several kinds and none, and references, which no active controller
/// exports.
const STARTS: &str = r#"component = []
=> none
none

[[component]]
name = "imu"
kind = "sensor"
joint = [{ name = "tilt", vmax = 1, position = "0.25", velocity = "-1.5", state = ["velocity", "position", "effort"] }]
=> imu sensor active
state tilt/velocity -1.500000; state tilt/position 0.250000; state tilt/effort 0.000000

component = [
  { name = "off", kind = "actuator", initial = "unconfigured", joint = [
    { name = "a", vmax = 1, position = 1, command = ["position"], state = ["position"] }] },
  { name = "idle", kind = "actuator", initial = "inactive", joint = [
    { name = "b", vmax = 1, position = 2, command = ["position"], state = ["position"] }] },
  { name = "on", kind = "actuator", initial = "active", joint = [
    { name = "c", vmax = 1, position = 3, command = ["position"], state = ["position"] }] },
  { name = "gone", kind = "actuator", initial = "finalized", joint = [
    { name = "d", vmax = 1, position = 4, command = ["position"], state = ["position"] }] }]
=> off actuator unconfigured; idle actuator inactive; on actuator active; gone actuator finalized
state a/position unavailable; state b/position 2.000000; state c/position 3.000000; state d/position unavailable; \
command a/position unavailable; command b/position unset free; command c/position unset free; \
command d/position unavailable

component = [
  { name = "arm", kind = "system", fail_read = [0], fail_write = [0], joint = [
    { name = "j1", vmax = 1, position = "0.5", velocity = 2, command = ["velocity", "position"],
      state = ["position", "velocity"] },
    { name = "j2", vmax = 1, position = 5, command = ["effort"] },
    { name = "j3", vmax = 1, position = "-0.125", velocity = 7, state = ["effort", "position"] }] },
  { name = "bare", kind = "system", joint = [{ name = "k", vmax = 1, position = 6 }] },
  { name = "off", kind = "system", initial = "finalized", on_error = "finalized", joint = [
    { name = "l1", vmax = 1, position = 9, command = ["effort", "position"], state = ["position"] },
    { name = "l2", vmax = 1, velocity = 9, command = ["velocity"], state = ["velocity"] }] },
  { name = "imu", kind = "sensor", initial = "inactive", joint = [
    { name = "m", vmax = 0, velocity = "0.000001", state = ["velocity"] }] }]
controller = [
  { name = "pid1", type = "pid", claims = ["j1/velocity"], reads = ["j1/position"] },
  { name = "hold", type = "forward", claims = ["j1/position"] },
  { name = "both", type = "passthrough", claims = ["j2/effort", "pid1/j1/position"] }]
=> arm system active; bare system active; off system finalized; imu sensor inactive
state j1/position 0.500000; state j1/velocity 2.000000; state j3/effort 0.000000; state j3/position -0.125000; \
state l1/position unavailable; state l2/velocity unavailable; state m/velocity 0.000001; \
command j1/velocity unset free; command j1/position unset free; command j2/effort unset free; \
command l1/effort unavailable; command l1/position unavailable; command l2/velocity unavailable; \
command pid1/j1/position unavailable; command both/j2/effort unavailable; command both/j1/position unavailable"#;
