//! All that is read of whole descriptions.

use crate::checks::in_words;
use crate::pages::Teller;
use cm_document::{CompDesc, CompKind, CtlDesc, Description, JointDesc, Params};
use desc_text::read_description;
use fixed_num::Fx;
use iface_names::Kind;
use std::alloc::Global;
use std::fmt::Display;
use std::test::Fail;

/// Shows all that is read of a description, a line for each table; or its first fault.
#[derive(Clone, Copy)]
pub(crate) struct Shows;

impl Teller for Shows {
    fn told(&self, alloc: Global, text: &str) -> Result<String, Fail> {
        match read_description(alloc, text.as_bytes()) {
            Ok(description) => {
                let shown = shown(alloc, &description);
                drop(description);
                shown
            }
            Err(fault) => in_words(alloc, fault),
        }
    }
}

/// All of a description, its lines parted by line feeds.
fn shown(alloc: Global, description: &Description) -> Result<String, Fail> {
    let mut text = String::new(alloc);
    push_top(&mut text, description)?;
    for component in description.components.as_slice() {
        push_component(&mut text, component)?;
    }
    push_controllers(&mut text, description.controllers.as_slice())?;
    Ok(text)
}

fn push_top(text: &mut String, description: &Description) -> Result<(), Fail> {
    let (version, rate) = (description.version, description.update_rate);
    write!(text, "{version} {rate} {}", description.cycles)?;
    Ok(())
}

/// A component in a line, and then its joints, each behind a line feed.
fn push_component(text: &mut String, component: &CompDesc) -> Result<(), Fail> {
    push_head(text, component)?;
    push_list(text, component.fail_read.as_slice())?;
    push_list(text, component.fail_write.as_slice())?;
    for joint in component.joints.as_slice() {
        push_joint(text, joint)?;
    }
    Ok(())
}

fn push_head(text: &mut String, component: &CompDesc) -> Result<(), Fail> {
    let name = component.name.as_str();
    write!(text, "\ncomponent {name} {}", kind_in_words(component.kind))?;
    write!(text, " {} {}", component.initial, component.on_error)?;
    Ok(())
}

fn kind_in_words(kind: CompKind) -> &'static str {
    match kind {
        CompKind::Sensor => "sensor",
        CompKind::Actuator => "actuator",
        CompKind::System => "system",
    }
}

/// A joint in one line, behind a line feed, its quantities in micro-units.
fn push_joint(text: &mut String, joint: &JointDesc) -> Result<(), Fail> {
    write!(text, "\njoint {}", joint.name)?;
    let (position, velocity) = (joint.position, joint.velocity);
    let quantities = [joint.vmax, joint.gain, joint.damping, position, velocity];
    push_quantities(text, &quantities)?;
    push_list(text, joint.commands.as_slice())?;
    push_list(text, joint.states.as_slice())
}

/// Some quantities in micro-units, each behind a space.
fn push_quantities(text: &mut String, quantities: &[Fx]) -> Result<(), Fail> {
    for quantity in quantities {
        push_quantity(text, quantity.micro())?;
    }
    Ok(())
}

fn push_quantity(text: &mut String, micro: i64) -> Result<(), Fail> {
    Ok(write!(text, " {micro}")?)
}

/// Some items in brackets, behind a space.
fn push_list<T: Display>(text: &mut String, items: &[T]) -> Result<(), Fail> {
    text.push_str(" [")?;
    for (index, item) in items.iter().enumerate() {
        if index > 0 {
            text.push_str(" ")?;
        }
        write!(text, "{item}")?;
    }
    text.push_str("]")?;
    Ok(())
}

fn push_controllers(text: &mut String, controllers: &[CtlDesc]) -> Result<(), Fail> {
    for controller in controllers {
        push_controller(text, controller)?;
    }
    Ok(())
}

/// A controller in one line, behind a line feed.
fn push_controller(text: &mut String, controller: &CtlDesc) -> Result<(), Fail> {
    let (name, rate) = (controller.name.as_str(), controller.rate);
    write!(text, "\ncontroller {name} {rate}")?;
    push_list(text, controller.claims.as_slice())?;
    push_list(text, controller.reads())?;
    push_params(text, &controller.params)
}

/// A controller's parameters, its gains in micro-units.
fn push_params(text: &mut String, params: &Params) -> Result<(), Fail> {
    match params {
        Params::Forward { outs } => push_counted(text, "forward", *outs),
        Params::Passthrough { outs } => push_counted(text, "passthrough", *outs),
        Params::Trajectory { outs } => push_counted(text, "trajectory", *outs),
        Params::Broadcaster { ins } => push_counted(text, "broadcaster", *ins),
        Params::Pid {
            kp,
            ki,
            kd,
            imax,
            omax,
        } => push_measured(text, "pid", &[*kp, *ki, *kd, *imax, *omax]),
        Params::Mock {
            outs,
            refuse_config,
            not_ready,
            fail_update,
        } => {
            write!(text, " mock {outs} {refuse_config}")?;
            push_cycles(text, not_ready.as_slice(), fail_update.as_slice())
        }
        shaping => push_shaping(text, shaping),
    }
}

/// A type, and how many claims or reads it has.
fn push_counted(text: &mut String, name: &str, count: u32) -> Result<(), Fail> {
    Ok(write!(text, " {name} {count}")?)
}

/// A type and its quantities.
fn push_measured(text: &mut String, name: &str, quantities: &[Fx]) -> Result<(), Fail> {
    write!(text, " {name}")?;
    push_quantities(text, quantities)
}

/// The cycles before which a mock is not ready, and those in which its update fails.
fn push_cycles<T: Display>(text: &mut String, not_ready: &[T], failing: &[T]) -> Result<(), Fail> {
    push_list(text, not_ready)?;
    push_list(text, failing)
}

/// The parameters of a controller that shapes commands, its quantities in micro-units.
fn push_shaping(text: &mut String, params: &Params) -> Result<(), Fail> {
    match params {
        Params::Transmission {
            kind,
            reduction,
            offset,
        } => push_transmission(text, "transmission", *kind, &[*reduction, *offset]),
        Params::Differential {
            kind,
            reduction1,
            reduction2,
            offset1,
            offset2,
        } => {
            let quantities = [*reduction1, *reduction2, *offset1, *offset2];
            push_transmission(text, "differential", *kind, &quantities)
        }
        Params::Limiter {
            min,
            max,
            vmax,
            amax,
        } => push_measured(text, "limiter", &[*min, *max, *vmax, *amax]),
        _ => Ok(()),
    }
}

/// A type, the kind of what it claims, and its quantities.
fn push_transmission(
    text: &mut String,
    name: &str,
    kind: Kind,
    quantities: &[Fx],
) -> Result<(), Fail> {
    write!(text, " {name} {kind}")?;
    push_quantities(text, quantities)
}
