//! What was not done as asked, or went wrong, in the order in which it happened.

use crate::links::ControllerLinks;
use crate::present::Present;
use cm_document::{CompDesc, CtlDesc, Description, Life};
use cm_storage::{CycleRecord, Done, FailedPart};
use draw_causes::{Failure, StopKind};
use fixed_num::Memory;
use iface_names::{IfaceName, Name};

/// Something that was not done as asked, or went wrong.
#[derive(Clone, Copy)]
pub enum Incident<'a> {
    /// A call that did nothing, or a request that was not wholly carried out: its place among all that were answered.
    Answered(usize),
    /// A part of a controller or a component failed.
    Failed {
        /// The cycle.
        cycle: u64,
        /// The controller or the component.
        name: &'a Name,
        /// What failed of it.
        failure: Failure,
    },
    /// A controller was stopped.
    Stopped {
        /// The cycle at whose end it was.
        cycle: u64,
        /// The controller.
        name: &'a Name,
        /// Why it was stopped.
        kind: StopKind,
        /// The component or the controller because of which it was: its own name if its own update failed.
        because_of: &'a Name,
    },
}

/// Appends what went wrong in a cycle: what failed, then who was stopped.
pub fn push_incidents<'a>(
    incidents: &mut Vec<Incident<'a>>,
    present: &Present<'a>,
    record: &CycleRecord,
) -> Result<(), Memory> {
    push_failed_parts(incidents, present.description, record)?;
    push_failed_updates(incidents, present, record)?;
    push_stops(incidents, present, record)
}

/// Appends the reads and writes that failed.
fn push_failed_parts<'a>(
    incidents: &mut Vec<Incident<'a>>,
    description: &'a Description,
    record: &CycleRecord,
) -> Result<(), Memory> {
    let components = description.components.as_slice();
    for part in record.failed() {
        if let Some(component) = components.get(part.place as usize) {
            let failure = if part.reading {
                Failure::Read
            } else {
                Failure::Write
            };
            incidents.push(Incident::Failed {
                cycle: record.cycle(),
                name: &component.name,
                failure,
            })?;
        }
    }
    Ok(())
}

/// Appends the updates that failed.
fn push_failed_updates<'a>(
    incidents: &mut Vec<Incident<'a>>,
    present: &Present<'a>,
    record: &CycleRecord,
) -> Result<(), Memory> {
    for ran in record.ran() {
        if ran.done == Done::Error {
            if let Some(controller) = present.controller_of(ran.serial) {
                incidents.push(Incident::Failed {
                    cycle: record.cycle(),
                    name: &controller.name,
                    failure: Failure::Update,
                })?;
            }
        }
    }
    Ok(())
}

/// Appends the controllers that were stopped.
fn push_stops<'a>(
    incidents: &mut Vec<Incident<'a>>,
    present: &Present<'a>,
    record: &CycleRecord,
) -> Result<(), Memory> {
    for serial in record.stops() {
        if let Some(controller) = present.controller_of(*serial) {
            let (kind, because_of) = cause_of(present, record, *serial, controller);
            incidents.push(Incident::Stopped {
                cycle: record.cycle(),
                name: &controller.name,
                kind,
                because_of,
            })?;
        }
    }
    Ok(())
}

/// Why a controller was stopped, and because of what. A component that failed comes first, because it has to come back
/// first.
fn cause_of<'a>(
    present: &Present<'a>,
    record: &CycleRecord,
    serial: u32,
    controller: &'a CtlDesc,
) -> (StopKind, &'a Name) {
    let components = present.description.components.as_slice();
    if let Some(component) = failed_of(components, record.failed(), controller) {
        return (kind_of(component.on_error), &component.name);
    }
    if update_failed(record, serial) {
        return (StopKind::Update, &controller.name);
    }
    let follower = present
        .links_of(serial)
        .and_then(|links| stopped_follower(present, record.stops(), links));
    (StopKind::Follower, follower.unwrap_or(&controller.name))
}

/// Why a controller was stopped that uses a component which failed, and came to this lifecycle state.
fn kind_of(on_error: Life) -> StopKind {
    match on_error {
        Life::Finalized => StopKind::Finalized,
        _ => StopKind::Component,
    }
}

/// Whether the update of the controller with this serial failed.
fn update_failed(record: &CycleRecord, serial: u32) -> bool {
    for ran in record.ran() {
        if ran.serial == serial && ran.done == Done::Error {
            return true;
        }
    }
    false
}

/// The first failed component of which a controller claims or reads an interface.
fn failed_of<'a>(
    components: &'a [CompDesc],
    failed: &[FailedPart],
    controller: &CtlDesc,
) -> Option<&'a CompDesc> {
    for part in failed {
        if let Some(component) = components.get(part.place as usize) {
            if has_any(component, controller.claims.as_slice())
                || has_any(component, controller.reads())
            {
                return Some(component);
            }
        }
    }
    None
}

/// Whether one of these interfaces is of a joint of this component.
fn has_any(component: &CompDesc, interfaces: &[IfaceName]) -> bool {
    interfaces.iter().any(|interface| has(component, interface))
}

/// Whether an interface is of a joint of this component.
fn has(component: &CompDesc, interface: &IfaceName) -> bool {
    match interface {
        IfaceName::Joint { joint, .. } => component
            .joints
            .as_slice()
            .iter()
            .any(|it| it.name == *joint),
        IfaceName::Reference { .. } => false,
    }
}

/// The first controller that was stopped of which these links claim a reference.
fn stopped_follower<'a>(
    present: &Present<'a>,
    stops: &[u32],
    links: &ControllerLinks,
) -> Option<&'a Name> {
    for claim in &links.claims {
        if claim.follower.is_some() {
            let stopped = stops
                .iter()
                .any(|serial| present.place_of(*serial) == claim.follower);
            if stopped {
                return present.name_at(claim.follower);
            }
        }
    }
    None
}
