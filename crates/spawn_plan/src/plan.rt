//! The plan of a start.

ghost use Rattle.std.specs.Prelude.{◌<◌, length, All};
ghost use Rattle.sequence.specs.Answers.{Answers};
ghost use Rattle.spawn_plan.specs.Plan.{spawned, start_together};
ghost use Rattle.spawn_plan.specs.Wanted.{AreWanted};

use crate::fault::SpawnFault;
use crate::fitting::start_of;
use crate::never::can_be_active;
use crate::starting::starting;
use crate::wanted::{can_be_configured, each_once, have_blanks, places_in};
use cm_document::{Checked, Script};
use cm_model::Blanks;
use iface_names::Name;
use std::alloc::Global;
use switch_plan::Relations;

/// The script that brings exactly the wanted controllers to active, over a stock of these blanks, with the first cycle
/// in which they can start; or the first reason why there is none. It takes time in proportion to the description, and
/// runs nothing.
#[tactic(auto, unfolding(crate::specs::Plan::spawned))]
pub fn spawn(
    alloc: Global,
    checked: &Checked,
    blanks: &Blanks,
    wanted: &[Name],
) -> Result<Script, SpawnFault>
    ensures { Answers SpawnFault.Memory (spawned checked.now blanks.now wanted.now) result }
{
    let controllers = checked.description().controllers.as_slice();
    let places = places_in(alloc, checked, wanted)?;
    each_once(wanted)?;
    have_blanks(controllers, blanks, places.as_slice())?;
    can_be_configured(controllers, places.as_slice())?;
    let cycle = start_together(alloc, checked, wanted, places.as_slice())?;
    let script = starting(alloc, wanted, cycle)?;
    Ok(script)
}

/// The cycle with which these start together; or why they never do.
fn start_together(
    alloc: Global,
    checked: &Checked,
    wanted: &[Name],
    places: &[u32],
) -> Result<u64, SpawnFault>
    requires within { All (λ place. place < length checked.now.controllers) places.now }
    requires wanted { AreWanted checked.now.controllers wanted.now places.now }
    ensures { Answers SpawnFault.Memory (start_together checked.now places.now) result }
{
    let relations = Relations::of(alloc, checked)?;
    can_be_active(alloc, checked, &relations, wanted, places)?;
    start_of(alloc, checked, &relations, places)
}
