//! What there is before the first cycle.

ghost use Rattle.std.specs.Prelude.{◌≡◌, ◌≤◌, length, IfOk};
ghost use Rattle.joint_body.specs.declared.TheConstants.{LONGEST_STEP};
ghost use Rattle.cm_model.specs.Cycle.{period};
ghost use Rattle.cm_resources.specs.CycleResources.{IsAtStart, IsContextAtStart, IsIdle, IsRobotAtStart};
ghost use Rattle.cm_resources.specs.ActiveSet.{IsOfNobody};

use crate::active_set::ActiveSet;
use crate::resources::CycleResources;
use cm_document::Checked;
use cm_hardware::{Lists, ResourceManager};
use cm_model::SECOND_US;
use cm_places::CtlPlaces;
use cm_storage::Standing;
use fixed_num::Memory;
use rt_flight::{CycleContext, Robot};
use std::alloc::Global;
use stop_plan::Ending;
use switch_plan::Relations;

/// What changes with the cycles, before the first of them.
#[derive(Drop)]
pub struct AtStart {
    pub resources: CycleResources,
    pub active_set: ActiveSet,
}

/// The hardware at start, with nobody active, and sets with a flag for each described controller.
pub fn at_start(alloc: Global, checked: &Checked) -> Result<AtStart, Memory>
    ensures resources { IfOk result (λ all. IsAtStart checked.now all.resources) }
    ensures active_set { IfOk result (λ all. IsOfNobody (length checked.now.controllers) all.active_set) }
{
    let count = checked.description().controllers.as_slice().len();
    let ending = Ending::make(alloc, count)?;
    let active_set = ActiveSet::none(alloc, count)?;
    Ok(AtStart {
        resources: CycleResources::make(alloc, checked, ending)?,
        active_set,
    })
}

/// What works in cycles, before the first one: the robot of a description, these sets of the end, and room for the
/// lists of the hardware.
pub(crate) fn context_at_start(
    alloc: Global,
    checked: &Checked,
    ending: Ending,
) -> Result<Box<CycleContext>, Memory>
    ensures { IfOk result (λ context. IsContextAtStart checked.now ending context.value) }
{
    let robot = robot_at_start(alloc, checked)?;
    let lists = robot.hardware.room_for_lists(alloc)?;
    let context = Box::new(alloc, idle(alloc, robot, ending, lists))?;
    Ok(context)
}

/// The hardware of a description at start, with what is worked out of it.
fn robot_at_start(alloc: Global, checked: &Checked) -> Result<Robot, Memory>
    ensures { IfOk result (IsRobotAtStart checked.now) }
{
    let hardware = ResourceManager::make(alloc, checked)?;
    let places = CtlPlaces::of(alloc, checked)?;
    let relations = Relations::of(alloc, checked)?;
    Ok(Robot {
        hardware,
        places,
        relations,
        period_us: period_us(checked),
    })
}

/// What works in a cycle, before the first one.
fn idle(alloc: Global, robot: Robot, ending: Ending, lists: Lists) -> CycleContext
    ensures { IsIdle robot ending lists result }
{
    CycleContext {
        robot,
        ending,
        lists,
        order: Vec::new(alloc),
        erred: Vec::new(alloc),
        has_failed: false,
        room: None,
        record: None,
        left_over: None,
        standing: Standing::none(alloc),
    }
}

/// The time from one cycle to the next, in microseconds.
#[tactic(auto, using(hw_component::proofs::MakingLemmas::valid_period, cm_document::proofs::ValidParts::described_rate_is_some))]
fn period_us(checked: &Checked) -> u32
    ensures period { result ≡ period checked.now }
    ensures some_time { 1 ≤ result }
    ensures no_longer { result ≤ LONGEST_STEP }
{
    SECOND_US / checked.description().update_rate
}
