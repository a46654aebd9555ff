//! The parts of a cycle, of what a flight owns: it begins, the cells of a depth read and give out, it ends, and it is
//! settled who stops.

ghost use Rattle.std.specs.Prelude.{◌≡◌, ◌≤◌, [], true, false, map, length, vec_len, vec_capacity, is_some, IsSomeAnd};
ghost use Rattle.std.specs.List.{AllByRecursion};
ghost use Rattle.cm_model.specs.State.{State};
ghost use Rattle.cm_hardware.specs.Wiring.{all_joints, most_failures, writes_to_fail};
ghost use Rattle.cm_slots.specs.Updates.{IsTimely};
ghost use Rattle.joint_body.specs.declared.TheConstants.{LONGEST_STEP};
ghost use Rattle.stop_plan.specs.Ending.{HasFlags};
ghost use Rattle.rt_flight.specs.Calls.Cells.{CanPutAll, LeavesPut};
ghost use Rattle.rt_flight.specs.Calls.Cycles.{IsQuiet, Decides};
ghost use Rattle.rt_flight.specs.Calls.Turns.{Begins, HasRead, HasWritten, PutsIn, Scatters, IsEnding, Ends};
ghost use Rattle.rt_flight.specs.Cells.{cell_read, flying, all_put, all_outs, all_numbers, CanFly};
ghost use Rattle.rt_flight.specs.Flights.{CanSettle, IsAloftOver};
ghost use Rattle.rt_flight.specs.Progress.{round_in};
ghost use Rattle.rt_flight.specs.UnderWay.{HasBegunOf, IsFresh};

use crate::cell::Cell;
use crate::cells::{gather_all, scatter_all};
use crate::context::CycleContext;
use crate::depths::set_depths;
use crate::robot::Robot;
use crate::round::Round;
use crate::telling::told;
use cm_model::Member;
use cm_storage::{FailedPart, RecordRoom};
use ctl_trait::Controller;
use stop_plan::{Ending, Report};
use switch_plan::Relations;

/// The cycle of this number begins: the components are read, and the depths of the cells are put down. It answers how
/// many depths there are, and takes no memory.
pub(crate) fn begin_turns<C: Controller>(
    number: u64,
    cells: &mut [Cell<C>],
    context: &mut CycleContext,
) -> u32
    requires { IsFresh number cells.old context.old }
    ensures begins { Begins number cells.old cells.new context.old context.new result }
    ensures under_way { (s : State) → IsAloftOver s number cells.old context.old.robot
        → HasBegunOf s number cells.new context.new }
{
    let Some(room) = &mut context.room else {
        unreachable!();
    };
    read_components(number, &mut context.robot, room);
    set_depths(cells, &context.robot.relations)
}

/// The components are read. It takes no memory.
fn read_components(number: u64, robot: &mut Robot, room: &mut RecordRoom)
    requires { most_failures robot.old.hardware.components ≤ room.old.failed.room }
    ensures { HasRead number robot.old robot.new room.old room.new }
{
    robot.hardware.read(number, &mut room.failed);
}

/// These cells read. It takes no memory.
pub(crate) fn gather_these<C: Controller>(
    number: u64,
    cells: &mut [Cell<C>],
    context: &CycleContext,
)
    requires room { is_some context.now.room ≡ true }
    requires timely { IsTimely (round_in number context.now) }
    requires can { AllByRecursion
        (CanFly context.now.robot.places context.now.robot.relations context.now.robot.period_us
        (length context.now.robot.hardware.loans)) cells.old }
    ensures { cells.new ≡ map (cell_read (round_in number context.now) context.now.robot.hardware.loans) cells.old }
{
    let Some(room) = &context.room else {
        unreachable!();
    };
    let round = Round {
        number,
        period_us: context.robot.period_us,
        places: &context.robot.places,
        relations: &context.robot.relations,
        failed: room.failed.as_slice(),
    };
    gather_all(cells, &round, &context.robot.hardware);
}

/// What these cells came to is put into their claims, and told. It takes no memory.
pub(crate) fn scatter_these<C: Controller>(cells: &mut [Cell<C>], context: &mut CycleContext)
    requires { IsSomeAnd context.old.room
        (λ r. CanPutAll context.old.robot.places (length context.old.robot.hardware.loans) cells.old r.ran
        (vec_len context.old.erred) (vec_capacity context.old.erred)) }
    ensures { Scatters cells.old cells.new context.old context.new }
{
    let Some(room) = &mut context.room else {
        unreachable!();
    };
    scatter_in(cells, &mut context.robot, room, &mut context.erred);
}

/// The same, over a robot, with room for who ran and for whose update failed.
fn scatter_in<C: Controller>(
    cells: &mut [Cell<C>],
    robot: &mut Robot,
    room: &mut RecordRoom,
    erred: &mut Vec<u32>,
)
    requires { CanPutAll robot.old.places (length robot.old.hardware.loans) cells.old room.old.ran (vec_len erred.old)
        (vec_capacity erred.old) }
    ensures put { PutsIn cells.old cells.new robot.old robot.new room.old room.new }
    ensures flying { flying robot.new.hardware room.new.ran.rans erred.new.items
        ≡ all_put robot.old.places cells.old
        (flying robot.old.hardware room.old.ran.rans erred.old.items) }
    ensures leaves { LeavesPut (length cells.old) (all_outs cells.old) (all_numbers cells.old)
        (length robot.old.hardware.loans) (length robot.new.hardware.loans) room.old.ran room.new.ran
        (vec_len erred.old) (vec_len erred.new) (vec_capacity erred.old) (vec_capacity erred.new) }
{
    scatter_all(
        cells,
        &robot.places,
        &mut robot.hardware,
        &mut room.ran,
        erred,
    );
}

/// The cycle of this number ends: the writes and the steps of the bodies; the components that failed go to their states
/// on error; it is settled who stops; and all of it is told. It takes no memory.
pub(crate) fn end_turns<C: Controller>(number: u64, cells: &[Cell<C>], context: &mut CycleContext)
    requires { IsEnding number cells.now context.old }
    ensures { Ends number cells.now context.old context.new }
{
    let flies = !cells.is_empty();
    let Some(room) = &mut context.room else {
        unreachable!();
    };
    write_components(number, &mut context.robot, room);
    context.has_failed = settle(
        &mut context.ending,
        &context.order,
        &context.robot.relations,
        &context.erred,
        room,
    );
    context.robot.hardware.show(&mut context.lists);
    context.record = Some(told(
        number,
        flies,
        &mut context.room,
        &mut context.left_over,
        &mut context.standing,
    ));
}

/// The components are written and the bodies step; those that failed go to their states on error. It takes no memory.
fn write_components(number: u64, robot: &mut Robot, room: &mut RecordRoom)
    requires time { (1 ≤ robot.old.period_us) × (robot.old.period_us ≤ LONGEST_STEP) }
    requires failures { writes_to_fail number robot.old.hardware.components ≤ room.old.failed.room }
    requires joints { all_joints robot.old.hardware.components ≤ room.old.bodies.room }
    ensures { HasWritten number robot.old robot.new room.old room.new }
{
    robot.hardware.finish(number, robot.period_us, &mut room.failed, &mut room.bodies);
}

/// Who stops at the end of a cycle of these controllers, where a component or an update failed; it answers whether one
/// did. It takes no memory.
pub(crate) fn settle(
    ending: &mut Ending,
    order: &[Member],
    relations: &Relations,
    erred: &[u32],
    room: &mut RecordRoom,
) -> bool
    requires can { CanSettle relations.now order.now room.old }
    requires flags { HasFlags (length relations.now.leaders) ending.old }
    ensures quiet { result ≡ false → IsQuiet erred.now room.old room.new ending.old ending.new }
    ensures decided { result ≡ true → Decides relations.now order.now erred.now room.old room.new ending.new }
{
    if !has_failed(room.failed.as_slice(), erred) {
        return false;
    }
    decide(ending, order, relations, erred, room);
    true
}

/// Whether a component or an update failed.
fn has_failed(failed: &[FailedPart], erred: &[u32]) -> bool
    ensures { result ≡ false → (failed.now ≡ []) × (erred.now ≡ []) }
{
    !failed.is_empty() || !erred.is_empty()
}

/// The same, where a component or an update failed.
fn decide(
    ending: &mut Ending,
    order: &[Member],
    relations: &Relations,
    erred: &[u32],
    room: &mut RecordRoom,
)
    requires can { CanSettle relations.now order.now room.old }
    requires flags { HasFlags (length relations.now.leaders) ending.old }
    ensures { Decides relations.now order.now erred.now room.old room.new ending.new }
{
    let report = Report {
        relations,
        order,
        failed: room.failed.as_slice(),
        erred,
    };
    ending.decide(&report, &mut room.stops);
}
