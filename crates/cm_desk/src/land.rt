//! The landing of a flight: its boxes and what worked in it come home, and those that failed are stopped.

ghost use Rattle.std.specs.Prelude.{◌≡◌, ◌+◌, ◌<◌, Some, vec_capacity};
ghost use Rattle.cm_model.specs.Cycle.{cycle, after_cycle};
ghost use Rattle.cm_model.specs.State.{State};
ghost use Rattle.cm_desk.specs.End.{CanLand, CanComeHome, HasComeHome, CanSettle, HasSettled, IsSettledIn};
ghost use Rattle.cm_resources.specs.Commits.{KeepsRest};

use crate::filling::empty_cells;
use crate::works::Works;
use cm_resources::{ActiveSet, CycleResources, commit};
use cm_slots::{Room, Slots};
use cm_storage::CycleRecord;
use ctl_trait::Controller;
use rt_flight::{Cell, CycleContext, Flight, Landing};

impl<C: Controller> Works<C> {
    /// The flight of the cycle that is aloft comes home, and the cycle ends with what happened in it. It takes no
    /// memory.
    pub fn land(&mut self, flight: Flight<C>) -> CycleRecord
        requires { CanLand self.old flight }
        ensures after { self.new ≡ after_cycle self.old (cycle self.old) }
        ensures told { result ≡ (cycle self.old).happened }
    {
        let record = bring_home(
            &mut self.slots,
            &mut self.active_set,
            &mut self.resources,
            &mut self.boxes,
            &mut self.cells,
            flight,
        );
        self.ended = one_more(self.ended, self.checked.description().cycles);
        record
    }
}

/// What a flight brings home comes to its place: the workspaces and the boxes, what the controllers worked on, and the
/// lists, for the next cycle. Those that failed are stopped, with those that precede them, where there are any. It
/// hands out the record. It takes no memory.
fn bring_home<C: Controller>(
    slots: &mut Slots<C>,
    active_set: &mut ActiveSet,
    resources: &mut CycleResources,
    boxes: &mut Vec<C>,
    places: &mut Vec<Cell<C>>,
    flight: Flight<C>,
) -> CycleRecord
    requires { (s : State) × CanComeHome s slots.old active_set.old resources.old (vec_capacity boxes.old) flight }
    ensures home { (s : State) → CanComeHome s slots.old active_set.old resources.old (vec_capacity boxes.old) flight
        → HasComeHome s slots.old slots.new active_set.new resources.old resources.new flight }
    ensures told { Some result ≡ flight.outcome }
    ensures room { vec_capacity boxes.new ≡ vec_capacity boxes.old }
{
    let Landing {
        mut cells,
        mut context,
        record,
    } = flight.come_home();
    empty_cells(&mut cells, &mut resources.buffers.workspaces, boxes);
    slots.park(active_set.run(), boxes);
    settle(slots, &mut context, &mut resources.room, active_set);
    *places = cells;
    resources.take_back(context);
    record
}

/// If something failed, those stop that the sets say, and those restart whose chained mode changes. It takes no
/// memory.
fn settle<C: Controller>(
    slots: &mut Slots<C>,
    context: &mut CycleContext,
    room: &mut Room,
    active_set: &mut ActiveSet,
)
    requires { (s : State) × CanSettle s slots.old context.old room.old active_set.old }
    ensures settled { (s : State) → CanSettle s slots.old context.old room.old active_set.old
        → HasSettled s slots.new.loaded context.new.robot.hardware active_set.new }
    ensures context { IsSettledIn context.old context.new }
    ensures rest { KeepsRest active_set.old active_set.new room.old room.new slots.old slots.new }
{
    if context.has_failed {
        commit(
            slots,
            &mut context.robot.hardware,
            &context.robot.places,
            room,
            active_set,
            &context.ending.chained,
            &context.ending.stopped,
            &context.ending.started,
        );
    }
}

/// The next number, which a greater one leaves room for.
fn one_more(number: u64, greater: u64) -> u64
    requires { number < greater }
    ensures { result ≡ number + 1 }
{
    number + 1
}
