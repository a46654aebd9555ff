//! What a commit makes of the loaded controllers.

ghost use Rattle.std.specs.Prelude.{◌≡◌, false, length, map, Some, option_map};
ghost use Rattle.chain_order.specs.Links.{linked};
ghost use Rattle.cm_slots.specs.Calls.Commits.{CanCommitAll, CanCommitOne, CanStart};
ghost use Rattle.cm_slots.specs.Commits.{come, committed_at};
ghost use Rattle.cm_slots.specs.Connections.{numbers_at};
ghost use Rattle.cm_slots.specs.Slots.{box_of};

use crate::room::{Room, read_numbers};
use crate::slot::Slot;
use chain_order::PlaceSet;
use cm_hardware::ResourceManager;
use cm_places::CtlPlaces;
use ctl_trait::Controller;
use fixed_num::Fx;

/// A set of controllers becomes active, by place: each in its slot, with its box.
pub(crate) fn commit_each<C: Controller>(
    slots: &mut [Slot<C>],
    boxes: &mut [Option<C>],
    hardware: &ResourceManager,
    places: &CtlPlaces,
    room: &mut Room,
    chained: &PlaceSet,
    stopped: &PlaceSet,
    started: &PlaceSet,
)
    requires { CanCommitAll slots.old (map (option_map C.meaning) boxes.old) places.now (length hardware.now.loans)
        room.old }
    ensures committed { slots.new
        ≡ map (committed_at places.now hardware.now.loans chained.now stopped.now started.now) slots.old }
    ensures home { map (option_map C.meaning) boxes.new ≡ map (box_of false) slots.new }
    ensures room { room.new ≡ room.old }
{
    for i in 0..slots.len() {
        commit_one(
            &mut slots[i],
            &mut boxes[i],
            hardware,
            places,
            room,
            chained,
            stopped,
            started,
        );
    }
}

/// One of them.
fn commit_one<C: Controller>(
    slot: &mut Slot<C>,
    box_slot: &mut Option<C>,
    hardware: &ResourceManager,
    places: &CtlPlaces,
    room: &mut Room,
    chained: &PlaceSet,
    stopped: &PlaceSet,
    started: &PlaceSet,
)
    requires { CanCommitOne slot.old (option_map C.meaning box_slot.old) places.now
        (length hardware.now.loans) room.old }
    ensures committed { slot.new
        ≡ committed_at places.now hardware.now.loans chained.now stopped.now started.now slot.old }
    ensures home { option_map C.meaning box_slot.new ≡ Some slot.new.ctl }
    ensures room { room.new ≡ room.old }
{
    let place = slot.place();
    if started.holds(place) {
        start(slot, box_slot, hardware, places, room, chained.holds(place));
    } else if stopped.holds(place) {
        slot.leave(box_slot);
    }
}

/// A controller comes to run with the states of this moment.
fn start<C: Controller>(
    slot: &mut Slot<C>,
    box_slot: &mut Option<C>,
    hardware: &ResourceManager,
    places: &CtlPlaces,
    room: &mut Room,
    chained: bool,
)
    requires { CanCommitOne slot.old (option_map C.meaning box_slot.old) places.now
        (length hardware.now.loans) room.old }
    ensures started { slot.new
        ≡ come (numbers_at hardware.now.loans (linked places.now.reads slot.old.place)) chained slot.old }
    ensures home { option_map C.meaning box_slot.new ≡ Some slot.new.ctl }
    ensures room { room.new ≡ room.old }
{
    let reads = places.reads(slot.place() as u32);
    start_with(
        slot,
        box_slot,
        hardware,
        reads,
        &mut room.states[..reads.len()],
        chained,
    );
}

/// It comes to run with the states at these places.
fn start_with<C: Controller>(
    slot: &mut Slot<C>,
    box_slot: &mut Option<C>,
    hardware: &ResourceManager,
    reads: &[u32],
    states: &mut [Fx],
    chained: bool,
)
    requires { CanStart slot.old (option_map C.meaning box_slot.old) (length hardware.now.loans) reads.now
        (length states.old) }
    ensures started { slot.new ≡ come (numbers_at hardware.now.loans reads.now) chained slot.old }
    ensures home { option_map C.meaning box_slot.new ≡ Some slot.new.ctl }
{
    read_numbers(hardware, reads, states);
    slot.come(box_slot, states, chained);
}
