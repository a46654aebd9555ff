//! The record of a cycle, of what was told while it was made.

ghost use Rattle.std.specs.Prelude.{◌≡◌, [], true, false, None, Some, is_some, IfSome};
ghost use Rattle.rt_flight.specs.Flights.{TellsNothing, IsBlank};

use cm_storage::{CycleParts, CycleRecord, RecordRoom, Standing};

/// The record of the cycle of this number, of what was told in its room. The room stays where it is if no controller
/// runs and nothing else was told, or only bodies that stand; else it is taken, with the place of the record if
/// nothing was told of those that run. It takes no memory.
pub(crate) fn told(
    number: u64,
    flies: bool,
    room: &mut Option<RecordRoom>,
    left_over: &mut Option<Box<CycleParts>>,
    standing: &mut Standing,
) -> CycleRecord
    requires there { is_some room.old ≡ true }
    requires ran { flies ≡ false → IfSome room.old (λ r. r.ran.rans ≡ []) }
    ensures told { IfSome room.old
        (λ r. result ≡ record {
          cycle = number;
          failed = r.failed.items;
          ran = r.ran.rans;
          bodies = r.bodies.items;
          stops = r.stops.items;
        }) }
    ensures left { IfSome room.new TellsNothing }
{
    if !flies {
        if is_blank(room) {
            return CycleRecord::quiet(number);
        }
        if let Some(record) = told_again(number, room, standing) {
            return record;
        }
    }
    let (record, place) = take_room(room).land(number);
    *left_over = place;
    record
}

/// The record of a cycle in which no controller runs, if nothing but bodies that stand was told in its room. Nothing is
/// told there then any more. It takes no memory.
fn told_again(
    number: u64,
    room: &mut Option<RecordRoom>,
    standing: &mut Standing,
) -> Option<CycleRecord>
    requires ran { IfSome room.old (λ r. r.ran.rans ≡ []) }
    ensures told { IfSome result (λ made. IfSome room.old
        (λ r. made ≡ record {
          cycle = number;
          failed = r.failed.items;
          ran = r.ran.rans;
          bodies = r.bodies.items;
          stops = r.stops.items;
        })) }
    ensures left { IfSome result (λ _. IfSome room.new TellsNothing) }
    ensures kept { result ≡ None → room.new ≡ room.old }
{
    let Some(room) = room else {
        return None;
    };
    if !room.failed.as_slice().is_empty() || !room.stops.as_slice().is_empty() {
        return None;
    }
    let record = standing.tell(number, room.bodies.as_slice())?;
    room.bodies.clear();
    Some(record)
}

/// Whether no failure, no body and no stop was told in the room.
fn is_blank(room: &Option<RecordRoom>) -> bool
    ensures { result ≡ true → IfSome room.now IsBlank }
{
    match room {
        Some(room) => {
            room.failed.as_slice().is_empty()
                && room.bodies.as_slice().is_empty()
                && room.stops.as_slice().is_empty()
        }
        None => false,
    }
}

/// The room to tell of the cycle, which then is taken.
fn take_room(room: &mut Option<RecordRoom>) -> RecordRoom
    requires { is_some room.old ≡ true }
    ensures taken { room.old ≡ Some result }
    ensures left { room.new ≡ None }
{
    match room.take() {
        Some(taken) => taken,
        None => unreachable!(),
    }
}
