//! The record of a cycle while it is filled.

ghost use Rattle.std.specs.Prelude.{◌≡◌, [], IfOk};

use crate::ran::RanList;
use crate::ran_room::RanRoom;
use crate::record::{CycleParts, CycleRecord, FailedPart};
use fixed_num::BodyState;
use sequence::{ListRoom, Seq};
use std::alloc::{AllocError, Global};

/// How much one cycle can have to tell.
#[derive(Clone, Copy, Debug)]
pub struct RecordSize {
    /// How many reads and writes can fail.
    pub failed: usize,
    /// How many controllers can be updated.
    pub ran: usize,
    /// How many values they can give out together.
    pub values: usize,
    /// How many numbers they can publish together.
    pub numbers: usize,
    /// How many joints there are.
    pub bodies: usize,
    /// How many controllers can be stopped.
    pub stops: usize,
}

/// The record of a cycle while it is filled. All memory is taken when the cycle begins: no later call takes any.
#[derive(Debug, Drop)]
pub struct RecordRoom {
    /// The components that failed so far.
    pub failed: ListRoom<FailedPart>,
    /// The controllers that were updated so far.
    pub ran: RanRoom,
    /// The bodies that were told so far.
    pub bodies: ListRoom<BodyState>,
    /// The controllers that were stopped so far.
    pub stops: ListRoom<u32>,
    place: Box<CycleParts>,
}

impl RecordRoom {
    /// Room for so much. The parts come to stand in the place that another cycle left over, or in a new one.
    pub fn with_room(
        alloc: Global,
        size: RecordSize,
        left_over: Option<Box<CycleParts>>,
    ) -> Result<RecordRoom, AllocError>
        ensures failed { IfOk result (λ room. room.failed ≡ record { items = []; room = size.failed }) }
        ensures ran { IfOk result
            (λ room.
            room.ran ≡ record { rans = []; heads = size.ran; values = size.values; numbers = size.numbers }) }
        ensures bodies { IfOk result (λ room. room.bodies ≡ record { items = []; room = size.bodies }) }
        ensures stops { IfOk result (λ room. room.stops ≡ record { items = []; room = size.stops }) }
    {
        let place = match left_over {
            Some(place) => place,
            None => Box::new(alloc, nothing(alloc))?,
        };
        Ok(RecordRoom {
            failed: ListRoom::with_room(alloc, size.failed)?,
            ran: RanRoom::with_room(alloc, size.ran, size.values, size.numbers)?,
            bodies: ListRoom::with_room(alloc, size.bodies)?,
            stops: ListRoom::with_room(alloc, size.stops)?,
            place,
        })
    }

    /// The record of the cycle of this number, with all that was filled in; and the place for its parts, where there
    /// was nothing to tell. It takes no memory.
    #[tactic(auto, using(crate::proofs::RanLemmas::nothing_happened))]
    pub fn land(self, cycle: u64) -> (CycleRecord, Option<Box<CycleParts>>)
        ensures { result.0 ≡ record {
          cycle = cycle;
          failed = self.failed.items;
          ran = self.ran.rans;
          bodies = self.bodies.items;
          stops = self.stops.items;
        } }
    {
        let RecordRoom {
            failed,
            ran,
            bodies,
            stops,
            mut place,
        } = self;
        let parts = CycleParts {
            cycle,
            failed: failed.into_list(),
            ran: ran.into_list(),
            bodies: bodies.into_list(),
            stops: stops.into_list(),
        };
        if parts.tells_nothing() {
            return (CycleRecord::quiet(cycle), Some(place));
        }
        *place = parts;
        (CycleRecord::at(place), None)
    }
}

/// The parts of a record in which nothing stands yet. They take no memory.
fn nothing(alloc: Global) -> CycleParts {
    CycleParts {
        cycle: 0,
        failed: Seq::new(alloc),
        ran: RanList::new(alloc),
        bodies: Seq::new(alloc),
        stops: Seq::new(alloc),
    }
}
