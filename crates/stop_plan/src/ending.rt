//! What the end of a cycle changes.

ghost use Rattle.std.specs.Prelude.{◌<◌, ◌≤◌, length, IfOk, All};
ghost use Rattle.stop_plan.specs.Calls.Decide.{Decides};
ghost use Rattle.stop_plan.specs.Ending.{HasFlags};
ghost use Rattle.stop_plan.specs.Reports.{IsReport, count_in};
ghost use Rattle.stop_plan.specs.Settled.{IsSettled};

use crate::report::Report;
use crate::sets::{
    Change, Transition, gather, gather_chained, gather_changed, gather_staying, gather_struck,
    spread, tell,
};
use chain_order::{Links, PlaceSet};
use cm_model::Member;
use fixed_num::Memory;
use sequence::ListRoom;
use std::alloc::Global;

/// What the end of a cycle changes: sets of described controllers, which are made once and told anew at each end.
#[derive(Debug, Drop)]
pub struct Ending {
    /// Those that were active in the cycle.
    pub(crate) active: PlaceSet,
    /// Those of them that must stop.
    pub(crate) fallen: PlaceSet,
    /// Those that stay active.
    pub set: PlaceSet,
    /// Those that are stopped: they must stop, or restart.
    pub stopped: PlaceSet,
    /// Those that restart, since they stay and their chained mode changes.
    pub started: PlaceSet,
    /// Those of which one that stays claims a reference, active or not.
    pub chained: PlaceSet,
}

impl Ending {
    /// Sets for so many described controllers.
    pub fn make(alloc: Global, count: usize) -> Result<Ending, Memory>
        ensures { IfOk result (HasFlags count) }
    {
        Ok(Ending {
            active: PlaceSet::none(alloc, count)?,
            fallen: PlaceSet::none(alloc, count)?,
            set: PlaceSet::none(alloc, count)?,
            stopped: PlaceSet::none(alloc, count)?,
            started: PlaceSet::none(alloc, count)?,
            chained: PlaceSet::none(alloc, count)?,
        })
    }

    /// Decides the end of a cycle, and tells who must stop. It takes no memory.
    pub fn decide(&mut self, report: &Report, serials: &mut ListRoom<u32>)
        requires report { IsReport report.now }
        requires flags { HasFlags (count_in report.now) self.old }
        requires room { length report.now.order.now ≤ serials.old.room }
        ensures { Decides report.now self.new serials.old.items serials.new.items }
    {
        gather(&mut self.active, report.order);
        gather_struck(&mut self.fallen, report);
        spread(&mut self.fallen, report);
        tell(serials, &self.fallen, report.order);
        self.settle(report.relations.leaders(), report.order);
    }

    /// Who stays, stops and restarts, once it is known who must stop.
    fn settle(&mut self, leaders: &Links, order: &[Member])
        requires within { All (λ m. m.place < length leaders.now) order.now }
        requires flags { HasFlags (length leaders.now) self.old }
        ensures flags { HasFlags (length leaders.now) self.new }
        ensures settled { IsSettled leaders.now order.now self.old.active self.old.fallen self.new }
    {
        gather_staying(&mut self.set, &self.fallen, order);
        let transition = Transition {
            leaders,
            before: &self.active,
            after: &self.set,
        };
        gather_changed(&mut self.stopped, &transition, order, Change::Stops);
        gather_changed(&mut self.started, &transition, order, Change::Restarts);
        gather_chained(&mut self.chained, leaders, &self.set);
    }
}
