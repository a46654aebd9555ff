//! What is the same for all updates of a cycle.

ghost use Rattle.std.specs.Prelude.{◌≡◌, ◌<◌, ◌≤◌, ◌==◌, length};
ghost use Rattle.std.specs.List.{list_any};
ghost use Rattle.cm_model.specs.declared.tick.TheConstants.{LONGEST_PERIOD};
ghost use Rattle.cm_slots.specs.Updates.{IsTimely};
ghost use Rattle.rt_flight.specs.Workspaces.{tick_at, is_held_at, flies, IsInTime};

use crate::workspace::Workspace;
use chain_order::due;
use cm_model::Tick;
use cm_places::CtlPlaces;
use cm_storage::FailedPart;
use std::marker::Model;
use switch_plan::Relations;

/// What is the same for all updates of a cycle. Contracts see it as `Aloft`.
#[derive(Drop)]
pub(crate) struct Round<'a> {
    /// The number of the cycle.
    pub(crate) number: u64,
    /// The time from one cycle to the next, in microseconds.
    pub(crate) period_us: u32,
    /// Where controllers stand to the board.
    pub(crate) places: &'a CtlPlaces,
    /// With which components each has to do.
    pub(crate) relations: &'a Relations,
    /// The reads that failed.
    pub(crate) failed: &'a [FailedPart],
}

impl<'a> Model for Round<'a> {
    ghost use Rattle.cm_slots.specs.Updates.{Aloft};

    ghost Value = { Aloft };

    ghost view = { λ r. record {
      number = r.number;
      period_us = r.period_us;
      placed = r.places.now;
      related = r.relations.now;
      failed = r.failed.now;
    } };
}

impl<'a> Round<'a> {
    /// When a controller is updated.
    pub(crate) fn tick(&self, workspace: &Workspace) -> Tick
        requires timely { IsTimely self.now }
        requires in_time { IsInTime self.now.period_us workspace.now }
        ensures tick { result ≡ tick_at self.now workspace.now }
        ensures time { (1 ≤ result.dt_us) × (result.dt_us ≤ LONGEST_PERIOD) }
    {
        Tick {
            cycle: self.number,
            time_us: self.number * u64::from(self.period_us),
            dt_us: workspace.divisor * self.period_us,
        }
    }

    /// Whether a controller is updated in the cycle: it is due, and no read of its components failed.
    pub(crate) fn updates(&self, workspace: &Workspace) -> bool
        requires divided { 1 ≤ workspace.now.divisor }
        requires related { workspace.now.place < length self.now.related.components }
        ensures { result ≡ flies self.now workspace.now }
    {
        due(self.number, workspace.divisor) && !self.is_held(workspace)
    }

    /// Whether a controller is held off: the read of one of its components failed.
    fn is_held(&self, workspace: &Workspace) -> bool
        requires { workspace.now.place < length self.now.related.components }
        ensures { result ≡ is_held_at self.now workspace.now.place }
    {
        if self.failed.is_empty() {
            return false;
        }
        self.relations
            .components(workspace.place)
            .iter()
            .any(|component| has_failed(self.failed, *component))
    }
}

/// Whether the component at this place is one of these.
fn has_failed(failed: &[FailedPart], component: usize) -> bool
    ensures { result ≡ list_any (λ part. part.place == component) failed.now }
{
    failed.iter().any(|part| part.place as usize == component)
}
