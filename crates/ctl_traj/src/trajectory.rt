//! The trajectory.

ghost use Rattle.std.specs.Prelude.{◌≡◌, true, false, length, map, IfOk};
ghost use Rattle.cm_model.specs.State.{fresh};
ghost use Rattle.fixed_num.specs.declared.value.Value.TheVariants.{Num};
ghost use Rattle.cm_document.specs.declared.description.CtlKind.TheVariants as kind;
ghost use Rattle.ctl_traj.specs.Led.{started_way, mailed_way, moved_way, way_values, all_have};

use crate::lead::lead;
use cm_document::{CtlKind, Mail, Params, Point2};
use cm_model::Tick;
use cm_storage::Done;
use ctl_trait::{CfgFault, Controller};
use fixed_num::{Fx, Value};
use sequence::Seq;
use std::alloc::{AllocError, Global};
use std::marker::Model;

/// A trajectory: it leads its claims on straight lines through the points that it was sent last, from the states of the
/// update that took them. Before any points it holds the states of its activation.
#[derive(Debug, Drop)]
pub struct TrajCtl {
    way: Option<Way>,
}

/// What a configured trajectory keeps, in room that `make` took; the points are those of a mail, which owns them.
/// Contracts see the lists and numbers (`Way`).
#[derive(Debug, Drop)]
struct Way {
    hold: Vec<Fx>,
    from: Vec<Fx>,
    points: Vec<Point2>,
    fresh: bool,
    start_us: u64,
    runs: bool,
    /// Of so many points the times had come at the last update,
    come: usize,
    /// which was so long after the start. Nothing but speed rests on both.
    seen_us: u64,
}

impl Model for Way {
    ghost use Rattle.ctl_traj.specs.Led.{Way, IsWay, HaveCome};

    ghost Value = { Way };

    ghost view = { λ w. record {
      hold = w.hold.items;
      from = w.from.items;
      points = w.points.items;
      fresh = w.fresh;
      start_us = w.start_us;
      runs = w.runs;
    } };

    ghost invariant = { λ w. IsWay w.hold.items w.from.items w.points.items
        × HaveCome w.seen_us w.points.items w.come };
}

impl TrajCtl {
    /// A trajectory that is not configured.
    pub fn blank() -> TrajCtl
        ensures { ⟦<TrajCtl as Controller>⟧.meaning result ≡ fresh kind.Trajectory }
    {
        TrajCtl { way: None }
    }
}

impl Controller for TrajCtl {
    ghost use Rattle.ctl_traj.specs.Led.{trajectory_data};

    ghost meaning = { λ c. trajectory_data c.way };

    fn kind(&self) -> CtlKind {
        CtlKind::Trajectory
    }

    fn configure(&mut self, alloc: Global, params: &Params) -> Result<(), CfgFault> {
        let Params::Trajectory { outs } = params else {
            unreachable!()
        };
        self.way = Some(Way::make(alloc, *outs)?);
        Ok(())
    }

    fn ready(&self, _cycle: u64) -> bool {
        true
    }

    fn activate(&mut self, states: &[Fx], _chained: bool) {
        if let Some(way) = &mut self.way {
            way.start(states);
        }
    }

    fn take(&mut self, mail: Mail) {
        if let (Some(way), Mail::Points(points)) = (&mut self.way, mail) {
            way.take(points);
        }
    }

    fn update(&mut self, tick: Tick, states: &[Fx], _refs: &[Value], outs: &mut [Value]) -> Done {
        if let Some(way) = &mut self.way {
            way.update(tick.time_us, states, outs);
        }
        Done::Ok
    }

    fn deactivate(&mut self) {
        if let Some(way) = &mut self.way {
            way.runs = false;
        }
    }

    fn cleanup(&mut self) {
        self.way = None;
    }
}

impl Way {
    /// Room for so many claims; it does not run.
    fn make(alloc: Global, claims: u32) -> Result<Way, AllocError>
        ensures { IfOk result (λ way. (length way.hold ≡ claims) × (way.runs ≡ false)) }
    {
        Ok(Way {
            hold: vec![in alloc; Fx::ZERO; claims as usize]?,
            from: vec![in alloc; Fx::ZERO; claims as usize]?,
            points: Vec::new(alloc),
            fresh: false,
            start_us: 0,
            runs: false,
            come: 0,
            seen_us: 0,
        })
    }

    /// It runs, and holds the states.
    fn start(&mut self, states: &[Fx])
        requires { length states.now ≡ length self.old.hold }
        ensures { self.new ≡ started_way states.now }
    {
        self.hold.copy_from_slice(states);
        self.from.copy_from_slice(states);
        self.points.clear();
        self.fresh = false;
        self.start_us = 0;
        self.runs = true;
        self.come = 0;
    }

    /// These are its points now, and fresh.
    fn take(&mut self, points: Seq<Point2>)
        requires { all_have (length self.old.hold) points ≡ true }
        ensures { self.new ≡ mailed_way self.old points }
    {
        self.points = points.into_vec();
        self.fresh = true;
        self.come = 0;
    }

    /// Begins with its points where they are fresh, and goes on.
    #[tactic(auto, using(crate::proofs::ComeLemmas::still_come))]
    fn update(&mut self, time_us: u64, states: &[Fx], outs: &mut [Value])
        requires read { length states.now ≡ length self.old.hold }
        requires claimed { length outs.old ≡ length self.old.hold }
        ensures after { self.new ≡ moved_way self.old time_us states.now }
        ensures outputs { outs.new ≡ map Num (way_values self.old time_us states.now) }
    {
        if self.fresh {
            self.from.copy_from_slice(states);
            self.start_us = time_us;
            self.fresh = false;
        }
        let t = time_us.saturating_sub(self.start_us);
        let come = if self.seen_us <= t { self.come } else { 0 };
        self.come = lead(t, &self.hold, &self.from, &self.points, come, outs);
        self.seen_us = t;
    }
}
