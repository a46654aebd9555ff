//! A controller that computes for a while in each update.

ghost use Rattle.std.specs.Prelude.{◌≤◌, length, IfOk};
ghost use Rattle.std.specs.List.{All};
ghost use Rattle.cm_model.specs.Controllers.{IsBlank};
ghost use Rattle.cm_bench.specs.declared.working.TheConstants.{MOST_WORKING};

use cm_document::{CtlKind, Mail, Params};
use cm_model::Tick;
use cm_storage::Done;
use ctl_mock::Mock;
use ctl_trait::{CfgFault, Controller};
use fixed_num::{Fx, Memory, Value};
use std::alloc::Global;
use std::marker::Model;

/// A controller that mixes a number so many times in each update.
#[derive(Drop)]
pub(crate) struct Working<C: Controller> {
    ctl: C,
    turns: u64,
    mixed: u64,
}

impl<C: Controller> Model for Working<C> {
    ghost use Rattle.cm_model.specs.declared.data.CtlData.{CtlData};

    ghost Value = { CtlData };

    ghost view = { λ w. C.meaning w.ctl };
}

impl<C: Controller> Working<C> {
    /// A blank.
    fn blank(ctl: C, turns: u64) -> Working<C>
        requires { IsBlank (C.meaning ctl) }
        ensures { IsBlank result }
    {
        Working {
            ctl,
            turns,
            mixed: 0,
        }
    }
}

impl<C: Controller> Controller for Working<C> {
    ghost meaning = { λ w. w };

    fn kind(&self) -> CtlKind {
        self.ctl.kind()
    }

    fn configure(&mut self, alloc: Global, params: &Params) -> Result<(), CfgFault> {
        self.ctl.configure(alloc, params)
    }

    fn ready(&self, cycle: u64) -> bool {
        self.ctl.ready(cycle)
    }

    fn activate(&mut self, states: &[Fx], chained: bool) {
        self.ctl.activate(states, chained);
    }

    #[tactic(auto, using(ctl_trait::proofs::TakingLemmas::can_take))]
    fn take(&mut self, mail: Mail) {
        self.ctl.take(mail);
    }

    #[tactic(auto, using(cm_model::proofs::ControllerLemmas::updating))]
    fn update(&mut self, tick: Tick, states: &[Fx], refs: &[Value], outs: &mut [Value]) -> Done {
        self.mixed = mixed(self.mixed, self.turns);
        self.ctl.update(tick, states, refs, outs)
    }

    fn deactivate(&mut self) {
        self.ctl.deactivate();
    }

    fn cleanup(&mut self) {
        self.ctl.cleanup();
    }
}

/// A number, mixed so many times.
pub(crate) fn mixed(seed: u64, turns: u64) -> u64 {
    let mut mixed = seed;
    for turn in 0..turns {
        mixed = mixed.wrapping_mul(FACTOR).wrapping_add(turn);
    }
    mixed
}

/// The factor of a common maker of random numbers.
const FACTOR: u64 = 6_364_136_223_846_793_005;

/// So many of them work in a run.
pub(crate) const MOST_WORKING: u32 = 8;

/// Mocks that are blank and work in each update.
pub(crate) fn blanks(alloc: Global, turns: u64) -> Result<Vec<Working<Mock>>, Memory>
    ensures blank { IfOk result (λ blanks. All IsBlank blanks.items) }
    ensures few { IfOk result (λ blanks. length blanks.items ≤ MOST_WORKING) }
{
    let mut blanks = Vec::new(alloc);
    for _made in 0..MOST_WORKING {
        blanks.push(Working::blank(Mock::blank(), turns))?;
    }
    Ok(blanks)
}
