//! A controller with what its caller knows of it, so that each call is made only where its contract allows it.

ghost use Rattle.std.specs.Prelude.{◌≡◌, Bool, true, ◌&&◌, ℤ, List, IfOk};
ghost use Rattle.cm_model.specs.Kinds.{are_ranged, AreItsReads};
ghost use Rattle.cm_model.specs.Controllers.{runs_chained, started, IsBlank};

use cm_document::{MOST_CLAIMS_OF_ONE, Mail, Params, is_motion};
use cm_model::{LONGEST_PERIOD, Tick};
use cm_storage::Done;
use ctl_trait::{CfgFault, Controller, takes, takes_none};
use fixed_num::{Fx, Value};
use std::alloc::Global;
use std::marker::Model;
use std::test::Fail;

/// A controller, its parameters where it is configured, whether it runs chained or not where it runs, and what its
/// claims hold.
#[derive(Drop)]
pub(crate) struct Tried<C: Controller> {
    ctl: C,
    params: Option<Params>,
    chained: Option<bool>,
    outs: Vec<Value>,
}

impl<C: Controller> Model for Tried<C> {
    ghost use Rattle.std.specs.Prelude.{◌≡◌, option_map};
    ghost use Rattle.cm_model.specs.Controllers.{runs_chained};
    ghost use Rattle.cm_model.specs.declared.data.CtlData.{CtlData};

    ghost Value = { CtlData };

    ghost view = { λ t. C.meaning t.ctl };

    ghost invariant = { λ t.
        ((C.meaning t.ctl).params ≡ t.params) × (option_map runs_chained (C.meaning t.ctl).run ≡ t.chained) };
}

impl<C: Controller> Tried<C> {
    /// A blank, whose claims hold these values.
    pub fn new(blank: C, outs: Vec<Value>) -> Tried<C>
        requires { IsBlank (C.meaning blank) }
        ensures { result ≡ C.meaning blank }
    {
        Tried {
            ctl: blank,
            params: None,
            chained: None,
            outs,
        }
    }

    /// Whether it is ready.
    pub fn ready(&self, cycle: u64) -> bool {
        self.ctl.ready(cycle)
    }

    /// What the claims hold.
    pub fn outs(&self) -> &[Value] {
        self.outs.as_slice()
    }

    /// The parameters are given.
    pub fn configure(&mut self, alloc: Global, params: &Params) -> Result<&'static str, Fail> {
        if self.chained.is_some() {
            return Ok("it runs");
        }
        if params.kind() != self.ctl.kind() || !are_ranged(params) {
            return Ok("out of range");
        }
        let kept = copied(params)?;
        let outs = vec![in alloc; Value::Unset; params.shape().claims]?;
        match self.ctl.configure(alloc, params) {
            Ok(()) => {
                self.params = Some(kept);
                self.outs = outs;
                Ok("done")
            }
            Err(CfgFault::Refused) => Ok("refused"),
            Err(CfgFault::Memory) => Err(Fail::new("out of memory")),
        }
    }

    /// It is activated.
    pub fn activate(&mut self, states: &[Fx], chained: bool) -> &'static str {
        let Some(params) = &self.params else {
            return "unconfigured";
        };
        if self.chained.is_some() {
            return "it runs";
        }
        if !are_its_reads(params.shape().reads, states.len()) {
            return "wrong states";
        }
        let keeps = keeps_chained(params);
        self.ctl.activate(states, chained);
        self.chained = Some(keeps && chained);
        "done"
    }

    /// It takes mail.
    #[tactic(auto, using(ctl_trait::proofs::TakingLemmas::can_take))]
    pub fn take(&mut self, mail: Mail) -> &'static str {
        let (Some(params), Some(chained)) = (&self.params, self.chained) else {
            return "not active";
        };
        if chained {
            return "chained";
        }
        if takes_none(params) {
            return "takes none";
        }
        if !takes(params, &mail) {
            return "does not fit";
        }
        self.ctl.take(mail);
        "done"
    }

    /// It is updated.
    #[tactic(auto, using(cm_model::proofs::ControllerLemmas::updating))]
    pub fn update(&mut self, tick: Tick, states: &[Fx], refs: &[Value]) -> &'static str {
        let (Some(params), Some(_)) = (&self.params, self.chained) else {
            return "not active";
        };
        let shape = params.shape();
        if !are_its_reads(shape.reads, states.len())
            || refs.len() != shape.references
            || self.outs.len() != shape.claims
        {
            return "wrong counts";
        }
        if tick.dt_us < 1 || tick.dt_us > LONGEST_PERIOD {
            return "no time";
        }
        match self.ctl.update(tick, states, refs, &mut self.outs) {
            Done::Ok => "ok",
            Done::Error => "error",
        }
    }

    /// It is deactivated.
    pub fn deactivate(&mut self) -> &'static str {
        if self.params.is_none() || self.chained.is_none() {
            return "not active";
        }
        self.ctl.deactivate();
        self.chained = None;
        "done"
    }

    /// It is cleaned up.
    pub fn cleanup(&mut self) -> &'static str {
        if self.params.is_none() || self.chained.is_some() {
            return "not inactive";
        }
        self.ctl.cleanup();
        self.params = None;
        "done"
    }
}

/// The same parameters.
fn copied(params: &Params) -> Result<Params, Fail>
    ensures { IfOk result (λ kept. kept ≡ params.now) }
{
    Ok(params.clone()?)
}

/// Whether so many states are as many as a controller reads.
fn are_its_reads(reads: Option<usize>, states: usize) -> bool
    ensures { result ≡ true → AreItsReads reads states }
{
    match reads {
        Some(reads) => states == reads,
        None => true,
    }
}

/// Whether a controller with these parameters keeps that it is chained.
fn keeps_chained(params: &Params) -> bool
    ensures { (states : List ℤ) (chained : Bool)
        → runs_chained (started params.now states chained) ≡ (result && chained) }
{
    match params {
        Params::Forward { .. }
        | Params::Trajectory { .. }
        | Params::Broadcaster { .. }
        | Params::Mock { .. } => false,
        _ => true,
    }
}

/// Whether the parameters are in the ranges that a description keeps.
fn are_ranged(params: &Params) -> bool
    ensures { result ≡ are_ranged params.now }
{
    let claims = params.shape().claims;
    match params {
        Params::Pid { imax, omax, .. } => imax.micro() >= 0 && omax.micro() >= 0,
        Params::Broadcaster { .. } => true,
        Params::Transmission { reduction, .. } => reduction.micro() >= 1,
        Params::Differential {
            kind,
            reduction1,
            reduction2,
            ..
        } => is_motion(*kind) && reduction1.micro() >= 1 && reduction2.micro() >= 1,
        Params::Limiter {
            min,
            max,
            vmax,
            amax,
        } => min.micro() <= max.micro() && vmax.micro() >= 0 && amax.micro() >= 0,
        Params::Mock { .. } => claims <= MOST_CLAIMS_OF_ONE,
        _ => claims >= 1 && claims <= MOST_CLAIMS_OF_ONE,
    }
}
