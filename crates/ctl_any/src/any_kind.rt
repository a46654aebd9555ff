//! A controller of any kind, without a box.

ghost use Rattle.std.specs.Prelude.{◌≡◌};
ghost use Rattle.cm_model.specs.State.{fresh};

use cm_document::{CtlKind, Mail, Params};
use cm_model::Tick;
use cm_storage::Done;
use ctl_bcast::Broadcaster;
use ctl_forward::{Forward, Passthrough};
use ctl_mock::Mock;
use ctl_pid::PidCtl;
use ctl_shape::{DifferentialCtl, LimiterCtl, TransmissionCtl};
use ctl_trait::{CfgFault, Controller};
use ctl_traj::TrajCtl;
use fixed_num::{Fx, Value};
use std::alloc::Global;

/// A controller of any kind. A library's stocks are of these and not of boxes, because no function of a library may
/// hand out a `dyn` that it made: nothing would be known of it but its trait.
#[derive(Drop)]
pub enum AnyKind {
    /// A forward.
    Forward(Forward),
    /// A passthrough.
    Passthrough(Passthrough),
    /// A pid.
    Pid(PidCtl),
    /// A trajectory.
    Trajectory(TrajCtl),
    /// A broadcaster.
    Broadcaster(Broadcaster),
    /// A mock.
    Mock(Mock),
    /// A transmission.
    Transmission(TransmissionCtl),
    /// A differential.
    Differential(DifferentialCtl),
    /// A limiter.
    Limiter(LimiterCtl),
}

impl AnyKind {
    /// One of this kind that is not configured.
    pub fn blank(kind: CtlKind) -> AnyKind
        ensures { ⟦<AnyKind as Controller>⟧.meaning result ≡ fresh kind }
    {
        match kind {
            CtlKind::Forward => AnyKind::Forward(Forward::blank()),
            CtlKind::Passthrough => AnyKind::Passthrough(Passthrough::blank()),
            CtlKind::Pid => AnyKind::Pid(PidCtl::blank()),
            CtlKind::Trajectory => AnyKind::Trajectory(TrajCtl::blank()),
            CtlKind::Broadcaster => AnyKind::Broadcaster(Broadcaster::blank()),
            CtlKind::Mock => AnyKind::Mock(Mock::blank()),
            CtlKind::Transmission => AnyKind::Transmission(TransmissionCtl::blank()),
            CtlKind::Differential => AnyKind::Differential(DifferentialCtl::blank()),
            CtlKind::Limiter => AnyKind::Limiter(LimiterCtl::blank()),
        }
    }
}

impl Controller for AnyKind {
    ghost use Rattle.ctl_any.specs.declared.any_kind.AnyKind.TheVariants as kind;

    ghost meaning = { λ c. elim c [
      | kind.Forward ctl ↦ ⟦<Forward as Controller>⟧.meaning ctl
      | kind.Passthrough ctl ↦ ⟦<Passthrough as Controller>⟧.meaning ctl
      | kind.Pid ctl ↦ ⟦<PidCtl as Controller>⟧.meaning ctl
      | kind.Trajectory ctl ↦ ⟦<TrajCtl as Controller>⟧.meaning ctl
      | kind.Broadcaster ctl ↦ ⟦<Broadcaster as Controller>⟧.meaning ctl
      | kind.Mock ctl ↦ ⟦<Mock as Controller>⟧.meaning ctl
      | kind.Transmission ctl ↦ ⟦<TransmissionCtl as Controller>⟧.meaning ctl
      | kind.Differential ctl ↦ ⟦<DifferentialCtl as Controller>⟧.meaning ctl
      | kind.Limiter ctl ↦ ⟦<LimiterCtl as Controller>⟧.meaning ctl
    ] };

    fn kind(&self) -> CtlKind {
        match self {
            AnyKind::Forward(ctl) => ctl.kind(),
            AnyKind::Passthrough(ctl) => ctl.kind(),
            AnyKind::Pid(ctl) => ctl.kind(),
            AnyKind::Trajectory(ctl) => ctl.kind(),
            AnyKind::Broadcaster(ctl) => ctl.kind(),
            AnyKind::Mock(ctl) => ctl.kind(),
            AnyKind::Transmission(ctl) => ctl.kind(),
            AnyKind::Differential(ctl) => ctl.kind(),
            AnyKind::Limiter(ctl) => ctl.kind(),
        }
    }

    fn configure(&mut self, alloc: Global, params: &Params) -> Result<(), CfgFault> {
        match self {
            AnyKind::Forward(ctl) => ctl.configure(alloc, params),
            AnyKind::Passthrough(ctl) => ctl.configure(alloc, params),
            AnyKind::Pid(ctl) => ctl.configure(alloc, params),
            AnyKind::Trajectory(ctl) => ctl.configure(alloc, params),
            AnyKind::Broadcaster(ctl) => ctl.configure(alloc, params),
            AnyKind::Mock(ctl) => ctl.configure(alloc, params),
            AnyKind::Transmission(ctl) => ctl.configure(alloc, params),
            AnyKind::Differential(ctl) => ctl.configure(alloc, params),
            AnyKind::Limiter(ctl) => ctl.configure(alloc, params),
        }
    }

    fn ready(&self, cycle: u64) -> bool {
        match self {
            AnyKind::Forward(ctl) => ctl.ready(cycle),
            AnyKind::Passthrough(ctl) => ctl.ready(cycle),
            AnyKind::Pid(ctl) => ctl.ready(cycle),
            AnyKind::Trajectory(ctl) => ctl.ready(cycle),
            AnyKind::Broadcaster(ctl) => ctl.ready(cycle),
            AnyKind::Mock(ctl) => ctl.ready(cycle),
            AnyKind::Transmission(ctl) => ctl.ready(cycle),
            AnyKind::Differential(ctl) => ctl.ready(cycle),
            AnyKind::Limiter(ctl) => ctl.ready(cycle),
        }
    }

    fn activate(&mut self, states: &[Fx], chained: bool) {
        match self {
            AnyKind::Forward(ctl) => ctl.activate(states, chained),
            AnyKind::Passthrough(ctl) => ctl.activate(states, chained),
            AnyKind::Pid(ctl) => ctl.activate(states, chained),
            AnyKind::Trajectory(ctl) => ctl.activate(states, chained),
            AnyKind::Broadcaster(ctl) => ctl.activate(states, chained),
            AnyKind::Mock(ctl) => ctl.activate(states, chained),
            AnyKind::Transmission(ctl) => ctl.activate(states, chained),
            AnyKind::Differential(ctl) => ctl.activate(states, chained),
            AnyKind::Limiter(ctl) => ctl.activate(states, chained),
        }
    }

    fn take(&mut self, mail: Mail) {
        match self {
            AnyKind::Forward(ctl) => ctl.take(mail),
            AnyKind::Passthrough(ctl) => ctl.take(mail),
            AnyKind::Pid(ctl) => ctl.take(mail),
            AnyKind::Trajectory(ctl) => ctl.take(mail),
            AnyKind::Broadcaster(ctl) => ctl.take(mail),
            AnyKind::Mock(ctl) => ctl.take(mail),
            AnyKind::Transmission(ctl) => ctl.take(mail),
            AnyKind::Differential(ctl) => ctl.take(mail),
            AnyKind::Limiter(ctl) => ctl.take(mail),
        }
    }

    fn update(&mut self, tick: Tick, states: &[Fx], refs: &[Value], outs: &mut [Value]) -> Done {
        match self {
            AnyKind::Forward(ctl) => ctl.update(tick, states, refs, outs),
            AnyKind::Passthrough(ctl) => ctl.update(tick, states, refs, outs),
            AnyKind::Pid(ctl) => ctl.update(tick, states, refs, outs),
            AnyKind::Trajectory(ctl) => ctl.update(tick, states, refs, outs),
            AnyKind::Broadcaster(ctl) => ctl.update(tick, states, refs, outs),
            AnyKind::Mock(ctl) => ctl.update(tick, states, refs, outs),
            AnyKind::Transmission(ctl) => ctl.update(tick, states, refs, outs),
            AnyKind::Differential(ctl) => ctl.update(tick, states, refs, outs),
            AnyKind::Limiter(ctl) => ctl.update(tick, states, refs, outs),
        }
    }

    fn deactivate(&mut self) {
        match self {
            AnyKind::Forward(ctl) => ctl.deactivate(),
            AnyKind::Passthrough(ctl) => ctl.deactivate(),
            AnyKind::Pid(ctl) => ctl.deactivate(),
            AnyKind::Trajectory(ctl) => ctl.deactivate(),
            AnyKind::Broadcaster(ctl) => ctl.deactivate(),
            AnyKind::Mock(ctl) => ctl.deactivate(),
            AnyKind::Transmission(ctl) => ctl.deactivate(),
            AnyKind::Differential(ctl) => ctl.deactivate(),
            AnyKind::Limiter(ctl) => ctl.deactivate(),
        }
    }

    fn cleanup(&mut self) {
        match self {
            AnyKind::Forward(ctl) => ctl.cleanup(),
            AnyKind::Passthrough(ctl) => ctl.cleanup(),
            AnyKind::Pid(ctl) => ctl.cleanup(),
            AnyKind::Trajectory(ctl) => ctl.cleanup(),
            AnyKind::Broadcaster(ctl) => ctl.cleanup(),
            AnyKind::Mock(ctl) => ctl.cleanup(),
            AnyKind::Transmission(ctl) => ctl.cleanup(),
            AnyKind::Differential(ctl) => ctl.cleanup(),
            AnyKind::Limiter(ctl) => ctl.cleanup(),
        }
    }
}
