//! A body and its step.

ghost use Rattle.std.specs.Prelude.{◌≡◌, ◌≤◌, ◌≤ℤ◌, ◌-ℤ◌, pos, nat_abs};
ghost use Rattle.joint_body.specs.Simulated.{after};
ghost use Rattle.fixed_num.specs.Bodies.{IsPlant, stopped, approached, positioned, moving, driven, accelerated, pushed};

use crate::LONGEST_STEP;
use crate::exact::{change_at, limited, within};
use fixed_num::{BodyState, Fx, JointMode, LARGEST, MICRO, Value};
use std::marker::Model;

/// The simulated body of a joint: its state, and the numbers that it moves by. Contracts see both (`Simulated`).
#[derive(Debug, Drop)]
pub struct Body {
    state: BodyState,
    vmax: Fx,
    gain: Fx,
    damping: Fx,
}

impl Model for Body {
    ghost use Rattle.joint_body.specs.Simulated.{Simulated};
    ghost use Rattle.fixed_num.specs.Bodies.{IsPlant};

    ghost Value = { Simulated };

    ghost view = { λ b.
        record { plant = record { vmax = b.vmax; gain = b.gain; damping = b.damping }; state = b.state } };

    ghost invariant = { λ b. IsPlant (record { vmax = b.vmax; gain = b.gain; damping = b.damping }) };
}

impl Body {
    /// A body in this state, with its highest velocity, its gain and its damping.
    pub fn make(start: BodyState, vmax: Fx, gain: Fx, damping: Fx) -> Body
        requires limit { pos 0 ≤ℤ vmax }
        requires gain { pos 0 ≤ℤ gain }
        requires damping { pos 0 ≤ℤ damping }
        ensures { result ≡ record { plant = record { vmax = vmax; gain = gain; damping = damping }; state = start } }
    {
        Body {
            state: start,
            vmax,
            gain,
            damping,
        }
    }

    /// Where the body is. None of the numbers that it moves by is negative.
    pub fn state(&self) -> BodyState
        ensures state { result ≡ self.now.state }
        ensures sound { IsPlant self.now.plant }
    {
        self.state
    }

    /// One step of `dt_us` microseconds, by how the joint is driven and what its claimed interface holds.
    #[tactic(auto, unfolding(fixed_num::specs::Bodies::stepped))]
    pub fn step(&mut self, mode: JointMode, command: Value, dt_us: u32)
        requires some_time { 1 ≤ dt_us }
        requires no_longer { dt_us ≤ LONGEST_STEP }
        ensures { self.new ≡ record self.old { state = after self.old mode command dt_us } }
    {
        self.state = match (mode, command) {
            (JointMode::Position, Value::Num(command)) => self.positioned(command, dt_us),
            (JointMode::Velocity, Value::Num(command)) => self.driven(command, dt_us),
            (JointMode::Effort, Value::Num(command)) => self.pushed(command, dt_us),
            _ => self.stopped(),
        };
    }
}

// The rows of the table of bodies.
impl Body {
    fn stopped(&self) -> BodyState
        ensures { result ≡ stopped self.now.state }
    {
        BodyState {
            x: self.state.x,
            v: Fx::ZERO,
            f: Fx::ZERO,
        }
    }

    #[tactic(auto, using(crate::proofs::StepLemmas::ends))]
    fn positioned(&self, command: Fx, dt_us: u32) -> BodyState
        requires some_time { 1 ≤ dt_us }
        requires no_longer { dt_us ≤ LONGEST_STEP }
        ensures { result ≡ positioned self.now.plant command dt_us self.now.state }
    {
        let x = self.approached(command, dt_us);
        let moved = x.sub(self.state.x);
        BodyState {
            x,
            v: moved.over(i64::from(MICRO), i64::from(dt_us)),
            f: Fx::ZERO,
        }
    }

    /// Where a commanded position brings the body.
    #[tactic(auto, using(crate::proofs::StepLemmas::sizes))]
    fn approached(&self, command: Fx, dt_us: u32) -> Fx
        requires no_longer { dt_us ≤ LONGEST_STEP }
        ensures value { result ≡ approached self.now.plant command dt_us self.now.state.x }
        ensures near { nat_abs (result -ℤ self.now.state.x) ≤ LARGEST }
    {
        let reach = change_at(self.vmax.micro(), dt_us);
        let missing = Fx::difference(command, self.state.x);
        self.state.x.shifted(within(missing, reach))
    }

    fn driven(&self, command: Fx, dt_us: u32) -> BodyState
        requires no_longer { dt_us ≤ LONGEST_STEP }
        ensures { result ≡ driven self.now.plant command dt_us self.now.state }
    {
        self.moving(command.clamp(self.vmax), Fx::ZERO, dt_us)
    }

    fn pushed(&self, command: Fx, dt_us: u32) -> BodyState
        requires no_longer { dt_us ≤ LONGEST_STEP }
        ensures { result ≡ pushed self.now.plant command dt_us self.now.state }
    {
        let velocity = self.accelerated(command, dt_us);
        self.moving(velocity, command, dt_us)
    }

    /// The velocity that a commanded effort gives the body.
    #[tactic(auto, using(crate::proofs::StepLemmas::ends))]
    fn accelerated(&self, command: Fx, dt_us: u32) -> Fx
        requires no_longer { dt_us ≤ LONGEST_STEP }
        ensures { result ≡ accelerated self.now.plant command dt_us self.now.state.v }
    {
        let push = command.mul(self.gain);
        let drag = self.damping.mul(self.state.v);
        let change = change_at(Fx::difference(push, drag), dt_us);
        limited(self.state.v, change, self.vmax)
    }

    fn moving(&self, velocity: Fx, effort: Fx, dt_us: u32) -> BodyState
        requires no_longer { dt_us ≤ LONGEST_STEP }
        ensures { result ≡ moving velocity effort dt_us self.now.state }
    {
        BodyState {
            x: self.state.x.shifted(change_at(velocity.micro(), dt_us)),
            v: velocity,
            f: effort,
        }
    }
}
