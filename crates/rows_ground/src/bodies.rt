//! Bodies, step by step. The first line of a paragraph makes a body at rest; each further line is a step, of a number
//! of seconds, and the position, the velocity and the effort that it leads to.

use fixed_num::{BodyState, Fx, JointMode, Value};
use joint_body::{Body, LONGEST_STEP};
use pages_cases::acts::{Player, hold_acts};
use pages_cases::words::{number, word};
use std::alloc::Global;
use std::test::Fail;

/// Each way to drive a joint, and a joint that nobody commands.
const WAYS: &str = "\
vmax 10 gain 1 damping 0.5 at 0
effort 2 for 0.01 => 0.000200 0.020000 2.000000
effort 2 for 0.01 => 0.000599 0.039900 2.000000
effort unset for 0.01 => 0.000599 0.000000 0.000000
effort 2 for 0.01 => 0.000799 0.020000 2.000000
idle 2 for 0.01 => 0.000799 0.000000 0.000000

vmax 1 gain 1 damping 0 at 0
position 0.025 for 0.01 => 0.010000 1.000000 0.000000
position 0.025 for 0.01 => 0.020000 1.000000 0.000000
position 0.025 for 0.01 => 0.025000 0.500000 0.000000
position 0.025 for 0.01 => 0.025000 0.000000 0.000000
position -1 for 0.01 => 0.015000 -1.000000 0.000000
position unset for 0.01 => 0.015000 0.000000 0.000000

vmax 10 gain 1 damping 0 at 0.5
velocity 2 for 0.01 => 0.520000 2.000000 0.000000
velocity -2 for 0.02 => 0.480000 -2.000000 0.000000
velocity unset for 0.01 => 0.480000 0.000000 0.000000";

/// The highest velocity, on both sides.
const LIMITS: &str = "\
vmax 10 gain 1 damping 0 at 0
velocity 20 for 0.01 => 0.100000 10.000000 0.000000
velocity -20 for 0.02 => -0.100000 -10.000000 0.000000

vmax 0.01 gain 1 damping 0 at 0
effort 2 for 0.01 => 0.000100 0.010000 2.000000
effort -4 for 0.01 => 0.000000 -0.010000 -4.000000

vmax 0 gain 1 damping 0 at 0.5
position 1 for 1 => 0.500000 0.000000 0.000000
velocity 1 for 1 => 0.500000 0.000000 0.000000
effort 1 for 1 => 0.500000 0.000000 1.000000";

/// Division rounds down, also below zero.
const ROUNDED: &str = "\
vmax 10 gain 0.5 damping 0 at 0
position -0.000001 for 0.000003 => -0.000001 -0.333334 0.000000
velocity -0.000001 for 0.01 => -0.000002 -0.000001 0.000000
velocity 0.000001 for 0.01 => -0.000002 0.000001 0.000000
velocity 0 for 0.01 => -0.000002 0.000000 0.000000
effort -0.000003 for 1 => -0.000004 -0.000002 -0.000003";

/// The ends of the range, where products do not fit 64 bits.
const ENDS: &str = "\
vmax 1000000000 gain 1000000000 damping 0 at 1000000000
velocity 1000000000 for 1 => 1000000000.000000 1000000000.000000 0.000000
position -1000000000 for 1 => 0.000000 -1000000000.000000 0.000000
effort 1000000000 for 1 => 0.000000 0.000000 1000000000.000000
effort -1000000000 for 0.999999 => -999998000.001000 -999999000.000000 -1000000000.000000";

#[test]
fn bodies_step_as_the_table_says(rt: HostRuntime) -> Result<(), Fail> {
    let alloc = rt.alloc();
    hold_acts::<Plant>(alloc, "", WAYS)?;
    hold_acts::<Plant>(alloc, "", LIMITS)?;
    hold_acts::<Plant>(alloc, "", ROUNDED)?;
    hold_acts::<Plant>(alloc, "", ENDS)
}

/// A body, step by step.
#[derive(Drop)]
struct Plant {
    body: Body,
}

impl Player for Plant {
    /// The body of `vmax V gain G damping D at X`.
    fn begin(_alloc: Global, _before: &str, head: &str) -> Result<Plant, Fail> {
        let head = head.trim_end();
        let (vmax, gain, damping) = (number(head, 1)?, number(head, 3)?, number(head, 5)?);
        if vmax.micro() < 0 || gain.micro() < 0 || damping.micro() < 0 {
            return Err(Fail::new("a number of a body below zero"));
        }
        let start = BodyState {
            x: number(head, 7)?,
            v: Fx::ZERO,
            f: Fx::ZERO,
        };
        Ok(Plant {
            body: Body::make(start, vmax, gain, damping),
        })
    }

    /// A step of `MODE COMMAND for SECONDS`.
    fn told(&mut self, alloc: Global, given: &str) -> Result<String, Fail> {
        let dt_us = number(given, 3)?.micro();
        if dt_us < 1 || dt_us > i64::from(LONGEST_STEP) {
            return Err(Fail::new("no time for a step"));
        }
        self.body.step(mode(given), command(given)?, dt_us as u32);
        let BodyState { x, v, f } = self.body.state();
        Ok(format!(in alloc; "{x} {v} {f}")?)
    }
}

fn mode(given: &str) -> JointMode {
    match word(given, 0) {
        "position" => JointMode::Position,
        "velocity" => JointMode::Velocity,
        "effort" => JointMode::Effort,
        _ => JointMode::Idle,
    }
}

fn command(given: &str) -> Result<Value, Fail> {
    match word(given, 1) {
        "unset" => Ok(Value::Unset),
        _ => Ok(Value::Num(number(given, 1)?)),
    }
}
