//! Runs of a limiter. The first line of a paragraph has its limits; each further line is where a run starts and what is
//! wanted, and the positions to which it leads.

use crate::kinds::value_of;
use ctl_shape::{LONGEST_TIME, Limits, limit_run};
use fixed_num::{Fx, Value};
use pages_cases::acts::{Player, hold_acts};
use pages_cases::words::{number, whole};
use std::alloc::Global;
use std::fmt::Write;
use std::test::Fail;

/// It passes a wanted position and comes back, and stops at an end.
const RUNS: &str = "\
min -1 max 1 vmax 1 amax 10 dt 10000
from 0 wanted 0.006 0.006 0.006 0.006 0.006 0.006 0.006 => \
    0.001000 0.003000 0.006000 0.008000 0.009000 0.009000 0.008000
from 5 wanted unset unset => 1.000000 1.000000

min -1 max 0.006 vmax 1 amax 10 dt 10000
from 0 wanted 1 1 1 1 1 => 0.001000 0.003000 0.005000 0.006000 0.006000

min -0.006 max 1 vmax 1 amax 10 dt 10000
from 0 wanted -1 -1 -1 -1 -1 => -0.001000 -0.003000 -0.005000 -0.006000 -0.006000";

/// A speed holds it back, and without a speed, without a change, or between two ends that are one, it stands.
const HELD: &str = "\
min -1 max 1 vmax 0.2 amax 10 dt 10000
from 0 wanted 1 1 1 1 => 0.001000 0.003000 0.005000 0.007000

min -1 max 1 vmax 0 amax 10 dt 10000
from 0 wanted 1 1 => 0.000000 0.000000

min -1 max 1 vmax 1 amax 0.009999 dt 10000
from 0.5 wanted 1 1 => 0.500000 0.500000

min -1 max 1 vmax 1 amax 0.01 dt 10000
from 0.5 wanted 1 1 => 0.500001 0.500003

min 0.5 max 0.5 vmax 1 amax 10 dt 10000
from 0 wanted 1 -1 => 0.500000 0.500000";

/// Steps that pass the range of a number, with limits far larger than what matters.
const WIDE: &str = "\
min -1000000000 max 1000000000 vmax 1000000000 amax 1000000000 dt 1000000000
from -1000000000 wanted 1000000000 unset -1000000000 => \
    1000000000.000000 1000000000.000000 -1000000000.000000";

#[test]
fn a_limiter_runs_within_its_limits(rt: HostRuntime) -> Result<(), Fail> {
    let alloc = rt.alloc();
    hold_acts::<Run>(alloc, "", RUNS)?;
    hold_acts::<Run>(alloc, "", HELD)?;
    hold_acts::<Run>(alloc, "", WIDE)
}

/// A limiter.
#[derive(Drop)]
struct Run {
    limits: Limits,
}

impl Player for Run {
    /// The limits of `min MIN max MAX vmax V amax A dt MICROSECONDS`.
    fn begin(_alloc: Global, _before: &str, head: &str) -> Result<Run, Fail> {
        let head = head.trim_end();
        Ok(Run {
            limits: Limits {
                min: number(head, 1)?,
                max: number(head, 3)?,
                vmax: number(head, 5)?,
                amax: number(head, 7)?,
                dt_us: u32::try_from(whole(head, 9)?)?,
            },
        })
    }

    /// The positions of `from START wanted VALUE VALUE ..`.
    fn told(&mut self, alloc: Global, act: &str) -> Result<String, Fail> {
        let wanted = wanted(alloc, act)?;
        let outs = outs(alloc, &self.limits, number(act, 1)?, wanted.as_slice())?;
        spelled(alloc, outs.as_slice())
    }
}

fn outs(alloc: Global, limits: &Limits, start: Fx, wanted: &[Value]) -> Result<Vec<Fx>, Fail> {
    if limits.min.micro() > limits.max.micro()
        || limits.vmax.micro() < 0
        || limits.amax.micro() < 0
    {
        return Err(Fail::new("no limits"));
    }
    if limits.dt_us < 1 || limits.dt_us > LONGEST_TIME {
        return Err(Fail::new("no time"));
    }
    Ok(limit_run(alloc, limits, start, wanted)?)
}

fn wanted(alloc: Global, act: &str) -> Result<Vec<Value>, Fail> {
    let mut values = Vec::new(alloc);
    for text in act.split(' ').skip(3) {
        values.push(value_of(text)?)?;
    }
    Ok(values)
}

fn spelled(alloc: Global, outs: &[Fx]) -> Result<String, Fail> {
    let mut text = String::new(alloc);
    for out in outs {
        push(&mut text, *out)?;
    }
    Ok(text)
}

fn push(text: &mut String, out: Fx) -> Result<(), Fail> {
    if !text.is_empty() {
        text.push_str(" ")?;
    }
    write!(text, "{out}")?;
    Ok(())
}
