//! A position that is led towards wanted values, within limits.

ghost use Rattle.std.specs.Prelude.{IfOk};
ghost use Rattle.ctl_shape.specs.Limiters.{IsRunFrom, reach_in};
ghost use Rattle.ctl_shape.specs.Calls.Steps.{AreLimits};

use crate::limiter::Limiter;
use crate::limits::Limits;
use fixed_num::{Fx, Memory, Value};
use std::alloc::Global;

/// The positions of a run: it begins at the start brought between the ends, without a step, and goes one new step for
/// each wanted value.
pub fn limit_run(
    alloc: Global,
    limits: &Limits,
    start: Fx,
    wanted: &[Value],
) -> Result<Vec<Fx>, Memory>
    requires { AreLimits limits.now }
    ensures { IfOk result (λ outs. IsRunFrom (reach_in limits.now) start wanted.now outs.items) }
{
    let limiter = Limiter::of(limits);
    let mut outs = Vec::with_capacity(alloc, wanted.len())?;
    let mut at = limiter.brought(start);
    let mut before = at;
    for value in wanted {
        let next = limiter.advance(at, Fx::difference(at, before), *value);
        before = at;
        at = next;
        outs.push(at)?;
    }
    Ok(outs)
}
