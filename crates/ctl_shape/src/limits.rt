//! What limits a position that is led step by step.

ghost use Rattle.fixed_num.specs.Micro.{IsInRange};

use fixed_num::Fx;

/// The ends of a position, its highest speed and acceleration in units a second and a second squared, and the time of
/// an update.
#[derive(Clone, Copy, Debug, PartialEq, Eq)]
pub struct Limits {
    /// The lowest position.
    pub min: Fx,
    /// The highest position.
    pub max: Fx,
    /// The highest speed, in both directions.
    pub vmax: Fx,
    /// The highest acceleration, in both directions.
    pub amax: Fx,
    /// The time from one update to the next in microseconds.
    pub dt_us: u32,
}

/// The ends and the speed are numbers of the range. It does nothing: its contract says so.
pub(crate) fn ends_in_range(limits: &Limits)
    ensures lowest { IsInRange limits.now.min }
    ensures highest { IsInRange limits.now.max }
    ensures speed { IsInRange limits.now.vmax }
{
    let _ = limits.min.micro();
    let _ = limits.max.micro();
    let _ = limits.vmax.micro();
}
