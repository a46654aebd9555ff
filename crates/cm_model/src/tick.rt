//! The moment of an update.

/// The longest time between two updates of a controller, in microseconds: one second, at one hertz.
pub const LONGEST_PERIOD: u32 = 1_000_000;

/// When a controller is updated.
#[derive(Clone, Copy, Debug, PartialEq, Eq)]
pub struct Tick {
    /// The number of the cycle.
    pub cycle: u64,
    /// When the cycle is, in microseconds from the start of cycle 0.
    pub time_us: u64,
    /// The time from the controller's update before to this one, in microseconds: 1 to `LONGEST_PERIOD`.
    pub dt_us: u32,
}
