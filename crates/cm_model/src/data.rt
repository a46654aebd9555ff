//! The data of a controller: its kind, its parameters where it is configured, its running part where it is active.

use cm_document::{CtlKind, Params, Point2};
use fixed_num::{Fx, StoredValue};
use sequence::{Boxed, Seq};

/// The data of a controller.
#[derive(Clone, Debug, PartialEq, Eq, Drop)]
pub struct CtlData {
    /// What it computes.
    pub kind: CtlKind,
    /// Its parameters, where it is configured.
    pub params: Option<Boxed<Params>>,
    /// Its running part, where it is active.
    pub run: Option<Boxed<RunData>>,
}

/// The running part of an active controller, by its kind.
#[derive(Clone, Debug, PartialEq, Eq, Drop)]
pub enum RunData {
    /// Of a forward, a passthrough, a mock, a transmission or a differential.
    Set {
        /// Whether an active controller claims one of its references.
        chained: bool,
        /// The values that were set last, one for each claim.
        set: Seq<StoredValue>,
    },
    /// Of a pid.
    Pid {
        /// Whether an active controller claims one of its references.
        chained: bool,
        /// The value that was set last.
        set: StoredValue,
        /// The error's integral.
        integral: Fx,
        /// The last error, where there was one.
        last: Option<Fx>,
    },
    /// Of a trajectory.
    Trajectory {
        /// The values to hold where no points are followed.
        hold: Seq<Fx>,
        /// Whether its points came with the last mail.
        fresh: bool,
        /// The time from which the points count, in microseconds.
        start_us: u64,
        /// The values at that time.
        from: Seq<Fx>,
        /// The points.
        points: Seq<Point2>,
    },
    /// Of a broadcaster.
    Broadcaster {
        /// The numbers that were published last.
        last: Seq<Fx>,
    },
    /// Of a limiter.
    Limiter {
        /// Whether an active controller claims its reference.
        chained: bool,
        /// The value that was set last.
        set: StoredValue,
        /// The position to which it has led.
        at: Fx,
        /// The last step that led there.
        step: Fx,
    },
}
