//! Where a test may watch or hold the program's threads.

/// A place in the program's threads.
#[derive(Clone, Copy, Debug, PartialEq, Eq)]
pub enum Point {
    /// The cycle of this number has begun.
    BeginDone(u64),
    /// The computation of this cycle is about to start.
    ComputeStart(u64),
    /// The computation of this cycle is done.
    ComputeDone(u64),
    /// This line of this session is about to be run; lines count from 0 in their session.
    Before { session: u32, line: u32 },
    /// This line of this session has its answer; lines count from 0 in their session.
    Answered { session: u32, line: u32 },
}

/// Where threads of the program can be watched or held by a test. It answers nothing, so it can't change what they do.
pub trait Gate: Sync {
    /// A thread is at this point; it goes on when the call returns.
    fn at(&self, point: Point);
}

/// The gate that holds nothing.
#[derive(Clone, Copy, Debug)]
pub struct OpenGate;

impl Gate for OpenGate {
    fn at(&self, _point: Point) {}
}
