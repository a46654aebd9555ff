//! What holds the threads of a case, and what counts the pauses of its loop.

use outside_io::{Gate, Pace, Point};
use pages_cases::words::word;
use std::alloc::Global;
use std::sync::atomic::AtomicBool;
use std::sync::atomic::Ordering::SeqCst;
use std::test::Fail;
use std::thread;

/// So many turns a hold lasts at most.
const MOST_TURNS: u32 = 1_000_000;

/// A thread is held at a point until another thread has reached one.
#[derive(Drop)]
struct Hold {
    held: Point,
    until: Point,
    is_reached: AtomicBool,
}

impl Hold {
    /// Whether it is reached within its turns, each of which yields the thread.
    fn waits_out(&self) -> bool {
        for _ in 0..MOST_TURNS {
            if self.is_reached.load(SeqCst) {
                return true;
            }
            thread::yield_now();
        }
        false
    }
}

/// A gate of holds, which notes where one ran out.
#[derive(Drop)]
pub(crate) struct Holds {
    all: Vec<Hold>,
    has_run_out: AtomicBool,
}

impl Holds {
    /// The holds of a text, a line each: `POINT until POINT`.
    pub fn read(alloc: Global, text: &str) -> Result<Holds, Fail> {
        let mut all = Vec::new(alloc);
        for line in text.lines() {
            all.push(hold_of(line)?)?;
        }
        Ok(Holds {
            all,
            has_run_out: AtomicBool::new(false),
        })
    }

    /// Whether a hold ran out.
    pub fn has_run_out(&self) -> bool {
        self.has_run_out.load(SeqCst)
    }

    /// This point is reached.
    fn note(&self, point: Point) {
        for hold in self.all.as_slice() {
            if point == hold.until {
                hold.is_reached.store(true, SeqCst);
            }
        }
    }
}

impl Gate for Holds {
    fn at(&self, point: Point) {
        self.note(point);
        for hold in self.all.as_slice() {
            if point == hold.held && !hold.waits_out() {
                self.has_run_out.store(true, SeqCst);
            }
        }
    }
}

fn hold_of(line: &str) -> Result<Hold, Fail> {
    let (held, until) = line.split_once(" until ").ok_or("a hold without its end")?;
    Ok(Hold {
        held: point_of(held)?,
        until: point_of(until)?,
        is_reached: AtomicBool::new(false),
    })
}

/// `before SESSION LINE`, `answered SESSION LINE`, `begun CYCLE`, `compute CYCLE` or `computed CYCLE`.
fn point_of(text: &str) -> Result<Point, Fail> {
    match word(text, 0) {
        "begun" => Ok(Point::BeginDone(word(text, 1).parse()?)),
        "compute" => Ok(Point::ComputeStart(word(text, 1).parse()?)),
        "computed" => Ok(Point::ComputeDone(word(text, 1).parse()?)),
        "before" => Ok(Point::Before {
            session: word(text, 1).parse()?,
            line: word(text, 2).parse()?,
        }),
        "answered" => Ok(Point::Answered {
            session: word(text, 1).parse()?,
            line: word(text, 2).parse()?,
        }),
        _ => Err(Fail::new("an unknown point")),
    }
}

/// Counts how often it was called, and whether in order of cycles.
#[derive(Drop)]
pub(crate) struct Counted {
    pub pauses: u64,
    pub in_order: bool,
}

impl Pace for Counted {
    fn pause(&mut self, cycle: u64) {
        if cycle != self.pauses {
            self.in_order = false;
        }
        self.pauses = self.pauses.saturating_add(1);
    }
}
