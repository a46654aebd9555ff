//! What lets the threads of a live run go on in an order that is given.

use outside_io::{Gate, Pace, Point};
use pages_cases::words::word;
use std::alloc::Global;
use std::sync::atomic::Ordering::SeqCst;
use std::sync::atomic::{AtomicBool, AtomicU64};
use std::test::Fail;
use std::thread;

/// So many turns a thread is held at most, each of which yields it.
const MOST_TURNS: u32 = 1_000_000;

/// A place in a thread of a live run.
#[derive(Clone, Copy, PartialEq, Eq)]
enum Mark {
    At(Point),
    /// The loop comes by here behind the landing of this cycle, when its pause begins.
    Landed(u64),
    /// And here when its pause ends.
    Paused(u64),
}

/// A thread that comes to one of these marks is held until all marks before it have been passed. Nobody is held at
/// other marks.
#[derive(Drop)]
pub(crate) struct InOrder {
    marks: Vec<Mark>,
    /// How many of them have been passed.
    passed: AtomicU64,
    has_run_out: AtomicBool,
}

impl InOrder {
    /// The marks of a text, with `, ` between two of them.
    pub fn read(alloc: Global, text: &str) -> Result<InOrder, Fail> {
        let mut marks = Vec::new(alloc);
        if !text.is_empty() {
            for part in text.split(", ") {
                marks.push(mark_of(part)?)?;
            }
        }
        Ok(InOrder {
            marks,
            passed: AtomicU64::new(0),
            has_run_out: AtomicBool::new(false),
        })
    }

    /// Whether all marks were passed, and no thread was held for too long.
    pub fn has_come_through(&self) -> bool {
        !self.has_run_out.load(SeqCst) && self.passed.load(SeqCst) == self.marks.len() as u64
    }

    fn reach(&self, reached: Mark) {
        for (place, mark) in self.marks.as_slice().iter().enumerate() {
            if *mark == reached {
                self.pass(place as u64);
            }
        }
    }

    fn pass(&self, place: u64) {
        for _ in 0..MOST_TURNS {
            if self.passed.load(SeqCst) == place {
                self.passed.fetch_add(1, SeqCst);
            }
            if self.passed.load(SeqCst) > place {
                return;
            }
            thread::yield_now();
        }
        self.has_run_out.store(true, SeqCst);
    }
}

impl Gate for InOrder {
    fn at(&self, point: Point) {
        self.reach(Mark::At(point));
    }
}

/// A pace that holds the loop in a pause, and counts its calls.
#[derive(Drop)]
pub(crate) struct OrderedPace<'a> {
    pub order: &'a InOrder,
    pub calls: u64,
}

impl Pace for OrderedPace<'_> {
    fn pause(&mut self, cycle: u64) {
        self.calls = self.calls.saturating_add(1);
        self.order.reach(Mark::Landed(cycle));
        self.order.reach(Mark::Paused(cycle));
    }
}

/// `begun CYCLE`, `computing CYCLE`, `computed CYCLE`, `landed CYCLE`, `paused CYCLE`, `before SESSION LINE` or
/// `answered SESSION LINE`.
fn mark_of(text: &str) -> Result<Mark, Fail> {
    match word(text, 0) {
        "begun" => Ok(Mark::At(Point::BeginDone(word(text, 1).parse()?))),
        "computing" => Ok(Mark::At(Point::ComputeStart(word(text, 1).parse()?))),
        "computed" => Ok(Mark::At(Point::ComputeDone(word(text, 1).parse()?))),
        "landed" => Ok(Mark::Landed(word(text, 1).parse()?)),
        "paused" => Ok(Mark::Paused(word(text, 1).parse()?)),
        "before" => Ok(Mark::At(Point::Before {
            session: word(text, 1).parse()?,
            line: word(text, 2).parse()?,
        })),
        "answered" => Ok(Mark::At(Point::Answered {
            session: word(text, 1).parse()?,
            line: word(text, 2).parse()?,
        })),
        _ => Err(Fail::new("an unknown mark")),
    }
}
