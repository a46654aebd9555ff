//! Where the marks of a row stand: from the left, and none on another.

use crate::strip::Strip;
use draw_replay::{Event, Row, RowCell};
use draw_svg::{PAGE_WIDTH, Px};
use fixed_num::Memory;
use std::alloc::Global;

/// How far a mark may be moved to the right, so that it does not lie on the one before it, in pixels.
const FARTHEST: u64 = 16;

/// The blank between a mark and a word, and between a mark and the page's end, in pixels.
const BLANK: u64 = 4;

const LAST_BLANK: u64 = 12;

/// Columns that are narrower, in pixels, have their marks in the middle.
const ROOM_FOR_SIDES: u64 = 40;

/// A mark, of one thing that happened or of several that have no room beside one another.
#[derive(Clone, Copy)]
pub struct Placed {
    /// Where its middle stands.
    pub x: Px,
    /// The most serious that happened.
    pub event: Event,
    /// The column in which that happened.
    pub column: usize,
    /// The columns of all that happened, the first and the last.
    pub first: usize,
    /// The last of them.
    pub last: usize,
    /// How many things happened.
    pub count: u64,
}

impl Placed {
    /// How far it reaches to each side.
    fn reach(&self) -> Px {
        match self.event {
            Event::Stopped => Px::of(6),
            Event::UpdateFailed | Event::WriteFailed | Event::ReadFailed => Px::of(10),
            _ => Px::of(8),
        }
    }

    /// Where a word has to end before it.
    pub fn left(&self) -> Px {
        self.x.minus(self.reach()).minus(Px::of(BLANK))
    }

    /// Where a word may begin behind it.
    pub fn right(&self) -> Px {
        self.x.plus(self.reach()).plus(Px::of(BLANK))
    }

    /// It stands for what the other one stands for, too.
    fn take(&mut self, other: Placed) {
        self.last = other.last;
        self.count = self.count.saturating_add(other.count);
        if other.event as u8 > self.event as u8 {
            self.event = other.event;
            self.column = other.column;
        }
    }
}

/// The marks of a row.
pub fn marks_of(alloc: Global, strip: &Strip, row: &Row) -> Result<Vec<Placed>, Memory> {
    let mut marks = Vec::new(alloc);
    for (column, cell) in row.cells().iter().enumerate() {
        push_cell(&mut marks, strip, column, cell)?;
    }
    Ok(marks)
}

/// The marks of one column: that of the most serious that happened, and a stop at its end.
fn push_cell(
    marks: &mut Vec<Placed>,
    strip: &Strip,
    column: usize,
    cell: &RowCell,
) -> Result<(), Memory> {
    if cell.event != Event::Nothing {
        push_mark(marks, mark_in(strip, column, cell.event, cell.count))?;
    }
    if cell.stopped.is_some() {
        push_mark(marks, mark_in(strip, column, Event::Stopped, 1))?;
    }
    Ok(())
}

/// The mark of what happened in a column: what a begin decides at its left, a stop at its right, the others in the
/// middle.
fn mark_in(strip: &Strip, column: usize, event: Event, count: u64) -> Placed {
    let is_wide = strip.each_width().reaches(Px::of(ROOM_FOR_SIDES));
    let x = match event {
        Event::Done | Event::Partly | Event::Refused | Event::Ended if is_wide => {
            strip.left_of(column).plus(Px::of(10))
        }
        Event::Stopped => strip.left_of(column.saturating_add(1)).minus(Px::of(1)),
        _ => strip.middle_of(column),
    };
    Placed {
        x,
        event,
        column,
        first: column,
        last: column,
        count,
    }
}

/// One mark more, beside the last one. If it would have to be moved too far, the last one stands for both.
fn push_mark(marks: &mut Vec<Placed>, mark: Placed) -> Result<(), Memory> {
    let free = match marks.last() {
        Some(last) => last.x.plus(last.reach()).plus(mark.reach()),
        None => mark.x,
    };
    let x = mark.x.most(free).least(Px::of(PAGE_WIDTH - LAST_BLANK));
    if mark.x.plus(Px::of(FARTHEST)).reaches(free) {
        marks.push(Placed { x, ..mark })?;
    } else if let Some(last) = marks.last_mut() {
        last.take(mark);
    }
    Ok(())
}
