//! Where the columns of a run stand on the page, side by side.

use draw_replay::Columns;
use draw_svg::{MARGIN, PAGE_WIDTH, Px};

/// The widest column, in pixels.
const WIDEST_COLUMN: u64 = 128;

/// The most numbers that stand on the axis.
const MOST_NUMBERS: u64 = 16;

/// The columns of a run, and where they stand.
#[derive(Clone, Copy)]
pub struct Strip {
    /// The columns.
    pub columns: Columns,
    left: Px,
    width: Px,
}

impl Strip {
    /// These columns between the names at the left, which end here, and the page's right margin.
    pub fn of(columns: Columns, left: Px) -> Strip {
        let right = Px::of(PAGE_WIDTH - MARGIN);
        let widest = Px::of(WIDEST_COLUMN).times(columns.count());
        Strip {
            columns,
            left,
            width: right.minus(left).least(widest),
        }
    }

    /// The left end of a column. That of the column behind the last is the right end of all.
    pub fn left_of(&self, column: usize) -> Px {
        let count = self.columns.count();
        let share = self.width.share(column.min(count) as u64, count as u64);
        self.left.plus(share)
    }

    /// The middle of a column.
    pub fn middle_of(&self, column: usize) -> Px {
        let left = self.left_of(column);
        let right = self.left_of(column.saturating_add(1));
        left.plus(right.minus(left).half())
    }

    /// The left end of all columns.
    pub fn left(&self) -> Px {
        self.left
    }

    /// The right end of all columns.
    pub fn right(&self) -> Px {
        self.left.plus(self.width)
    }

    /// How wide a column is.
    pub fn each_width(&self) -> Px {
        self.width.share(1, self.columns.count() as u64)
    }

    /// How many numbers stand on the axis.
    pub fn numbers(&self) -> u64 {
        let cycles = self.columns.cycles();
        cycles.div_ceil(self.between_numbers().max(1))
    }

    /// How many cycles lie between two numbers on the axis: 1, 2 or 5 times a power of ten, so that no more than
    /// `MOST_NUMBERS` stand there.
    pub fn between_numbers(&self) -> u64 {
        let mut power = 1u64;
        for _power in 0..6 {
            if let Some(step) = self.step_of(power) {
                return step;
            }
            power = power.saturating_mul(10);
        }
        power
    }

    /// The least of 1, 2 and 5 times this power of ten with which few enough numbers stand on the axis.
    fn step_of(&self, power: u64) -> Option<u64> {
        for factor in [1, 2, 5] {
            let step = power.saturating_mul(factor);
            if step.saturating_mul(MOST_NUMBERS) >= self.columns.cycles() {
                return Some(step);
            }
        }
        None
    }
}
