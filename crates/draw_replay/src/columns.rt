//! The columns in which a run is told.

ghost use Rattle.std.specs.Prelude.{◌≡◌, ◌*◌, ◌<◌, ◌≤◌};
ghost use Rattle.draw_replay.specs.declared.columns.TheConstants.{MOST_COLUMNS};

/// The most columns that stand side by side, whatever the number of cycles.
pub const MOST_COLUMNS: u64 = 2_000;

/// The columns in which a run is told: each is a cycle, or as many as it takes to have no more than `MOST_COLUMNS`.
#[derive(Clone, Copy)]
pub struct Columns {
    cycles: u64,
    each: u64,
    count: u64,
    ghost few: { count ≤ MOST_COLUMNS },
    ghost all: { cycles ≤ count * each },
}

impl Columns {
    /// The columns of so many cycles.
    pub fn of(cycles: u64) -> Columns
        ensures { result.cycles ≡ cycles }
    {
        let each = cycles.div_ceil(MOST_COLUMNS).max(1);
        let count = cycles.div_ceil(each).min(MOST_COLUMNS);
        Columns {
            cycles,
            each,
            count,
        }
    }

    /// How many columns there are.
    pub fn count(&self) -> usize
        ensures is { result ≡ self.now.count }
        ensures few { result ≤ MOST_COLUMNS }
    {
        self.count as usize
    }

    /// How many cycles are described.
    pub fn cycles(&self) -> u64
        ensures { result ≡ self.now.cycles }
    {
        self.cycles
    }

    /// Whether a column is more than one cycle.
    pub fn are_many(&self) -> bool {
        self.each > 1
    }

    /// The column of a cycle. Each cycle that is described has one.
    pub fn of_cycle(&self, cycle: u64) -> usize
        ensures { cycle < self.now.cycles → result < self.now.count }
    {
        match cycle.checked_div(self.each) {
            Some(column) => column as usize,
            None => 0,
        }
    }

    /// The first cycle of a column, and the last.
    pub fn cycles_of(&self, column: usize) -> (u64, u64) {
        let first = (column as u64).saturating_mul(self.each);
        let last = first.saturating_add(self.each).min(self.cycles);
        (first, last.saturating_sub(1))
    }
}
