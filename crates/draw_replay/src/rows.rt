//! The rows of a run: what each controller and component was in each column, and what happened to it there.

use cm_document::Life;
use fixed_num::Memory;
use std::alloc::Global;

/// What is shown of a controller or a component in a column, the least serious first.
#[derive(Clone, Copy, PartialEq, Eq)]
pub enum ColumnState {
    /// It is not loaded.
    Nothing,
    /// It is active.
    Active,
    /// It is active, and an active controller claims one of its references.
    Chained,
    /// It is inactive.
    Inactive,
    /// It is unconfigured.
    Unconfigured,
    /// It is finalized.
    Finalized,
}

impl ColumnState {
    /// What is shown of this lifecycle state.
    pub fn of(life: Life, chained: bool) -> ColumnState {
        match life {
            Life::Active if chained => ColumnState::Chained,
            Life::Active => ColumnState::Active,
            Life::Inactive => ColumnState::Inactive,
            Life::Unconfigured => ColumnState::Unconfigured,
            Life::Finalized => ColumnState::Finalized,
        }
    }

    /// The word for it; none where it is not loaded.
    pub fn word(self) -> &'static str {
        match self {
            ColumnState::Nothing => "",
            ColumnState::Active => "active",
            ColumnState::Chained => "chained",
            ColumnState::Inactive => "inactive",
            ColumnState::Unconfigured => "unconfigured",
            ColumnState::Finalized => "finalized",
        }
    }
}

/// What happened, the least serious first.
#[derive(Clone, Copy, PartialEq, Eq)]
pub enum Event {
    /// Nothing that is marked.
    Nothing,
    /// A request was carried out.
    Done,
    /// A request was carried out without some of its names.
    Partly,
    /// A request waited when the loop closed.
    Ended,
    /// A request was refused, or a call did nothing.
    Refused,
    /// A controller was stopped at the end of a cycle.
    Stopped,
    /// An update failed.
    UpdateFailed,
    /// A write failed.
    WriteFailed,
    /// A read failed.
    ReadFailed,
}

/// What a row has to show in a column.
#[derive(Clone, Copy)]
pub struct RowCell {
    /// The most serious that it was there.
    pub shown: ColumnState,
    /// The most serious that happened there.
    pub event: Event,
    /// The first cycle in which that happened.
    pub cycle: u64,
    /// The call by which it happened, among all that were answered, if it was one.
    pub answered: Option<usize>,
    /// How many things happened there, stops apart.
    pub count: u64,
    /// The first cycle at whose end it was stopped, where it was.
    pub stopped: Option<u64>,
}

/// A column in which nothing stands.
const BLANK: RowCell = RowCell {
    shown: ColumnState::Nothing,
    event: Event::Nothing,
    cycle: 0,
    answered: None,
    count: 0,
    stopped: None,
};

/// A row: its columns.
#[derive(Drop)]
pub struct Row {
    cells: Vec<RowCell>,
}

impl Row {
    /// A row of so many columns, in which nothing stands yet.
    pub fn blank(alloc: Global, columns: usize) -> Result<Row, Memory> {
        Ok(Row {
            cells: vec![in alloc; BLANK; columns]?,
        })
    }

    /// The columns, from the left.
    pub fn cells(&self) -> &[RowCell] {
        self.cells.as_slice()
    }

    /// It was this in a cycle of the column.
    pub fn show(&mut self, column: usize, shown: ColumnState) {
        if let Some(cell) = self.cells.get_mut(column) {
            if shown as u8 > cell.shown as u8 {
                cell.shown = shown;
            }
        }
    }

    /// This happened in a cycle of the column, by this call if it was one.
    pub fn mark(&mut self, column: usize, event: Event, cycle: u64, answered: Option<usize>) {
        if let Some(cell) = self.cells.get_mut(column) {
            cell.count = cell.count.saturating_add(1);
            if event as u8 > cell.event as u8 {
                cell.event = event;
                cell.cycle = cycle;
                cell.answered = answered;
            }
        }
    }

    /// It was stopped at the end of a cycle of the column.
    pub fn stop(&mut self, column: usize, cycle: u64) {
        if let Some(cell) = self.cells.get_mut(column) {
            if cell.stopped.is_none() {
                cell.stopped = Some(cycle);
            }
        }
    }
}

/// So many blank rows.
pub fn blank_rows(alloc: Global, rows: usize, columns: usize) -> Result<Vec<Row>, Memory> {
    let mut blank = Vec::new(alloc);
    for _row in 0..rows {
        blank.push(Row::blank(alloc, columns)?)?;
    }
    Ok(blank)
}

/// Marks the row at a place, where there is one.
pub fn mark_row(rows: &mut Vec<Row>, place: usize, column: usize, event: Event, cycle: u64) {
    if let Some(row) = rows.get_mut(place) {
        row.mark(column, event, cycle, None);
    }
}
