//! The run: a row for the requests and for each controller and component, over the cycles.

use crate::axis::draw_axis;
use crate::bars::{Barred, draw_bars};
use crate::broken::draw_break;
use crate::causes::answered_title;
use crate::marks::draw_mark;
use crate::placed::{Placed, marks_of};
use crate::strip::Strip;
use cm_document::Description;
use draw_causes::{Failure, failure_words};
use draw_replay::{Answered, Event, Replay, Row, RowCell};
use draw_svg::{MARGIN, PagePoint, Px, Svg, push_cycles, shortened};
use fixed_num::Memory;
use std::alloc::Global;

/// How high a row is, and a heading above some, in pixels.
const ROW_HEIGHT: u64 = 28;

const HEADING_HEIGHT: u64 = 22;

/// Columns that are narrower, in pixels, have no ticket beside a mark.
const ROOM_FOR_TICKETS: u64 = 64;

/// What a run is drawn from.
#[derive(Clone, Copy)]
pub struct Run<'a> {
    /// Its columns.
    pub strip: Strip,
    /// Its description.
    pub description: &'a Description,
    /// What happened.
    pub replay: &'a Replay<'a>,
    /// The number of the line at which the trace that tells it goes wrong, if there is one.
    pub wrong_line: Option<u32>,
}

/// Draws the run from this height on, and gives where it ends.
pub fn draw_run(alloc: Global, svg: &mut Svg, top: Px, run: Run<'_>) -> Result<Px, Memory> {
    let bottom = top.plus(height(run));
    draw_axis(alloc, svg, &run.strip, top, bottom)?;
    draw_rows(alloc, svg, top, run)?;
    draw_tickets(alloc, svg, top, run)?;
    if let Some(line) = run.wrong_line {
        let ended = run.replay.cycles_ended();
        draw_break(alloc, svg, &run.strip, top, bottom, ended, line)?;
    }
    Ok(bottom.plus(Px::of(24)))
}

/// How high all rows and headings are.
fn height(run: Run<'_>) -> Px {
    let rows = run
        .replay
        .controllers
        .len()
        .saturating_add(run.replay.components.len());
    let headings = Px::of(2 * HEADING_HEIGHT);
    Px::of(ROW_HEIGHT)
        .times(rows.saturating_add(1))
        .plus(headings)
}

fn draw_rows(alloc: Global, svg: &mut Svg, top: Px, run: Run<'_>) -> Result<(), Memory> {
    draw_row(alloc, svg, top, run, "requests", &run.replay.requests)?;
    let heading = top.plus(Px::of(ROW_HEIGHT));
    draw_controllers(alloc, svg, heading, run)?;
    let end = row_top(heading, run.replay.controllers.len());
    draw_components(alloc, svg, end, run)
}

fn draw_controllers(alloc: Global, svg: &mut Svg, top: Px, run: Run<'_>) -> Result<(), Memory> {
    draw_heading(svg, top, "controllers")?;
    let mut y = top.plus(Px::of(HEADING_HEIGHT));
    let controllers = run.description.controllers.as_slice();
    for (row, controller) in run.replay.controllers.iter().zip(controllers) {
        draw_row(alloc, svg, y, run, controller.name.as_str(), row)?;
        y = y.plus(Px::of(ROW_HEIGHT));
    }
    Ok(())
}

fn draw_components(alloc: Global, svg: &mut Svg, top: Px, run: Run<'_>) -> Result<(), Memory> {
    draw_heading(svg, top, "hardware")?;
    let mut y = top.plus(Px::of(HEADING_HEIGHT));
    let components = run.description.components.as_slice();
    for (row, component) in run.replay.components.iter().zip(components) {
        draw_row(alloc, svg, y, run, component.name.as_str(), row)?;
        y = y.plus(Px::of(ROW_HEIGHT));
    }
    Ok(())
}

/// Where the row of this place begins, below a heading that begins at this height.
fn row_top(heading: Px, place: usize) -> Px {
    heading
        .plus(Px::of(HEADING_HEIGHT))
        .plus(Px::of(ROW_HEIGHT).times(place))
}

fn draw_heading(svg: &mut Svg, top: Px, words: &str) -> Result<(), Memory> {
    let at = PagePoint {
        x: Px::of(MARGIN),
        y: top.plus(Px::of(15)),
    };
    svg.words("dim", at, words, "")
}

/// A row: its name, what it was, and above that what happened.
fn draw_row(
    alloc: Global,
    svg: &mut Svg,
    top: Px,
    run: Run<'_>,
    name: &str,
    row: &Row,
) -> Result<(), Memory> {
    draw_row_name(alloc, svg, top, run, name)?;
    let marks = marks_of(alloc, &run.strip, row)?;
    let barred = Barred {
        strip: &run.strip,
        top,
        name,
        row,
        marks: marks.as_slice(),
    };
    draw_bars(alloc, svg, barred)?;
    draw_marks(alloc, svg, top, run, name, row, marks.as_slice())
}

fn draw_row_name(
    alloc: Global,
    svg: &mut Svg,
    top: Px,
    run: Run<'_>,
    name: &str,
) -> Result<(), Memory> {
    let room = run.strip.left().minus(Px::of(MARGIN + 8)).room();
    let text = shortened(alloc, name, room)?;
    let at = PagePoint {
        x: Px::of(MARGIN),
        y: top.plus(Px::of(18)),
    };
    svg.words("row", at, text.as_str(), name)
}

// ---- What happened

/// What happened, above what a row was.
fn draw_marks(
    alloc: Global,
    svg: &mut Svg,
    top: Px,
    run: Run<'_>,
    name: &str,
    row: &Row,
    marks: &[Placed],
) -> Result<(), Memory> {
    for mark in marks {
        draw_placed(alloc, svg, top, run, name, row, mark)?;
    }
    Ok(())
}

fn draw_placed(
    alloc: Global,
    svg: &mut Svg,
    top: Px,
    run: Run<'_>,
    name: &str,
    row: &Row,
    mark: &Placed,
) -> Result<(), Memory> {
    let Some(cell) = row.cells().get(mark.column) else {
        return Ok(());
    };
    let title = mark_title(alloc, run, name, mark, cell)?;
    let at = PagePoint {
        x: mark.x,
        y: middle_of(top),
    };
    draw_mark(alloc, svg, at, mark.event, title.as_str())
}

/// The middle of a row.
fn middle_of(top: Px) -> Px {
    top.plus(Px::of(ROW_HEIGHT / 2))
}

/// What happened, to whom, when and why, and how much more in which cycles.
fn mark_title(
    alloc: Global,
    run: Run<'_>,
    name: &str,
    mark: &Placed,
    cell: &RowCell,
) -> Result<String, Memory> {
    let mut title = event_title(alloc, run, name, mark.event, cell)?;
    push_more(&mut title, run, mark)?;
    Ok(title)
}

/// Appends how much more happened, in which cycles.
fn push_more(title: &mut String, run: Run<'_>, mark: &Placed) -> Result<(), Memory> {
    if mark.count <= 1 {
        return Ok(());
    }
    let (first, _) = run.strip.columns.cycles_of(mark.first);
    let (_, last) = run.strip.columns.cycles_of(mark.last);
    let more = mark.count.saturating_sub(1);
    write!(title, " (and {more} more in ")?;
    push_cycles(title, first, last)?;
    title.push_str(")")?;
    Ok(())
}

fn event_title(
    alloc: Global,
    run: Run<'_>,
    name: &str,
    event: Event,
    cell: &RowCell,
) -> Result<String, Memory> {
    let cycle = cell.cycle;
    match (event, cell.stopped) {
        (Event::Stopped, Some(at)) => stop_title(alloc, name, at),
        (Event::UpdateFailed, _) => failure_title(alloc, name, Failure::Update, cycle),
        (Event::WriteFailed, _) => failure_title(alloc, name, Failure::Write, cycle),
        (Event::ReadFailed, _) => failure_title(alloc, name, Failure::Read, cycle),
        _ => match answered_in(run, cell) {
            Some(answered) => answered_title(alloc, answered),
            None => cycle_title(alloc, name, cycle),
        },
    }
}

/// Who was stopped, and when.
fn stop_title(alloc: Global, name: &str, cycle: u64) -> Result<String, Memory> {
    Ok(format!(in alloc; "{name}: stopped at the end of cycle {cycle}")?)
}

fn cycle_title(alloc: Global, name: &str, cycle: u64) -> Result<String, Memory> {
    Ok(format!(in alloc; "{name}: cycle {cycle}")?)
}

/// The call by which the most serious happened in a column, if it was one.
fn answered_in<'a>(run: Run<'a>, cell: &RowCell) -> Option<&'a Answered<'a>> {
    run.replay.answered.get(cell.answered?)
}

/// What failed of whom, and when.
fn failure_title(
    alloc: Global,
    name: &str,
    failure: Failure,
    cycle: u64,
) -> Result<String, Memory> {
    let words = failure_words(failure);
    Ok(format!(in alloc; "{name}: {words} in cycle {cycle}")?)
}

// ---- Tickets

/// The tickets of the requests beside their marks, by which the log has them, or how many they are.
fn draw_tickets(alloc: Global, svg: &mut Svg, top: Px, run: Run<'_>) -> Result<(), Memory> {
    if !run.strip.each_width().reaches(Px::of(ROOM_FOR_TICKETS)) {
        return Ok(());
    }
    let row = &run.replay.requests;
    let marks = marks_of(alloc, &run.strip, row)?;
    for mark in &marks {
        draw_ticket(alloc, svg, top, run, mark)?;
    }
    Ok(())
}

fn draw_ticket(
    alloc: Global,
    svg: &mut Svg,
    top: Px,
    run: Run<'_>,
    mark: &Placed,
) -> Result<(), Memory> {
    let Some(cell) = run.replay.requests.cells().get(mark.column) else {
        return Ok(());
    };
    let ticket = answered_in(run, cell).and_then(|it| it.ticket);
    if ticket.is_none() && mark.count == 1 {
        return Ok(());
    }
    let text = ticket_text(alloc, ticket, mark.count)?;
    let at = PagePoint {
        x: mark.right(),
        y: top.plus(Px::of(18)),
    };
    svg.words("dim", at, text.as_str(), "")
}

/// The ticket of one request, or how many requests these are.
fn ticket_text(alloc: Global, ticket: Option<u32>, count: u64) -> Result<String, Memory> {
    match ticket {
        Some(ticket) if count == 1 => Ok(format!(in alloc; "{ticket}")?),
        _ => Ok(format!(in alloc; "×{count}")?),
    }
}
