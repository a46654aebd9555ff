//! Pages of calls: each case has the calls of several sessions and of the loop on a desk at boot, a line each.

ghost use Rattle.std.specs.Prelude.{◌<◌, ◌^◌, length};
ghost use Rattle.std.specs.List.{All};
ghost use Rattle.cm_model.specs.Controllers.{IsBlank};

use crate::marked::{Marked, with_marks};
use crate::tables::Table;
use cm_document::Checked;
use cm_model::{Entry, Outcome, Reply};
use cm_stock::Stock;
use cm_storage::CycleRecord;
use ctl_trait::Controller;
use fixed_num::BodyState;
use pages_calls::calls::call_of;
use pages_calls::described::checked_description;
use pages_calls::replies::{push_entry, push_record, push_reply};
use pages_calls::stocks::few_blanks;
use pages_cases::pages::{halves, hold_told};
use std::alloc::Global;
use std::test::Fail;
use std::thread::Threads;

/// What is told where a call of the loop has not its condition, and is not made.
pub(crate) const CANNOT: &str = "cannot";

/// The most blanks of a stock here.
const MOST_BLANKS: usize = 100;

/// What came of a call.
#[derive(Drop)]
enum Heard {
    Answered,
    /// Memory was refused to the desk.
    Refused,
}

/// Fails at the first line of a page of which something else is told than it says. A case is a paragraph of lines
/// `CALL => TOLD`, for a desk of so many sessions over this robot. A call that was refused memory is made again.
pub(crate) fn hold_calls<R: Threads>(
    rt: &R,
    alloc: Global,
    robot: &str,
    sessions: u32,
    page: &str,
) -> Result<(), Fail> {
    for case in page.split("\n\n") {
        hold_case(rt, alloc, robot, sessions, case)?;
    }
    Ok(())
}

fn hold_case<R: Threads>(
    rt: &R,
    alloc: Global,
    robot: &str,
    sessions: u32,
    case: &str,
) -> Result<(), Fail> {
    let blanks = with_marks(alloc, few_blanks(alloc, 1)?)?;
    if blanks.len() > MOST_BLANKS {
        return Err(Fail::new("a stock too large"));
    }
    play(
        rt,
        alloc,
        checked_description(alloc, robot)?,
        blanks,
        sessions,
        case,
    )
}

/// The calls of a case, on a desk at boot, each with what is told of it.
fn play<R: Threads, C: Controller + Send + 'static>(
    rt: &R,
    alloc: Global,
    checked: Checked,
    blanks: Vec<Marked<C>>,
    sessions: u32,
    case: &str,
) -> Result<(), Fail>
    requires blank { All IsBlank blanks.items }
    requires few { length blanks.items < 2 ^ 32 }
{
    let mut table = Table::at_boot(alloc, checked, Stock::make(blanks), sessions)?;
    let held = hold_lines(rt, alloc, &mut table, case);
    drop(table);
    held
}

fn hold_lines<R: Threads, C: Controller + Send + 'static>(
    rt: &R,
    alloc: Global,
    table: &mut Table<Marked<C>>,
    case: &str,
) -> Result<(), Fail> {
    for line in case.lines() {
        hold_line(rt, alloc, table, line)?;
    }
    Ok(())
}

fn hold_line<R: Threads, C: Controller + Send + 'static>(
    rt: &R,
    alloc: Global,
    table: &mut Table<Marked<C>>,
    line: &str,
) -> Result<(), Fail> {
    let (call, want) = halves(line, " => ")?;
    let mut told = String::new(alloc);
    make_until_answered(rt, alloc, table, call, &mut told)?;
    hold_told(alloc, call, told.as_str(), want)
}

/// Makes a call, once more if it was refused memory.
fn make_until_answered<R: Threads, C: Controller + Send + 'static>(
    rt: &R,
    alloc: Global,
    table: &mut Table<Marked<C>>,
    call: &str,
    told: &mut String,
) -> Result<(), Fail> {
    let entries = table.history().len();
    if let Heard::Answered = make(rt, alloc, table, call, told)? {
        return Ok(());
    }
    hold_unchanged(table, entries)?;
    make_again(rt, alloc, table, call, told)
}

/// Fails if a call that was refused memory has changed the history, which had so many entries.
fn hold_unchanged<C: Controller>(table: &Table<Marked<C>>, entries: usize) -> Result<(), Fail> {
    if table.history().len() == entries {
        return Ok(());
    }
    Err(Fail::new("a refused call has changed the history"))
}

/// Makes a call that was refused memory.
fn make_again<R: Threads, C: Controller + Send + 'static>(
    rt: &R,
    alloc: Global,
    table: &mut Table<Marked<C>>,
    call: &str,
    told: &mut String,
) -> Result<(), Fail> {
    match make(rt, alloc, table, call, told)? {
        Heard::Answered => Ok(()),
        Heard::Refused => Err(Fail::new("a call was refused memory twice")),
    }
}

/// A call of the loop, or else a session's behind its number; or `drop` of the flight that is at hand, or the
/// `history`.
fn make<R: Threads, C: Controller + Send + 'static>(
    rt: &R,
    alloc: Global,
    table: &mut Table<Marked<C>>,
    call: &str,
    told: &mut String,
) -> Result<Heard, Fail> {
    let pushed = match call {
        "begin" => return begin(alloc, table, told),
        "compute" => push_outcome_of(told, table.compute(), table),
        "compute aside" => push_outcome_of(told, table.compute_aside(rt), table),
        "land" => push_last(told, table.land(), table.history()),
        "end" => end(table, told),
        "drop" => push_made(told, table.lose()),
        "close" => push_last(told, table.close(), table.history()),
        "history" => push_history(alloc, told, table.history()),
        _ => return ask(alloc, table, call, told),
    };
    pushed?;
    Ok(Heard::Answered)
}

// ---- The loop

fn begin<C: Controller>(
    alloc: Global,
    table: &mut Table<Marked<C>>,
    told: &mut String,
) -> Result<Heard, Fail> {
    let Ok(made) = table.begin(alloc) else {
        return Ok(Heard::Refused);
    };
    push_last(told, made, table.history())?;
    Ok(Heard::Answered)
}

/// The flight at hand is computed and lands.
fn end<C: Controller>(table: &mut Table<Marked<C>>, told: &mut String) -> Result<(), Fail> {
    let made = table.compute() && table.land();
    push_last(told, made, table.history())
}

/// Appends what happened in the cycle of the flight at hand, where it was computed.
fn push_outcome_of<C: Controller>(
    told: &mut String,
    made: bool,
    table: &Table<Marked<C>>,
) -> Result<(), Fail> {
    match table.outcome() {
        Some(record) if made => push_record(told, record),
        _ => push_made(told, false),
    }
}

/// Appends the reply of the last entry, where the call of the loop was made.
pub(crate) fn push_last(told: &mut String, made: bool, history: &[Entry]) -> Result<(), Fail> {
    match history.last() {
        Some(entry) if made => push_reply(told, &entry.reply),
        _ => push_made(told, false),
    }
}

/// Appends whether a call of the loop was made.
pub(crate) fn push_made(told: &mut String, made: bool) -> Result<(), Fail> {
    told.push_str(if made { "ok" } else { CANNOT })?;
    Ok(())
}

// ---- The history

/// Appends all entries, each end with where its joints are.
pub(crate) fn push_history(
    alloc: Global,
    told: &mut String,
    history: &[Entry],
) -> Result<(), Fail> {
    for entry in history {
        push_entry(alloc, told, entry)?;
        if let Reply::Cycle(record) = &entry.reply {
            push_bodies(told, record)?;
        }
    }
    Ok(())
}

/// Appends where each joint is, how fast, and its effort.
fn push_bodies(told: &mut String, record: &CycleRecord) -> Result<(), Fail> {
    for body in record.bodies() {
        push_body(told, body)?;
    }
    Ok(())
}

fn push_body(told: &mut String, body: &BodyState) -> Result<(), Fail> {
    write!(told, "; joint {} {} {}", body.x, body.v, body.f)?;
    Ok(())
}

// ---- Sessions

/// `WHO CALL`, `WHO told TICKET` or `WHO await CYCLES`.
fn ask<C: Controller>(
    alloc: Global,
    table: &mut Table<Marked<C>>,
    line: &str,
    told: &mut String,
) -> Result<Heard, Fail> {
    let (who, call) = halves(line, " ")?;
    let who = who.parse()?;
    if who >= table.sessions() {
        return Err(Fail::new("no such session"));
    }
    let (verb, rest) = call.split_once(" ").unwrap_or((call, ""));
    match verb {
        "told" => ask_for(alloc, table, who, rest, told),
        "await" => wait_for(alloc, table, who, rest, told),
        _ => call_desk(alloc, table, who, verb, rest, told),
    }
}

/// A session asks what became of a ticket.
fn ask_for<C: Controller>(
    alloc: Global,
    table: &mut Table<Marked<C>>,
    who: u32,
    ticket: &str,
    told: &mut String,
) -> Result<Heard, Fail>
    requires session { who < table.old.opening.sessions }
{
    let ticket = ticket.parse()?;
    let Ok(outcome) = table.told(alloc, who, ticket) else {
        return Ok(Heard::Refused);
    };
    push_outcome(told, outcome)?;
    Ok(Heard::Answered)
}

/// A session waits until so many cycles have ended.
fn wait_for<C: Controller>(
    alloc: Global,
    table: &mut Table<Marked<C>>,
    who: u32,
    cycles: &str,
    told: &mut String,
) -> Result<Heard, Fail>
    requires session { who < table.old.opening.sessions }
{
    let cycles = cycles.parse()?;
    let Ok(reached) = table.reached(alloc, who, cycles) else {
        return Ok(Heard::Refused);
    };
    push_reached(told, reached)?;
    Ok(Heard::Answered)
}

/// A session calls the desk, and is told of the reply and of the box that an unload hands out.
fn call_desk<C: Controller>(
    alloc: Global,
    table: &mut Table<Marked<C>>,
    who: u32,
    verb: &str,
    rest: &str,
    told: &mut String,
) -> Result<Heard, Fail>
    requires session { who < table.old.opening.sessions }
{
    let call = call_of(alloc, verb, rest)?;
    let Ok((reply, given)) = table.call(alloc, who, call) else {
        return Ok(Heard::Refused);
    };
    let pushed = push_answer(told, &reply, given);
    drop(reply);
    pushed?;
    Ok(Heard::Answered)
}

fn push_answer<C: Controller>(
    told: &mut String,
    reply: &Reply,
    given: Option<Marked<C>>,
) -> Result<(), Fail> {
    push_reply(told, reply)?;
    push_given(told, given)
}

/// Appends what became of a ticket.
pub(crate) fn push_outcome(told: &mut String, outcome: Option<Outcome>) -> Result<(), Fail> {
    let pushed = match &outcome {
        Some(outcome) => write!(told, "{outcome}"),
        None => told.push_str("not yet"),
    };
    drop(outcome);
    Ok(pushed?)
}

/// Appends whether so many cycles have ended.
pub(crate) fn push_reached(told: &mut String, reached: bool) -> Result<(), Fail> {
    told.push_str(if reached { "ok" } else { "not yet" })?;
    Ok(())
}

/// Appends the box that an unload hands out.
fn push_given<C: Controller>(told: &mut String, given: Option<Marked<C>>) -> Result<(), Fail> {
    if let Some(ctl) = given {
        told.push_str(", a ")?;
        ctl.push_to(told)?;
    }
    Ok(())
}
