//! Pages of calls: each case has the calls of two sessions and of the loop at a shared desk, a line each, and the
//! history in which they end.

ghost use Rattle.std.specs.Prelude.{◌≡◌, ◌<◌, ◌^◌, length};
ghost use Rattle.std.specs.List.{All};
ghost use Rattle.cm_model.specs.Controllers.{IsBlank};
ghost use Rattle.shared_desk.specs.Passes.{IsSessionPass};
ghost use Rattle.rows_desk.specs.Shared.{IsLoopOf};

use crate::lines::push_made;
use crate::shared::ends::book_of;
use crate::shared::looping::{Looping, begin_again, close, compute, land};
use crate::shared::sessions::ask;
use crate::shared::starts::share_at_boot;
use cm_desk::Book;
use cm_document::Checked;
use cm_model::Entry;
use cm_stock::Stock;
use ctl_trait::Controller;
use pages_calls::described::checked_description;
use pages_calls::replies::push_entry;
use pages_calls::stocks::few_blanks;
use pages_cases::pages::{halves, hold_told};
use shared_desk::{Pass, SharedDesk};
use std::alloc::Global;
use std::sync::Wait;
use std::test::Fail;

/// How many sessions the desk has.
const SESSIONS: u32 = 2;

/// What stands before the history in which a case ends.
const FINISH: &str = "\nfinish => ";

/// Fails at the first line of a page of which something else is told than it says. A case is a paragraph of lines
/// `CALL => TOLD`, for a desk of two sessions over this robot, and last `finish => HISTORY`.
pub(crate) fn hold_calls<R: Wait>(
    rt: &R,
    alloc: Global,
    robot: &str,
    page: &str,
) -> Result<(), Fail> {
    for case in page.split("\n\n") {
        hold_case(rt, alloc, robot, case)?;
    }
    Ok(())
}

fn hold_case<R: Wait>(rt: &R, alloc: Global, robot: &str, case: &str) -> Result<(), Fail> {
    let (calls, history) = halves(case, FINISH)?;
    let checked = checked_description(alloc, robot)?;
    play(rt, alloc, checked, few_blanks(alloc, 1)?, calls, history)
}

/// The calls of a case, at a desk that is shared at boot, each with what is told of it.
fn play<R: Wait, C: Controller>(
    rt: &R,
    alloc: Global,
    checked: Checked,
    blanks: Vec<C>,
    calls: &str,
    history: &str,
) -> Result<(), Fail>
    requires blank { All (λ b. IsBlank (C.meaning b)) blanks.items }
    requires few { length blanks.items < 2 ^ 32 }
{
    let (desk, looping, passes) = share_at_boot(alloc, checked, Stock::make(blanks), SESSIONS)?;
    play_on(rt, alloc, desk, looping, passes, calls, history)
}

/// The same of a desk that is shared. All passes are handed in then.
fn play_on<R: Wait, C: Controller>(
    rt: &R,
    alloc: Global,
    desk: SharedDesk<C>,
    mut looping: Looping<C>,
    mut passes: Vec<Pass<C>>,
    calls: &str,
    history: &str,
) -> Result<(), Fail>
    requires count { desk.at_first.value.opening.sessions ≡ 2 }
    requires looping { IsLoopOf desk.lock desk.at_first.value looping.pass.pass looping.stand looping.flight }
    requires passes { All (IsSessionPass desk.lock desk.at_first.value) passes.items }
{
    let held = hold_lines(rt, alloc, &desk, &mut looping, &mut passes, calls);
    let book = book_of(desk, looping, passes, SESSIONS);
    match held {
        Ok(()) => hold_book(alloc, &book, history),
        Err(fail) => Err(fail),
    }
}

/// Fails at the first of these calls of which something else is told than is wanted.
fn hold_lines<R: Wait, C: Controller>(
    rt: &R,
    alloc: Global,
    desk: &SharedDesk<C>,
    looping: &mut Looping<C>,
    passes: &mut Vec<Pass<C>>,
    calls: &str,
) -> Result<(), Fail>
    requires looping { IsLoopOf desk.now.lock desk.now.at_first.value looping.old.pass.pass looping.old.stand
        looping.old.flight }
    requires passes { All (IsSessionPass desk.now.lock desk.now.at_first.value) passes.old.items }
    ensures looping { IsLoopOf desk.now.lock desk.now.at_first.value looping.new.pass.pass looping.new.stand
        looping.new.flight }
    ensures passes { All (IsSessionPass desk.now.lock desk.now.at_first.value) passes.new.items }
{
    for line in calls.lines() {
        hold_line(rt, alloc, desk, looping, passes, line)?;
    }
    Ok(())
}

fn hold_line<R: Wait, C: Controller>(
    rt: &R,
    alloc: Global,
    desk: &SharedDesk<C>,
    looping: &mut Looping<C>,
    passes: &mut Vec<Pass<C>>,
    line: &str,
) -> Result<(), Fail>
    requires looping { IsLoopOf desk.now.lock desk.now.at_first.value looping.old.pass.pass looping.old.stand
        looping.old.flight }
    requires passes { All (IsSessionPass desk.now.lock desk.now.at_first.value) passes.old.items }
    ensures looping { IsLoopOf desk.now.lock desk.now.at_first.value looping.new.pass.pass looping.new.stand
        looping.new.flight }
    ensures passes { All (IsSessionPass desk.now.lock desk.now.at_first.value) passes.new.items }
{
    let (call, want) = halves(line, " => ")?;
    let mut told = String::new(alloc);
    let made = match call.strip_prefix("loop ") {
        Some(word) => turn(rt, desk, looping, word, &mut told),
        None => ask_one(rt, alloc, desk, passes, call, &mut told),
    };
    made?;
    hold_told(alloc, call, told.as_str(), want)
}

/// A call of the loop: `begin`, `compute`, `land` or `close`.
fn turn<R: Wait, C: Controller>(
    rt: &R,
    desk: &SharedDesk<C>,
    looping: &mut Looping<C>,
    word: &str,
    told: &mut String,
) -> Result<(), Fail>
    requires { IsLoopOf desk.now.lock desk.now.at_first.value looping.old.pass.pass looping.old.stand
        looping.old.flight }
    ensures { IsLoopOf desk.now.lock desk.now.at_first.value looping.new.pass.pass looping.new.stand
        looping.new.flight }
{
    match word {
        "begin" => begin_again(rt, desk, looping, told),
        "compute" => push_made(told, compute(desk, looping)),
        "land" => push_made(told, land(rt, desk, looping)),
        "close" => push_made(told, close(rt, desk, looping)),
        _ => Err(Fail::new("an unknown call of the loop")),
    }
}

/// `WHO CALL`, of a session.
fn ask_one<R: Wait, C: Controller>(
    rt: &R,
    alloc: Global,
    desk: &SharedDesk<C>,
    passes: &mut Vec<Pass<C>>,
    line: &str,
    told: &mut String,
) -> Result<(), Fail>
    requires { All (IsSessionPass desk.now.lock desk.now.at_first.value) passes.old.items }
    ensures { All (IsSessionPass desk.now.lock desk.now.at_first.value) passes.new.items }
{
    let (who, words) = halves(line, " ")?;
    let who: usize = who.parse()?;
    if who >= passes.len() {
        return Err(Fail::new("no such session"));
    }
    ask(rt, alloc, desk, &mut passes[who], words, told)
}

// ---- The end

/// The history of the book is told, or that the loop has not closed.
fn hold_book<C: Controller>(
    alloc: Global,
    book: &Option<Book<C>>,
    history: &str,
) -> Result<(), Fail> {
    let mut told = String::new(alloc);
    let pushed = match book {
        Some(book) => push_entries(alloc, &mut told, &book.history),
        None => push_made(&mut told, false),
    };
    pushed?;
    hold_told(alloc, "finish", told.as_str(), history)
}

/// Appends all entries.
fn push_entries(alloc: Global, told: &mut String, history: &[Entry]) -> Result<(), Fail> {
    for entry in history {
        push_entry(alloc, told, entry)?;
    }
    Ok(())
}
