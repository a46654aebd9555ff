//! A book of lines that passes write in turns: eight at once, one alone, and as many as a lock has; and passes that
//! sleep. No clause promises that a turn comes, so each case has a limit of time.

ghost use Rattle.std.specs.Prelude.{◌≡◌, ◌+◌, ◌<◌, ◌≤◌, ◌^◌, ℕ, true, false, [], length, All, IfOk};
ghost use Rattle.turn_lock.specs.Passes.{view, IsReady, IsSamePass, EachStays};
ghost use Rattle.turn_lock.specs.Calls.Finish.{AreAll};
ghost use Rattle.turn_lock.specs.declared.TheConstants.{MOST_SEATS};
ghost use Rattle.rows_callers.specs.declared.turns.TheConstants.{MOST_TURNS};
ghost use Rattle.rows_callers.specs.Calls.Turns.{IsAtWork};

use fixed_num::Memory;
use std::alloc::Global;
use std::process::Abort;
use std::sync::Wait;
use std::sync::atomic::AtomicBool;
use std::sync::atomic::Ordering::SeqCst;
use std::test::Fail;
use std::thread::Threads;
use std::time::{Clock, Duration};
use std::{hint, thread};
use turn_lock::{Kept, MOST_SEATS, Shown, TurnLock, TurnPass};

/// A line: the number of the pass that wrote it, and at which of its turns.
#[derive(Clone, Copy, Debug, PartialEq, Eq)]
pub(crate) struct Line {
    who: u32,
    turn: u32,
}

/// The lines in order, with room for all that will be written.
#[derive(Drop)]
pub(crate) struct Book {
    lines: Vec<Line>,
}

impl Book {
    /// A book without lines, and without room for any.
    pub(crate) fn empty(alloc: Global) -> Book
        ensures { result.lines.items ≡ [] }
    {
        Book {
            lines: Vec::new(alloc),
        }
    }
}

/// So many lines a book has at most.
const MOST_LINES: usize = 20_000;

/// So many turns a pass takes at most.
const MOST_TURNS: u32 = 10_000;

/// What is the same of all books of one lock: nothing.
#[derive(Clone, Copy)]
pub(crate) struct Any;

impl Kept for Book {
    ghost use Rattle.std.specs.Prelude.{length, refl};
    ghost use Rattle.std.proofs.Common.{sym, subst, length-append, le-add_right, ◌≤◌};

    type Entry = Line;

    type Ground = Any;

    ghost entries = { λ book. book.lines.items };

    ghost footing = { λ book. record {} };

    ghost caller = { λ line. line.who };

    ghost shown = { λ which lines. length lines };

    ghost shown_empty = { λ which. refl };

    ghost shown_grows = { λ which xs ys.
        subst (λ n. length xs ≤ n) (sym (length-append xs ys)) (le-add_right (length xs) (length ys)) };
}

/// How long a pass holds the turn.
#[derive(Clone, Copy)]
enum Hold {
    /// As long as its line takes.
    Short,
    /// Until those who wait have gone to sleep.
    Long,
    /// About as long as those who wait look before they sleep: a little longer at each turn, and then from the start.
    Varied,
}

/// In so many milliseconds those who wait have gone to sleep.
const LONG: u64 = 20;

/// More pauses of the processor than those who wait make before they sleep: 256 looks, each of up to four pauses.
const MOST_PAUSES: u32 = 1_024;

/// A rest of a pass that waits for the others to begin, in microseconds, and as many of them as ten seconds have.
const REST: u64 = 100;

const MOST_RESTS: u32 = 100_000;

/// So many passes write at once, each at so many turns, which it holds so long.
#[derive(Clone, Copy)]
struct Work {
    seats: u32,
    turns: u32,
    hold: Hold,
}

impl Work {
    fn of(seats: u32, turns: u32, hold: Hold) -> Work
        ensures seats { result.seats ≡ seats }
        ensures turns { result.turns ≡ turns }
    {
        Work { seats, turns, hold }
    }
}

/// Holds the turn of this number.
fn hold_on<R: Clock>(rt: &R, hold: Hold, turn: u32) {
    match hold {
        Hold::Short => {}
        Hold::Long => thread::sleep(rt, Duration::from_millis(LONG)),
        Hold::Varied => pause(turn % MOST_PAUSES),
    }
}

/// So many pauses of the processor.
fn pause(count: u32) {
    for _ in 0..count {
        hint::spin_loop();
    }
}

/// One line at a turn of its own.
fn write_line<R: Wait + Clock>(
    rt: &R,
    lock: &TurnLock<Book>,
    pass: &mut TurnPass<Book>,
    hold: Hold,
    turn: u32,
)
    requires ready { IsReady lock.now pass.old }
    ensures ready { IsReady lock.now pass.new }
    ensures number { pass.new.number ≡ pass.old.number }
{
    let mut book = lock.take(rt, pass);
    append(lock, pass, &mut book, turn);
    hold_on(rt, hold, turn);
    lock.put(pass, book);
}

/// A line more, counted and published, if there is room.
fn append(lock: &TurnLock<Book>, pass: &mut TurnPass<Book>, book: &mut Book, turn: u32)
    requires { IsAtWork lock.now pass.old book.old }
    ensures same { IsSamePass pass.old pass.new }
    ensures at_work { IsAtWork lock.now pass.new book.new }
{
    let who = pass.number();
    let lines = book.lines.len();
    if lines >= MOST_LINES {
        return;
    }
    match book.lines.push(Line { who, turn }) {
        Ok(()) => {
            lock.count(pass, book);
            lock.publish(pass, Shown::Cycles, lines as u64 + 1);
            lock.publish(pass, Shown::Tickets, lines as u64 + 1);
        }
        Err(_) => {}
    }
}

/// All turns of a pass.
fn write_lines<R: Wait + Clock>(
    rt: &R,
    lock: &TurnLock<Book>,
    mut pass: TurnPass<Book>,
    work: Work,
) -> TurnPass<Book>
    requires ready { IsReady lock.now pass }
    ensures ready { IsReady lock.now result }
    ensures number { result.number ≡ pass.number }
{
    for turn in 0..work.turns {
        write_line(rt, lock, &mut pass, work.hold, turn);
        if turn == 0 {
            meet(rt, lock, &mut pass, work.seats);
        }
    }
    pass
}

/// Rests until so many passes have written a line each, so that none writes its second one before another begins.
fn meet<R: Wait>(rt: &R, lock: &TurnLock<Book>, pass: &mut TurnPass<Book>, seats: u32)
    requires ready { IsReady lock.now pass.old }
    ensures ready { IsReady lock.now pass.new }
    ensures number { pass.new.number ≡ pass.old.number }
{
    for _ in 0..MOST_RESTS {
        let lines = lock.seen(pass, Shown::Cycles);
        if lines >= seats as u64 {
            return;
        }
        lock.rest(rt, Shown::Cycles, lines, REST);
    }
}

/// As many threads as passes write at once.
fn write_all<R: Threads + Wait + Clock + Sync>(
    rt: &R,
    lock: &TurnLock<Book>,
    passes: Vec<TurnPass<Book>>,
    work: Work,
) -> Result<Vec<TurnPass<Book>>, Memory>
    requires ready { All (IsReady lock.now) passes.items }
    ensures len { IfOk result (λ v. length v.items ≡ length passes.items) }
    ensures each { IfOk result (λ v. EachStays lock.now passes.items v.items) }
{
    Ok(thread::map_vec(rt, passes, &|pass| write_lines(rt, lock, pass, work))?)
}

/// Takes the lock apart; the last pass is handed in first.
fn hand_in(lock: TurnLock<Book>, mut passes: Vec<TurnPass<Book>>) -> Option<Book>
    requires { AreAll lock passes.items }
{
    let last = passes.pop()?;
    Some(lock.finish(last, passes))
}

/// What the passes wrote.
fn written<R: Threads + Wait + Clock + Sync>(
    rt: &R,
    alloc: Global,
    work: Work,
) -> Result<Option<Book>, Memory>
    requires seats { (1 ≤ work.seats) × (work.seats ≤ MOST_SEATS) }
    requires turns { work.turns ≤ MOST_TURNS }
{
    let lines = Vec::with_capacity(alloc, (work.seats * work.turns) as usize)?;
    let (lock, passes) = TurnLock::make(alloc, Book { lines }, work.seats)?;
    let passes = write_all(rt, &lock, passes, work)?;
    Ok(hand_in(lock, passes))
}

/// How many lines of a pass the book has, if they stand in order of its turns.
fn in_order(book: &Book, who: u32) -> Option<u32> {
    let mut next = 0;
    for line in &book.lines {
        if line.who == who {
            if line.turn != next {
                return None;
            }
            next = next.wrapping_add(1);
        }
    }
    Some(next)
}

/// The book has as many lines, of each pass as many, each pass's in order of its turns. The first lines of all passes
/// stand before the second of any, which those of passes one after another don't.
fn shows_all<R: Threads + Wait + Clock + Sync>(
    rt: &R,
    alloc: Global,
    work: Work,
) -> Result<bool, Memory>
    requires seats { (1 ≤ work.seats) × (work.seats ≤ MOST_SEATS) }
    requires turns { work.turns ≤ MOST_TURNS }
{
    let Some(book) = written(rt, alloc, work)? else {
        return Ok(false);
    };
    let mut first = book.lines.iter().take(work.seats as usize);
    let mixed = first.all(|line| line.turn == 0);
    let each = (0..work.seats).all(|who| in_order(&book, who) == Some(work.turns));
    Ok(mixed && each && book.lines.len() == (work.seats * work.turns) as usize)
}

/// So many milliseconds pass between two looks at a case, and so many looks are taken at most: twenty seconds, where a
/// case takes one.
const BETWEEN_LOOKS: u64 = 10;

const MOST_LOOKS: u32 = 2_000;

/// Ends the test where a case is not done within the limit.
pub(crate) fn watch<R: Clock + Abort>(rt: &R, is_done: &AtomicBool) {
    for _ in 0..MOST_LOOKS {
        if is_done.load(SeqCst) {
            return;
        }
        thread::sleep(rt, Duration::from_millis(BETWEEN_LOOKS));
    }
    panic!(rt; "a pass sleeps and is not woken");
}

/// Whether the book shows all turns of a case, which is watched.
fn shows_all_in_time<R: Threads + Wait + Clock + Abort + Sync>(
    rt: &R,
    alloc: Global,
    work: Work,
) -> Result<bool, Memory>
    requires seats { (1 ≤ work.seats) × (work.seats ≤ MOST_SEATS) }
    requires turns { work.turns ≤ MOST_TURNS }
{
    let flag = AtomicBool::new(false);
    let is_done = &flag;
    let watched = || watch(rt, is_done);
    let worked = move || -> Result<bool, Memory>
        requires { (1 ≤ work.seats) × (work.seats ≤ MOST_SEATS) × (work.turns ≤ MOST_TURNS) }
    {
        let shown = shows_all(rt, alloc, work);
        is_done.store(true, SeqCst);
        shown
    };
    thread::join(rt, watched, worked).1
}

#[test]
fn eight_threads_write_a_hundred_lines_each(rt: HostRuntime) -> Result<(), Fail> {
    assert!(rt; shows_all_in_time(&rt, rt.alloc(), Work::of(8, 100, Hold::Short))?);
    Ok(())
}

#[test]
fn one_seat_alone(rt: HostRuntime) -> Result<(), Fail> {
    assert!(rt; shows_all_in_time(&rt, rt.alloc(), Work::of(1, 3, Hold::Short))?);
    Ok(())
}

#[test]
fn as_many_seats_as_a_lock_has(rt: HostRuntime) -> Result<(), Fail> {
    assert!(rt; shows_all_in_time(&rt, rt.alloc(), Work::of(MOST_SEATS, 5, Hold::Short))?);
    Ok(())
}

/// Of two passes one sleeps while the other has the turn, of eight seven do.
#[test]
fn each_pass_that_sleeps_is_woken(rt: HostRuntime) -> Result<(), Fail> {
    assert!(rt; shows_all_in_time(&rt, rt.alloc(), Work::of(2, 3, Hold::Long))?);
    assert!(rt; shows_all_in_time(&rt, rt.alloc(), Work::of(8, 3, Hold::Long))?);
    Ok(())
}

/// So many times two passes go by turns that come just when the other goes to sleep.
const TIMES: u32 = 8;

/// Turns come just when those who wait go to sleep. Each pass waits for the other's first line, so both run at once.
#[test]
fn no_pass_sleeps_through_its_turn(rt: HostRuntime) -> Result<(), Fail> {
    for _ in 0..TIMES {
        assert!(rt; shows_all_in_time(&rt, rt.alloc(), Work::of(2, MOST_TURNS, Hold::Varied))?);
    }
    Ok(())
}
