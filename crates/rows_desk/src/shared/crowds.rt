//! Eight sessions call on threads of their own, while the thread of the loop holds a flight; then the book is judged
//! whole.

ghost use Rattle.std.specs.Prelude.{◌≡◌, ◌<◌, ◌^◌, length, IfOk};
ghost use Rattle.std.specs.List.{All};
ghost use Rattle.cm_desk.specs.Desk.{CanBeCalled};
ghost use Rattle.cm_model.specs.Controllers.{IsBlank};
ghost use Rattle.shared_desk.specs.Passes.{IsSessionPass};
ghost use Rattle.rows_desk.specs.Shared.{IsLoopOf};

use crate::shared::ends::book_of;
use crate::shared::looping::{Looping, begin, close, compute, land};
use crate::shared::starts::share_at_boot;
use cm_document::Call;
use cm_model::Entry;
use cm_stock::Stock;
use ctl_trait::Controller;
use iface_names::Name;
use pages_calls::described::checked_description;
use pages_calls::replies::push_reply;
use pages_calls::stocks::few_blanks;
use pages_cases::pages::hold_told;
use shared_desk::{Pass, SharedDesk};
use std::alloc::Global;
use std::sync::Wait;
use std::sync::atomic::AtomicU64;
use std::sync::atomic::Ordering::SeqCst;
use std::test::Fail;
use std::thread;
use std::thread::Threads;

/// How many sessions call at once.
const SESSIONS: u32 = 8;

/// How often each of them calls at most: it loads and unloads by turns.
const MOST_CALLS: u32 = 100;

/// So many calls of a session wait until the others have come as far. So all sessions are there before any calls, and
/// none calls twice before each has called.
const MEETINGS: u32 = 2;

/// So many times a session that waits looks, and yields, at most.
const MOST_LOOKS: u32 = 1_000_000;

/// So many blanks of the kind there are, and as many loads can be done.
const BLANKS: u32 = 20;

/// The begin, the end and the close.
const OF_THE_LOOP: usize = 3;

const NAME: &str = "mk";

const LOAD: &str = "load mk";

const UNLOAD: &str = "unload mk";

/// One controller, and no hardware.
const ONE: &str = r#"version = 1
update_rate = 100
cycles = 1
[[controller]]
name = "mk"
type = "mock"
"#;

#[test]
fn sessions_load_on_threads_of_their_own_while_a_flight_is_held(
    rt: HostRuntime,
) -> Result<(), Fail> {
    let alloc = rt.alloc();
    hold_crowd(&rt, alloc, few_blanks(alloc, BLANKS)?, 1)
}

#[test]
fn eight_sessions_make_a_hundred_calls_each(rt: HostRuntime) -> Result<(), Fail> {
    let alloc = rt.alloc();
    hold_crowd(&rt, alloc, few_blanks(alloc, BLANKS)?, MOST_CALLS)
}

/// The loop holds its flight until the threads of all sessions have ended. The judge misses a begin that wants memory.
fn hold_crowd<R: Threads + Wait + Sync, C: Controller + Send>(
    rt: &R,
    alloc: Global,
    blanks: Vec<C>,
    calls: u32,
) -> Result<(), Fail>
    requires blank { All (λ b. IsBlank (C.meaning b)) blanks.items }
    requires few { length blanks.items < 2 ^ 32 }
{
    let checked = checked_description(alloc, ONE)?;
    let (desk, looping, passes) = share_at_boot(alloc, checked, Stock::make(blanks), SESSIONS)?;
    hold_flight(rt, alloc, desk, looping, passes, calls)
}

/// The same of a desk that is shared.
fn hold_flight<R: Threads + Wait + Sync, C: Controller + Send>(
    rt: &R,
    alloc: Global,
    desk: SharedDesk<C>,
    mut looping: Looping<C>,
    passes: Vec<Pass<C>>,
    calls: u32,
) -> Result<(), Fail>
    requires count { desk.at_first.value.opening.sessions ≡ 8 }
    requires looping { IsLoopOf desk.lock desk.at_first.value looping.pass.pass looping.stand looping.flight }
    requires passes { All (IsSessionPass desk.lock desk.at_first.value) passes.items }
{
    drop(begin(rt, &desk, &mut looping));
    let passes = call_all(rt, alloc, &desk, passes, calls)?;
    compute(&desk, &mut looping);
    land(rt, &desk, &mut looping);
    close(rt, &desk, &mut looping);
    judge_end(alloc, desk, looping, passes, calls)
}

/// Each session calls on a thread of its own.
fn call_all<R: Threads + Wait + Sync, C: Controller + Send>(
    rt: &R,
    alloc: Global,
    desk: &SharedDesk<C>,
    passes: Vec<Pass<C>>,
    calls: u32,
) -> Result<Vec<Pass<C>>, Fail>
    requires { All (IsSessionPass desk.now.lock desk.now.at_first.value) passes.items }
    ensures { IfOk result (λ back. All (IsSessionPass desk.now.lock desk.now.at_first.value) back.items) }
{
    let arrivals = Arrivals {
        count: AtomicU64::new(0),
    };
    Ok(thread::map_vec(
        rt,
        passes,
        &|pass| { call_often(rt, alloc, desk, pass, calls, &arrivals) },
    )?)
}

/// All calls of a session, or those up to a meeting to which the others do not come.
fn call_often<R: Wait, C: Controller>(
    rt: &R,
    alloc: Global,
    desk: &SharedDesk<C>,
    mut pass: Pass<C>,
    calls: u32,
    arrivals: &Arrivals,
) -> Pass<C>
    requires { IsSessionPass desk.now.lock desk.now.at_first.value pass }
    ensures { IsSessionPass desk.now.lock desk.now.at_first.value result }
{
    for turn in 0..calls {
        if turn < MEETINGS && !arrivals.meet(SESSIONS.saturating_mul(turn + 1)) {
            break;
        }
        call_once(rt, alloc, desk, &mut pass, turn % 2 == 0);
    }
    pass
}

/// How many have come to meetings so far, of all sessions together.
#[derive(Drop)]
struct Arrivals {
    count: AtomicU64,
}

impl Arrivals {
    /// One more has come, and waits until so many have. Whether they have.
    fn meet(&self, wanted: u32) -> bool {
        self.count.fetch_add(1, SeqCst);
        for _ in 0..MOST_LOOKS {
            if self.count.load(SeqCst) >= wanted as u64 {
                return true;
            }
            thread::yield_now();
        }
        false
    }
}

/// One call; the judge misses one that wants memory.
#[tactic(auto, using(crate::proofs::SessionLemmas::called_session, crate::proofs::SessionLemmas::stays_session))]
fn call_once<R: Wait, C: Controller>(
    rt: &R,
    alloc: Global,
    desk: &SharedDesk<C>,
    pass: &mut Pass<C>,
    loads: bool,
)
    requires { IsSessionPass desk.now.lock desk.now.at_first.value pass.old }
    ensures { IsSessionPass desk.now.lock desk.now.at_first.value pass.new }
{
    let Ok(name) = Name::read(alloc, NAME.as_bytes()) else {
        return;
    };
    drop(desk.call(rt, pass, load_or_unload(name, loads)));
}

fn load_or_unload(name: Name, loads: bool) -> Call
    ensures { CanBeCalled result }
{
    if loads {
        Call::Load(name)
    } else {
        Call::Unload(name)
    }
}

// ---- The book

fn judge_end<C: Controller>(
    alloc: Global,
    desk: SharedDesk<C>,
    looping: Looping<C>,
    passes: Vec<Pass<C>>,
    calls: u32,
) -> Result<(), Fail>
    requires count { desk.at_first.value.opening.sessions ≡ 8 }
    requires looping { IsLoopOf desk.lock desk.at_first.value looping.pass.pass looping.stand looping.flight }
    requires passes { All (IsSessionPass desk.lock desk.at_first.value) passes.items }
{
    match &book_of(desk, looping, passes, SESSIONS) {
        Some(book) => judge(alloc, &book.history, calls),
        None => Err(Fail::new("the loop did not close, or a pass is missing")),
    }
}

/// What the entries so far come to.
#[derive(Drop)]
struct Tally {
    /// Whether the controller is loaded.
    is_loaded: bool,
    /// How many loads were done.
    loads: u32,
    /// How often each session has called.
    calls: Vec<u32>,
}

/// Fails at the first entry of which the rules tell something else, or that is not its session's next call, or that is
/// a session's second call before the first of another.
fn judge(alloc: Global, history: &[Entry], calls: u32) -> Result<(), Fail> {
    if history.len() != SESSIONS.saturating_mul(calls) as usize + OF_THE_LOOP {
        return Err(Fail::new("more or fewer entries"));
    }
    let mut tally = Tally {
        is_loaded: false,
        loads: 0,
        calls: vec![in alloc; 0; SESSIONS as usize]?,
    };
    for entry in history {
        judge_entry(alloc, &mut tally, entry)?;
    }
    let all = tally.calls.iter().all(|made| *made == calls);
    drop(tally);
    if !all {
        return Err(Fail::new("a session with more or fewer calls"));
    }
    Ok(())
}

fn judge_entry(alloc: Global, tally: &mut Tally, entry: &Entry) -> Result<(), Fail> {
    let Some(calls) = tally.calls.get_mut(entry.who as usize) else {
        return Ok(());
    };
    let loads = *calls % 2 == 0;
    *calls = calls.wrapping_add(1);
    if *calls == 2 && tally.calls.as_slice().contains(&0) {
        return Err(Fail::new("one session after the other"));
    }
    let mut told = String::new(alloc);
    write!(told, "{}: ", entry.call)?;
    push_reply(&mut told, &entry.reply)?;
    let want = expected(alloc, tally, loads)?;
    hold_told(alloc, "an entry", told.as_str(), want.as_str())
}

/// What the rules tell of a load, or else of an unload.
fn expected(alloc: Global, tally: &mut Tally, loads: bool) -> Result<String, Fail> {
    let was_loaded = tally.is_loaded;
    let mut told = String::from_str(alloc, if loads { LOAD } else { UNLOAD })?;
    if !loads {
        tally.is_loaded = false;
        told.push_str(if was_loaded { ": ok" } else { ": not_loaded" })?;
    } else if was_loaded {
        told.push_str(": loaded")?;
    } else if tally.loads == BLANKS {
        told.push_str(": stock_empty")?;
    } else {
        write!(told, ": ok {}", tally.loads)?;
        tally.loads = tally.loads.wrapping_add(1);
        tally.is_loaded = true;
    }
    Ok(told)
}
