//! Callers of a shared desk, beside those of a desk under std's mutex: one that looks, and as many that list, each on a
//! thread of its own.

ghost use Rattle.std.specs.Prelude.{◌≡◌, ◌<◌, [], All};
ghost use Rattle.shared_desk.specs.Passes.{IsSessionPass};
ghost use Rattle.turn_lock.specs.declared.TheConstants.{MOST_SEATS};

use crate::callers::{Ask, Calls, call_by_mutex, call_by_pass};
use crate::desks::booted;
use crate::plan::TurnsAsked;
use crate::timing::{Pair, Tenths};
use cm_desk::Desk;
use ctl_trait::Controller;
use fixed_num::Memory;
use shared_desk::{Pass, SharedDesk};
use std::alloc::Global;
use std::rt::Clock;
use std::sync::{Mutex, Wait};
use std::thread;
use std::thread::Threads;
use std::time::Instant;

/// Prints the lines of callers of one desk.
pub(crate) fn compare_callers<R>(rt: &R, plan: TurnsAsked) -> anyhow::Result<bool>
where
    R: Clock + Print + AllocGlobal + Threads + Wait + Sync,
{
    let mut same = true;
    for number in 0..CROWDS {
        let (name, crowd) = numbered(number, plan);
        let pair = crowd.compare(rt, rt.alloc())?;
        pair.tell(rt, name, plan.turns)?;
        same = same && pair.same;
    }
    Ok(same)
}

/// How many crowds there are.
const CROWDS: u32 = 5;

/// The crowd of a number, and its name.
fn numbered(number: u32, plan: TurnsAsked) -> (&'static str, Crowd) {
    match number {
        0 => ("desk", Crowd::looking(plan)),
        1 => ("one_caller", Crowd::listing(plan, 1)),
        2 => ("two_callers", Crowd::listing(plan, 2)),
        3 => ("four_callers", Crowd::listing(plan, 4)),
        _ => ("eight_callers", Crowd::listing(plan, 8)),
    }
}

/// So many callers of one desk, and the calls of each.
#[derive(Clone, Copy)]
struct Crowd {
    callers: u32,
    calls: Calls,
    ghost few: { callers < MOST_SEATS },
}

/// The desk keeps each list in its history, so all callers together make one for so many turns of the others.
const LIST_SHARE: u64 = 50;

impl Crowd {
    /// One that looks as often as others turn.
    fn looking(plan: TurnsAsked) -> Crowd {
        Crowd {
            callers: 1,
            calls: Calls {
                count: plan.turns,
                ask: Ask::Look,
            },
        }
    }

    /// So many that list.
    fn listing(plan: TurnsAsked, callers: u32) -> Crowd
        requires some { 0 < callers }
        requires few { callers < MOST_SEATS }
    {
        Crowd {
            callers,
            calls: Calls {
                count: plan.turns / LIST_SHARE / u64::from(callers) + 1,
                ask: Ask::List,
            },
        }
    }

    /// The time of a call under the mutex and of one by a pass.
    fn compare<R>(self, rt: &R, alloc: Global) -> anyhow::Result<Pair>
    where
        R: Clock + Threads + Wait + Sync,
    {
        let (by_mutex, plain) = self.timed(rt, alloc, Way::Mutex)?;
        let (by_passes, fast) = self.timed(rt, alloc, Way::Passes)?;
        Ok(Pair {
            same: by_mutex == by_passes,
            plain,
            fast,
        })
    }

    /// The sum of what all calls answer, at a desk of their own, and the time of one.
    fn timed<R>(self, rt: &R, alloc: Global, way: Way) -> anyhow::Result<(i64, Tenths)>
    where
        R: Clock + Threads + Wait + Sync,
    {
        let start = Instant::now(rt)?;
        let sum = at_desk(rt, alloc, booted(alloc, self.callers)?, way, self.calls)?;
        Ok((sum, self.of_a_call(start.elapsed(rt)?.as_nanos())))
    }

    /// The time of one call, of all that took so long.
    fn of_a_call(self, nanos: u128) -> Tenths {
        let calls = u128::from(self.calls.count).saturating_mul(u128::from(self.callers));
        Tenths::of(nanos, calls)
    }
}

/// What all callers of a desk share.
#[derive(Clone, Copy)]
enum Way {
    /// Std's mutex round the desk.
    Mutex,
    /// The desk's lock, of which each has a pass.
    Passes,
}

/// The calls of all sessions of this desk: the sum of what they answer.
fn at_desk<R, C>(
    rt: &R,
    alloc: Global,
    desk: Desk<C>,
    way: Way,
    calls: Calls,
) -> Result<i64, Memory>
where
    R: Threads + Wait + Sync,
    C: Controller + Send,
    requires empty { desk.made ≡ [] }
    requires few { desk.opening.sessions < MOST_SEATS }
{
    match way {
        Way::Mutex => at_mutex(rt, alloc, desk, calls),
        Way::Passes => at_passes(rt, alloc, desk, calls),
    }
}

/// The calls of all sessions under the mutex: the sum of what they answer.
fn at_mutex<R, C>(rt: &R, alloc: Global, desk: Desk<C>, calls: Calls) -> Result<i64, Memory>
where
    R: Threads + Wait + Sync,
    C: Controller + Send,
{
    let sessions = desk.sessions();
    let desk = Mutex::new(Box::new(alloc, desk)?);
    sum_of(by_mutex(rt, alloc, &desk, sessions, calls)?)
}

/// What so many sessions are answered under the mutex, each on a thread of its own where one can be made.
fn by_mutex<R, C>(
    rt: &R,
    alloc: Global,
    desk: &Mutex<Box<Desk<C>>>,
    sessions: u32,
    calls: Calls,
) -> Result<Vec<Result<i64, Memory>>, Memory>
where
    R: Threads + Wait + Sync,
    C: Controller + Send,
{
    Ok(thread::map_indices(
        rt,
        alloc,
        sessions as usize,
        &|who| { call_by_mutex(rt, alloc, desk, who as u32, calls) },
    )?)
}

/// The calls of all sessions by the passes of the desk: the sum of what they answer.
fn at_passes<R, C>(rt: &R, alloc: Global, desk: Desk<C>, calls: Calls) -> Result<i64, Memory>
where
    R: Threads + Wait + Sync,
    C: Controller + Send,
    requires empty { desk.made ≡ [] }
    requires few { desk.opening.sessions < MOST_SEATS }
{
    let (shared, _looping, passes) = SharedDesk::share(alloc, desk)?;
    sum_of(by_passes(rt, &shared, passes, calls)?)
}

/// What the sessions of these passes are answered, each on a thread of its own where one can be made.
fn by_passes<R, C>(
    rt: &R,
    desk: &SharedDesk<C>,
    passes: Vec<Pass<C>>,
    calls: Calls,
) -> Result<Vec<Result<i64, Memory>>, Memory>
where
    R: Threads + Wait + Sync,
    C: Controller + Send,
    requires { All (IsSessionPass desk.now.lock desk.now.at_first.value) passes.items }
{
    Ok(thread::map_vec(rt, passes, &|pass| { call_by_pass(rt, desk, pass, calls) })?)
}

/// The sum of what all were answered.
fn sum_of(answers: Vec<Result<i64, Memory>>) -> Result<i64, Memory> {
    let mut sum: i64 = 0;
    for answer in answers {
        sum = sum.wrapping_add(answer?);
    }
    Ok(sum)
}
