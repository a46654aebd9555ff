//! The calls of one caller of a desk, by a pass of a shared desk or under std's mutex.

ghost use Rattle.std.specs.Prelude.{◌≡◌};
ghost use Rattle.shared_desk.specs.Passes.{IsSessionPass};

use cm_desk::Desk;
use cm_document::Call;
use cm_model::Reply;
use ctl_trait::Controller;
use fixed_num::Memory;
use shared_desk::{Pass, SharedDesk};
use std::alloc::Global;
use std::sync::{Mutex, Wait};

/// What a call asks.
#[derive(Clone, Copy)]
pub(crate) enum Ask {
    /// Whether a cycle has ended. If none has, this changes nothing.
    Look,
    /// Which controllers there are.
    List,
}

/// How many calls each caller makes, and what it asks in each.
#[derive(Clone, Copy)]
pub(crate) struct Calls {
    pub count: u64,
    pub ask: Ask,
}

/// All calls by a pass: the sum of what they are answered.
pub(crate) fn call_by_pass<R: Wait, C: Controller>(
    rt: &R,
    desk: &SharedDesk<C>,
    mut pass: Pass<C>,
    calls: Calls,
) -> Result<i64, Memory>
    requires { IsSessionPass desk.now.lock desk.now.at_first.value pass }
{
    let mut sum: i64 = 0;
    for _ in 0..calls.count {
        sum = sum.wrapping_add(ask_by_pass(rt, desk, &mut pass, calls.ask)?);
    }
    Ok(sum)
}

/// One call by a pass: a number that hangs on its answer.
fn ask_by_pass<R: Wait, C: Controller>(
    rt: &R,
    desk: &SharedDesk<C>,
    pass: &mut Pass<C>,
    ask: Ask,
) -> Result<i64, Memory>
    requires { IsSessionPass desk.now.lock desk.now.at_first.value pass.old }
    ensures { IsSessionPass desk.now.lock desk.now.at_first.value pass.new }
{
    match ask {
        Ask::List => Ok(weight(desk.call(rt, pass, Call::ListControllers)?)),
        Ask::Look => Ok(mark(desk.reached(rt, pass, 1)?)),
    }
}

/// All calls under the mutex of a desk behind one pointer: the sum of what they are answered.
pub(crate) fn call_by_mutex<R: Wait, C: Controller>(
    rt: &R,
    alloc: Global,
    desk: &Mutex<Box<Desk<C>>>,
    who: u32,
    calls: Calls,
) -> Result<i64, Memory> {
    let mut sum: i64 = 0;
    for _ in 0..calls.count {
        let mut desk = desk.lock(rt);
        sum = sum.wrapping_add(ask_at(&mut **desk, alloc, who, calls.ask)?);
    }
    Ok(sum)
}

/// One call at a desk that nobody else has now: a number that hangs on its answer.
fn ask_at<C: Controller>(
    desk: &mut Desk<C>,
    alloc: Global,
    who: u32,
    ask: Ask,
) -> Result<i64, Memory> {
    if who >= desk.sessions() {
        return Ok(0);
    }
    match ask {
        Ask::List => Ok(weight(desk.call(alloc, who, Call::ListControllers)?)),
        Ask::Look => Ok(mark(desk.reached(alloc, who, 1)?)),
    }
}

/// A number of what a list has, which is not 0. A reply has many parts, and is dropped at this one place.
fn weight<C: Controller>(answer: (Reply, Option<C>)) -> i64 {
    let (reply, unloaded) = answer;
    drop(unloaded);
    let weight = match &reply {
        Reply::Controllers(lines) => (lines.get().as_slice().len() as i64).saturating_add(1),
        _ => 0,
    };
    drop(reply);
    weight
}

/// A number of whether a cycle has ended.
fn mark(ended: bool) -> i64 {
    match ended {
        true => 1,
        false => 2,
    }
}
