//! A session at a shared desk: what its pass is told, call by call. A call that wants memory is made again.

ghost use Rattle.shared_desk.specs.Passes.{IsSessionPass};

use crate::lines::{push_outcome, push_reached};
use cm_model::Reply;
use ctl_trait::Controller;
use pages_calls::calls::call_of;
use pages_calls::replies::push_reply;
use shared_desk::{Pass, SharedDesk};
use std::alloc::Global;
use std::sync::Wait;
use std::test::Fail;

/// So often a call is made again that wants memory. Only a test that is refused memory needs more than one.
pub(crate) const MOST_TRIES: u32 = 3;

/// Why a test fails whose call always wants memory.
pub(crate) const TOO_OFTEN: &str = "a call wants memory again and again";

/// The words of a call: `VERB REST`, `told TICKET`, `await CYCLES`, `cycles seen` or `tickets seen`.
#[tactic(auto, using(crate::proofs::SessionLemmas::looked_session))]
pub(crate) fn ask<R: Wait, C: Controller>(
    rt: &R,
    alloc: Global,
    desk: &SharedDesk<C>,
    pass: &mut Pass<C>,
    words: &str,
    told: &mut String,
) -> Result<(), Fail>
    requires { IsSessionPass desk.now.lock desk.now.at_first.value pass.old }
    ensures { IsSessionPass desk.now.lock desk.now.at_first.value pass.new }
{
    let (verb, rest) = words.split_once(" ").unwrap_or((words, ""));
    match verb {
        "told" => ask_for(rt, desk, pass, rest, told),
        "await" => wait_for(rt, desk, pass, rest, told),
        "cycles" => push_count(told, desk.cycles_seen(pass)),
        "tickets" => push_count(told, desk.tickets_seen(pass)),
        _ => call_desk(rt, alloc, desk, pass, verb, rest, told),
    }
}

fn push_count(told: &mut String, count: u64) -> Result<(), Fail> {
    write!(told, "{count}")?;
    Ok(())
}

/// Makes the call, again where it wants memory, and tells the reply, and of a box that is handed out.
#[tactic(auto, using(crate::proofs::SessionLemmas::called_session, crate::proofs::SessionLemmas::stays_session))]
fn call_desk<R: Wait, C: Controller>(
    rt: &R,
    alloc: Global,
    desk: &SharedDesk<C>,
    pass: &mut Pass<C>,
    verb: &str,
    rest: &str,
    told: &mut String,
) -> Result<(), Fail>
    requires { IsSessionPass desk.now.lock desk.now.at_first.value pass.old }
    ensures { IsSessionPass desk.now.lock desk.now.at_first.value pass.new }
{
    for _ in 0..MOST_TRIES {
        let call = call_of(alloc, verb, rest)?;
        if let Ok((reply, given)) = desk.call(rt, pass, call) {
            let has_box = given.is_some();
            drop(given);
            return push_answer(told, &reply, has_box);
        }
    }
    Err(Fail::new(TOO_OFTEN))
}

fn push_answer(told: &mut String, reply: &Reply, has_box: bool) -> Result<(), Fail> {
    push_reply(told, reply)?;
    told.push_str(if has_box { ", with its box" } else { "" })?;
    Ok(())
}

/// The session asks what became of a ticket.
#[tactic(auto, using(crate::proofs::SessionLemmas::told_session, crate::proofs::SessionLemmas::stays_session))]
fn ask_for<R: Wait, C: Controller>(
    rt: &R,
    desk: &SharedDesk<C>,
    pass: &mut Pass<C>,
    ticket: &str,
    told: &mut String,
) -> Result<(), Fail>
    requires { IsSessionPass desk.now.lock desk.now.at_first.value pass.old }
    ensures { IsSessionPass desk.now.lock desk.now.at_first.value pass.new }
{
    let ticket = ticket.parse()?;
    for _ in 0..MOST_TRIES {
        if let Ok(outcome) = desk.told(rt, pass, ticket) {
            return push_outcome(told, outcome);
        }
    }
    Err(Fail::new(TOO_OFTEN))
}

/// The session waits until so many cycles have ended.
#[tactic(auto, using(crate::proofs::SessionLemmas::reached_session, crate::proofs::SessionLemmas::stays_session))]
fn wait_for<R: Wait, C: Controller>(
    rt: &R,
    desk: &SharedDesk<C>,
    pass: &mut Pass<C>,
    cycles: &str,
    told: &mut String,
) -> Result<(), Fail>
    requires { IsSessionPass desk.now.lock desk.now.at_first.value pass.old }
    ensures { IsSessionPass desk.now.lock desk.now.at_first.value pass.new }
{
    let cycles = cycles.parse()?;
    for _ in 0..MOST_TRIES {
        if let Ok(reached) = desk.reached(rt, pass, cycles) {
            return push_reached(told, reached);
        }
    }
    Err(Fail::new(TOO_OFTEN))
}
