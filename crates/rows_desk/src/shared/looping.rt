//! The loop at a shared desk, with where it stands, and the flight that is at hand.

ghost use Rattle.rows_desk.specs.Shared.{IsLoopOf};

use crate::lines::push_made;
use crate::shared::sessions::{MOST_TRIES, TOO_OFTEN};
use crate::shared::stand::LoopStand;
use cm_model::Entry;
use ctl_trait::Controller;
use fixed_num::Memory;
use rt_flight::Flight;
use shared_desk::{KeptDesk, LoopPass, Opening, SharedDesk};
use std::sync::Wait;
use std::test::Fail;
use turn_lock::Kept;

/// The pass of the loop, where the loop stands, and the flight that is at hand while a cycle is aloft.
#[derive(Drop)]
pub(crate) struct Looping<C: Controller>
where
    KeptDesk<C>: Kept<Entry = Entry, Ground = Opening>,
{
    pub pass: LoopPass<C>,
    pub stand: LoopStand,
    pub flight: Option<Flight<C>>,
}

/// The next cycle begins, if one can.
#[tactic(auto, using(crate::proofs::LoopPassLemmas::begins_so, crate::proofs::LoopPassLemmas::begins_loop, crate::proofs::LoopPassLemmas::stays_loop))]
pub(crate) fn begin<R: Wait, C: Controller>(
    rt: &R,
    desk: &SharedDesk<C>,
    looping: &mut Looping<C>,
) -> Result<bool, Memory>
    requires { IsLoopOf desk.now.lock desk.now.at_first.value looping.old.pass.pass looping.old.stand
        looping.old.flight }
    ensures { IsLoopOf desk.now.lock desk.now.at_first.value looping.new.pass.pass looping.new.stand
        looping.new.flight }
{
    let stand = looping.stand;
    if stand.aloft || stand.closed || stand.left == 0 {
        return Ok(false);
    }
    let flight = desk.begin(rt, &mut looping.pass)?;
    looping.stand.aloft = true;
    drop(looping.flight.replace(flight));
    Ok(true)
}

/// The flight at hand is computed, if there is one that is not.
#[tactic(auto, using(crate::proofs::LoopPassLemmas::computes_loop))]
pub(crate) fn compute<C: Controller>(desk: &SharedDesk<C>, looping: &mut Looping<C>) -> bool
    requires { IsLoopOf desk.now.lock desk.now.at_first.value looping.old.pass.pass looping.old.stand
        looping.old.flight }
    ensures { IsLoopOf desk.now.lock desk.now.at_first.value looping.new.pass.pass looping.new.stand
        looping.new.flight }
{
    let Some(flight) = &mut looping.flight else {
        return false;
    };
    if flight.started() {
        return false;
    }
    flight.compute();
    true
}

/// The flight at hand lands, if there is one that is computed.
#[tactic(auto, using(crate::proofs::LoopPassLemmas::lands_loop, crate::proofs::LoopPassLemmas::at_hand))]
pub(crate) fn land<R: Wait, C: Controller>(
    rt: &R,
    desk: &SharedDesk<C>,
    looping: &mut Looping<C>,
) -> bool
    requires { IsLoopOf desk.now.lock desk.now.at_first.value looping.old.pass.pass looping.old.stand
        looping.old.flight }
    ensures { IsLoopOf desk.now.lock desk.now.at_first.value looping.new.pass.pass looping.new.stand
        looping.new.flight }
{
    let Some(flight) = looping.flight.take() else {
        return false;
    };
    if !flight.computed() {
        drop(looping.flight.replace(flight));
        return false;
    }
    desk.land(rt, &mut looping.pass, flight);
    looping.stand.aloft = false;
    looping.stand.left = looping.stand.left.saturating_sub(1);
    true
}

/// The loop closes, if it can.
#[tactic(auto, using(crate::proofs::LoopPassLemmas::closes_so, crate::proofs::LoopPassLemmas::closes_loop))]
pub(crate) fn close<R: Wait, C: Controller>(
    rt: &R,
    desk: &SharedDesk<C>,
    looping: &mut Looping<C>,
) -> bool
    requires { IsLoopOf desk.now.lock desk.now.at_first.value looping.old.pass.pass looping.old.stand
        looping.old.flight }
    ensures { IsLoopOf desk.now.lock desk.now.at_first.value looping.new.pass.pass looping.new.stand
        looping.new.flight }
{
    if looping.stand.aloft || looping.stand.closed {
        return false;
    }
    desk.close(rt, &mut looping.pass);
    looping.stand.closed = true;
    true
}

/// The next cycle begins, if one can, again where that wants memory. Whether it began is told.
pub(crate) fn begin_again<R: Wait, C: Controller>(
    rt: &R,
    desk: &SharedDesk<C>,
    looping: &mut Looping<C>,
    told: &mut String,
) -> Result<(), Fail>
    requires { IsLoopOf desk.now.lock desk.now.at_first.value looping.old.pass.pass looping.old.stand
        looping.old.flight }
    ensures { IsLoopOf desk.now.lock desk.now.at_first.value looping.new.pass.pass looping.new.stand
        looping.new.flight }
{
    for _ in 0..MOST_TRIES {
        if let Ok(began) = begin(rt, desk, looping) {
            return push_made(told, began);
        }
    }
    Err(Fail::new(TOO_OFTEN))
}
