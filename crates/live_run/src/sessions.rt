//! A session over its console, to its end.

ghost use Rattle.live_run.specs.Sessions.{IsAtItsStart, KeepsOn, HasRunLive};

use cm_model::Port;
use console_session::{Progress, Session};
use fixed_num::Memory;
use outside_io::{Gate, Point};
use std::sync::Wait;
use std::thread;

/// The session advances over its console until it has ended, or memory runs out.
#[tactic(auto, using(crate::proofs::SessionLemmas::start_goes_on, crate::proofs::SessionLemmas::gone_has_run))]
pub fn run_session<R: Wait, P: Port, G: Gate>(rt: &R, gate: &G, pair: &mut (Session<'_>, P))
    requires { IsAtItsStart (P.tells pair.old.1) pair.old.0 }
    ensures { HasRunLive P.footing P.tells pair.old pair.new }
{
    pair.0.is_right();
    for _ in rt.forever() {
        if !goes_on(gate, pair) {
            break;
        }
    }
}

/// One advance: whether the session goes on.
fn goes_on<P: Port, G: Gate>(gate: &G, pair: &mut (Session<'_>, P)) -> bool
    ensures { KeepsOn P.footing P.tells pair.old pair.new }
{
    match advance(gate, pair) {
        Ok(Progress::Ran) => true,
        Ok(Progress::Waits) => {
            thread::yield_now();
            true
        }
        Ok(Progress::Ended) | Err(Memory) => false,
    }
}

/// One advance. The gate is told of a line before it is tried, and as soon as it has its answer.
fn advance<P: Port, G: Gate>(gate: &G, pair: &mut (Session<'_>, P)) -> Result<Progress, Memory>
    ensures { KeepsOn P.footing P.tells pair.old pair.new }
{
    if pair.0.ticket().is_some() || pair.0.ended() {
        return step(pair);
    }
    let session = pair.0.who();
    let line = pair.0.line();
    gate.at(Point::Before { session, line });
    let progress = step(pair)?;
    if let Progress::Ran = progress {
        gate.at(Point::Answered { session, line });
    }
    Ok(progress)
}

/// The advance itself.
#[tactic(auto, using(crate::proofs::SessionLemmas::advance_keeps_on))]
fn step<P: Port>(pair: &mut (Session<'_>, P)) -> Result<Progress, Memory>
    ensures { KeepsOn P.footing P.tells pair.old pair.new }
{
    pair.0.advance(&mut pair.1)
}
