//! The loop over its console: its cycles, and then the close.

ghost use Rattle.std.specs.Prelude.{◌≡◌, ◌≤◌, ℕ, OnOk, OnErr, MatchResult};
ghost use Rattle.cm_model.specs.Ports.{CanBegin, CanClose};
ghost use Rattle.live_run.specs.Loops.{MayLoop, MakesCycle, Computes, HasComputed, HasMade, HasLooped, HasStopped};

use cm_model::LoopPort;
use fixed_num::Memory;
use outside_io::{Gate, Pace, Point};

/// So many cycles, and then the close. If a begin is refused memory the loop closes at once.
#[tactic(auto, using(crate::proofs::LoopLemmas::closed_behind))]
pub fn run_loop<L, C: Pace, G: Gate, F>(
    looping: &mut L,
    cycles: u64,
    pace: &mut C,
    gate: &G,
    compute: &F,
) -> Result<(), Memory>
where
    L: LoopPort,
    F: Fn(&mut L, &mut L::Flight),
    requires { MayLoop L.LoopPort F.Fn cycles looping.old compute.now }
    ensures { MatchResult result
        (λ _. HasLooped L.LoopPort cycles looping.old looping.new)
        (λ _. HasStopped L.LoopPort cycles looping.old looping.new) }
{
    let made = run_cycles(looping, cycles, pace, gate, compute);
    looping.close();
    made
}

/// So many cycles, or as many as there is memory for.
#[tactic(auto, using(crate::proofs::LoopLemmas::start_made, crate::proofs::LoopLemmas::next_can_begin, crate::proofs::LoopLemmas::cycle_more, crate::proofs::LoopLemmas::no_cycle_more, crate::proofs::LoopLemmas::can_close))]
fn run_cycles<L, C: Pace, G: Gate, F>(
    looping: &mut L,
    cycles: u64,
    pace: &mut C,
    gate: &G,
    compute: &F,
) -> Result<(), Memory>
where
    L: LoopPort,
    F: Fn(&mut L, &mut L::Flight),
    requires { MayLoop L.LoopPort F.Fn cycles looping.old compute.now }
    ensures all { OnOk result (HasMade L.LoopPort cycles cycles looping.old looping.new) }
    ensures some { OnErr result ((n : ℕ) × (n ≤ cycles) × HasMade L.LoopPort cycles n looping.old looping.new) }
    ensures open { CanClose (L.tells looping.new) }
{
    for cycle in 0..cycles {
        run_cycle(looping, cycle, gate, compute)?;
        pace.pause(cycle);
    }
    Ok(())
}

/// One cycle: it begins, is computed and ends.
#[tactic(auto, using(crate::proofs::LoopLemmas::cycle_computed))]
fn run_cycle<L, G: Gate, F>(
    looping: &mut L,
    cycle: u64,
    gate: &G,
    compute: &F,
) -> Result<(), Memory>
where
    L: LoopPort,
    F: Fn(&mut L, &mut L::Flight),
    requires can { CanBegin (L.tells looping.old) }
    requires computes { Computes L.LoopPort F.Fn compute.now }
    ensures made { MatchResult result
        (λ _. MakesCycle (L.tells looping.old) (L.tells looping.new))
        (λ _. L.tells looping.new ≡ L.tells looping.old) }
    ensures still { L.footing looping.new ≡ L.footing looping.old }
{
    let mut flight = looping.begin()?;
    gate.at(Point::BeginDone(cycle));
    gate.at(Point::ComputeStart(cycle));
    compute_at(compute, looping, &mut flight);
    gate.at(Point::ComputeDone(cycle));
    looping.land(flight);
    Ok(())
}

/// Computes a flight. Both references have one lifetime, as the proof of the call needs it.
fn compute_at<'a, L, F>(compute: &F, looping: &'a mut L, flight: &'a mut L::Flight)
where
    L: LoopPort,
    F: Fn(&mut L, &mut L::Flight),
    requires computes { Computes L.LoopPort F.Fn compute.now }
    requires out { L.is_out looping.old flight.old × L.may_be_computed flight.old }
    ensures { HasComputed L.LoopPort looping.old looping.new flight.new }
{
    compute(looping, flight)
}
