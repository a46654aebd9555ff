//! Times the fast bodies of the crates below beside plain ones, in one run over the same numbers, and compares their
//! answers.
#![tactic(auto)]

use bodies::{FastMul, FastOver, PlainMul, PlainOver};
use cases::Case;
use crowds::compare_callers;
use gears::{FastGear, PlainGear};
use limits::{FastLimiter, PlainLimiter, limiter};
use lives::tell_live;
use plan::TurnsAsked;
use std::env;
use std::io::Eprint;
use std::process::ExitCode;
use std::rt::{Clock, Env};
use std::sync::Wait;
use std::thread::Threads;
use timing::Trial;
use words::{Measure, asked};
use workers::tell_workers;

mod bodies;
mod callers;
mod cases;
mod crowds;
mod desks;
mod documents;
mod gears;
mod limits;
mod lives;
mod plain;
mod plan;
mod runs;
mod timing;
mod watch;
mod words;
mod workers;
mod working;

/// Compares the bodies, or times live runs, or runs by several workers. The status is 0 if all answers were the same, 1
/// if some differ or a call failed, and 2 for words that are no plan.
fn main(rt: HostRuntime) -> anyhow::Result<ExitCode> {
    let asked = asked_of(&rt)?;
    measure(&rt, asked)
}

fn asked_of<R: Env + AllocGlobal>(rt: &R) -> anyhow::Result<Measure> {
    let words: Vec<String> = env::args(rt)?.skip(1).collect(rt.alloc())?;
    Ok(asked(words.as_slice()))
}

fn measure<R>(rt: &R, asked: Measure) -> anyhow::Result<ExitCode>
where
    R: Clock + Print + Eprint + AllocGlobal + Threads + Wait + Sync,
{
    match asked {
        Measure::Live(runs) => tell_live(rt, runs)?,
        Measure::Workers(runs) => tell_workers(rt, runs)?,
        Measure::Turns(plan) => return compare_all(rt, plan),
        Measure::Nothing => {
            eprintln!(rt; "cm_bench: usage: cm_bench TURNS SEED | live RUNS | workers RUNS")?;
            return Ok(ExitCode::from(2));
        }
    }
    Ok(ExitCode::SUCCESS)
}

/// Prints a line for each pair of bodies. It succeeds if all gave the same answers.
fn compare_all<R>(rt: &R, plan: TurnsAsked) -> anyhow::Result<ExitCode>
where
    R: Clock + Print + AllocGlobal + Threads + Wait + Sync,
{
    let numbers = compare_numbers(rt, plan)?;
    let gears = compare_gears(rt, plan)?;
    let limits = compare_limits(rt, plan)?;
    let callers = compare_callers(rt, plan)?;
    match numbers && gears && limits && callers {
        true => Ok(ExitCode::SUCCESS),
        false => Ok(ExitCode::FAILURE),
    }
}

/// Prints the lines of a product and of a ratio, over the same cases.
fn compare_numbers<R>(rt: &R, plan: TurnsAsked) -> anyhow::Result<bool>
where
    R: Clock + Print + AllocGlobal,
{
    let cases = cases::made(rt.alloc(), plan.seed)?;
    let course = Trial {
        cases: cases.as_slice(),
        turns: plan.turns,
    };
    compare_over(rt, &course)
}

fn compare_over<R>(rt: &R, course: &Trial<'_, Case>) -> anyhow::Result<bool>
where
    R: Clock + Print + AllocGlobal,
{
    let mul = course.tell(rt, "mul", &mut PlainMul, &mut FastMul)?;
    let over = course.tell(rt, "over", &mut PlainOver, &mut FastOver)?;
    Ok(mul && over)
}

/// Prints the line of what an actuator is told.
fn compare_gears<R>(rt: &R, plan: TurnsAsked) -> anyhow::Result<bool>
where
    R: Clock + Print + AllocGlobal,
{
    let positions = cases::positions(rt.alloc(), plan.seed)?;
    let course = Trial {
        cases: positions.as_slice(),
        turns: plan.turns,
    };
    course.tell(
        rt,
        "transmission",
        &mut PlainGear::make(),
        &mut FastGear::make(),
    )
}

/// Prints the line of a limiter's update.
fn compare_limits<R>(rt: &R, plan: TurnsAsked) -> anyhow::Result<bool>
where
    R: Clock + Print + AllocGlobal,
{
    let stands = cases::stands(rt.alloc(), plan.seed, &limiter())?;
    let course = Trial {
        cases: stands.as_slice(),
        turns: plan.turns / LIMIT_SHARE + 1,
    };
    course.tell(rt, "limiter", &mut PlainLimiter, &mut FastLimiter::make())
}

/// A step is looked for in some microseconds, so it gets one turn for so many of the others.
const LIMIT_SHARE: u64 = 100;
