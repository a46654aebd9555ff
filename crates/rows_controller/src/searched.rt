//! A limiter beside a search of every step: in ten thousand small cases the new step is the one that the search finds.

ghost use Rattle.std.specs.Prelude.{◌≡◌, ◌<◌, ◌≤◌, ◌<ℤ◌, ◌≤ℤ◌, pos, nat_abs};

use ctl_shape::{Limiter, Limits};
use fixed_num::Fx;
use std::alloc::Global;
use std::test::Fail;

/// How many cases there are.
const CASES: u16 = 10_000;

/// No step of a case is longer.
const LONGEST: i8 = 20;

/// One update in whole micro-units: it stands between 0 and the highest.
#[derive(Drop)]
struct Case {
    highest: i8,
    at: i8,
    longest: i8,
    change: i8,
    last: i8,
    wanted: i8,
}

#[test]
fn the_new_step_is_the_one_that_a_search_finds(rt: HostRuntime) -> Result<(), Fail> {
    let alloc = rt.alloc();
    for number in 0..CASES {
        hold(alloc, number)?;
    }
    Ok(())
}

fn hold(alloc: Global, number: u16) -> Result<(), Fail> {
    let case = numbered(number);
    let found = searched(&case);
    if stepped(&case)? == i64::from(found) {
        return Ok(());
    }
    Err(Fail::new(format!(in alloc; "case {number}: {found}")?))
}

/// Each digit of the number chooses something of the case.
fn numbered(number: u16) -> Case {
    let highest = digit(number, 10);
    Case {
        highest,
        at: digit(number / 3, 10) % (highest + 1),
        longest: digit(number / 10, 5),
        change: digit(number / 50, 4),
        last: digit(number / 200, 10) - 5,
        wanted: 4 * digit(number / 2000, 5) - 8,
    }
}

fn digit(number: u16, base: u16) -> i8
    requires some { 0 < base }
    requires few { base ≤ 10 }
    ensures least { pos 0 ≤ℤ result }
    ensures most { result <ℤ pos base }
{
    (number % base) as i8
}

/// The new step of the case.
fn stepped(case: &Case) -> Result<i64, Fail> {
    if case.at < 0 || case.at > case.highest || case.longest < 0 || case.change < 0 {
        return Err(Fail::new("no case"));
    }
    let limiter = limiter_of(case);
    Ok(limiter.new_step(small(case.at), i64::from(case.last), i64::from(case.wanted)))
}

/// The limiter between 0 and the highest: in a time of one second a speed and an acceleration come to as many
/// micro-units as they have.
fn limiter_of(case: &Case) -> Limiter
    requires speed { pos 0 ≤ℤ case.now.longest }
    requires acceleration { pos 0 ≤ℤ case.now.change }
    ensures lowest { result.lowest ≡ pos 0 }
    ensures highest { result.highest ≡ case.now.highest }
{
    Limiter::of(&Limits {
        min: Fx::ZERO,
        max: small(case.highest),
        vmax: small(case.longest),
        amax: small(case.change),
        dt_us: 1_000_000,
    })
}

#[tactic(auto, unfolding(fixed_num::specs::Micro::clamped))]
fn small(n: i8) -> Fx
    ensures { result ≡ n }
{
    Fx::from_micro(i64::from(n))
}

/// The feasible step that is nearest to the wanted one, of all; 0 if none is feasible.
fn searched(case: &Case) -> i8 {
    let mut found = None;
    for step in -LONGEST..=LONGEST {
        found = nearer(case, found, step);
    }
    found.unwrap_or(0)
}

fn nearer(case: &Case, found: Option<i8>, step: i8) -> Option<i8> {
    if !is_feasible(case, step) {
        return found;
    }
    match found {
        Some(other) if away(case, other) <= away(case, step) => Some(other),
        _ => Some(step),
    }
}

fn away(case: &Case, step: i8) -> i64 {
    (i64::from(step) - i64::from(case.wanted)).abs()
}

fn is_feasible(case: &Case, step: i8) -> bool {
    let change = (i64::from(step) - i64::from(case.last)).abs();
    i64::from(step).abs() <= i64::from(case.longest)
        && change <= i64::from(case.change)
        && stops(case, i64::from(step))
        && (case.change > 0 || step == 0)
}

fn stops(case: &Case, step: i64) -> bool
    requires { nat_abs step ≤ 128 }
{
    let to = i64::from(case.at) + step;
    if step >= 0 {
        to.saturating_add(way(step, case.change)) <= i64::from(case.highest)
    } else {
        to.saturating_sub(way(-step, case.change)) >= 0
    }
}

/// What is positive of the step less the change, less two changes and so on, added up.
fn way(step: i64, change: i8) -> i64
    requires { nat_abs step ≤ 128 }
{
    let mut sum: i64 = 0;
    for times in 1..=LONGEST {
        let next = step - i64::from(times) * i64::from(change);
        sum = sum.saturating_add(next.max(0));
    }
    sum
}
