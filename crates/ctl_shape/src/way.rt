//! The way that is needed to stop, and what a rate comes to in a time.

ghost use Rattle.std.specs.Prelude.{◌≡◌, ◌+◌, ◌*◌, ◌^◌, ◌<◌, ◌≤◌, ◌≤ℤ◌, ◌*ℤ◌, pos, nat_abs, min};
ghost use Rattle.fixed_num.specs.Arithmetic.{floor_div};
ghost use Rattle.cm_model.specs.Limiters.{way_after};
ghost use Rattle.ctl_shape.specs.Calls.Steps.{IsRoom, IsLongest};

use crate::limiter::LONGEST_STEP;
use fixed_num::Fx;

/// The longest step up to this one after which the way to stop has room. Nearly always it is this one, and then one
/// division is enough.
#[tactic(auto, using(crate::proofs::FormulaLemmas::this_is_longest, crate::proofs::FormulaLemmas::shorter_is_longest))]
pub(crate) fn farthest_to(step: u64, room: u64, change: u64) -> u64
    requires room { IsRoom room change }
    requires small { step ≤ LONGEST_STEP }
    ensures { IsLongest change room step result }
{
    if twice_with_way(step, change) <= u128::from(2 * room) {
        return step;
    }
    farthest(room, change)
}

/// Twice a step with the way that is needed to stop after it.
#[tactic(auto, using(crate::proofs::FormulaLemmas::way_doubled, crate::proofs::FormulaLemmas::whole_changes))]
fn twice_with_way(step: u64, change: u64) -> u128
    requires some { 0 < change }
    requires small { step ≤ LONGEST_STEP }
    ensures { result ≡ 2 * (step + way_after change step) }
{
    let slower = step / change;
    u128::from(slower + 1) * u128::from(2 * step - slower * change)
}

/// The longest step after which the way to stop has room, in constant time: first how many whole changes that step has.
#[tactic(auto, using(crate::proofs::FormulaLemmas::product_fits))]
fn farthest(room: u64, change: u64) -> u64
    requires { IsRoom room change }
    ensures fits { result + way_after change result ≤ room }
    ensures no_farther { room < (result + 1) + way_after change (result + 1) }
    ensures small { result ≤ LONGEST_STEP }
{
    let slower = changes_in(2 * room / change);
    (2 * room + change * (slower * (slower + 1))) / (2 * (slower + 1))
}

/// The greatest number of which the product with the next one is at most this one.
#[tactic(auto, using(crate::proofs::FormulaLemmas::root_fits, crate::proofs::FormulaLemmas::root_most))]
fn changes_in(count: u64) -> u64
    requires small { count ≤ 2 * LONGEST_STEP }
    ensures fits { result * (result + 1) ≤ count }
    ensures no_more { count < (result + 1) * (result + 2) }
    ensures few { result < 2 ^ 32 }
{
    ((4 * count + 1).isqrt() - 1) / 2
}

/// What a rate comes to in a time, rounded down, and no more than the most that matters.
#[tactic(auto, using(crate::proofs::FormulaLemmas::comes_to))]
pub(crate) fn come_to(rate: Fx, time: u64, unit: u64, most: u64) -> u64
    requires not_negative { pos 0 ≤ℤ rate }
    requires some { 0 < unit }
    ensures { result ≡ min (nat_abs (floor_div (rate *ℤ pos time) (pos unit))) most }
{
    let product = u128::from(rate.micro().unsigned_abs()) * u128::from(time);
    (product / u128::from(unit)).min(u128::from(most)) as u64
}
