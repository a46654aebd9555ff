//! The segment from one value to the next, straight, exact on whole micro-units and rounded down.

ghost use Rattle.std.specs.Prelude.{◌≡◌, ◌<◌, ◌≤◌, ◌*◌, ◌*ℤ◌, pos, nat_abs, IfSome};
ghost use Rattle.fixed_num.specs.Arithmetic.{floor_div};
ghost use Rattle.cm_model.specs.Ways.{on_segment};

use fixed_num::{Fx, LARGEST, floor, wide_floor};

/// The value at the time `t`, on the segment from one at `t0` to one at `t1`.
#[tactic(auto, using(crate::proofs::SegmentLemmas::sizes))]
pub(crate) fn on_segment(t: u64, t0: u64, t1: u64, from: Fx, to: Fx) -> Fx
    requires begun { t0 ≤ t }
    requires ahead { t < t1 }
    ensures { result ≡ on_segment t t0 t1 (from, to) }
{
    from.shifted(share(Fx::difference(to, from), t - t0, t1 - t0))
}

/// The part of a way that is gone in a part of its time. Nearly always the product fits 64 bits, which divide far
/// faster than 128.
#[tactic(auto, using(crate::proofs::SegmentLemmas::sizes))]
fn share(way: i64, gone: u64, time: u64) -> i64
    requires part { gone < time }
    requires small { nat_abs way ≤ 2 * LARGEST }
    ensures value { result ≡ floor_div (way *ℤ pos gone) (pos time) }
    ensures no_more { nat_abs result ≤ nat_abs way }
{
    match narrow_share(way, gone, time) {
        Some(share) => share,
        None => wide_share(way, gone, time) as i64,
    }
}

/// In 64 bits, where all fits them.
fn narrow_share(way: i64, gone: u64, time: u64) -> Option<i64>
    requires part { gone < time }
    ensures { IfSome result (λ share. share ≡ floor_div (way *ℤ pos gone) (pos time)) }
{
    let gone = i64::try_from(gone).ok()?;
    let time = i64::try_from(time).ok()?;
    let product = way.checked_mul(gone)?;
    Some(floor(product, time))
}

/// In 128 bits, where all fits.
fn wide_share(way: i64, gone: u64, time: u64) -> i128
    requires { gone < time }
    ensures { result ≡ floor_div (way *ℤ pos gone) (pos time) }
{
    wide_floor(way as i128 * gone as i128, time as i128)
}
