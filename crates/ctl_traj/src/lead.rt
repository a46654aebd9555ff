//! Where a trajectory's points lead at a time.

ghost use Rattle.std.specs.Prelude.{◌≡◌, ◌≤◌, length, map};
ghost use Rattle.fixed_num.specs.declared.value.Value.TheVariants.{Num};
ghost use Rattle.cm_model.specs.Ways.{towards, on_way, led};
ghost use Rattle.ctl_traj.specs.Calls.Leads.{IsAhead, CanGoOn};
ghost use Rattle.ctl_traj.specs.Led.{HaveCome, since_after, begin_after};

use crate::segment::on_segment;
use cm_document::Point2;
use ctl_trait::set_numbers;
use fixed_num::{Fx, Value};

/// Puts the values at the time `t` after the start into the claims: without points those to hold, from the last point's
/// time on that point's, and before it those on the way. The times of some points are known to have come; it tells of
/// how many that is known now.
pub(crate) fn lead(
    t: u64,
    hold: &[Fx],
    from: &[Fx],
    points: &[Point2],
    come: usize,
    outs: &mut [Value],
) -> usize
    requires held { length hold.now ≡ length outs.old }
    requires way { CanGoOn t from.now points.now come (length outs.old) }
    ensures outs { outs.new ≡ map Num (led t hold.now from.now points.now) }
    ensures come { HaveCome t points.now result }
{
    match points.last() {
        None => {
            set_numbers(outs, hold);
            come
        }
        Some(last) if last.at_us <= t => {
            set_numbers(outs, last.values.as_slice());
            come
        }
        Some(_) => lead_on(t, from, points, come, outs),
    }
}

/// Puts the values on the way through the points into the claims. The points are looked through in the order in which
/// they came, from the first one on whose time is not known to have come.
#[tactic(auto, using(crate::proofs::ComeLemmas::one_more_come))]
fn lead_on(t: u64, from: &[Fx], points: &[Point2], come: usize, outs: &mut [Value]) -> usize
    requires { CanGoOn t from.now points.now come (length outs.old) }
    ensures outs { outs.new ≡ map Num (on_way t 0 from.now points.now) }
    ensures come { HaveCome t points.now result }
{
    let mut since = begun_at(points, come);
    let mut begin = begun_from(from, points, come);
    for index in come..points.len() {
        let point = &points[index];
        if t < point.at_us {
            lead_towards(t, since, begin, point, outs);
            return index;
        }
        since = point.at_us;
        begin = point.values.as_slice();
    }
    set_numbers(outs, begin);
    points.len()
}

/// When the way to the next point began: at the time of the last of those that have come, or at the start.
fn begun_at(points: &[Point2], come: usize) -> u64
    requires { come ≤ length points.now }
    ensures { result ≡ since_after 0 come points.now }
{
    if come == 0 {
        return 0;
    }
    let last = come - 1;
    points[last].at_us
}

/// Where it began.
fn begun_from<'a>(from: &'a [Fx], points: &'a [Point2], come: usize) -> &'a [Fx]
    requires { come ≤ length points.now }
    ensures { result.now ≡ begin_after from.now come points.now }
{
    if come == 0 {
        return from;
    }
    let last = come - 1;
    points[last].values.as_slice()
}

/// Puts each value on its segment from where it was at `t0` to the point.
fn lead_towards(t: u64, t0: u64, from: &[Fx], point: &Point2, outs: &mut [Value])
    requires { IsAhead t t0 from.now point.now (length outs.old) }
    ensures { outs.new ≡ map Num (towards t t0 from.now point.now) }
{
    let to = point.values.as_slice();
    for i in 0..outs.len() {
        outs[i] = Value::Num(on_segment(t, t0, point.at_us, from[i], to[i]));
    }
}
