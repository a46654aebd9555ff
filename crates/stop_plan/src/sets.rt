//! Sets of controllers that are told anew, place by place.

ghost use Rattle.std.specs.Prelude.{◌≡◌, ◌<◌, ◌≤◌, ◌++◌, length, map, filter, All};
ghost use Rattle.cm_model.specs.Order.{set_of, places_of};
ghost use Rattle.cm_model.specs.Switches.{differ};
ghost use Rattle.chain_order.specs.Links.{linked};
ghost use Rattle.stop_plan.specs.Reports.{IsReport, count_in, is_struck_in, places_where, is_chained_by, changes_mode};
ghost use Rattle.stop_plan.specs.Settled.{staying, is_stopped_by, is_started_by, is_changed_by};
ghost use Rattle.stop_plan.specs.Spread.{spread};

use crate::report::{Report, is_struck};
use chain_order::{Links, PlaceSet, has_any};
use cm_model::Member;
use sequence::ListRoom;

/// The members become the controllers at the places of these.
pub(crate) fn gather(set: &mut PlaceSet, members: &[Member])
    requires { All (λ m. m.place < length set.old) members.now }
    ensures length { length set.new ≡ length set.old }
    ensures set { set_of set.new ≡ places_of members.now }
{
    set.clear();
    for member in members {
        set.insert(member.place);
    }
}

/// The members become the active controllers that were struck.
pub(crate) fn gather_struck(set: &mut PlaceSet, report: &Report)
    requires report { IsReport report.now }
    requires flags { length set.old ≡ count_in report.now }
    ensures length { length set.new ≡ length set.old }
    ensures set { set_of set.new ≡ places_where (is_struck_in report.now) report.now.order.now }
{
    set.clear();
    for member in report.order {
        if is_struck(report, member) {
            set.insert(member.place);
        }
    }
}

/// Each active controller that precedes a member at any distance becomes one: those that follow in the order of updates
/// come first.
pub(crate) fn spread(set: &mut PlaceSet, report: &Report)
    requires report { IsReport report.now }
    requires flags { length set.old ≡ count_in report.now }
    ensures length { length set.new ≡ length set.old }
    ensures set { set_of set.new
        ≡ spread (linked report.now.relations.now.followers) report.now.order.now (set_of set.old) }
{
    let mut left = report.order.len();
    while left > 0 {
        left -= 1;
        let member = report.order[left];
        if has_any(set, report.relations.followers(member.place)) {
            set.insert(member.place);
        }
    }
}

/// The members become those of these that do not fall.
pub(crate) fn gather_staying(set: &mut PlaceSet, fallen: &PlaceSet, members: &[Member])
    requires { All (λ m. m.place < length set.old) members.now }
    ensures length { length set.new ≡ length set.old }
    ensures set { set_of set.new ≡ staying members.now (set_of fallen.now) }
{
    set.clear();
    for member in members {
        if !fallen.has(member.place) {
            set.insert(member.place);
        }
    }
}

/// The two sets of controllers between which a commit leads: those active before it and after it, and by whom each
/// described one is preceded.
#[derive(Clone, Copy)]
pub(crate) struct Transition<'a> {
    pub(crate) leaders: &'a Links,
    pub(crate) before: &'a PlaceSet,
    pub(crate) after: &'a PlaceSet,
}

/// What a commit does to a controller that is active: it stops it, or starts it again.
#[derive(Clone, Copy)]
pub(crate) enum Change {
    Stops,
    Restarts,
}

/// The members become those of these that change so.
pub(crate) fn gather_changed(
    set: &mut PlaceSet,
    transition: &Transition,
    members: &[Member],
    change: Change,
)
    requires within { All (λ m. m.place < length set.old) members.now }
    requires flags { length set.old ≡ length transition.now.leaders.now }
    ensures length { length set.new ≡ length set.old }
    ensures set { set_of set.new ≡ places_where (λ m. is_changed_by change transition.now.leaders.now
        (set_of transition.now.before.now) (set_of transition.now.after.now) m.place) members.now }
{
    set.clear();
    for member in members {
        if is_changed(transition, member.place, change) {
            set.insert(member.place);
        }
    }
}

/// The members become the described controllers that are chained among these.
pub(crate) fn gather_chained(set: &mut PlaceSet, leaders: &Links, active: &PlaceSet)
    requires { length set.old ≡ length leaders.now }
    ensures length { length set.new ≡ length set.old }
    ensures set { set_of set.new ≡ is_chained_by leaders.now (set_of active.now) }
{
    set.clear();
    for place in 0..leaders.len() {
        if has_any(active, leaders.row(place)) {
            set.insert(place);
        }
    }
}

/// Whether an active controller changes so.
fn is_changed(transition: &Transition, place: u32, change: Change) -> bool
    requires { place < length transition.now.leaders.now }
    ensures { result ≡ is_changed_by change transition.now.leaders.now
        (set_of transition.now.before.now) (set_of transition.now.after.now) place }
{
    match change {
        Change::Stops => is_stopped(transition, place),
        Change::Restarts => is_restarted(transition, place),
    }
}

/// Whether an active controller is stopped: it is not active afterwards, or its chained mode changes.
fn is_stopped(transition: &Transition, place: u32) -> bool
    requires { place < length transition.now.leaders.now }
    ensures { result ≡ is_stopped_by transition.now.leaders.now
        (set_of transition.now.before.now) (set_of transition.now.after.now) place }
{
    !transition.after.has(place) || changes_mode(transition, place)
}

/// Whether an active controller is started again: it stays active, and its chained mode changes.
fn is_restarted(transition: &Transition, place: u32) -> bool
    requires { place < length transition.now.leaders.now }
    ensures { result ≡ is_started_by transition.now.leaders.now
        (set_of transition.now.before.now) (set_of transition.now.after.now) place }
{
    transition.after.has(place) && changes_mode(transition, place)
}

/// Whether the chained mode of a controller changes.
fn changes_mode(transition: &Transition, place: u32) -> bool
    requires { place < length transition.now.leaders.now }
    ensures { result ≡ changes_mode transition.now.leaders.now
        (set_of transition.now.before.now) (set_of transition.now.after.now) place }
{
    let before = has_any(transition.before, transition.leaders.row(place));
    let after = has_any(transition.after, transition.leaders.row(place));
    differ(before, after)
}

/// Whether one of both is true.
fn differ(one: bool, other: bool) -> bool
    ensures { result ≡ differ one other }
{
    if one { !other } else { other }
}

/// Tells the serials of the members among these, in their order.
pub(crate) fn tell(stops: &mut ListRoom<u32>, set: &PlaceSet, members: &[Member])
    requires { length members.now ≤ stops.old.room }
    ensures { stops.new.items
        ≡ stops.old.items ++ map (λ m. m.serial) (filter (λ m. set_of set.now m.place) members.now) }
{
    for member in members {
        if set.has(member.place) {
            stops.push(member.serial);
        }
    }
}
