//! Ends of cycles: who stops, and of those that stay who restarts and who is chained.

ghost use Rattle.std.specs.Prelude.{◌<◌, length, All, IfOk};
ghost use Rattle.stop_plan.specs.Ending.{HasFlags};
ghost use Rattle.stop_plan.specs.Reports.{IsReport, count_in};

use crate::acts::numbers_of;
use crate::orders::{are_below, listed, members_of};
use chain_order::{Links, PlaceSet, in_order};
use cm_document::Checked;
use cm_model::Member;
use cm_storage::FailedPart;
use pages_calls::described::checked_description;
use pages_calls::robots::{ARM_AND_LEG, SEVEN};
use pages_cases::acts::{Player, hold_acts};
use pages_cases::pages::{halves, push_parted};
use sequence::ListRoom;
use std::alloc::Global;
use std::test::Fail;
use stop_plan::{Ending, Report};
use switch_plan::Relations;

#[test]
fn cycles_end_as_they_must(rt: HostRuntime) -> Result<(), Fail> {
    let alloc = rt.alloc();
    hold_acts::<Robot>(alloc, SEVEN, OF_ONE_JOINT)?;
    hold_acts::<Robot>(alloc, ARM_AND_LEG, OF_A_CHAIN)
}

/// A described robot. Of the end of a cycle, `ACTIVE; COMPONENTS; SERIALS`, with each active controller as
/// `SERIAL:NAME` by serial, the places of the components that failed and the serials of the updates that failed, it
/// tells the serials that stop; and then the names of the controllers that stay, that are stopped, that are started and
/// that are chained, as they are described.
#[derive(Drop)]
struct Robot {
    checked: Checked,
}

impl Player for Robot {
    fn begin(alloc: Global, robot: &str, _head: &str) -> Result<Robot, Fail> {
        Ok(Robot {
            checked: checked_description(alloc, robot)?,
        })
    }

    fn told(&mut self, alloc: Global, act: &str) -> Result<String, Fail> {
        let (active, failures) = halves(act, "; ")?;
        let (components, serials) = halves(failures, "; ")?;
        let active = members_of(alloc, &self.checked, active)?;
        let failed = write_failures(alloc, components)?;
        let erred = numbers_of(alloc, serials)?;
        end_of(alloc, &self.checked, &active, &failed, &erred)
    }
}

/// The end of a cycle in which these failed.
fn end_of(
    alloc: Global,
    checked: &Checked,
    active: &[Member],
    failed: &[FailedPart],
    erred: &[u32],
) -> Result<String, Fail> {
    let relations = Relations::of(alloc, checked)?;
    let order = ordered(alloc, relations.leaders(), active)?;
    let report = Report {
        relations: &relations,
        order: &order,
        failed,
        erred,
    };
    decided(alloc, checked, &report)
}

/// These in the order of their updates.
fn ordered(alloc: Global, leaders: &Links, active: &[Member]) -> Result<Vec<Member>, Fail>
    ensures { IfOk result (λ list. All (λ m. m.place < length leaders.now) list.items) }
{
    let count = leaders.len() as usize;
    if !are_below(active, count) {
        return Err(Fail::new("no such place"));
    }
    let set = PlaceSet::of(alloc, count, active)?;
    Ok(in_order(alloc, leaders, &set, active)?)
}

/// What is decided by a report. It is decided a second time, which makes no difference.
fn decided(alloc: Global, checked: &Checked, report: &Report) -> Result<String, Fail>
    requires { IsReport report.now }
{
    let mut ending = Ending::make(alloc, report.relations.leaders().len() as usize)?;
    decided_twice(alloc, checked, report, &mut ending)
}

fn decided_twice(
    alloc: Global,
    checked: &Checked,
    report: &Report,
    ending: &mut Ending,
) -> Result<String, Fail>
    requires report { IsReport report.now }
    requires flags { HasFlags (count_in report.now) ending.old }
{
    decide(alloc, report, ending)?;
    let mut told = decide(alloc, report, ending)?;
    push_sets(alloc, &mut told, checked, ending)?;
    Ok(told)
}

/// Decides by a report, and tells who stops.
fn decide(alloc: Global, report: &Report, ending: &mut Ending) -> Result<String, Fail>
    requires report { IsReport report.now }
    requires flags { HasFlags (count_in report.now) ending.old }
    ensures flags { HasFlags (count_in report.now) ending.new }
{
    let mut serials = ListRoom::with_room(alloc, report.order.len())?;
    ending.decide(report, &mut serials);
    listed(alloc, serials.into_list().as_slice())
}

fn push_sets(
    alloc: Global,
    told: &mut String,
    checked: &Checked,
    ending: &Ending,
) -> Result<(), Fail> {
    push_set(alloc, told, checked, &ending.set)?;
    push_set(alloc, told, checked, &ending.stopped)?;
    push_set(alloc, told, checked, &ending.started)?;
    push_set(alloc, told, checked, &ending.chained)
}

fn push_set(
    alloc: Global,
    told: &mut String,
    checked: &Checked,
    set: &PlaceSet,
) -> Result<(), Fail> {
    told.push_str("; ")?;
    told.push_str(names_in(alloc, checked, set)?.as_str())?;
    Ok(())
}

/// The names of these, as they are described, or `nobody`.
fn names_in(alloc: Global, checked: &Checked, set: &PlaceSet) -> Result<String, Fail> {
    let mut told = String::new(alloc);
    let controllers = checked.description().controllers.as_slice();
    for (place, controller) in controllers.iter().enumerate() {
        push_member(&mut told, set, place, controller.name.as_str())?;
    }
    if told.is_empty() {
        told.push_str("nobody")?;
    }
    Ok(told)
}

/// Appends the name of the controller at a place, where it is a member.
fn push_member(told: &mut String, set: &PlaceSet, place: usize, name: &str) -> Result<(), Fail> {
    if set.holds(place) {
        push_parted(told, " ", name)?;
    }
    Ok(())
}

/// Components whose write failed, by place; `none` stands for none.
fn write_failures(alloc: Global, words: &str) -> Result<Vec<FailedPart>, Fail> {
    let mut parts = Vec::new(alloc);
    for place in numbers_of(alloc, words)?.iter() {
        parts.push(FailedPart {
            place: *place,
            reading: false,
        })?;
    }
    Ok(parts)
}

/// A trajectory and a passthrough claim the reference of the pid; who reads or claims of the arm stops with it.
const OF_ONE_JOINT: &str = "\
nobody; 0; none => none; nobody; nobody; nobody; nobody
0:pid 1:traj; none; none => none; pid traj; nobody; nobody; pid
0:pid 1:traj; none; 0 => 1 0; nobody; pid traj; nobody; nobody
0:pid 1:traj; none; 1 => 1; pid; pid traj; pid; nobody
0:pid 1:traj 2:pt; none; 1 => 1; pid pt; traj; nobody; pid
0:pid 1:pt 2:jsb 3:mk; 0; none => 1 2 0; mk; pid jsb pt; nobody; nobody
0:pid 1:pt 2:jsb 3:mk; none; 3 2 => 2 3; pid pt; jsb mk; nobody; pid
0:mk 1:fwd; 1; none => none; fwd mk; nobody; nobody; nobody";

/// The one at the top claims a reference of the one in the middle, and that one of the one at the base, on the leg.
/// Where the middle is not active it is still told that it would be chained.
const OF_A_CHAIN: &str = "\
0:base 1:middle 2:top; none; none => none; top middle base; nobody; nobody; middle base
0:base 1:middle 2:top; 1; none => 2 1 0; nobody; top middle base; nobody; nobody
0:base 1:middle 2:top; none; 1 => 2 1; base; top middle base; base; nobody
0:base 1:middle 2:top; none; 2 => 2; middle base; top middle; middle; base
5:base 7:top; none; 5 => 5; top; base; nobody; middle
0:base 1:middle 2:top 3:fwd 4:watch; 0; none => 3; top middle base watch; fwd; nobody; middle base
0:base 1:middle 2:top 3:fwd 4:watch; 1; 3 => 2 3 4 1 0; nobody; fwd top middle base watch; nobody; nobody";
