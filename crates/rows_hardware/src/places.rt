//! Where the interfaces of each described controller stand on the board, and who claims and exports what stands at each
//! place.

ghost use Rattle.std.specs.Prelude.{◌<◌, ◌≤◌, length, IfOk};
ghost use Rattle.cm_places.specs.Placed.{HasAllRows};

use cm_document::Checked;
use cm_places::CtlPlaces;
use cm_places::laws::each_has_its_row;
use loan_board::Board;
use pages_calls::described::checked_description;
use pages_cases::largest::AT_ALL_LIMITS;
use pages_cases::pages::{Teller, hold, push_parted};
use std::alloc::Global;
use std::test::Fail;

#[test]
fn each_interface_of_a_controller_has_its_place(rt: HostRuntime) -> Result<(), Fail> {
    hold(rt.alloc(), &Rows, TOP, PLACES)?;
    hold(rt.alloc(), &Counts, AT_ALL_LIMITS, LARGEST)
}

/// What stands before the components and controllers of a case.
const TOP: &str = "version = 1\nupdate_rate = 100\ncycles = 1\n";

/// Tells a line for each controller: its name, and the places of what it reads, exports and claims; and a line for each
/// interface, by place: the controllers that claim it, and the one that exports it, by their places in the description.
#[derive(Clone, Copy)]
struct Rows;

impl Teller for Rows {
    fn told(&self, alloc: Global, text: &str) -> Result<String, Fail> {
        rows_of(alloc, &checked_description(alloc, text)?)
    }
}

/// Tells how many places controllers read, export and claim altogether.
#[derive(Clone, Copy)]
struct Counts;

impl Teller for Counts {
    fn told(&self, alloc: Global, text: &str) -> Result<String, Fail> {
        counted(alloc, &checked_description(alloc, text)?)
    }
}

/// The places of a description: there is a row of each kind for each controller, and one of each kind for each
/// interface.
fn places_of(alloc: Global, checked: &Checked) -> Result<CtlPlaces, Fail>
    ensures { IfOk result (λ places. HasAllRows checked.now places) }
{
    each_has_its_row();
    Ok(CtlPlaces::of(alloc, checked)?)
}

/// A line for each controller, and one for each interface.
fn rows_of(alloc: Global, checked: &Checked) -> Result<String, Fail> {
    let count = Board::make(alloc, checked)?.len();
    let places = places_of(alloc, checked)?;
    told_rows(alloc, checked, &places, count)
}

fn told_rows(
    alloc: Global,
    checked: &Checked,
    places: &CtlPlaces,
    count: u32,
) -> Result<String, Fail>
    requires rows { HasAllRows checked.now places.now }
    requires claimers { count ≤ length places.now.claimers }
    requires exporters { count ≤ length places.now.exporters }
{
    let mut told = String::new(alloc);
    push_controllers(&mut told, checked, places)?;
    push_interfaces(&mut told, places, count)?;
    Ok(told)
}

fn push_controllers(told: &mut String, checked: &Checked, places: &CtlPlaces) -> Result<(), Fail>
    requires { HasAllRows checked.now places.now }
{
    let controllers = checked.description().controllers.as_slice();
    for (place, controller) in controllers.iter().enumerate() {
        push_parted(told, "\n", controller.name.as_str())?;
        push_controller(told, places, u32::try_from(place)?)?;
    }
    Ok(())
}

/// Appends the places of what a controller reads, exports and claims.
fn push_controller(told: &mut String, places: &CtlPlaces, controller: u32) -> Result<(), Fail>
    requires reads { controller < length places.now.reads }
    requires references { controller < length places.now.references }
    requires claims { controller < length places.now.claims }
{
    told.push_str(" reads")?;
    push_numbers(told, places.reads(controller))?;
    told.push_str(", exports")?;
    push_numbers(told, places.references(controller))?;
    told.push_str(", claims")?;
    push_numbers(told, places.claims(controller))
}

/// As many lines as the board has places.
fn push_interfaces(told: &mut String, places: &CtlPlaces, count: u32) -> Result<(), Fail>
    requires claimers { count ≤ length places.now.claimers }
    requires exporters { count ≤ length places.now.exporters }
{
    for place in 0..count {
        push_interface(told, places, place)?;
    }
    Ok(())
}

/// Appends who claims the interface at a place and who exports it.
fn push_interface(told: &mut String, places: &CtlPlaces, place: u32) -> Result<(), Fail>
    requires claimers { place < length places.now.claimers }
    requires exporters { place < length places.now.exporters }
{
    write!(told, "\n{place} is claimed by")?;
    push_numbers(told, places.claimers(place))?;
    match places.exporter(place) {
        Some(controller) => write!(told, ", exported by {controller}")?,
        None => told.push_str(", exported by none")?,
    }
    Ok(())
}

/// Appends numbers, each behind a blank, or that there are none.
fn push_numbers(told: &mut String, numbers: &[u32]) -> Result<(), Fail> {
    if numbers.is_empty() {
        told.push_str(" none")?;
    }
    for number in numbers {
        write!(told, " {number}")?;
    }
    Ok(())
}

/// How many places there are in the rows of controllers.
fn counted(alloc: Global, checked: &Checked) -> Result<String, Fail> {
    let count = u32::try_from(checked.description().controllers.as_slice().len())?;
    let places = places_of(alloc, checked)?;
    let (mut read, mut exported, mut claimed) = (0usize, 0usize, 0usize);
    for place in 0..count {
        read = read.saturating_add(places.reads(place).len());
        exported = exported.saturating_add(places.references(place).len());
        claimed = claimed.saturating_add(places.claims(place).len());
    }
    drop(places);
    Ok(format!(in alloc; "{read} read, {exported} exported, {claimed} claimed")?)
}

/// States stand first, joint by joint, then commands, then references, controller by controller. A state and a command
/// of one joint and kind have one name and two places.
const PLACES: &str = r#"component = [
  { name = "arm", kind = "system", joint = [
    { name = "j1", vmax = 1, command = ["velocity", "position"], state = ["position", "velocity"] },
    { name = "j2", vmax = 1, command = ["effort"] }] },
  { name = "imu", kind = "sensor", joint = [{ name = "tilt", vmax = 1, state = ["position"] }] }]
controller = [
  { name = "pid1", type = "pid", claims = ["j1/velocity"], reads = ["j1/position"] },
  { name = "hold", type = "forward", claims = ["j1/position"] },
  { name = "relay", type = "passthrough", claims = ["pid1/j1/position", "j2/effort"] },
  { name = "watch", type = "broadcaster", reads = "all" },
  { name = "lead", type = "forward", claims = ["relay/j2/effort", "j1/velocity"] },
  { name = "idle", type = "mock", reads = ["tilt/position", "j1/velocity"] }]
=> pid1 reads 0, exports 6, claims 3
hold reads none, exports none, claims 4
relay reads none, exports 7 8, claims 6 5
watch reads 0 1 2, exports none, claims none
lead reads none, exports none, claims 8 3
idle reads 2 1, exports none, claims none
0 is claimed by none, exported by none
1 is claimed by none, exported by none
2 is claimed by none, exported by none
3 is claimed by 0 4, exported by none
4 is claimed by 1, exported by none
5 is claimed by 2, exported by none
6 is claimed by 2, exported by 0
7 is claimed by none, exported by 2
8 is claimed by 4, exported by 2"#;

/// What is told of the largest description.
const LARGEST: &str = "=> 256 read, 96 exported, 192 claimed";
