//! The hardware at start, made of its description.

ghost use Rattle.std.specs.Prelude.{◌≡◌, ◌+◌, ◌<◌, ◌≤◌, ◌^◌, ◌++◌, map, length, replicate, ℕ, All, IfOk, OnOk};
ghost use Rattle.cm_model.specs.State.{boot};
ghost use Rattle.cm_model.specs.declared.blanks.Blanks.{Blanks};
ghost use Rattle.hw_component.specs.Hardware.{CanBeMade};
ghost use Rattle.cm_hardware.specs.Calls.Boards.{CanOpen};
ghost use Rattle.cm_hardware.specs.Holding.{IsHardwareOf};
ghost use Rattle.cm_hardware.specs.Starting.{mounted, places_from, places_of, all_places, is_up};
ghost use Rattle.cm_hardware.specs.Starting.{opened, after_measure_of, after_measures_of};
ghost use Rattle.cm_hardware.specs.Wiring.{states_count, commands_count, all_states, AreFree};

use crate::hardware::{Unit, is_available};
use crate::manager::ResourceManager;
use cm_document::{Checked, CompDesc};
use fixed_num::{Memory, Value};
use hw_component::Component;
use hw_component::laws::described_components_can_be_made;
use loan_board::Board;
use std::alloc::Global;

impl ResourceManager {
    /// The hardware of a description, at start: the interfaces of inactive and active components are available, and
    /// their state interfaces hold what the bodies measure. Every other interface is unavailable and Unset, and nobody
    /// claims any.
    pub fn make(alloc: Global, checked: &Checked) -> Result<ResourceManager, Memory>
        ensures { IfOk result
            (λ manager. (blanks : Blanks) (sessions : ℕ) → IsHardwareOf (boot checked.now blanks sessions) manager) }
    {
        described_components_can_be_made(checked);
        let mut units = mounted(alloc, checked.description().components.as_slice())?;
        let mut board = Board::make(alloc, checked)?;
        let places = places(alloc, &units, board.len() as usize)?;
        open(&mut board, &places, &units);
        measure_units(&mut units, &mut board);
        let first_command = count_states(&units, &board);
        Ok(ResourceManager {
            units,
            board,
            places,
            first_command,
        })
    }
}

// ---- Components

/// The described components, put to work.
fn mounted(alloc: Global, components: &[CompDesc]) -> Result<Vec<Unit>, Memory>
    requires { All CanBeMade components.now }
    ensures { IfOk result (λ units. units.items ≡ map mounted components.now) }
{
    let mut units = Vec::with_capacity(alloc, components.len())?;
    for component in components {
        units.push(Unit::at_start(alloc, component)?)?;
    }
    Ok(units)
}

impl Unit {
    /// A described component, with a place for each of its interfaces.
    fn at_start(alloc: Global, description: &CompDesc) -> Result<Unit, Memory>
        requires { CanBeMade description.now }
        ensures { IfOk result (λ unit. unit ≡ mounted description.now) }
    {
        let component = Component::make(alloc, description)?;
        Ok(Unit {
            states: vec![in alloc; Value::Unset; component.state_interfaces().len()]?,
            commands: vec![in alloc; Value::Unset; component.command_interfaces().len()]?,
            claims: Vec::with_capacity(alloc, component.command_interfaces().len())?,
            component,
            failed: false,
        })
    }
}

// ---- Places

/// The component of each of so many places: the state interfaces of all, then their command interfaces, then
/// references.
fn places(alloc: Global, units: &[Unit], count: usize) -> Result<Vec<Option<u32>>, Memory>
    requires { length units.now < 2 ^ 32 }
    ensures { IfOk result (λ places. places.items ≡ all_places units.now count) }
{
    let mut places = Vec::with_capacity(alloc, count)?;
    push_states(&mut places, units)?;
    push_commands(&mut places, units)?;
    let references = count.saturating_sub(places.len());
    push_times(&mut places, None, references)?;
    Ok(places)
}

/// The component of each state interface.
fn push_states(places: &mut Vec<Option<u32>>, units: &[Unit]) -> Result<(), Memory>
    requires { length units.now < 2 ^ 32 }
    ensures { OnOk result (places.new.items ≡ places.old.items ++ places_from states_count 0 units.now) }
{
    for (component, unit) in units.iter().enumerate() {
        push_times(places, Some(component as u32), unit.states_count())?;
    }
    Ok(())
}

/// The component of each command interface.
fn push_commands(places: &mut Vec<Option<u32>>, units: &[Unit]) -> Result<(), Memory>
    requires { length units.now < 2 ^ 32 }
    ensures { OnOk result (places.new.items ≡ places.old.items ++ places_from commands_count 0 units.now) }
{
    for (component, unit) in units.iter().enumerate() {
        push_times(places, Some(component as u32), unit.commands_count())?;
    }
    Ok(())
}

/// So many places more, each of this component or of none.
fn push_times(
    places: &mut Vec<Option<u32>>,
    component: Option<u32>,
    times: usize,
) -> Result<(), Memory>
    ensures { OnOk result (places.new.items ≡ places.old.items ++ replicate times component) }
{
    for _place in 0..times {
        places.push(component)?;
    }
    Ok(())
}

// ---- What the board keeps

/// The interfaces of inactive and active components become available.
#[tactic(auto, using(crate::proofs::FreeLemmas::staying_free))]
fn open(board: &mut Board, places: &[Option<u32>], units: &[Unit])
    requires { CanOpen places.now board.old }
    ensures board { board.new ≡ opened units.now 0 places.now board.old }
    ensures free { AreFree board.new }
    ensures places { length board.new ≡ length board.old }
{
    board.len();
    for (place, component) in places.iter().enumerate() {
        if is_up(units, *component) {
            board.set_available(place as u32, true);
        }
    }
}

/// Whether the interfaces of the component of this place are available; those of no component are not.
fn is_up(units: &[Unit], component: Option<u32>) -> bool
    ensures { result ≡ is_up units.now component }
{
    let Some(place) = component else {
        return false;
    };
    match units.get(place as usize) {
        Some(unit) => is_available(unit.component.life()),
        None => false,
    }
}

/// The state interfaces of inactive and active components hold what they measure.
fn measure_units(units: &mut [Unit], board: &mut Board)
    requires places { all_states units.old ≤ length board.old }
    ensures units { units.new ≡ units.old }
    ensures board { board.new ≡ after_measures_of 0 board.old units.old }
    ensures places { length board.new ≡ length board.old }
{
    board.len();
    let mut at = 0u32;
    for unit in units.iter_mut() {
        unit.measure(board, at);
        at += unit.states_count() as u32;
    }
}

impl Unit {
    /// Where the component is inactive or active, its state interfaces, the first of which has this place, hold what
    /// they measure.
    fn measure(&mut self, board: &mut Board, at: u32)
        requires { at + states_count self.old ≤ length board.old }
        ensures unit { self.new ≡ self.old }
        ensures board { board.new ≡ after_measure_of at board.old self.old }
        ensures places { length board.new ≡ length board.old }
    {
        if is_available(self.component.life()) {
            self.measure_all(board, at);
        }
    }
}

/// How many state interfaces these components have: those of all are so many places before the first command interface.
pub(crate) fn count_states(units: &[Unit], board: &Board) -> u32
    requires { all_states units.now ≤ length board.now }
    ensures { result ≡ all_states units.now }
{
    board.len();
    let mut count = 0u32;
    for unit in units {
        count += unit.states_count() as u32;
    }
    count
}
