//! Moves of components that are asked for.

ghost use Rattle.std.specs.Prelude.{◌≡◌, ◌<◌, ◌≤◌, true, length};
ghost use Rattle.cm_model.specs.Components.{is_available, has_move};
ghost use Rattle.cm_model.specs.State.{State};
ghost use Rattle.loan_board.specs.Loans.{with_loan, made_available};
ghost use Rattle.cm_hardware.specs.Calls.Boards.{CanSettle};
ghost use Rattle.cm_hardware.specs.Wiring.{all_states, AreSound, vacated, life_in, measured_of, moved_at};
ghost use Rattle.cm_hardware.specs.Wiring.{move_answer, is_of, changed_where, settled, after_move_at, IsSameBuild};
ghost use Rattle.cm_hardware.specs.Holding.{IsHardwareOf, MovesComponent};

use crate::hardware::{Unit, is_available, vacate};
use crate::manager::ResourceManager;
use crate::start::count_states;
use cm_document::Life;
use hw_component::HwFault;
use loan_board::Board;

impl ResourceManager {
    /// Moves the component at this place to a lifecycle state, where there is such a move. Where its interfaces are not
    /// available then, they become free and Unset; where they were not before and are then, its state interfaces hold
    /// what the bodies measure. It takes no memory.
    pub fn move_component(&mut self, place: u32, target: Life) -> Result<(), HwFault>
        requires { place < length self.old.components }
        ensures moved { (s : State) → IsHardwareOf s self.old → MovesComponent s place target self.old self.new result }
        ensures build { IsSameBuild self.old self.new }
    {
        self.move_at(place, target)
    }

    /// A move, and what it makes of the board.
    fn move_at(&mut self, place: u32, target: Life) -> Result<(), HwFault>
        requires { place < length self.old.components }
        ensures answer { result ≡ move_answer place target self.old.components }
        ensures hardware { self.new ≡ after_move_at place target self.old }
        ensures sound { AreSound self.old.loans }
    {
        let units = self.units.as_mut_slice();
        let had = has_interfaces(units, place);
        move_unit(units, place, target)?;
        settle(units, &mut self.board, &self.places, place, had);
        Ok(())
    }
}

// ---- Components

/// Whether the interfaces of the component at this place are available.
fn has_interfaces(units: &[Unit], place: u32) -> bool
    requires { place < length units.now }
    ensures { result ≡ is_available (life_in place units.now) }
{
    let unit = &units[place as usize];
    is_available(unit.component.life())
}

/// The component at this place moves, where it can.
fn move_unit(units: &mut [Unit], place: u32, target: Life) -> Result<(), HwFault>
    requires { place < length units.old }
    ensures answer { result ≡ move_answer place target units.old }
    ensures units { units.new ≡ moved_at place target units.old }
{
    let unit = &mut units[place as usize];
    unit.component.to_state(target)
}

// ---- The board

/// What the move of a component makes of the board, where its interfaces were available before or not.
fn settle(units: &mut [Unit], board: &mut Board, places: &[Option<u32>], place: u32, had: bool)
    requires { CanSettle place units.old places.now board.old }
    ensures units { units.new ≡ units.old }
    ensures board { board.new ≡ settled place had units.old places.now board.old }
{
    if !has_interfaces(units, place) {
        vacate_component(board, places, place);
    } else if !had {
        offer_component(board, places, place);
        measure_component(units, board, place);
    }
}

/// Whether a place is of this component; one of no component is not.
fn is_of(component: u32, whose: Option<u32>) -> bool
    ensures { result ≡ is_of component whose }
{
    match whose {
        Some(place) => place == component,
        None => false,
    }
}

/// All places of a component become free, unavailable and Unset.
fn vacate_component(board: &mut Board, places: &[Option<u32>], component: u32)
    requires { length places.now ≤ length board.old }
    ensures board { board.new ≡ changed_where (is_of component) vacated 0 places.now board.old }
    ensures places { length board.new ≡ length board.old }
{
    board.len();
    for (place, whose) in places.iter().enumerate() {
        if is_of(component, *whose) {
            vacate(board, place as u32);
        }
    }
}

/// All places of a component become available.
fn offer_component(board: &mut Board, places: &[Option<u32>], component: u32)
    requires { length places.now ≤ length board.old }
    ensures board { board.new ≡ changed_where (is_of component) (made_available true) 0 places.now board.old }
    ensures places { length board.new ≡ length board.old }
{
    board.len();
    for (place, whose) in places.iter().enumerate() {
        if is_of(component, *whose) {
            offer(board, place as u32);
        }
    }
}

/// The place becomes available, where it is not: one that is claimed is available.
#[tactic(auto, using(crate::proofs::SoundLemmas::offering))]
pub(crate) fn offer(board: &mut Board, place: u32)
    requires { place < length board.old }
    ensures board { board.new ≡ with_loan board.old place (made_available true) }
    ensures places { length board.new ≡ length board.old }
{
    match board.owner(place) {
        Some(_serial) => {}
        None => board.set_available(place, true),
    }
}

/// The state interfaces of the component at this place hold what its bodies measure.
fn measure_component(units: &mut [Unit], board: &mut Board, place: u32)
    requires place { place < length units.old }
    requires states { all_states units.old ≤ length board.old }
    ensures units { units.new ≡ units.old }
    ensures board { board.new ≡ measured_of place units.old board.old }
{
    let at = count_states(&units[..place as usize], board);
    let unit = &mut units[place as usize];
    unit.measure_all(board, at);
}
