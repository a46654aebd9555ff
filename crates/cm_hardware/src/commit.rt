//! A commit: a decided set of controllers is active, and the hardware says so.

ghost use Rattle.std.specs.Prelude.{◌≡◌, ◌+◌, ◌<◌, ◌≤◌, ◌^◌, false, length, vec_capacity};
ghost use Rattle.std.specs.List.{list_any};
ghost use Rattle.std.specs.Option.{option_map_or};
ghost use Rattle.cm_model.specs.Faults.{first_of};
ghost use Rattle.cm_model.specs.Order.{set_of};
ghost use Rattle.loan_board.specs.Loans.{with_loan};
ghost use Rattle.cm_hardware.specs.Calls.Boards.{IsPlaceOf};
ghost use Rattle.cm_hardware.specs.Committed.{Commits, serial_in, is_there, owner_in, is_freed_by};
ghost use Rattle.cm_hardware.specs.Committed.{relent, all_relent, numbers_from, claims_on};
ghost use Rattle.cm_hardware.specs.Committed.{performed, all_performed, with_loans, with_joints};
ghost use Rattle.cm_hardware.specs.Wiring.{all_commands, commands_count, IsSameBuild};

use crate::hardware::Unit;
use crate::manager::ResourceManager;
use chain_order::PlaceSet;
use cm_places::CtlPlaces;
use loan_board::{Board, Loan};

impl ResourceManager {
    /// A commit, told by place of the description: the serial of each controller that is active after it, and which
    /// controllers it stops. References are available where their controllers are active; each active controller has
    /// what it claims; what those that are stopped claim and export becomes Unset; and the joints go by what is
    /// claimed. It takes no memory.
    pub fn commit(&mut self, places: &CtlPlaces, active: &[Option<u32>], stopped: &PlaceSet)
        requires claimers { length self.old.loans ≤ length places.now.claimers }
        requires exporters { length self.old.loans ≤ length places.now.exporters }
        ensures committed { Commits places.now active.now stopped.now self.old self.new }
        ensures build { IsSameBuild self.old self.new }
    {
        self.lend_all(places, active, stopped);
        self.perform_all();
    }

    /// The board, place by place.
    fn lend_all(&mut self, places: &CtlPlaces, active: &[Option<u32>], stopped: &PlaceSet)
        requires claimers { length self.old.loans ≤ length places.now.claimers }
        requires exporters { length self.old.loans ≤ length places.now.exporters }
        ensures { self.new ≡ with_loans places.now active.now stopped.now self.old }
    {
        lend_places(&mut self.board, places, active, stopped);
    }

    /// The joints, component by component.
    fn perform_all(&mut self)
        ensures { self.new ≡ with_joints self.old }
    {
        let units = self.units.as_mut_slice();
        perform_units(units, &self.board, self.first_command);
    }
}

// ---- The board

/// Each place of a board after a commit.
fn lend_places(board: &mut Board, places: &CtlPlaces, active: &[Option<u32>], stopped: &PlaceSet)
    requires claimers { length board.old ≤ length places.now.claimers }
    requires exporters { length board.old ≤ length places.now.exporters }
    ensures board { board.new ≡ all_relent places.now active.now stopped.now board.old }
    ensures places { length board.new ≡ length board.old }
{
    for place in 0..board.len() {
        lend(board, places, active, stopped, place);
    }
}

/// The place of a board after a commit.
#[tactic(auto, using(crate::proofs::CommitKeepLemmas::lending))]
fn lend(
    board: &mut Board,
    places: &CtlPlaces,
    active: &[Option<u32>],
    stopped: &PlaceSet,
    place: u32,
)
    requires { IsPlaceOf place board.old places.now }
    ensures board { board.new ≡ with_loan board.old place (relent places.now active.now stopped.now place) }
    ensures places { length board.new ≡ length board.old }
{
    let loan = board.loans()[place as usize];
    let is_there = is_there(active, places.exporter(place), loan.is_available);
    let owner = owner_in(places.claimers(place), active, loan.is_command && is_there);
    let is_freed = is_freed(places.claimers(place), places.exporter(place), stopped);
    let keeps = is_there && !is_freed;
    board.lend(place, owner, is_there, keeps);
}

/// The serial of the controller at a place, where it is active.
fn serial_in(active: &[Option<u32>], place: u32) -> Option<u32>
    ensures { result ≡ serial_in active.now place }
{
    active.get(place as usize).copied().unwrap_or(None)
}

/// Whether an interface is available: a component's as it was, a reference where the controller that exports it is
/// active.
fn is_there(active: &[Option<u32>], exporter: Option<u32>, was: bool) -> bool
    ensures { result ≡ is_there active.now exporter was }
{
    match exporter {
        Some(place) => serial_in(active, place).is_some(),
        None => was,
    }
}

/// The serial of the first of these controllers that is active, where the interface can be had at all.
fn owner_in(claimers: &[u32], active: &[Option<u32>], can_be_had: bool) -> Option<u32>
    ensures { result ≡ owner_in active.now claimers.now can_be_had }
{
    if can_be_had {
        first_active(claimers, active)
    } else {
        None
    }
}

/// The serial of the first of these controllers that is active.
fn first_active(controllers: &[u32], active: &[Option<u32>]) -> Option<u32>
    ensures { result ≡ first_of (serial_in active.now) controllers.now }
{
    for place in controllers {
        if let Some(serial) = serial_in(active, *place) {
            return Some(serial);
        }
    }
    None
}

/// Whether one that is stopped claims an interface or exports it.
fn is_freed(claimers: &[u32], exporter: Option<u32>, stopped: &PlaceSet) -> bool
    ensures { result ≡ is_freed_by stopped.now claimers.now exporter }
{
    any_of(claimers, stopped) || has(stopped, exporter)
}

/// Whether one of these controllers is a member.
fn any_of(controllers: &[u32], set: &PlaceSet) -> bool
    ensures { result ≡ list_any (set_of set.now) controllers.now }
{
    controllers.iter().any(|place| set.has(*place))
}

/// Whether a controller is a member, where there is one.
fn has(set: &PlaceSet, controller: Option<u32>) -> bool
    ensures { result ≡ option_map_or (set_of set.now) controller false }
{
    match controller {
        Some(place) => set.has(place),
        None => false,
    }
}

// ---- Joints

/// The joints of each component go by what is claimed; the first command interface has the place `first`.
fn perform_units(units: &mut [Unit], board: &Board, first: u32)
    requires { first + all_commands units.old ≤ length board.now }
    ensures { units.new ≡ all_performed board.now first units.old }
{
    board.len();
    let mut at = first;
    for unit in units.iter_mut() {
        let count = unit.commands_count() as u32;
        unit.perform(board, at);
        at += count;
    }
}

impl Unit {
    /// Its joints go by what is claimed of its command interfaces, the first of which has the place `at`.
    fn perform(&mut self, board: &Board, at: u32)
        requires { at + commands_count self.old ≤ length board.now }
        ensures { self.new ≡ performed (claims_on board.now at self.old) self.old }
    {
        board.len();
        let first = at as usize;
        let count = self.commands.len();
        gather(&mut self.claims, &board.loans()[first..first + count]);
        if let Ok(()) = self.component.prepare(&self.claims) {
            self.component.perform(&self.claims);
        }
    }
}

/// The numbers of those that are claimed.
fn gather(claims: &mut Vec<u32>, loans: &[Loan])
    requires few { length loans.now < 2 ^ 32 }
    requires room { length loans.now ≤ vec_capacity claims.old }
    ensures items { claims.new.items ≡ numbers_from 0 loans.now }
    ensures room { vec_capacity claims.old ≤ vec_capacity claims.new }
{
    claims.clear();
    for (number, loan) in loans.iter().enumerate() {
        if loan.owner.is_some() {
            claims.push_reserved(number as u32);
        }
    }
}
