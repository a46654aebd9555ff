//! The hardware at work: the components of a robot, and the board on which their interfaces stand.

ghost use Rattle.std.specs.Prelude.{◌≡◌, ◌+◌, ◌<◌, ◌≤◌, ◌^◌, ◌++◌, if◌then◌else◌, false, length, map};
ghost use Rattle.std.specs.List.{list_any};
ghost use Rattle.cm_model.specs.Components.{is_available, measured_states};
ghost use Rattle.loan_board.specs.Loans.{with_loan};
ghost use Rattle.cm_hardware.specs.Calls.Cycles.{CanRead, HasRead, CanWrite, CanStep, CanStepEach};
ghost use Rattle.cm_hardware.specs.Wiring.{read, states_count, with_values, after_read_of, failure, commands_count};
ghost use Rattle.cm_hardware.specs.Wiring.{all_written, failed_writes, values_at, fails_write, one_if, can_fail};
ghost use Rattle.cm_hardware.specs.Wiring.{most_failures, written, stepped_on, all_joints, all_bodies, AreFew};
ghost use Rattle.cm_hardware.specs.Wiring.{vacated, leaves, has_left, after_failure, after_failures_of};

use cm_document::{CompDesc, Life};
use cm_storage::{Done, FailedPart};
use fixed_num::{BodyState, Value};
use hw_component::Component;
use loan_board::Board;
use sequence::ListRoom;
use std::marker::Model;

/// A component, with a place for each of its interfaces for what is read and what is written.
#[derive(Debug, Drop)]
pub(crate) struct Unit {
    pub(crate) component: Component,
    pub(crate) states: Vec<Value>,
    pub(crate) commands: Vec<Value>,
    /// Room for the numbers of those command interfaces that are claimed.
    pub(crate) claims: Vec<u32>,
    pub(crate) failed: bool,
}

impl Model for Unit {
    ghost use Rattle.cm_hardware.specs.Wiring.{Mounted};

    ghost Value = { Mounted };

    ghost use Rattle.std.specs.Prelude.{◌≡◌, ◌≤◌, length, vec_capacity};
    ghost use Rattle.cm_model.specs.Components.{state_interfaces, command_interfaces};

    ghost view = { λ u. record { hardware = u.component; failed = u.failed } };

    ghost invariant = { λ u. (length u.states.items ≡ length (state_interfaces u.component.description))
        × ((length u.commands.items ≡ length (command_interfaces u.component.description))
        × (length u.commands.items ≤ vec_capacity u.claims)) };
}

impl Unit {
    /// How many state interfaces it has.
    pub(crate) fn states_count(&self) -> usize
        ensures { result ≡ states_count self.now }
    {
        self.states.len()
    }

    /// The state interfaces of the component, the first of which has this place, hold what they measure.
    pub(crate) fn measure_all(&mut self, board: &mut Board, at: u32)
        requires { at + states_count self.old ≤ length board.old }
        ensures unit { self.new ≡ self.old }
        ensures board { board.new
            ≡ with_values board.old at (measured_states self.old.hardware.description self.old.hardware.bodies) }
        ensures places { length board.new ≡ length board.old }
    {
        self.component.measure(&mut self.states);
        set_places(board, at, &self.states);
    }

    /// Reads the component, where it is inactive or active, into its places of the board, the first of which is `at`.
    fn read(&mut self, board: &mut Board, at: u32, cycle: u64)
        requires { at + states_count self.old ≤ length board.old }
        ensures board { board.new ≡ after_read_of cycle at board.old self.old.hardware }
        ensures unit { self.new ≡ read cycle self.old }
        ensures places { length board.new ≡ length board.old }
    {
        match self.component.life() {
            Life::Inactive | Life::Active => {}
            _ => {
                self.failed = false;
                return;
            }
        }
        match self.component.read(cycle, &mut self.states) {
            Done::Ok => {
                set_places(board, at, &self.states);
                self.failed = false;
            }
            Done::Error => self.failed = true,
        }
    }
}

impl Unit {
    /// How many command interfaces it has.
    pub(crate) fn commands_count(&self) -> usize
        ensures { result ≡ commands_count self.now }
    {
        self.commands.len()
    }

    /// Writes the component, where it is active and its read did not fail, from its places of the board, the first of
    /// which is `at`. Tells whether the write failed.
    fn write(&mut self, board: &Board, at: u32, cycle: u64) -> bool
        requires { at + commands_count self.old ≤ length board.now }
        ensures unit { self.new ≡ written cycle at board.now self.old }
        ensures failed { result ≡ fails_write cycle self.old }
    {
        if self.failed || self.component.life() != Life::Active {
            return false;
        }
        take_places(&mut self.commands, board, at);
        match self.component.write(cycle, &self.commands) {
            Done::Ok => false,
            Done::Error => {
                self.failed = true;
                true
            }
        }
    }

    /// Steps the bodies of its joints, and tells of them.
    fn step(&mut self, dt_us: u32, bodies: &mut ListRoom<BodyState>)
        requires { CanStep dt_us self.old bodies.old }
        ensures unit { self.new ≡ stepped_on dt_us self.old }
        ensures bodies { bodies.new.items ≡ bodies.old.items ++ self.new.hardware.bodies }
        ensures room { bodies.old.room ≤ bodies.new.room + length self.old.hardware.description.joints }
    {
        self.component.step(dt_us);
        tell_bodies(&self.component, bodies);
    }
}

/// Tells of the bodies of a component's joints.
fn tell_bodies(component: &Component, bodies: &mut ListRoom<BodyState>)
    requires few { length component.now.description.joints < 2 ^ 32 }
    requires room { length component.now.description.joints ≤ bodies.old.room }
    ensures items { bodies.new.items ≡ bodies.old.items ++ component.now.bodies }
    ensures room { bodies.old.room ≤ bodies.new.room + length component.now.description.joints }
{
    component.life();
    for joint in 0..component.description().joints.as_slice().len() {
        bodies.push(component.body(joint as u32));
    }
}

/// Sets these to what the places of a board from `at` on hold.
fn take_places(values: &mut [Value], board: &Board, at: u32)
    requires { at + length values.old ≤ length board.now }
    ensures { values.new ≡ values_at board.now at (length values.old) }
{
    board.len();
    for (place, value) in values.iter_mut().enumerate() {
        *value = board.get(at + place as u32);
    }
}

/// Sets the places of a board from `at` on to these values.
fn set_places(board: &mut Board, at: u32, values: &[Value])
    requires { at + length values.now ≤ length board.old }
    ensures board { board.new ≡ with_values board.old at values.now }
    ensures places { length board.new ≡ length board.old }
{
    board.len();
    for (place, value) in values.iter().enumerate() {
        board.set(at + place as u32, *value);
    }
}

/// Reads every component that is inactive or active, as described, and tells which reads failed.
pub(crate) fn read_units(
    units: &mut [Unit],
    board: &mut Board,
    cycle: u64,
    failed: &mut ListRoom<FailedPart>,
)
    requires { CanRead cycle units.old board.old failed.old }
    ensures { HasRead cycle units.old units.new board.old board.new failed.old failed.new }
{
    board.len();
    let mut at = 0u32;
    for (place, unit) in units.iter_mut().enumerate() {
        unit.read(board, at, cycle);
        tell(failed, place as u32, true, unit.failed);
        at += unit.states_count() as u32;
    }
}

/// Writes every component that is active and whose read did not fail, as described, and tells which writes failed. The
/// first command interface has the place `first`.
pub(crate) fn write_units(
    units: &mut [Unit],
    board: &Board,
    first: u32,
    cycle: u64,
    failed: &mut ListRoom<FailedPart>,
)
    requires { CanWrite cycle first units.old board.now failed.old }
    ensures units { units.new ≡ all_written cycle first board.now units.old }
    ensures failed { failed.new.items ≡ failed.old.items ++ failed_writes cycle 0 units.old }
{
    board.len();
    let mut at = first;
    for (place, unit) in units.iter_mut().enumerate() {
        let count = unit.commands_count() as u32;
        let has_failed = unit.write(board, at, cycle);
        tell(failed, place as u32, false, has_failed);
        at += count;
    }
}

/// Tells of a component that its read failed, or else its write, where one did.
fn tell(failed: &mut ListRoom<FailedPart>, place: u32, reading: bool, has_failed: bool)
    requires { one_if has_failed ≤ failed.old.room }
    ensures items { failed.new.items ≡ failed.old.items ++ failure place reading has_failed }
    ensures room { failed.old.room ≡ failed.new.room + one_if has_failed }
{
    if has_failed {
        failed.push(FailedPart { place, reading });
    }
}

/// Steps the bodies of every component, and tells of them, as described.
pub(crate) fn step_units(units: &mut [Unit], dt_us: u32, bodies: &mut ListRoom<BodyState>)
    requires { CanStepEach dt_us units.old bodies.old }
    ensures units { units.new ≡ map (stepped_on dt_us) units.old }
    ensures bodies { bodies.new.items ≡ bodies.old.items ++ all_bodies (map (stepped_on dt_us) units.old) }
{
    for unit in units.iter_mut() {
        unit.step(dt_us, bodies);
    }
}

impl Unit {
    /// Whether it failed, and its interfaces are not available in its state on error.
    fn leaves(&self) -> bool
        ensures { result ≡ leaves self.now }
    {
        self.failed && !is_available(self.component.description().on_error)
    }

    /// Where its read or its write failed, the component goes to its state on error.
    fn fail(&mut self)
        ensures { self.new ≡ after_failure self.old }
    {
        if !self.failed {
            return;
        }
        let target = self.component.description().on_error;
        let _moved = self.component.to_state(target);
        self.failed = false;
    }
}

/// Whether interfaces of a component are available in this state.
pub(crate) fn is_available(life: Life) -> bool
    ensures { result ≡ is_available life }
{
    matches!(life, Life::Inactive | Life::Active)
}

/// Whether the component of this place leaves, where it is a component's.
fn has_left(units: &[Unit], component: Option<u32>) -> bool
    ensures { result ≡ has_left units.now component }
{
    let Some(place) = component else {
        return false;
    };
    match units.get(place as usize) {
        Some(unit) => unit.leaves(),
        None => false,
    }
}

/// The place becomes free, unavailable and Unset.
#[tactic(auto, using(crate::proofs::SoundLemmas::vacating))]
pub(crate) fn vacate(board: &mut Board, place: u32)
    requires { place < length board.old }
    ensures board { board.new ≡ with_loan board.old place vacated }
    ensures places { length board.new ≡ length board.old }
{
    match board.owner(place) {
        Some(_serial) => {
            board.release(place);
            board.set_available(place, false);
        }
        None => board.set_available(place, false),
    }
}

/// The place becomes free, unavailable and Unset, where its component left.
fn leave(board: &mut Board, place: u32, has_left: bool)
    requires { place < length board.old }
    ensures board { board.new ≡ (if has_left then with_loan board.old place vacated else board.old) }
    ensures places { length board.new ≡ length board.old }
{
    if has_left {
        vacate(board, place);
    }
}

/// The interfaces of components that leave become free, unavailable and Unset. The component of each place is told.
fn leave_places(board: &mut Board, places: &[Option<u32>], units: &[Unit])
    requires { length places.now ≤ length board.old }
    ensures board { board.new ≡ after_failures_of units.now 0 places.now board.old }
    ensures places { length board.new ≡ length board.old }
{
    board.len();
    for (place, component) in places.iter().enumerate() {
        leave(board, place as u32, has_left(units, *component));
    }
}

/// Whether one of these failed.
fn any_failed(units: &[Unit]) -> bool
    ensures { result ≡ list_any (λ m. m.failed) units.now }
{
    units.iter().any(|unit| unit.failed)
}

/// Each goes to its state on error, where it failed.
fn fail_each(units: &mut [Unit])
    ensures { units.new ≡ map after_failure units.old }
{
    for unit in units.iter_mut() {
        unit.fail();
    }
}

/// Every component that failed goes to its state on error, and its interfaces become free, unavailable and Unset where
/// they are not available in that state.
#[tactic(auto, using(crate::proofs::SoundLemmas::none_failed))]
pub(crate) fn fail_units(units: &mut [Unit], board: &mut Board, places: &[Option<u32>])
    requires { length places.now ≤ length board.old }
    ensures units { units.new ≡ map after_failure units.old }
    ensures board { board.new ≡ after_failures_of units.old 0 places.now board.old }
{
    if any_failed(units) {
        leave_places(board, places, units);
        fail_each(units);
    }
}

/// Whether a description lists a cycle in which the component's read or its write fails.
fn can_fail(component: &CompDesc) -> bool
    ensures { result ≡ can_fail component.now }
{
    !component.fail_read.as_slice().is_empty() || !component.fail_write.as_slice().is_empty()
}

/// How many of the components can fail.
pub(crate) fn most_failures(units: &[Unit]) -> usize
    ensures { result ≡ most_failures units.now }
{
    let mut most = 0;
    for unit in units {
        if can_fail(unit.component.description()) {
            most += 1;
        }
    }
    most
}

/// How many joints the components have.
pub(crate) fn count_joints(units: &[Unit]) -> usize
    requires few { length units.now < 2 ^ 32 }
    requires joints { AreFew units.now }
    ensures { result ≡ all_joints units.now }
{
    let mut joints = 0;
    for unit in units {
        joints += unit.component.description().joints.as_slice().len();
    }
    joints
}
