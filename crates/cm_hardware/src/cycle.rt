//! The cycle of a resource manager: its reads, what the interfaces hold in it, and its end.

ghost use Rattle.std.specs.Prelude.{◌≡◌, ◌+◌, ◌<◌, ◌≤◌, ◌++◌, length};
ghost use Rattle.cm_model.specs.Cycle.{period};
ghost use Rattle.cm_model.specs.State.{State};
ghost use Rattle.loan_board.specs.Loans.{loan_at, with_loan, set};
ghost use Rattle.cm_hardware.specs.Wiring.{most_failures, writes_to_fail, all_joints};
ghost use Rattle.cm_hardware.specs.Wiring.{after_reads_in, failed_reads, IsSameBuild};
ghost use Rattle.cm_hardware.specs.Holding.{IsHardwareOf, IsStill, ReadInCycle, RanCycle};
ghost use Rattle.cm_hardware.specs.Calls.Cycles.{CanCycle, Finishes, HasRun};

use crate::hardware::{
    count_joints, fail_units, most_failures, read_units, step_units, write_units,
};
use crate::manager::ResourceManager;
use cm_storage::FailedPart;
use fixed_num::{BodyState, Value};
use joint_body::LONGEST_STEP;
use sequence::ListRoom;

impl ResourceManager {
    /// How many failures a cycle can tell: one of each component that can fail.
    pub fn most_failures(&self) -> usize
        ensures { result ≡ most_failures self.now.components }
    {
        most_failures(&self.units)
    }

    /// How many joints its components have: a cycle tells of the body of each.
    pub fn joints(&self) -> usize
        ensures { result ≡ all_joints self.now.components }
    {
        count_joints(&self.units)
    }
}

// A cycle in its parts: the reads, then what controllers give out, then the end. No call takes memory.
impl ResourceManager {
    /// The reads of the cycle of this number: every inactive or active component is read, and its state interfaces hold
    /// what its bodies measure where the read did not fail. It tells of the failures.
    pub fn read(&mut self, number: u64, failed: &mut ListRoom<FailedPart>)
        requires { most_failures self.old.components ≤ failed.old.room }
        ensures read { (s : State) → IsHardwareOf s self.old → s.ended ≡ number
            → ReadInCycle s self.new failed.old.items failed.new.items }
        ensures left { writes_to_fail number self.new.components ≤ failed.new.room }
        ensures build { IsSameBuild self.old self.new }
    {
        self.read_all(number, failed);
    }

    /// What the interface at this place holds in the cycle.
    pub fn value(&self, place: u32) -> Value
        requires { place < length self.now.loans }
        ensures { result ≡ (loan_at self.now.loans place).value }
    {
        self.board.get(place)
    }

    /// The interface at this place holds this value from now on: an output of a controller that claims it.
    pub fn set(&mut self, place: u32, value: Value)
        requires { place < length self.old.loans }
        ensures { self.new ≡ record self.old { loans = with_loan self.old.loans place (set value) } }
    {
        self.board.set(place, value);
    }

    /// The end of the cycle of this number: the active components are written whose read did not fail; the body of
    /// every joint steps by `dt_us` microseconds, as the claims on it and what these hold say; those that failed go to
    /// their state on error. It tells of the failures of writes and of the bodies.
    pub fn finish(
        &mut self,
        number: u64,
        dt_us: u32,
        failed: &mut ListRoom<FailedPart>,
        bodies: &mut ListRoom<BodyState>,
    )
        requires time { (1 ≤ dt_us) × (dt_us ≤ LONGEST_STEP) }
        requires failures { writes_to_fail number self.old.components ≤ failed.old.room }
        requires joints { all_joints self.old.components ≤ bodies.old.room }
        ensures { Finishes number dt_us self.old self.new failed.old.items failed.new.items
            bodies.old.items bodies.new.items }
    {
        self.run(number, dt_us, failed, bodies);
    }
}

impl ResourceManager {
    /// One cycle of `dt_us` microseconds while no controller is active: the inactive and active components are read,
    /// and the active ones written whose read did not fail; the body of every joint steps; those that failed go to
    /// their state on error. It tells of the failures and of the bodies, and takes no memory.
    pub fn cycle(
        &mut self,
        number: u64,
        dt_us: u32,
        failed: &mut ListRoom<FailedPart>,
        bodies: &mut ListRoom<BodyState>,
    )
        requires { CanCycle dt_us self.old failed.old bodies.old }
        ensures ran { (s : State) → IsHardwareOf s self.old → IsStill s → s.ended ≡ number
            → period s.description ≡ dt_us
            → RanCycle s self.new failed.old.items failed.new.items bodies.old.items bodies.new.items }
        ensures build { IsSameBuild self.old self.new }
    {
        self.read(number, failed);
        self.finish(number, dt_us, failed, bodies);
    }
}

impl ResourceManager {
    /// The reads, component by component.
    fn read_all(&mut self, number: u64, failed: &mut ListRoom<FailedPart>)
        requires { most_failures self.old.components ≤ failed.old.room }
        ensures hardware { self.new ≡ after_reads_in number self.old }
        ensures failed { failed.new.items ≡ failed.old.items ++ failed_reads number 0 self.old.components }
        ensures left { writes_to_fail number self.new.components ≤ failed.new.room }
    {
        let units = self.units.as_mut_slice();
        read_units(units, &mut self.board, number, failed);
    }

    /// The end of a cycle, component by component.
    fn run(
        &mut self,
        number: u64,
        dt_us: u32,
        failed: &mut ListRoom<FailedPart>,
        bodies: &mut ListRoom<BodyState>,
    )
        requires time { (1 ≤ dt_us) × (dt_us ≤ LONGEST_STEP) }
        requires failures { writes_to_fail number self.old.components ≤ failed.old.room }
        requires joints { all_joints self.old.components ≤ bodies.old.room }
        ensures { HasRun number dt_us self.old self.new failed.old.items failed.new.items
            bodies.old.items bodies.new.items }
    {
        let units = self.units.as_mut_slice();
        write_units(units, &self.board, self.first_command, number, failed);
        step_units(units, dt_us, bodies);
        fail_units(units, &mut self.board, &self.places);
    }
}
