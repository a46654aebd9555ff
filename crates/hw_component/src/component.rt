//! The component and its calls.

ghost use Rattle.std.specs.Prelude.{◌≡◌, ◌<◌, ◌≤◌, ◌&&◌, true, length, slice_get, Some, None};
ghost use Rattle.cm_model.specs.Components.{write_runs, ends, state_interfaces};
ghost use Rattle.cm_model.specs.Components.{command_interfaces, measured_states, mode_fault};
ghost use Rattle.hw_component.specs.Calls.Reads.{CanRead};
ghost use Rattle.hw_component.specs.Hardware.{IsHardware, Prepares, after_read, after_write};
ghost use Rattle.hw_component.specs.Hardware.{after_step, with_claims, moves, after_move};

use crate::claims::{claim_joints, is_contested};
use crate::faults::{HwFault, ModeFault};
use crate::joints::{measure, step_bodies};
use cm_document::{CompDesc, Life};
use cm_model::JointInterface;
use cm_storage::Done;
use fixed_num::{BodyState, Value};
use joint_body::{Body, LONGEST_STEP};
use std::marker::Model;

/// A hardware component, simulated. Its joints and its interfaces are counted from 0 within it, joint by joint as
/// described. Contracts see what it is at one moment (`Hardware`). No call but `make` takes memory.
#[derive(Debug, Drop)]
pub struct Component {
    pub(crate) description: CompDesc,
    pub(crate) life: Life,
    pub(crate) bodies: Vec<Body>,
    /// Which of the command interfaces is claimed on each joint.
    pub(crate) claimed: Vec<Option<u32>>,
    pub(crate) states: Vec<JointInterface>,
    pub(crate) commands: Vec<JointInterface>,
    /// What the command interfaces held when the component was written last.
    pub(crate) applied: Vec<Value>,
    /// Whether it was written since the last step.
    pub(crate) written: bool,
}

impl Model for Component {
    ghost use Rattle.hw_component.specs.Hardware.{Hardware};

    ghost Value = { Hardware };

    ghost use Rattle.hw_component.specs.Kept.{hardware_of, IsKept};

    ghost view = { hardware_of };

    ghost invariant = { IsKept };
}

impl Component {
    /// Its lifecycle state.
    pub fn life(&self) -> Life
        ensures life { result ≡ self.now.life }
        ensures whole { IsHardware self.now }
    {
        self.life
    }

    /// What is described of it.
    pub fn description(&self) -> &CompDesc
        ensures { result.now ≡ self.now.description }
    {
        &self.description
    }

    /// Its state interfaces, each at its number: a place for each is what a read sets.
    pub fn state_interfaces(&self) -> &[JointInterface]
        ensures { result.now ≡ state_interfaces self.now.description }
    {
        self.states.as_slice()
    }

    /// Its command interfaces, each at its number: a value for each is what a write takes, and a claim is such a
    /// number.
    pub fn command_interfaces(&self) -> &[JointInterface]
        ensures { result.now ≡ command_interfaces self.now.description }
    {
        self.commands.as_slice()
    }

    /// The body of a joint.
    pub fn body(&self, joint: u32) -> BodyState
        requires { joint < length self.now.description.joints }
        ensures { slice_get self.now.bodies joint ≡ Some result }
    {
        self.bodies[joint as usize].state()
    }

    /// Sets the places of its state interfaces, in their order, to what its bodies measure at the moment, whatever its
    /// lifecycle state is.
    pub fn measure(&self, states: &mut [Value])
        requires { length states.old ≡ length (state_interfaces self.now.description) }
        ensures { states.new ≡ measured_states self.now.description self.now.bodies }
    {
        measure(states, self.states.as_slice(), self.bodies.as_slice());
    }

    /// Reads the component in a cycle: sets the places of its state interfaces, in their order, to what its bodies
    /// measure. A read that fails leaves them.
    pub fn read(&mut self, cycle: u64, states: &mut [Value]) -> Done
        requires { CanRead self.old states.old }
        ensures done { result ≡ ends self.old.description.fail_read cycle }
        ensures states { states.new ≡ after_read self.old cycle states.old }
        ensures kept { self.new ≡ self.old }
    {
        if self.description.fail_read.has(cycle) {
            return Done::Error;
        }
        self.measure(states);
        Done::Ok
    }

    /// Writes the component in a cycle: it takes what its command interfaces hold, in their order, for its next step. A
    /// write that fails changes nothing.
    pub fn write(&mut self, cycle: u64, commands: &[Value]) -> Done
        requires runs { write_runs self.old.life ≡ true }
        requires places { length commands.now ≡ length (command_interfaces self.old.description) }
        ensures done { result ≡ ends self.old.description.fail_write cycle }
        ensures state { self.new ≡ after_write self.old cycle commands.now }
    {
        if self.description.fail_write.has(cycle) {
            return Done::Error;
        }
        self.applied.copy_from_slice(commands);
        self.written = true;
        Done::Ok
    }

    /// Steps the body of each joint by `dt_us` microseconds. Where the component is active and was written since the
    /// last step, each goes by its joint's mode and by what the claimed interface held; else nobody commands any.
    pub fn step(&mut self, dt_us: u32)
        requires some_time { 1 ≤ dt_us }
        requires no_longer { dt_us ≤ LONGEST_STEP }
        ensures { self.new ≡ after_step self.old dt_us }
    {
        let is_commanded = is_commanded(self.life, self.written);
        step_bodies(
            &mut self.bodies,
            is_commanded,
            &self.claimed,
            &self.commands,
            &self.applied,
            dt_us,
        );
        self.written = false;
    }

    /// Whether these command interfaces can be claimed together: no two different ones stand on one joint.
    pub fn prepare(&self, claims: &[u32]) -> Result<(), ModeFault>
        ensures { Prepares self.now claims.now result }
    {
        for joint in 0..self.bodies.len() as u32 {
            if is_contested(&self.commands, claims, joint) {
                return Err(ModeFault { joint });
            }
        }
        Ok(())
    }

    /// From now on these command interfaces are claimed, and each joint's mode is the kind of the one that stands on
    /// it, or idle.
    pub fn perform(&mut self, claims: &[u32])
        requires { mode_fault self.old.description claims.now ≡ None }
        ensures { self.new ≡ with_claims self.old claims.now }
    {
        claim_joints(&mut self.claimed, &self.commands, claims);
    }

    /// Moves the component to a lifecycle state. Where it becomes unconfigured or finalized, what it was written last
    /// is forgotten. A finalized component refuses every other state, and stays as it is.
    pub fn to_state(&mut self, target: Life) -> Result<(), HwFault>
        ensures answer { result ≡ moves self.old target }
        ensures state { self.new ≡ after_move self.old target }
    {
        if self.life == Life::Finalized && target != Life::Finalized {
            return Err(HwFault::NoSuchMove);
        }
        if target == Life::Unconfigured || target == Life::Finalized {
            self.applied.fill(Value::Unset);
        }
        self.life = target;
        Ok(())
    }
}

/// Whether the joints of a component are commanded in a step.
fn is_commanded(life: Life, written: bool) -> bool
    ensures { result ≡ (write_runs life && written) }
{
    life == Life::Active && written
}
