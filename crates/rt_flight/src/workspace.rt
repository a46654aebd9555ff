//! Where a controller stands while it is updated.

ghost use Rattle.std.specs.Prelude.{◌≡◌, [], ◌∷◌, ◌++◌, ◌<◌, ◌&&◌, if◌then◌else◌, length, IfOk, All};
ghost use Rattle.cm_model.specs.Claims.{number_in};
ghost use Rattle.chain_order.specs.Links.{linked};
ghost use Rattle.cm_slots.specs.Lives.{CanBeStepped};
ghost use Rattle.cm_slots.specs.Connections.{numbers_at, held_at};
ghost use Rattle.cm_slots.specs.Updates.{put_on};
ghost use Rattle.rt_flight.specs.Workspaces.{gathered, is_fitted, step_from, told_of, HasRows, IsConnectedTo};
ghost use Rattle.rt_flight.specs.Calls.Workspaces.{IsMadeFor, TakesStep, CanTellOf, LeavesRoom};

use crate::running::Running;
use cm_document::Mail;
use cm_hardware::ResourceManager;
use cm_model::{Member, Tick};
use cm_places::CtlPlaces;
use cm_storage::{Done, RanRoom};
use ctl_trait::Controller;
use fixed_num::{Fx, Memory, Value};
use std::alloc::Global;
use std::marker::Model;

/// Where a controller stands while it is updated: the number of its load, its place in the description, in how many
/// cycles it is updated once, and its own room for what it reads, for its references and for what it gives out. It
/// stays when the box leaves. The room stands behind one pointer, because a workspace moves to its cell and back in
/// each cycle. Contracts see it as `WorkspaceFacts`.
#[derive(Debug, Drop)]
pub struct Workspace {
    pub(crate) serial: u32,
    pub(crate) place: u32,
    pub(crate) divisor: u32,
    values: Box<Values>,
}

/// What is read for a controller, and what it gives out.
#[derive(Debug, Drop)]
struct Values {
    states: Vec<Fx>,
    references: Vec<Value>,
    outs: Vec<Value>,
}

impl Model for Workspace {
    ghost use Rattle.rt_flight.specs.Workspaces.{WorkspaceFacts};

    ghost Value = { WorkspaceFacts };

    ghost view = { λ s. record {
      serial = s.serial;
      place = s.place;
      divisor = s.divisor;
      states = s.values.value.states.items;
      references = s.values.value.references.items;
      outs = s.values.value.outs.items;
    } };
}

impl Workspace {
    /// The workspace of this controller, which is updated once in so many cycles, with just the room that it needs.
    pub fn make(
        alloc: Global,
        member: Member,
        divisor: u32,
        places: &CtlPlaces,
    ) -> Result<Workspace, Memory>
        requires { HasRows places.now member.place }
        ensures { IfOk result (IsMadeFor member divisor places.now) }
    {
        let place = member.place;
        let values = Values {
            states: vec![in alloc; Fx::ZERO; places.reads(place).len()]?,
            references: vec![in alloc; Value::Unset; places.references(place).len()]?,
            outs: vec![in alloc; Value::Unset; places.claims(place).len()]?,
        };
        Ok(Workspace {
            serial: member.serial,
            place,
            divisor,
            values: Box::new(alloc, values)?,
        })
    }

    /// The same workspace, of a controller that is updated once in so many cycles.
    pub fn timed(self, divisor: u32) -> Workspace
        ensures { result ≡ record self { divisor = divisor } }
    {
        Workspace { divisor, ..self }
    }

    /// The same workspace, of another load of its controller.
    pub fn renumbered(self, serial: u32) -> Workspace
        ensures { result ≡ record self { serial = serial } }
    {
        Workspace { serial, ..self }
    }

    /// Whether it has just the room that its controller needs. What stands in it counts for nothing: it is read anew
    /// before an update.
    pub fn is_fitted(&self, places: &CtlPlaces) -> bool
        requires { HasRows places.now self.now.place }
        ensures { result ≡ is_fitted places.now self.now }
    {
        let read = self.values.states.len() == places.reads(self.place).len();
        let referred = self.values.references.len() == places.references(self.place).len();
        let claimed = self.values.outs.len() == places.claims(self.place).len();
        are_all(read, referred, claimed)
    }

    /// The number of its load.
    pub fn serial(&self) -> u32
        ensures { result ≡ self.now.serial }
    {
        self.serial
    }

    /// Its place in the description.
    pub fn place(&self) -> u32
        ensures { result ≡ self.now.place }
    {
        self.place
    }

    /// The states that the controller reads and its references, as the interfaces hold them now. It takes no memory.
    pub(crate) fn gather(&mut self, places: &CtlPlaces, hardware: &ResourceManager)
        requires { IsConnectedTo places.now (length hardware.now.loans) self.old }
        ensures { self.new ≡ gathered places.now hardware.now.loans self.old }
    {
        let values = &mut *self.values;
        read_numbers(hardware, places.reads(self.place), &mut values.states);
        read_values(
            hardware,
            places.references(self.place),
            &mut values.references,
        );
    }

    /// The controller takes its mail and is updated from what was read; what it gives out stands here, unless it
    /// failed. It takes no memory.
    pub(crate) fn step<C: Controller>(
        &mut self,
        running: &mut Running<C>,
        tick: Tick,
        mail: Option<Mail>,
    ) -> Done
        requires { CanBeStepped running.old tick (length self.old.states) (length self.old.references)
            (length self.old.outs) mail }
        ensures workspace { self.new ≡ record self.old { outs = self.new.outs } }
        ensures step { TakesStep (step_from running.old tick self.old mail) running.old.kind self.old.states
            self.old.outs self.new.outs running.new result }
    {
        let values = &mut *self.values;
        running.update(
            tick,
            values.states.as_slice(),
            values.references.as_slice(),
            mail,
            values.outs.as_mut_slice(),
        )
    }

    /// The claims of the controller hold what stands here; after an error they hold what they held. It takes no memory.
    pub(crate) fn give_out(&self, places: &CtlPlaces, hardware: &mut ResourceManager, done: Done)
        requires { IsConnectedTo places.now (length hardware.old.loans) self.now }
        ensures put { hardware.new ≡ record hardware.old {
          loans = elim done [
            | Done.Ok ↦ put_on hardware.old.loans (linked places.now.claims self.now.place) self.now.outs
            | Done.Error ↦ hardware.old.loans
          ];
        } }
        ensures places { length hardware.new.loans ≡ length hardware.old.loans }
    {
        match done {
            Done::Ok => {
                let outs = self.values.outs.as_slice();
                put_all(hardware, places.claims(self.place), outs);
            }
            Done::Error => {}
        }
    }

    /// The update is told of, with what it gave out, unless it failed, and with what was read, where the controller
    /// publishes that.
    pub(crate) fn tell(&self, publishes: bool, done: Done, ran: &mut RanRoom)
        requires { CanTellOf self.now publishes ran.old }
        ensures rans { ran.new.rans ≡ ran.old.rans ++ told_of self.now publishes done ∷ [] }
        ensures left { LeavesRoom (length self.now.outs) (if publishes then length self.now.states else 0)
            ran.old ran.new }
    {
        let outs = told(done, self.values.outs.as_slice());
        let numbers = published(publishes, self.values.states.as_slice());
        ran.push(self.serial, done, outs, numbers);
    }
}

/// Whether all three are so.
fn are_all(one: bool, two: bool, three: bool) -> bool
    ensures { result ≡ ((one && two) && three) }
{
    one && two && three
}

/// The outputs of an update; none after an error.
fn told(done: Done, outs: &[Value]) -> &[Value]
    ensures { result.now ≡ elim done [ Done.Ok ↦ outs.now | Done.Error ↦ [] ] }
{
    match done {
        Done::Ok => outs,
        Done::Error => &[],
    }
}

/// The states that were read, where the controller publishes them.
fn published(publishes: bool, states: &[Fx]) -> &[Fx]
    ensures { result.now ≡ (if publishes then states.now else []) }
{
    if publishes { states } else { &[] }
}

/// The claims hold the outputs, one for each.
fn put_all(hardware: &mut ResourceManager, claims: &[u32], outs: &[Value])
    requires there { All (λ place. place < length hardware.old.loans) claims.now }
    requires each { length outs.now ≡ length claims.now }
    ensures put { hardware.new ≡ record hardware.old { loans = put_on hardware.old.loans claims.now outs.now } }
    ensures places { length hardware.new.loans ≡ length hardware.old.loans }
{
    for i in 0..claims.len() {
        hardware.set(claims[i], outs[i]);
    }
}

/// The numbers that the interfaces at these places hold.
fn read_numbers(hardware: &ResourceManager, places: &[u32], states: &mut [Fx])
    requires there { All (λ place. place < length hardware.now.loans) places.now }
    requires room { length states.old ≡ length places.now }
    ensures { states.new ≡ numbers_at hardware.now.loans places.now }
{
    for i in 0..places.len() {
        states[i] = number_in(hardware.value(places[i]));
    }
}

/// What the interfaces at these places hold.
fn read_values(hardware: &ResourceManager, places: &[u32], values: &mut [Value])
    requires there { All (λ place. place < length hardware.now.loans) places.now }
    requires room { length values.old ≡ length places.now }
    ensures { values.new ≡ held_at hardware.now.loans places.now }
{
    for i in 0..places.len() {
        values[i] = hardware.value(places[i]);
    }
}

/// The number that a value is; Unset stands for 0.
fn number_in(value: Value) -> Fx
    ensures { result ≡ number_in value }
{
    match value {
        Value::Unset => Fx::ZERO,
        Value::Num(number) => number,
    }
}
