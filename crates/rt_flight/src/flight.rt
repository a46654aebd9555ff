//! The flight: one cycle that has left the desk.

ghost use Rattle.std.specs.Prelude.{◌≡◌, [], true, false, None, Some, is_some, vec_capacity, IfSome, IsSomeAnd};
ghost use Rattle.std.specs.Borrow.{sem};
ghost use Rattle.std.specs.List.{AllByRecursion};
ghost use Rattle.cm_model.specs.State.{State};
ghost use Rattle.rt_flight.specs.Calls.Parts.{IsStarted, CanGather, Waits, CanComplete, HaveMadeSteps};
ghost use Rattle.rt_flight.specs.Calls.Parts.{HasStarted, HasGathered, HasScattered, HadTurns, waiting_of};
ghost use Rattle.rt_flight.specs.Cells.{CanMakeStep};
ghost use Rattle.rt_flight.specs.Depths.{depths_of};
ghost use Rattle.rt_flight.specs.Flights.{IsEquipped, IsReady, IsAloft, IsComputed, ComesHome, MayBeComputed};
ghost use Rattle.rt_flight.specs.Progress.{Progress};
ghost use Rattle.rt_flight.specs.UnderWay.{IsUnderWay};

use crate::cell::Cell;
use crate::compute::{begin_turns, end_turns, gather_these, scatter_these};
use crate::context::CycleContext;
use crate::depths::count_at;
use crate::steps::step_in_turn;
use cm_storage::CycleRecord;
use ctl_trait::Controller;
use std::marker::Model;
use std::snapshot::Snapshot;

/// What a flight takes along: the number of its cycle, the cells of the running controllers in the order of updates,
/// and what they work on, with room to tell of it.
#[derive(Drop)]
pub struct Payload<C: Controller> {
    /// The number of the cycle.
    pub number: u64,
    /// The running controllers, in the order of updates.
    pub cells: Vec<Cell<C>>,
    /// What works in the cycle, with who runs, and room to tell of it. Of what it has to tell of an earlier one
    /// nothing is kept.
    pub context: Box<CycleContext>,
}

/// What a flight that is computed brings home.
#[derive(Drop)]
pub struct Landing<C: Controller> {
    /// The running controllers.
    pub cells: Vec<Cell<C>>,
    /// What worked in the cycle, and who ran.
    pub context: Box<CycleContext>,
    /// The record of the cycle.
    pub record: CycleRecord,
}

/// How far a flight is. What it was at moments before is told to contracts alone and takes no room.
#[derive(Drop)]
struct Stage<C: Controller> {
    started: bool,
    /// How many depths there are.
    depths: u32,
    /// How many of these gave out.
    scattered: u32,
    /// Whether the cells of the next one have read and wait to give out.
    gathered: bool,
    /// How many cells had their turns.
    turned: usize,
    /// How many wait.
    waiting: usize,
    begun: Snapshot<Vec<Cell<C>>>,
    read: Snapshot<CycleContext>,
    left: Snapshot<Vec<Cell<C>>>,
}

/// One cycle that has left the desk. It owns all that it works on and borrows nothing, so it is computed wherever it is
/// moved to. Who drops it, or takes it apart, has nothing that lands: the desk then stays aloft. Contracts see it as
/// `FlightFacts`.
#[derive(Drop)]
pub struct Flight<C: Controller> {
    number: u64,
    cells: Vec<Cell<C>>,
    context: Box<CycleContext>,
    stage: Stage<C>,
}

impl<C: Controller> Model for Flight<C> {
    ghost use Rattle.rt_flight.specs.Flights.{FlightFacts, facts_with};
    ghost use Rattle.rt_flight.specs.Progress.{Progress, shown};
    ghost use Rattle.rt_flight.specs.UnderWay.{IsFlight};

    ghost Value = { FlightFacts };

    ghost view = { λ f. facts_with f.number f.cells.items f.context.value (shown f.stage.started (record {
      depths = f.stage.depths;
      scattered = f.stage.scattered;
      gathered = f.stage.gathered;
      turned = f.stage.turned;
      waiting = f.stage.waiting;
      begun = f.stage.begun.value.items;
      read = f.stage.read.value;
      left = f.stage.left.value.items;
    })) };

    ghost invariant = { λ f. IsFlight f.number f.cells.items f.context.value f.stage.started (record {
      depths = f.stage.depths;
      scattered = f.stage.scattered;
      gathered = f.stage.gathered;
      turned = f.stage.turned;
      waiting = f.stage.waiting;
      begun = f.stage.begun.value.items;
      read = f.stage.read.value;
      left = f.stage.left.value.items;
    }) };
}

impl<C: Controller> Flight<C> {
    /// A flight with this payload. It takes no memory.
    pub fn take_off(payload: Payload<C>) -> Flight<C>
        requires equipped { IsEquipped payload.cells.items payload.context.value.order.items payload.context.value.robot
            payload.context.value.ending payload.context.value.lists (vec_capacity payload.context.value.erred) }
        requires none_erred { payload.context.value.erred.items ≡ [] }
        requires ready { IsSomeAnd payload.context.value.room
            (IsReady payload.number payload.cells.items payload.context.value.order.items payload.context.value.robot) }
        ensures { result ≡ record {
          number = payload.number;
          cells = payload.cells.items;
          robot = payload.context.value.robot;
          ending = payload.context.value.ending;
          lists = payload.context.value.lists;
          has_failed = false;
          erred = [];
          progress = None;
          outcome = None;
        } }
    {
        let Payload {
            number,
            cells,
            mut context,
        } = payload;
        context.has_failed = false;
        context.record = None;
        let stage = not_started(&cells, &context);
        Flight {
            number,
            cells,
            context,
            stage,
        }
    }

    /// The number of its cycle.
    pub fn cycle(&self) -> u64
        ensures { result ≡ self.now.number }
    {
        self.number
    }

    /// Whether it is computed.
    pub fn computed(&self) -> bool
        ensures { result ≡ is_some self.now.outcome }
    {
        self.context.record.is_some()
    }

    /// Whether it was started.
    pub fn started(&self) -> bool
        ensures started { result ≡ is_some self.now.progress }
        ensures fresh { result ≡ false → MayBeComputed self.now }
    {
        self.stage.started
    }

    /// The cycle is made, of what the flight owns, by the caller's thread alone. It takes no memory.
    pub fn compute(&mut self)
        requires { self.old.progress ≡ None }
        ensures cycle { (s : State) → IsAloft s self.old → IsComputed s self.new }
        ensures computed { is_some self.new.outcome ≡ true }
        ensures number { self.new.number ≡ self.old.number }
    {
        self.start();
        let depths = self.layers();
        for depth in 0..depths {
            self.update(depth);
        }
        self.complete();
    }

    /// The controllers of this depth are updated, one after the other.
    fn update(&mut self, depth: u32)
        requires { CanGather depth self.old }
        ensures { (p : Progress) → self.old.progress ≡ Some p → HadTurns p self.old self.new }
    {
        self.gather(depth);
        step_in_turn(self.cells(depth));
        self.scatter(depth);
    }

    /// What happened in the cycle.
    pub fn outcome(&self) -> &CycleRecord
        requires { is_some self.now.outcome ≡ true }
        ensures { self.now.outcome ≡ Some result.now }
    {
        match &self.context.record {
            Some(record) => record,
            None => unreachable!(),
        }
    }

    /// It comes home, with all that it took along and the record of its cycle. It takes no memory.
    pub fn come_home(self) -> Landing<C>
        requires { is_some self.outcome ≡ true }
        ensures { ComesHome self result.cells.items result.context.value result.record }
    {
        let Flight {
            cells,
            mut context,
            ..
        } = self;
        let Some(record) = context.record.take() else {
            unreachable!();
        };
        Landing {
            cells,
            context,
            record,
        }
    }
}

/// The parts of a cycle, for callers that share the steps of a depth among workers: it is started; each depth, from 0
/// on, is gathered, its cells make their steps, and it is scattered; and then the cycle is completed. None of these
/// takes memory.
impl<C: Controller> Flight<C> {
    ghost use Rattle.rt_flight.specs.Lending.{lends_cells};

    /// The cycle begins: the components are read.
    pub fn start(&mut self)
        requires { self.old.progress ≡ None }
        ensures under_way { (s : State) → IsAloft s self.old → IsUnderWay s self.new }
        ensures starts { HasStarted self.old self.new }
    {
        let context = &mut *self.context;
        let depths = begin_turns(self.number, self.cells.as_mut_slice(), context);
        self.stage = Stage {
            started: true,
            depths,
            scattered: 0,
            gathered: false,
            turned: 0,
            waiting: 0,
            begun: Snapshot::of(&self.cells),
            read: Snapshot::of(&*self.context),
            left: Snapshot::of(&self.cells),
        };
    }

    /// How many depths there are: one more than the greatest depth of a running controller, and 0 if none runs.
    pub fn layers(&self) -> u32
        requires { IsStarted self.now }
        ensures { IfSome self.now.progress (λ p. result ≡ depths_of p.begun × result ≡ p.depths) }
    {
        self.stage.depths
    }

    /// The cells of this depth read their states and references. From then on they can make their steps.
    pub fn gather(&mut self, depth: u32)
        requires { CanGather depth self.old }
        ensures { (p : Progress) → self.old.progress ≡ Some p → HasGathered depth p self.old self.new }
    {
        let first = self.stage.turned;
        let count = count_at(&self.cells[first..], depth);
        gather_these(
            self.number,
            self.cells.slice_mut(first..first + count),
            &self.context,
        );
        self.stage.gathered = true;
        self.stage.waiting = count;
        self.stage.left = Snapshot::of(&self.cells);
    }

    /// The cells of this depth, which was gathered, in the order of updates.
    pub fn cells(&mut self, depth: u32) -> &mut [Cell<C>]
        requires { Waits depth self.old }
        ensures value { IfSome self.old.progress (λ p. result.now ≡ waiting_of p self.old.cells) }
        ensures steps { IfSome self.old.progress
            (λ p. self.old.cells ≡ p.left → AllByRecursion CanMakeStep (waiting_of p self.old.cells)) }
        ensures* writes_back { sem 𝓛 (lends_cells C.row C.Controller self.entry result) }
    {
        let first = self.stage.turned;
        let end = first + self.stage.waiting;
        self.cells.slice_mut(first..end)
    }

    /// What the steps of this depth came to stands in the claims of its controllers. Its cells are those that were
    /// gathered, each of which made its step once.
    pub fn scatter(&mut self, depth: u32)
        requires waits { Waits depth self.old }
        requires stepped { IfSome self.old.progress (λ p. HaveMadeSteps p self.old.cells) }
        ensures { (p : Progress) → self.old.progress ≡ Some p → HasScattered p self.old self.new }
    {
        let first = self.stage.turned;
        let end = first + self.stage.waiting;
        let context = &mut *self.context;
        scatter_these(self.cells.slice_mut(first..end), context);
        self.stage.scattered = depth + 1;
        self.stage.gathered = false;
        self.stage.turned = end;
        self.stage.waiting = 0;
        self.stage.left = Snapshot::of(&self.cells);
    }

    /// The cycle ends: the components are written, the bodies step, and it is told what happened. The flight is
    /// computed then.
    pub fn complete(&mut self)
        requires { CanComplete self.old }
        ensures cycle { (s : State) → IsUnderWay s self.old → IsComputed s self.new }
        ensures computed { is_some self.new.outcome ≡ true }
        ensures number { self.new.number ≡ self.old.number }
    {
        let context = &mut *self.context;
        end_turns(self.number, self.cells.as_slice(), context);
    }
}

/// How far a flight with these cells and this context is before its start.
fn not_started<C: Controller>(cells: &Vec<Cell<C>>, context: &CycleContext) -> Stage<C>
    ensures { result.started ≡ false }
{
    Stage {
        started: false,
        depths: 0,
        scattered: 0,
        gathered: false,
        turned: 0,
        waiting: 0,
        begun: Snapshot::of(cells),
        read: Snapshot::of(context),
        left: Snapshot::of(cells),
    }
}
