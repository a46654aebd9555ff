//! A running controller in its cell.

ghost use Rattle.std.specs.Prelude.{◌≡◌, [], ◌∷◌, ◌++◌, ◌+◌, ◌<◌, ◌≤◌, ◌==◌, length};
ghost use Rattle.std.specs.Prelude.{vec_len, vec_capacity, None, Some, is_some};
ghost use Rattle.std.specs.List.{list_any};
ghost use Rattle.cm_document.specs.declared.life.Life.TheVariants.{Active};
ghost use Rattle.cm_slots.specs.Lives.{CanBeStepped, IsKept};
ghost use Rattle.cm_slots.specs.Updates.{IsTimely};
ghost use Rattle.rt_flight.specs.Cells.{flying, flying_put, cell_read, cell_run, cell_put, cell_stepped};
ghost use Rattle.rt_flight.specs.Cells.{step_at, post_of, numbers_of, precedes_in, CanFly, CanMakeStep};
ghost use Rattle.rt_flight.specs.Calls.Cells.{CanPut, LeavesPut};
ghost use Rattle.rt_flight.specs.Depths.{places_in, IsFlagged};

use crate::layer::Layer;
use crate::round::Round;
use crate::running::Running;
use crate::workspace::Workspace;
use cm_document::Mail;
use cm_hardware::ResourceManager;
use cm_model::Tick;
use cm_places::CtlPlaces;
use cm_storage::{Done, RanRoom};
use ctl_trait::Controller;
use std::marker::Model;
use switch_plan::Relations;

/// A controller that runs, in its cell: its box, where it stands, and the mail that went aloft for it. Contracts see it
/// as `CellFacts`.
#[derive(Drop)]
pub struct Cell<C: Controller> {
    workspace: Workspace,
    running: Running<C>,
    mail: Option<Mail>,
    /// Its depth among the running controllers, once the flight started.
    depth: u32,
    /// When it is updated in the cycle, once it has read and until its step. Without it, it is not updated.
    turn: Option<Tick>,
    /// How its update went, while that is not told yet.
    done: Option<Done>,
}

impl<C: Controller> Model for Cell<C> {
    ghost use Rattle.rt_flight.specs.Cells.{CellFacts};

    ghost Value = { CellFacts };

    ghost view = { λ c. record {
      workspace = c.workspace;
      ctl = c.running;
      mail = c.mail;
      depth = c.depth;
      turn = c.turn;
      done = c.done;
    } };
}

impl<C: Controller> Cell<C> {
    /// A controller that runs comes to its workspace, with the mail that goes aloft for it. It takes no memory.
    pub fn new(workspace: Workspace, ctl: C, mail: Option<Mail>) -> Cell<C>
        requires { IsKept Active (C.meaning ctl) }
        ensures { result ≡ record {
          workspace = workspace;
          ctl = C.meaning ctl;
          mail = mail;
          depth = 0;
          turn = None;
          done = None;
        } }
    {
        Cell {
            workspace,
            running: Running::new(ctl),
            mail,
            depth: 0,
            turn: None,
            done: None,
        }
    }

    /// The workspace, and the box that leaves it. It takes no memory.
    pub fn leave(self) -> (Workspace, C)
        ensures workspace { result.0 ≡ self.workspace }
        ensures ctl { C.meaning result.1 ≡ self.ctl }
        ensures kept { IsKept Active (C.meaning result.1) }
    {
        (self.workspace, self.running.into_ctl())
    }

    /// Its depth among the running controllers, once the flight started: 0 if none of them precedes it, else one more
    /// than the greatest depth of one that does.
    pub fn depth(&self) -> u32
        ensures { result ≡ self.now.depth }
    {
        self.depth
    }

    /// Its depth is put down.
    pub(crate) fn set_depth(&mut self, depth: u32)
        ensures { self.new ≡ record self.old { depth = depth } }
    {
        self.depth = depth;
    }

    /// If it is updated in the cycle, its states and its references are read, as the interfaces hold them now, and from
    /// then on it knows when that is. It takes no memory.
    pub(crate) fn gather(&mut self, round: &Round<'_>, hardware: &ResourceManager)
        requires timely { IsTimely round.now }
        requires can { CanFly round.now.placed round.now.related round.now.period_us (length hardware.now.loans)
            self.old }
        ensures { self.new ≡ cell_read round.now hardware.now.loans self.old }
    {
        self.turn = None;
        if round.updates(&self.workspace) {
            self.turn = Some(round.tick(&self.workspace));
            self.workspace.gather(round.places, hardware);
        }
    }

    /// Whether it is updated in the cycle and has still to make its step.
    pub fn is_to_step(&self) -> bool
        ensures { result ≡ is_some self.now.turn }
    {
        self.turn.is_some()
    }

    /// It makes its step in the cycle: if it is updated, it takes its mail and is updated from what was read for it;
    /// else its mail is lost. It needs nothing but the cell, which can go to another thread if its box can, and takes
    /// no memory.
    pub fn step(&mut self)
        requires { CanMakeStep self.old }
        ensures run { self.new ≡ cell_run self.old }
        ensures post { post_of self.new ≡ post_of self.old }
    {
        self.done = None;
        if let Some(tick) = self.turn.take() {
            self.run(tick);
        }
        self.mail = None;
    }

    /// Its step at this time.
    fn run(&mut self, tick: Tick)
        requires { CanBeStepped self.old.ctl tick (length self.old.workspace.states)
            (length self.old.workspace.references) (length self.old.workspace.outs) self.old.mail }
        ensures run { self.new ≡ record (cell_stepped (step_at tick self.old) self.old) {
          turn = self.old.turn;
          done = Some (step_at tick self.old).done;
        } }
        ensures post { post_of self.new ≡ post_of self.old }
    {
        let mail = self.mail.take();
        self.done = Some(self.workspace.step(&mut self.running, tick, mail));
    }

    /// What its step came to is told, and its claims hold what it gave out, unless it failed. It takes no memory.
    pub(crate) fn scatter(
        &mut self,
        places: &CtlPlaces,
        hardware: &mut ResourceManager,
        ran: &mut RanRoom,
        erred: &mut Vec<u32>,
    )
        requires { CanPut places.now (length hardware.old.loans) self.old ran.old (vec_len erred.old)
            (vec_capacity erred.old) }
        ensures cell { self.new ≡ cell_put self.old }
        ensures flying { flying hardware.new ran.new.rans erred.new.items
            ≡ flying_put places.now self.old (flying hardware.old ran.old.rans erred.old.items) }
        ensures leaves { LeavesPut 1 (length self.old.workspace.outs) (numbers_of self.old) (length hardware.old.loans)
            (length hardware.new.loans) ran.old ran.new (vec_len erred.old) (vec_len erred.new) (vec_capacity erred.old)
            (vec_capacity erred.new) }
    {
        if let Some(done) = self.done.take() {
            self.workspace.give_out(places, hardware, done);
            self.workspace.tell(self.running.publishes(), done, ran);
            push_erred(erred, self.workspace.serial(), done);
        }
    }

    /// Whether a controller that precedes it stands in one of these cells.
    pub(crate) fn follows(&self, cells: &[Cell<C>], layer: &Layer, relations: &Relations) -> bool
        requires layer { IsFlagged layer.now.flags (places_in cells.now) }
        requires related { self.now.workspace.place < length relations.now.leaders }
        ensures { result ≡ list_any (λ c. precedes_in relations.now c self.now) cells.now }
    {
        let leaders = relations.leaders().row(self.workspace.place());
        one_stands_in(cells, layer, leaders)
    }

    /// Its place in the description.
    pub(crate) fn place(&self) -> u32
        ensures { result ≡ self.now.workspace.place }
    {
        self.workspace.place()
    }
}

/// Whether the controller at one of these places of the description stands in one of these cells, which are a layer.
fn one_stands_in<C: Controller>(cells: &[Cell<C>], layer: &Layer, places: &[u32]) -> bool
    requires { IsFlagged layer.now.flags (places_in cells.now) }
    ensures { result ≡ list_any (λ place. list_any (λ c. place == c.workspace.place) cells.now) places.now }
{
    places.iter().any(|place| stands_in(cells, layer, *place))
}

/// Whether the controller at this place of the description stands in one of these cells, which are a layer. It has a
/// flag in the layer, because a description has no more places than flags; else it is looked for.
fn stands_in<C: Controller>(cells: &[Cell<C>], layer: &Layer, place: u32) -> bool
    requires { IsFlagged layer.now.flags (places_in cells.now) }
    ensures { result ≡ list_any (λ c. place == c.workspace.place) cells.now }
{
    match layer.flag(place) {
        Some(stands) => stands,
        None => cells.iter().any(|cell| place == cell.place()),
    }
}

/// The serial of a controller whose update failed is told.
fn push_erred(erred: &mut Vec<u32>, serial: u32, done: Done)
    requires { vec_len erred.old + 1 ≤ vec_capacity erred.old }
    ensures erred { erred.new.items
        ≡ elim done [ Done.Ok ↦ erred.old.items | Done.Error ↦ erred.old.items ++ serial ∷ [] ] }
    ensures within { vec_len erred.new ≤ vec_len erred.old + 1 }
    ensures capacity { vec_capacity erred.new ≡ vec_capacity erred.old }
{
    match done {
        Done::Ok => {}
        Done::Error => erred.push_reserved(serial),
    }
}
