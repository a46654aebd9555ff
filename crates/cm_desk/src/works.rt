//! What the desk keeps, and loads.

ghost use Rattle.std.specs.Prelude.{◌≡◌, ◌<◌, true, false, map, length, slice_get};
ghost use Rattle.std.specs.Prelude.{Some, IfOk, OnOk, IfSome, OnErr, MatchOption};
ghost use Rattle.cm_document.specs.Valid.{IsValid};
ghost use Rattle.cm_model.specs.Console.{place_of, slot_at, slot_of};
ghost use Rattle.cm_model.specs.Machine.{is_loaded_at, is_sold_out_at, with_loaded, load_effect};
ghost use Rattle.cm_model.specs.State.{boot};
ghost use Rattle.cm_desk.specs.Works.{IsAnswered, load_reply};

use cm_document::{Checked, CtlDesc};
use cm_model::{Reply, Why};
use cm_resources::{ActiveSet, CycleResources, at_start, described_at};
use cm_slots::{Slot, Slots};
use cm_stock::Stock;
use ctl_trait::Controller;
use fixed_num::Memory;
use iface_names::Name;
use request_plan::Requests;
use rt_flight::Cell;
use sequence::Shared;
use std::alloc::Global;
use std::marker::Model;

/// The loaded controllers with their boxes, the blanks that are left, the requests, and what a cycle works on, here or
/// aloft. Contracts see the written state.
#[derive(Drop)]
pub struct Works<C: Controller> {
    pub(crate) checked: Checked,
    /// The names of the described controllers, by place, for the lines of lists.
    pub(crate) names: Vec<Shared<Name>>,
    pub(crate) sessions: u32,
    pub(crate) blanks: Stock<C>,
    pub(crate) loads: u32,
    /// By serial: a load comes last.
    pub(crate) slots: Slots<C>,
    /// By ticket.
    pub(crate) requests: Requests,
    /// What a cycle works on besides the controllers.
    pub(crate) resources: CycleResources,
    /// Room for the cells of those that run, and for their boxes on the way there and back.
    pub(crate) cells: Vec<Cell<C>>,
    pub(crate) boxes: Vec<C>,
    /// Who is active.
    pub(crate) active_set: ActiveSet,
    /// How many cycles have ended.
    pub(crate) ended: u64,
    /// Whether the loop is closed.
    pub(crate) closed: bool,
}

impl<C: Controller> Model for Works<C> {
    ghost use Rattle.std.specs.Prelude.{vec_capacity};
    ghost use Rattle.cm_model.specs.State.{State};
    ghost use Rattle.cm_resources.specs.CycleResources.{base_of};
    ghost use Rattle.cm_desk.specs.Works.{state_with, IsKept};

    ghost Value = { State };

    ghost view = { λ w. state_with w.checked w.blanks w.sessions w.loads w.slots w.requests
        (base_of w.resources (vec_capacity w.boxes)) w.ended w.closed };

    ghost invariant = { λ w. IsKept
        (state_with w.checked w.blanks w.sessions w.loads w.slots w.requests
        (base_of w.resources (vec_capacity w.boxes)) w.ended w.closed)
        w.names.items (base_of w.resources (vec_capacity w.boxes)) w.active_set };
}

impl<C: Controller> Works<C> {
    /// Nothing is loaded, all of the stock is left, and the hardware is as at start.
    pub fn boot(
        alloc: Global,
        checked: Checked,
        stock: Stock<C>,
        sessions: u32,
    ) -> Result<Works<C>, Memory>
        ensures booted { IfOk result (λ works. works ≡ boot checked stock sessions) }
        ensures valid { OnOk result (IsValid checked) }
    {
        stock.is_few();
        let names = names_of(alloc, checked.description().controllers.as_slice())?;
        let start = at_start(alloc, &checked)?;
        Ok(Works {
            checked,
            names,
            sessions,
            blanks: stock,
            loads: 0,
            slots: Slots::none(alloc),
            requests: Requests::none(alloc),
            resources: start.resources,
            cells: Vec::new(alloc),
            boxes: Vec::new(alloc),
            active_set: start.active_set,
            ended: 0,
            closed: false,
        })
    }

    /// The description.
    pub fn checked(&self) -> &Checked
        ensures { result.now ≡ self.now.description }
    {
        &self.checked
    }

    /// The number of sessions, which is also that of the loop as a caller.
    pub fn sessions(&self) -> u32
        ensures { result ≡ self.now.sessions }
    {
        self.sessions
    }

    /// The loaded controllers, by serial.
    pub fn slots(&self) -> &[Slot<C>]
        ensures { result.now ≡ self.now.loaded }
    {
        self.slots.as_slice()
    }

    /// A controller takes a blank of its kind and the next serial, or the first refusal is told.
    pub fn load(&mut self, name: &Name) -> Result<Reply, Memory>
        ensures made { IfOk result
            (IsAnswered (load_reply self.old name.now) (load_effect self.old name.now) self.new) }
        ensures kept { OnErr result (self.new ≡ self.old) }
    {
        let Some(place) = self.place_of(name) else {
            return Ok(Reply::Not(Why::NotDescribed));
        };
        if self.is_loaded_at(place) {
            return Ok(Reply::Not(Why::Loaded));
        }
        match self.load_at(place)? {
            Some(serial) => Ok(Reply::Serial(serial)),
            None => Ok(Reply::Not(Why::StockEmpty)),
        }
    }

    /// The controller that is described at this place takes a blank of its kind and the next serial; None where no
    /// blank is left.
    #[tactic(auto, using(crate::proofs::WorksLemmas::sold_out))]
    fn load_at(&mut self, place: usize) -> Result<Option<u32>, Memory>
        requires described { place < length self.old.description.controllers }
        ensures made { IfOk result
            (λ serial. MatchOption serial
            ((is_sold_out_at self.old place ≡ true) × (self.new ≡ self.old))
            (λ n. (is_sold_out_at self.old place ≡ false) × (n ≡ self.old.loads)
            × (self.new ≡ with_loaded self.old (Some place)))) }
        ensures kept { OnErr result (self.new ≡ self.old) }
    {
        self.slots.reserve()?;
        let controller = described_at(&self.checked, place);
        let Some(blank) = self.blanks.take(controller.params.kind()) else {
            return Ok(None);
        };
        let serial = self.loads;
        self.slots.load(serial, place, controller.rate, blank);
        self.loads += 1;
        Ok(Some(serial))
    }

    /// The place of the described controller of this name.
    pub(crate) fn place_of(&self, name: &Name) -> Option<usize>
        ensures found { result ≡ place_of self.now name.now }
        ensures within { IfSome result (λ place. place < length self.now.description.controllers) }
    {
        let controllers = self.checked.description().controllers.as_slice();
        controllers.iter().position(|c| c.name == *name)
    }

    fn is_loaded_at(&self, place: usize) -> bool
        ensures { result ≡ is_loaded_at self.now place }
    {
        self.slots
            .as_slice()
            .iter()
            .any(|slot| slot.place() == place)
    }

    /// Where the controller of this name stands among the loaded ones.
    pub(crate) fn slot_of(&self, name: &Name) -> Option<usize>
        ensures found { result ≡ slot_of self.now name.now }
        ensures within { IfSome result (λ index. index < length self.now.loaded) }
    {
        match self.place_of(name) {
            Some(place) => self.slot_at(place),
            None => None,
        }
    }

    /// Where the controller that is described at this place stands among the loaded ones.
    fn slot_at(&self, place: usize) -> Option<usize>
        ensures found { result ≡ slot_at self.now (Some place) }
        ensures within { IfSome result (λ index. index < length self.now.loaded) }
    {
        self.slots
            .as_slice()
            .iter()
            .position(|slot| slot.place() == place)
    }
}

/// The names of these controllers, each to be shared by all lines that tell it.
fn names_of(alloc: Global, controllers: &[CtlDesc]) -> Result<Vec<Shared<Name>>, Memory>
    ensures { IfOk result (λ names. names.items ≡ map (λ c. c.name) controllers.now) }
{
    let mut names = Vec::with_capacity(alloc, controllers.len())?;
    for controller in controllers {
        names.push(Shared::new(alloc, controller.name.clone()?)?)?;
    }
    Ok(names)
}
