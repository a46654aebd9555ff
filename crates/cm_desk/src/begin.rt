//! The begin of a cycle: those that are to stand in are asked for, the requests that wait are decided, and what the
//! cycle needs is taken.

ghost use Rattle.std.specs.Prelude.{◌≡◌, ◌<◌, ◌≤◌, ◌==◌, ◌++◌, ◌&&◌, [], false, length, map};
ghost use Rattle.std.specs.Prelude.{slice_get, vec_capacity, Some, List, IfOk, OnOk, OnErr};
ghost use Rattle.cm_model.specs.Boundary.{waiting, concluded, with_outcome, all_concluded, boundary};
ghost use Rattle.cm_model.specs.Commit.{seen};
ghost use Rattle.cm_model.specs.Serials.{IsNumbered};
ghost use Rattle.cm_model.specs.State.{State, Loaded, is_active, is_chained};
ghost use Rattle.cm_model.specs.Steady.{IsSteady};
ghost use Rattle.cm_model.specs.declared.request.Request.{Request};
ghost use Rattle.request_plan.specs.Acts.{IsSwitchOf, IsMoveOf};
ghost use Rattle.request_plan.specs.Plans.{IsPlanOf, AreConclusionsOf};
ghost use Rattle.cm_resources.specs.CycleNeeds.{AreNeeds};
ghost use Rattle.cm_desk.specs.Works.{fallbacks_at, stand_ins_for};
ghost use Rattle.cm_resources.specs.CycleResources.{CanBePrepared, IsAtHome, IsMadeReady};
ghost use Rattle.cm_desk.specs.Begin.{IsNext, IsLeftOf, CanAct, CanBegin, HasBegun};
ghost use Rattle.cm_desk.specs.Begin.{CanTakeOff, HasTakenOff, none_waits};

use crate::filling::fill_cells;
use crate::works::Works;
use cm_document::{Checked, CtlDesc, Life};
use cm_model::{Decision, Member, Seen};
use cm_resources::{ActiveSet, CycleNeeds, CycleResources, described_at, empty};
use cm_slots::{Slot, Slots};
use ctl_trait::Controller;
use fixed_num::Memory;
use iface_names::Name;
use request_plan::{Act, Conclusion, Plan, Requests, Situation, Switched};
use rt_flight::{Cell, Flight, Payload};
use sequence::{Rare, Seq};
use std::alloc::Global;
use std::snapshot::Snapshot;

impl<C: Controller> Works<C> {
    /// The next cycle begins: those that are to stand in are asked for, the requests that wait are decided one after
    /// the other, each in the state that the one before it left, and the controllers that run then go aloft in a
    /// flight, with the mail of those that are due. All memory that this and the cycle need is taken before anything
    /// changes. It hands out the flight, and tells what was decided.
    pub fn begin(&mut self, alloc: Global) -> Result<(Flight<C>, Rare<Decision>), Memory>
        requires { CanBegin self.old }
        ensures begun { IfOk result (λ begun. HasBegun self.old self.new begun.0 begun.1) }
        ensures kept { OnErr result (self.new ≡ self.old) }
    {
        if !is_settled(&self.active_set, &self.requests, self.resources.erred()) {
            return self.begin_anew(alloc);
        }
        let count = self.active_set.order().len();
        make_places(&mut self.cells, &mut self.boxes, count)?;
        self.resources.prepare(
            alloc,
            &self.checked,
            self.active_set.order(),
            self.slots.len(),
        )?;
        let cells = std::mem::replace(&mut self.cells, Vec::new(alloc));
        let flight = take_off(
            &mut self.slots,
            self.active_set.run(),
            &mut self.resources,
            &mut self.boxes,
            cells,
            self.ended,
        );
        Ok((flight, Rare::none()))
    }

    /// The same, where somebody may be to stand in, requests wait, or others may be active than in the cycle before.
    /// It stands apart, because each begin would else clear the memory that this works on.
    #[inline(never)]
    fn begin_anew(&mut self, alloc: Global) -> Result<(Flight<C>, Rare<Decision>), Memory>
        requires { CanBegin self.old }
        ensures begun { IfOk result (λ begun. HasBegun self.old self.new begun.0 begun.1) }
        ensures kept { OnErr result (self.new ≡ self.old) }
    {
        let plan = self.plan(alloc)?;
        let taken = take_memory(
            alloc,
            &self.checked,
            &mut self.resources,
            &mut self.cells,
            &mut self.boxes,
            &plan.order,
            self.slots.len(),
        )?;
        let cells = std::mem::replace(&mut self.cells, Vec::new(alloc));
        let boxes = std::mem::replace(&mut self.boxes, Vec::new(alloc));
        self.resources.forget_erred();
        self.carry_out(plan.first, plan.conclusions);
        self.active_set
            .put(plan.order, taken.run, self.slots.as_slice());
        // What was carried out tells of the state alone, so only this shows that the list is still empty.
        self.resources.forget_erred();
        self.resources.take_in(taken.needs);
        self.boxes = boxes;
        let flight = take_off(
            &mut self.slots,
            self.active_set.run(),
            &mut self.resources,
            &mut self.boxes,
            cells,
            self.ended,
        );
        Ok((flight, plan.decisions))
    }

    /// What becomes of those that are to stand in and of the requests that wait, and the order of updates after that.
    /// Nothing is touched.
    fn plan(&self, alloc: Global) -> Result<Plan, Memory>
        requires down { self.now.aloft ≡ false }
        requires steady { IsSteady self.now }
        requires numbered { IsNumbered self.now }
        ensures { IfOk result (λ plan. IsPlanOf self.now plan) }
    {
        let situation = self.situation(alloc)?;
        let names = stand_ins(alloc, &self.checked, self.resources.erred())?;
        let Some(idle_context) = &self.resources.idle_context else {
            unreachable!();
        };
        let relations = &idle_context.robot.relations;
        Ok(
            self.requests
                .plan(alloc, &self.checked, relations, situation, names)?,
        )
    }

    /// What the requests are decided by.
    fn situation(&self, alloc: Global) -> Result<Situation, Memory>
        requires down { self.now.aloft ≡ false }
        ensures loaded { IfOk result (λ situation. situation.loaded.items ≡ map (seen self.now) self.now.loaded) }
        ensures lives { IfOk result (λ situation. situation.lives.items ≡ self.now.lives) }
    {
        Ok(Situation {
            loaded: self.seen_all(alloc)?,
            lives: self.lives(alloc)?,
        })
    }

    /// The loaded controllers, as a request is decided by them.
    fn seen_all(&self, alloc: Global) -> Result<Vec<Seen>, Memory>
        requires { self.now.aloft ≡ false }
        ensures { IfOk result (λ list. list.items ≡ map (seen self.now) self.now.loaded) }
    {
        let mut list = Vec::with_capacity(alloc, self.slots.len())?;
        for index in 0..self.slots.len() {
            list.push(self.seen(index))?;
        }
        Ok(list)
    }

    /// The one at this index.
    fn seen(&self, index: usize) -> Seen
        requires within { index < length self.now.loaded }
        requires down { self.now.aloft ≡ false }
        ensures { (l : Loaded) → slice_get self.now.loaded index ≡ Some l → result ≡ seen self.now l }
    {
        let slot = &self.slots.as_slice()[index];
        let controller = described_at(&self.checked, slot.place());
        Seen {
            serial: slot.serial(),
            place: slot.place() as u32,
            life: slot.life(),
            chained: self.runs_chained(slot, controller),
            ready: self.slots.is_ready(index, self.ended),
        }
    }

    /// Whether it runs, and is chained by its description.
    fn runs_chained(&self, slot: &Slot<C>, controller: &CtlDesc) -> bool
        requires { slice_get self.now.description.controllers slot.now.place ≡ Some controller.now }
        ensures { result ≡ (is_active slot.now && is_chained self.now controller.now) }
    {
        slot.is_active() && self.is_chained(slot, controller)
    }

    /// The lifecycle states of the components.
    fn lives(&self, alloc: Global) -> Result<Vec<Life>, Memory>
        ensures { IfOk result (λ lives. lives.items ≡ self.now.lives) }
    {
        let lines = self.resources.component_lines(alloc)?;
        let mut lives = Vec::with_capacity(alloc, lines.as_slice().len())?;
        for line in lines.as_slice() {
            lives.push(line.life)?;
        }
        Ok(lives)
    }

    /// All that is concluded is done, one after the other, in a state in which nobody is to stand in any more. It takes
    /// no memory.
    fn carry_out(&mut self, first: Option<Conclusion>, conclusions: Vec<Conclusion>)
        requires down { self.old.aloft ≡ false }
        requires can { (s : State) × IsLeftOf s self.old first conclusions.items }
        ensures { (s : State) → IsLeftOf s self.old first conclusions.items → self.new ≡ boundary s }
    {
        match first {
            Some(conclusion) => {
                self.act(&conclusion.act);
                self.decide_all(conclusions);
            }
            None => self.decide_all(conclusions),
        }
    }

    /// All that is concluded of requests is done, one after the other. It takes no memory.
    fn decide_all(&mut self, conclusions: Vec<Conclusion>)
        requires down { self.old.aloft ≡ false }
        requires steady { IsSteady self.old }
        requires concluded { AreConclusionsOf self.old (waiting self.old) conclusions.items }
        ensures { self.new ≡ all_concluded self.old (waiting self.old) }
    {
        for conclusion in conclusions {
            self.conclude(conclusion);
        }
    }

    /// What was concluded of the first that waits is done, and is what became of it.
    fn conclude(&mut self, conclusion: Conclusion)
        requires down { self.old.aloft ≡ false }
        requires steady { IsSteady self.old }
        requires next { (asked : Request) × (later : List Request) × IsNext self.old asked later conclusion }
        ensures { (asked : Request) (later : List Request) → IsNext self.old asked later conclusion
            → self.new ≡ with_outcome (concluded self.old asked) }
    {
        self.act(&conclusion.act);
        self.requests.decide(conclusion.outcome);
    }

    /// This is done.
    fn act(&mut self, act: &Act)
        requires down { self.old.aloft ≡ false }
        requires steady { IsSteady self.old }
        requires can { (after : State) × CanAct self.old after act.now }
        ensures { (after : State) → CanAct self.old after act.now → self.new ≡ after }
    {
        match act {
            Act::Nothing => {}
            Act::Switch(switched) => self.switch(switched),
            Act::Move { component, target } => self.move_component(*component, *target),
        }
    }

    /// A set of controllers becomes active.
    fn switch(&mut self, switched: &Switched)
        requires down { self.old.aloft ≡ false }
        requires steady { IsSteady self.old }
        requires can { (after : State) × IsSwitchOf self.old after switched.now }
        ensures { (after : State) → IsSwitchOf self.old after switched.now → self.new ≡ after }
    {
        self.resources
            .switch(&mut self.slots, &mut self.active_set, switched);
    }

    /// A component comes to a lifecycle state.
    fn move_component(&mut self, component: u32, target: Life)
        requires down { self.old.aloft ≡ false }
        requires can { (after : State) × (IsMoveOf self.old after component target × IsSteady after) }
        ensures { (after : State) → IsMoveOf self.old after component target → self.new ≡ after }
    {
        match self.resources.move_component(component, target) {
            Ok(()) => {}
            Err(_) => unreachable!(),
        }
    }
}

/// Whether no update failed, no request waits, and the order of updates is the one of now.
fn is_settled(active_set: &ActiveSet, requests: &Requests, erred: &[u32]) -> bool
    ensures { result ≡ ((active_set.now.current && none_waits (requests.now.requests) (requests.now.outcomes))
        && length erred.now == 0) }
{
    active_set.is_current() && requests.waiting().is_empty() && erred.is_empty()
}

/// Who stands in for the controllers of these places, as they are described.
fn stand_ins(alloc: Global, checked: &Checked, places: &[u32]) -> Result<Seq<Name>, Memory>
    ensures { IfOk result (λ names. names ≡ stand_ins_for checked.now places.now) }
{
    let mut names = Seq::new(alloc);
    for place in places {
        push_names(&mut names, fallbacks_at(checked, *place))?;
    }
    Ok(names)
}

/// The fallbacks of the controller that is described at this place.
fn fallbacks_at(checked: &Checked, place: u32) -> &[Name]
    ensures { result.now ≡ fallbacks_at checked.now place }
{
    match checked
        .description()
        .controllers
        .as_slice()
        .get(place as usize)
    {
        Some(controller) => controller.fallback.as_slice(),
        None => &[],
    }
}

/// Then these names.
fn push_names(names: &mut Seq<Name>, further: &[Name]) -> Result<(), Memory>
    ensures { OnOk result (names.new ≡ names.old ++ further.now) }
{
    for name in further {
        names.push(name.clone()?)?;
    }
    Ok(())
}

/// What is taken for a cycle before anything changes.
#[derive(Drop)]
struct Taken {
    /// Room for the indices of those that run.
    run: Vec<u32>,
    /// What the cycle needs besides.
    needs: CycleNeeds,
}

/// All memory of a cycle in which these controllers are active, of so many that are loaded. What is at home stays so.
fn take_memory<C: Controller>(
    alloc: Global,
    checked: &Checked,
    resources: &mut CycleResources,
    cells: &mut Vec<Cell<C>>,
    boxes: &mut Vec<C>,
    order: &[Member],
    loaded: usize,
) -> Result<Taken, Memory>
    requires { IsAtHome resources.old × CanBePrepared checked.now resources.old order.now }
    ensures taken { IfOk result (λ taken. (length order.now ≤ vec_capacity taken.run)
        × AreNeeds checked.now resources.old.robot.value.places order.now loaded taken.needs) }
    ensures places { OnOk result ((cells.new.items ≡ []) × (length order.now ≤ vec_capacity cells.new)
        × (boxes.new.items ≡ []) × (length order.now ≤ vec_capacity boxes.new)) }
    ensures resources { IsMadeReady resources.old resources.new }
{
    make_places(cells, boxes, order.len())?;
    let run = Vec::with_capacity(alloc, order.len())?;
    let needs = resources.needs(alloc, checked, order, loaded)?;
    Ok(Taken { run, needs })
}

/// There is room for the cells and the boxes of so many.
#[inline(always)]
fn make_places<C: Controller>(
    cells: &mut Vec<Cell<C>>,
    boxes: &mut Vec<C>,
    count: usize,
) -> Result<(), Memory>
    ensures cells { OnOk result ((cells.new.items ≡ []) × (count ≤ vec_capacity cells.new)) }
    ensures boxes { OnOk result ((boxes.new.items ≡ []) × (count ≤ vec_capacity boxes.new)) }
{
    empty(cells);
    cells.reserve(count)?;
    empty(boxes);
    boxes.reserve(count)?;
    Ok(())
}

/// The cycle of this number takes off: the mail of those that are due goes aloft, the boxes of those that run leave
/// their slots, and come to their cells with what works in the cycle. It takes no memory.
#[inline(always)]
fn take_off<C: Controller>(
    slots: &mut Slots<C>,
    run: &[u32],
    resources: &mut CycleResources,
    boxes: &mut Vec<C>,
    cells: Vec<Cell<C>>,
    number: u64,
) -> Flight<C>
    requires { (s : State) × CanTakeOff s slots.old run.now resources.old (map C.meaning boxes.old.items)
        (vec_capacity boxes.old) cells.items (vec_capacity cells) number }
    ensures off { (s : State) → CanTakeOff s slots.old run.now resources.old (map C.meaning boxes.old.items)
        (vec_capacity boxes.old) cells.items (vec_capacity cells) number
        → HasTakenOff s slots.old slots.new resources.old resources.new result }
    ensures room { vec_capacity boxes.new ≡ vec_capacity boxes.old }
{
    let mut cells = cells;
    slots.send_off(number, &mut resources.buffers.mails);
    resources.mails = Snapshot::of(&resources.buffers.mails);
    slots.lend(run, boxes);
    fill_cells(
        slots.as_slice(),
        run,
        &mut resources.buffers.mails,
        &mut resources.buffers.workspaces,
        boxes,
        &mut cells,
    );
    Flight::take_off(Payload {
        number,
        cells,
        context: resources.send_out(),
    })
}
