//! What happened in a run, read off its history: the rows of the requests, the controllers and the components, and the
//! course of each joint. Which call an entry is of is known from the script, as each session makes its lines once and
//! in order.

ghost use Rattle.std.specs.Prelude.{◌≡◌};

use crate::columns::Columns;
use crate::course::{JointCourse, blank_courses, forget, reach, take_outs};
use crate::groups::{groups_of, members_of};
use crate::incidents::{Incident, push_incidents};
use crate::limiters::{LimiterCourse, blank_limiters, stop_limiter};
use crate::links::{Linked, component_place, controller_place};
use crate::outcomes::{Answered, Became, event_of, is_left_out, stays};
use crate::present::{Asked, Present};
use crate::rows::{ColumnState, Event, Row, blank_rows, mark_row};
use cm_document::{Call, Pick, Script, SwitchRequest};
use cm_model::{Decision, Dropped, Entry, Outcome, Reply, Why};
use cm_storage::{CycleRecord, Done, FailedPart, RanRef};
use fixed_num::Memory;
use iface_names::Name;
use std::alloc::Global;

/// How often things happened in a run.
#[derive(Clone, Copy)]
pub struct RunCounts {
    /// Requests that were carried out, wholly or without some names.
    pub done: u64,
    /// Requests that were refused.
    pub refused: u64,
    /// Requests that waited when the loop closed.
    pub ended: u64,
    /// Requests that got no ticket: the queue was full, or the loop closed.
    pub turned_away: u64,
    /// Other calls that did nothing.
    pub calls: u64,
    /// Reads, writes and updates that failed.
    pub failed: u64,
    /// Controllers that were stopped, each as often as it was.
    pub stopped: u64,
}

/// A run as it is drawn.
#[derive(Drop)]
pub struct Replay<'a> {
    /// The requests that were decided and the calls that did nothing, in that order.
    pub answered: Vec<Answered<'a>>,
    /// What was not done as asked, or went wrong, in the order in which it happened.
    pub incidents: Vec<Incident<'a>>,
    /// The row of the requests.
    pub requests: Row,
    /// The rows of the controllers, by place.
    pub controllers: Vec<Row>,
    /// The rows of the components, by place.
    pub components: Vec<Row>,
    /// The courses of the joints, by place.
    pub courses: Vec<JointCourse>,
    /// The courses of the limiters, by place.
    pub limiters: Vec<LimiterCourse>,
    /// How often things happened.
    pub counts: RunCounts,
    alloc: Global,
    columns: Columns,
    present: Present<'a>,
}

impl<'a> Replay<'a> {
    /// What happened in this history.
    pub fn of(
        alloc: Global,
        columns: Columns,
        linked: Linked<'a>,
        script: &'a Script,
        history: &'a [Entry],
    ) -> Result<Replay<'a>, Memory> {
        let mut replay = Replay::blank(alloc, columns, linked, script)?;
        for entry in history {
            replay.read(entry)?;
        }
        Ok(replay)
    }

    /// How many cycles ended.
    pub fn cycles_ended(&self) -> u64
        ensures { result ≡ self.now.present.ended }
    {
        self.present.ended
    }

    /// Of a run in which nothing happened yet.
    fn blank(
        alloc: Global,
        columns: Columns,
        linked: Linked<'a>,
        script: &'a Script,
    ) -> Result<Replay<'a>, Memory> {
        let description = linked.description;
        let controllers = linked.links.len();
        let components = description.components.as_slice().len();
        Ok(Replay {
            answered: Vec::new(alloc),
            incidents: Vec::new(alloc),
            requests: Row::blank(alloc, columns.count())?,
            controllers: blank_rows(alloc, controllers, columns.count())?,
            components: blank_rows(alloc, components, columns.count())?,
            courses: blank_courses(alloc, description, columns.count())?,
            limiters: blank_limiters(alloc, description, columns.count())?,
            counts: RunCounts {
                done: 0,
                refused: 0,
                ended: 0,
                turned_away: 0,
                calls: 0,
                failed: 0,
                stopped: 0,
            },
            alloc,
            columns,
            present: Present::at_start(alloc, linked, script)?,
        })
    }

    /// One entry more.
    fn read(&mut self, entry: &'a Entry) -> Result<(), Memory> {
        match &entry.reply {
            Reply::Decisions(decisions) => self.read_decisions(decisions.as_slice()),
            Reply::Cycle(record) => self.read_cycle(record),
            // A session is told what became of its request: that is no line of its own.
            Reply::Outcome(_) => Ok(()),
            reply => self.read_call(entry.who, reply),
        }
    }

    // ---- Calls

    fn read_call(&mut self, who: u32, reply: &Reply) -> Result<(), Memory> {
        let asked = self.present.called(who, reply)?;
        match (asked, reply) {
            (Some(asked), Reply::Not(why)) => self.read_refusal(asked, *why),
            _ => Ok(()),
        }
    }

    /// A call did nothing. A request is marked in the row of the requests, another call in the row of the controller
    /// that it names.
    fn read_refusal(&mut self, asked: Asked<'a>, why: Why) -> Result<(), Memory> {
        let number = self.answered.len();
        let cycle = self.present.ended;
        self.answered.push(Answered {
            cycle,
            ticket: None,
            asked: Some(asked),
            groups: groups_of(self.alloc, self.present.description, Some(asked))?,
            failed: Vec::new(self.alloc),
            became: Became::Not(why),
        })?;
        self.incidents.push(Incident::Answered(number))?;
        let column = self.columns.of_cycle(cycle);
        match controller_of(asked.call) {
            Some(name) => {
                self.counts.calls = self.counts.calls.saturating_add(1);
                self.mark_controller(name, column, number);
            }
            None => {
                self.counts.turned_away = self.counts.turned_away.saturating_add(1);
                self.requests
                    .mark(column, Event::Refused, cycle, Some(number));
            }
        }
        Ok(())
    }

    // ---- Decisions

    fn read_decisions(&mut self, decisions: &'a [Decision]) -> Result<(), Memory> {
        for decision in decisions {
            self.read_decision(decision)?;
        }
        self.present.link();
        Ok(())
    }

    fn read_decision(&mut self, decision: &'a Decision) -> Result<(), Memory> {
        let number = self.answered.len();
        let column = self.columns.of_cycle(self.present.ended);
        let event = event_of(&decision.outcome);
        match decision.ticket {
            Some(ticket) => self.read_request(ticket, &decision.outcome)?,
            None => self.read_fallbacks(&decision.outcome)?,
        }
        if event != Event::Done {
            self.incidents.push(Incident::Answered(number))?;
        }
        self.requests
            .mark(column, event, self.present.ended, Some(number));
        Ok(())
    }

    /// A request was decided.
    fn read_request(&mut self, ticket: u32, outcome: &'a Outcome) -> Result<(), Memory> {
        let number = self.answered.len();
        let asked = self.present.asked_under(ticket);
        self.count(outcome);
        self.answered.push(Answered {
            cycle: self.present.ended,
            ticket: Some(ticket),
            asked,
            groups: groups_of(self.alloc, self.present.description, asked)?,
            failed: Vec::new(self.alloc),
            became: Became::Decided(outcome),
        })?;
        match outcome {
            Outcome::Done { dropped } => self.carry_out(asked, dropped.as_slice()),
            Outcome::Refused(name, _) => self.mark_refused(name, number),
            Outcome::LoopEnded => {}
        }
        Ok(())
    }

    /// The fallbacks of those whose updates failed were asked for: they are active, but for those that are left out.
    fn read_fallbacks(&mut self, outcome: &'a Outcome) -> Result<(), Memory> {
        let failed = self.present.take_erred(self.alloc);
        if let Outcome::Done { dropped } = outcome {
            for controller in &failed {
                self.start_all(controller.fallback.as_slice(), dropped.as_slice());
            }
        }
        self.answered.push(Answered {
            cycle: self.present.ended,
            ticket: None,
            asked: None,
            groups: Vec::new(self.alloc),
            failed,
            became: Became::Decided(outcome),
        })?;
        Ok(())
    }

    fn count(&mut self, outcome: &Outcome) {
        let counts = &mut self.counts;
        let counted = match outcome {
            Outcome::Done { .. } => &mut counts.done,
            Outcome::Refused(..) => &mut counts.refused,
            Outcome::LoopEnded => &mut counts.ended,
        };
        *counted = counted.saturating_add(1);
    }

    /// A request is refused because of this controller or component.
    fn mark_refused(&mut self, name: &Name, number: usize) {
        let description = self.present.description;
        let column = self.columns.of_cycle(self.present.ended);
        if controller_place(description.controllers.as_slice(), name).is_some() {
            self.mark_controller(name, column, number);
        } else if let Some(place) = component_place(description, name) {
            let cycle = self.present.ended;
            if let Some(row) = self.components.get_mut(place) {
                row.mark(column, Event::Refused, cycle, Some(number));
            }
        }
    }

    /// A call is refused that names this controller.
    fn mark_controller(&mut self, name: &Name, column: usize, number: usize) {
        let controllers = self.present.description.controllers.as_slice();
        let cycle = self.present.ended;
        if let Some(place) = controller_place(controllers, name) {
            if let Some(row) = self.controllers.get_mut(place) {
                row.mark(column, Event::Refused, cycle, Some(number));
            }
        }
    }

    /// A request is carried out without these names.
    fn carry_out(&mut self, asked: Option<Asked<'a>>, dropped: &[Dropped]) {
        match asked {
            Some(
                Asked {
                    call: Call::Switch(request),
                    ..
                },
            ) => self.switch(request, dropped),
            Some(
                Asked {
                    call: Call::Hardware { component, target },
                    ..
                },
            ) => self.present.move_component(component, *target),
            _ => {}
        }
    }

    /// Those that leave are inactive, and those that come are active. What a controller gave that leaves or restarts is
    /// gone.
    fn switch(&mut self, request: &SwitchRequest, dropped: &[Dropped]) {
        for pick in request.off.as_slice() {
            self.stop_picked(pick, dropped);
        }
        self.start_each(request.on.as_slice(), dropped);
    }

    fn start_each(&mut self, picks: &[Pick], dropped: &[Dropped]) {
        for pick in picks {
            self.start_picked(pick, dropped);
        }
    }

    fn start_picked(&mut self, pick: &Pick, dropped: &[Dropped]) {
        let description = self.present.description;
        match pick {
            Pick::One(name) => self.start_unless_dropped(name, dropped),
            Pick::Group(name) => self.start_all(members_of(description, name), dropped),
        }
    }

    fn start_all(&mut self, names: &[Name], dropped: &[Dropped]) {
        for name in names {
            self.start_unless_dropped(name, dropped);
        }
    }

    fn start_unless_dropped(&mut self, name: &Name, dropped: &[Dropped]) {
        if !is_left_out(name, dropped) {
            self.present.start(name);
        }
    }

    fn stop_picked(&mut self, pick: &Pick, dropped: &[Dropped]) {
        let description = self.present.description;
        match pick {
            Pick::One(name) => self.stop_unless_dropped(name, dropped),
            Pick::Group(name) => self.stop_all(members_of(description, name), dropped),
        }
    }

    fn stop_all(&mut self, names: &[Name], dropped: &[Dropped]) {
        for name in names {
            self.stop_unless_dropped(name, dropped);
        }
    }

    fn stop_unless_dropped(&mut self, name: &Name, dropped: &[Dropped]) {
        if !stays(name, dropped) {
            self.stop(name);
        }
    }

    /// An active controller becomes inactive.
    fn stop(&mut self, name: &Name) {
        let controllers = self.present.description.controllers.as_slice();
        if let Some(place) = controller_place(controllers, name) {
            self.stop_at(place);
        }
    }

    /// The controller at this place becomes inactive, and what it gave out is gone.
    fn stop_at(&mut self, place: usize) {
        self.present.stop(place);
        forget(&mut self.courses, place);
        stop_limiter(&mut self.limiters, place);
    }

    // ---- Cycles

    fn read_cycle(&mut self, record: &'a CycleRecord) -> Result<(), Memory> {
        push_incidents(&mut self.incidents, &self.present, record)?;
        let cycle = record.cycle();
        let column = self.columns.of_cycle(cycle);
        self.read_failures(record.failed(), column, cycle);
        self.present.forget_erred();
        self.read_updates(record, column)?;
        reach(&mut self.courses, record.bodies(), column);
        self.show(column);
        self.read_stops(record.stops(), column, cycle);
        self.present.fail(record.failed());
        self.present.ended = cycle.saturating_add(1);
        Ok(())
    }

    fn read_failures(&mut self, failed: &[FailedPart], column: usize, cycle: u64) {
        for part in failed {
            let event = if part.reading {
                Event::ReadFailed
            } else {
                Event::WriteFailed
            };
            self.counts.failed = self.counts.failed.saturating_add(1);
            mark_row(
                &mut self.components,
                part.place as usize,
                column,
                event,
                cycle,
            );
        }
    }

    fn read_updates(&mut self, record: &'a CycleRecord, column: usize) -> Result<(), Memory> {
        for ran in record.ran() {
            self.read_update(&ran, column, record.cycle())?;
        }
        Ok(())
    }

    fn read_update(&mut self, ran: &RanRef<'_>, column: usize, cycle: u64) -> Result<(), Memory> {
        let Some(place) = self.present.place_of(ran.serial) else {
            return Ok(());
        };
        if ran.done == Done::Error {
            self.counts.failed = self.counts.failed.saturating_add(1);
            mark_row(
                &mut self.controllers,
                place,
                column,
                Event::UpdateFailed,
                cycle,
            );
            return self.present.note_erred(place);
        }
        let chained = self.present.is_chained(place);
        for limiter in &mut self.limiters {
            limiter.read(place, chained, column, ran.outs);
        }
        if let Some(links) = self.present.links.get(place) {
            take_outs(&mut self.courses, place, links.claims.as_slice(), ran.outs);
        }
        Ok(())
    }

    /// What each controller and component was in this column.
    fn show(&mut self, column: usize) {
        show_controllers(&mut self.controllers, &self.present, column);
        show_components(&mut self.components, &self.present, column);
    }

    fn read_stops(&mut self, stops: &[u32], column: usize, cycle: u64) {
        for serial in stops {
            if let Some(place) = self.present.place_of(*serial) {
                self.counts.stopped = self.counts.stopped.saturating_add(1);
                if let Some(row) = self.controllers.get_mut(place) {
                    row.stop(column, cycle);
                }
                self.stop_at(place);
            }
        }
        if !stops.is_empty() {
            self.present.link();
        }
    }
}

/// What each controller was in this column.
fn show_controllers(rows: &mut Vec<Row>, present: &Present<'_>, column: usize) {
    for (place, row) in rows.iter_mut().enumerate() {
        if let Some(life) = present.life_at(place) {
            row.show(column, ColumnState::of(life, present.is_chained(place)));
        }
    }
}

/// What each component was in this column.
fn show_components(rows: &mut Vec<Row>, present: &Present<'_>, column: usize) {
    for (place, row) in rows.iter_mut().enumerate() {
        if let Some(life) = present.components.get(place) {
            row.show(column, ColumnState::of(*life, false));
        }
    }
}

/// The controller that a call names which is no request.
fn controller_of(call: &Call) -> Option<&Name> {
    match call {
        Call::Load(name) | Call::Configure(name) | Call::Cleanup(name) | Call::Unload(name) => {
            Some(name)
        }
        Call::Rate { name, .. } | Call::Send { name, .. } => Some(name),
        _ => None,
    }
}
