//! The requests that were made, and what became of them.

ghost use Rattle.std.specs.Prelude.{◌≡◌, ◌+◌, ◌<◌, ◌≤◌, ◌^◌, true, false, [], ◌∷◌, ◌++◌, drop, length};
ghost use Rattle.std.specs.Prelude.{map, nat_le, option_map, slice_get, vec_capacity, IfOk, OnErr};
ghost use Rattle.cm_model.specs.Boundary.{request_reply, request_effect, close_effect, close_reply, decisions_from};
ghost use Rattle.cm_model.specs.State.{State};
ghost use Rattle.cm_model.specs.declared.reply.Reply.TheVariants as reply;
ghost use Rattle.switch_plan.specs.Relations.{relations_of};
ghost use Rattle.request_plan.specs.Plans.{IsPlanOf};
ghost use Rattle.request_plan.specs.Requests.{AreAskedIn, IsAnswered, with_asked};
ghost use Rattle.request_plan.specs.Situations.{IsSituation, IsSeenOf};

use crate::plans::{Plan, plan_all};
use crate::situation::Situation;
use cm_document::Checked;
use cm_model::{Decision, MOST_WAITING, Outcome, Reply, Request, Why};
use fixed_num::Memory;
use iface_names::Name;
use sequence::{Rare, Seq};
use std::alloc::Global;
use std::marker::Model;
use switch_plan::Relations;

/// The requests by ticket, and the outcomes of the first of them; the others wait. Room for an outcome comes with its
/// request, and so does room for what a close tells, so that deciding and the close take no memory.
#[derive(Debug, Drop)]
pub struct Requests {
    requests: Vec<Request>,
    outcomes: Vec<Outcome>,
    /// Where the decisions of a close go, once a request was made.
    closing: Option<Box<Vec<Decision>>>,
}

impl Model for Requests {
    ghost use Rattle.std.specs.Prelude.{vec_capacity};
    ghost use Rattle.request_plan.specs.Requests.{Asked, HaveRoom, CanClose};

    ghost Value = { Asked };

    ghost view = { λ r. record { requests = r.requests.items; outcomes = r.outcomes.items } };

    ghost invariant = { λ r. HaveRoom r.requests.items r.outcomes.items (vec_capacity r.outcomes)
        × CanClose r.requests.items r.outcomes.items r.closing };
}

impl Requests {
    /// None yet. It takes no memory.
    pub fn none(alloc: Global) -> Requests
        ensures { result ≡ record { requests = []; outcomes = [] } }
    {
        Requests {
            requests: Vec::new(alloc),
            outcomes: Vec::new(alloc),
            closing: None,
        }
    }

    /// A request comes to wait under the next ticket, where the loop is open and fewer wait than can wait. Without
    /// memory nothing has changed, nor where the tickets of 32 bits are used up.
    pub fn ask(&mut self, alloc: Global, closed: bool, request: Request) -> Result<Reply, Memory>
        ensures made { IfOk result (λ reply. (s : State)
            → IsAnswered (request_reply (with_asked s self.old closed))
            (request_effect (with_asked s self.old closed) request) (with_asked s self.new closed) reply) }
        ensures kept { OnErr result (self.new ≡ self.old) }
    {
        if closed {
            return Ok(Reply::Not(Why::LoopEnded));
        }
        if self.is_full() {
            return Ok(Reply::Not(Why::QueueFull));
        }
        let ticket = self.queue(alloc, request)?;
        Ok(Reply::Queued(ticket))
    }

    /// The request waits under the next ticket, and there is room for its outcome, and for what a close tells.
    fn queue(&mut self, alloc: Global, request: Request) -> Result<u32, Memory>
        requires { length self.old.requests < length self.old.outcomes + MOST_WAITING }
        ensures queued { IfOk result (λ ticket. (ticket ≡ length self.old.requests)
            × (self.new ≡ record self.old { requests = self.old.requests ++ request ∷ [] })) }
        ensures kept { OnErr result (self.new ≡ self.old) }
    {
        let ticket = self.requests.len();
        if ticket >= u32::MAX as usize {
            return Err(Memory);
        }
        self.outcomes.reserve(ticket + 1 - self.outcomes.len())?;
        if self.closing.is_none() {
            self.closing = Some(Box::new(alloc, Vec::with_capacity(alloc, MOST_WAITING)?)?);
        }
        self.requests.push(request)?;
        Ok(ticket as u32)
    }

    /// Whether as many wait as can wait.
    fn is_full(&self) -> bool
        ensures { result ≡ nat_le MOST_WAITING (length (drop (length self.now.outcomes) self.now.requests)) }
    {
        self.waiting().len() >= MOST_WAITING
    }

    /// The requests that wait, by ticket.
    pub fn waiting(&self) -> &[Request]
        ensures those { result.now ≡ drop (length self.now.outcomes) self.now.requests }
        ensures tickets { length self.now.outcomes + length result.now < 2 ^ 32 }
    {
        self.requests.as_slice().split_at(self.outcomes.len()).1
    }

    /// How many are decided: those of the tickets below.
    pub fn decided(&self) -> u32
        ensures { result ≡ length self.now.outcomes }
    {
        self.outcomes.len() as u32
    }

    /// What became of the request of a ticket, where it is decided.
    pub fn told(&self, ticket: u32) -> Option<&Outcome>
        ensures { option_map (λ outcome. outcome.now) result ≡ slice_get self.now.outcomes ticket }
    {
        self.outcomes.get(ticket as usize)
    }

    /// This became of the first that waits. It takes no memory.
    pub fn decide(&mut self, outcome: Outcome)
        requires { length self.old.outcomes < length self.old.requests }
        ensures { self.new ≡ record self.old { outcomes = self.old.outcomes ++ outcome ∷ [] } }
    {
        self.outcomes.push_reserved(outcome);
    }

    /// The loop closes: each that waits is ended with it, and is told so. It takes no memory.
    pub fn close_all(&mut self) -> Rare<Decision>
        ensures left { (s : State) → with_asked s self.new true ≡ close_effect (with_asked s self.old false) }
        ensures told { (s : State) → reply.Decisions result ≡ close_reply (with_asked s self.old false) }
    {
        let first = self.decided();
        let (_, waiting) = self.requests.as_slice().split_at(self.outcomes.len());
        end_each(&mut self.outcomes, waiting);
        match self.closing.take() {
            Some(mut closing) => {
                tell_ended(&mut closing, first, waiting);
                Rare::in_box(closing)
            }
            None => Rare::none(),
        }
    }

    /// Plans what becomes of those that are to stand in, by these names, and of those that wait, and what is done for
    /// them. Nothing is touched.
    pub fn plan(
        &self,
        alloc: Global,
        checked: &Checked,
        relations: &Relations,
        situation: Situation,
        names: Seq<Name>,
    ) -> Result<Plan, Memory>
        requires relations { relations.now ≡ relations_of checked.now }
        requires situation { IsSituation checked.now situation }
        ensures { IfOk result (λ plan. (s : State) → AreAskedIn s self.now → s.fallbacks ≡ names
            → IsSeenOf s checked.now situation → IsPlanOf s plan) }
    {
        let plan = plan_all(
            alloc,
            checked,
            relations,
            situation,
            names,
            self.decided(),
            self.waiting(),
        )?;
        Ok(plan)
    }
}

/// Each of these requests is ended with the loop.
fn end_each(outcomes: &mut Vec<Outcome>, waiting: &[Request])
    requires room { length outcomes.old.items + length waiting.now ≤ vec_capacity outcomes.old }
    ensures ended { outcomes.new.items ≡ outcomes.old.items ++ map (λ _. Outcome.LoopEnded) waiting.now }
    ensures room { vec_capacity outcomes.new ≡ vec_capacity outcomes.old }
{
    for _request in waiting {
        outcomes.push_reserved(Outcome::LoopEnded);
    }
}

/// Appends that each of these requests is ended with the loop, by ticket, the first of which has this one.
fn tell_ended(decisions: &mut Vec<Decision>, first: u32, waiting: &[Request])
    requires room { length decisions.old.items + length waiting.now ≤ vec_capacity decisions.old }
    requires tickets { first + length waiting.now < 2 ^ 32 }
    ensures { decisions.new.items
        ≡ decisions.old.items ++ decisions_from first (map (λ _. Outcome.LoopEnded) waiting.now) }
{
    let mut ticket = first;
    for _request in waiting {
        decisions.push_reserved(Decision {
            ticket: Some(ticket),
            outcome: Outcome::LoopEnded,
        });
        ticket += 1;
    }
}
