//! The plan for those that are to stand in, and for all requests that wait.

ghost use Rattle.std.specs.Prelude.{◌≡◌, ◌+◌, ◌<◌, ◌^◌, ◌++◌, length, map, IfOk};
ghost use Rattle.cm_document.specs.declared.call.Pick.TheVariants.{One};
ghost use Rattle.cm_model.specs.Boundary.{waiting, decisions_from};
ghost use Rattle.cm_model.specs.State.{State};
ghost use Rattle.request_plan.specs.Calls.Conclude.{CanDecide, Concludes};
ghost use Rattle.request_plan.specs.Situations.{IsSituation, IsSeenOf};
ghost use Rattle.request_plan.specs.Plans.{told_first, IsPlanOf, AreConcluded, HaveStoodInBy};

use crate::acts::Conclusion;
use crate::components::conclude_move;
use crate::situation::{Situation, order};
use crate::switches::conclude_switch;
use cm_document::{Checked, Pick, SwitchRequest};
use cm_model::{Decision, Member, Outcome, Request};
use fixed_num::Memory;
use iface_names::Name;
use sequence::{Rare, Seq};
use std::alloc::Global;
use switch_plan::Relations;

/// What is planned for those that are to stand in, and for requests that wait.
#[derive(Debug, Drop)]
pub struct Plan {
    /// What is concluded of those that are to stand in, if anybody is.
    pub first: Option<Conclusion>,
    /// What is concluded of each request, by ticket.
    pub conclusions: Vec<Conclusion>,
    /// The active controllers after all of it, in the order of their updates.
    pub order: Vec<Member>,
    /// What was decided: on those that are to stand in, and then by ticket.
    pub decisions: Rare<Decision>,
}

/// Plans what becomes of those that are to stand in, and then of requests, the first of which has this ticket, and what
/// is done for them: one after the other, each in the state that the one before it left. Nothing is touched but the
/// situation, which is used up.
pub(crate) fn plan_all(
    alloc: Global,
    checked: &Checked,
    relations: &Relations,
    situation: Situation,
    names: Seq<Name>,
    ticket: u32,
    requests: &[Request],
) -> Result<Plan, Memory>
    requires can { CanDecide checked.now relations.now situation }
    requires tickets { ticket + length requests.now < 2 ^ 32 }
    ensures { IfOk result (λ plan. (s : State) → IsSeenOf s checked.now situation → s.fallbacks ≡ names
        → length s.outcomes ≡ ticket → waiting s ≡ requests.now → IsPlanOf s plan) }
{
    let mut situation = situation;
    let first = stand_in(alloc, checked, relations, &mut situation, names)?;
    let conclusions = conclude_all(alloc, checked, relations, &mut situation, requests)?;
    let order = order(alloc, checked, relations, &situation.loaded)?;
    let decisions = decisions_of(alloc, &first, ticket, &conclusions)?;
    Ok(Plan {
        first,
        conclusions,
        order,
        decisions: Rare::of(alloc, decisions)?,
    })
}

/// What is concluded of those that are to stand in: as many of them become active as can. The situation is that after
/// it.
fn stand_in(
    alloc: Global,
    checked: &Checked,
    relations: &Relations,
    situation: &mut Situation,
    names: Seq<Name>,
) -> Result<Option<Conclusion>, Memory>
    requires { CanDecide checked.now relations.now situation.old }
    ensures situation { IfOk result (λ _. IsSituation checked.now situation.new) }
    ensures stood { IfOk result (λ first. (s : State) → IsSeenOf s checked.now situation.old
        → HaveStoodInBy s names first checked.now situation.new) }
{
    if names.as_slice().is_empty() {
        return Ok(None);
    }
    let picks = each_by_itself(alloc, names)?;
    let request = SwitchRequest {
        on: picks,
        off: Seq::new(alloc),
        strict: false,
    };
    let conclusion = conclude_switch(alloc, checked, relations, situation, &request)?;
    situation.follow(&conclusion.act);
    Ok(Some(conclusion))
}

/// The controllers of these names, each named by itself.
fn each_by_itself(alloc: Global, names: Seq<Name>) -> Result<Seq<Pick>, Memory>
    ensures { IfOk result (λ picks. picks ≡ map One names) }
{
    let mut picks = Seq::new(alloc);
    for name in names.into_vec() {
        picks.push(Pick::One(name))?;
    }
    Ok(picks)
}

/// What is concluded of these requests, one after the other. The situation is that after all of them.
fn conclude_all(
    alloc: Global,
    checked: &Checked,
    relations: &Relations,
    situation: &mut Situation,
    waiting: &[Request],
) -> Result<Vec<Conclusion>, Memory>
    requires { CanDecide checked.now relations.now situation.old }
    ensures situation { IfOk result (λ _. IsSituation checked.now situation.new) }
    ensures count { IfOk result (λ list. length list.items ≡ length waiting.now) }
    ensures concluded { IfOk result (λ list. (s : State) → IsSeenOf s checked.now situation.old
        → AreConcluded s waiting.now list.items checked.now situation.new) }
{
    let mut conclusions = Vec::with_capacity(alloc, waiting.len())?;
    for request in waiting {
        let conclusion = conclude(alloc, checked, relations, situation, request)?;
        situation.follow(&conclusion.act);
        conclusions.push(conclusion)?;
    }
    Ok(conclusions)
}

/// What is concluded of a request.
fn conclude(
    alloc: Global,
    checked: &Checked,
    relations: &Relations,
    situation: &Situation,
    request: &Request,
) -> Result<Conclusion, Memory>
    requires { CanDecide checked.now relations.now situation.now }
    ensures { IfOk result (Concludes checked.now situation.now request.now) }
{
    match request {
        Request::Switch(switch) => conclude_switch(alloc, checked, relations, situation, switch),
        Request::Hardware { component, target } => {
            conclude_move(alloc, checked, relations, situation, component, *target)
        }
    }
}

/// What is decided with these conclusions: on those that are to stand in, and then by ticket, the first of which is
/// this one.
fn decisions_of(
    alloc: Global,
    first: &Option<Conclusion>,
    ticket: u32,
    conclusions: &[Conclusion],
) -> Result<Vec<Decision>, Memory>
    requires { ticket + length conclusions.now < 2 ^ 32 }
    ensures { IfOk result (λ decisions. decisions.items
        ≡ told_first first.now ++ decisions_from ticket (map (λ c. c.outcome) conclusions.now)) }
{
    let mut decisions = first_decision(alloc, first)?;
    let mut next = ticket;
    for conclusion in conclusions {
        decisions.push(decision(Some(next), &conclusion.outcome)?)?;
        next += 1;
    }
    Ok(decisions)
}

/// What is decided on those that are to stand in.
fn first_decision(alloc: Global, first: &Option<Conclusion>) -> Result<Vec<Decision>, Memory>
    ensures { IfOk result (λ decisions. decisions.items ≡ told_first first.now) }
{
    let mut decisions = Vec::new(alloc);
    if let Some(conclusion) = first {
        decisions.push(decision(None, &conclusion.outcome)?)?;
    }
    Ok(decisions)
}

/// That this became of the request of a ticket, or of those that are to stand in.
fn decision(ticket: Option<u32>, outcome: &Outcome) -> Result<Decision, Memory>
    ensures { IfOk result (λ decision. decision ≡ record { ticket = ticket; outcome = outcome.now }) }
{
    Ok(Decision {
        ticket,
        outcome: outcome.clone()?,
    })
}
