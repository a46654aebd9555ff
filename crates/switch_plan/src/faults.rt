//! What speaks against a member of a set of controllers that is to be active.

ghost use Rattle.std.specs.Prelude.{◌≡◌, ◌<◌, not, ◌&&◌, ◌==◌, ◌++◌, length};
ghost use Rattle.std.specs.Prelude.{slice_index_or, Option, option_map, IfOk, IfSome, All};
ghost use Rattle.std.specs.List.{list_any};
ghost use Rattle.cm_model.specs.Order.{set_of};
ghost use Rattle.cm_model.specs.Components.{is_available};
ghost use Rattle.cm_model.specs.Scene.{controllers_in, claims_at, is_ready};
ghost use Rattle.cm_model.specs.Faults.{first_of, cause_if, is_unavailable, is_mode_taken};
ghost use Rattle.cm_model.specs.Faults.{rival, conflict_over, fault_of_kind, fault};
ghost use Rattle.cm_model.specs.declared.cause.Cause.TheVariants as cause;
ghost use Rattle.cm_document.specs.declared.life.Life.TheVariants.{Unconfigured};
ghost use Rattle.switch_plan.specs.View.{scene_of, IsPlace};
ghost use Rattle.switch_plan.specs.Proposals.{proposal_scene, proposed, asked_on};
ghost use Rattle.switch_plan.specs.Proposals.{missing_from, mode_taken_in, IsProposal};

use crate::interfaces;
use crate::members::is_ready;
use crate::view::{View, controllers, described};
use chain_order::PlaceSet;
use cm_document::Life;
use cm_model::{Cause, FAULT_KINDS, FaultKind, Member};
use fixed_num::Memory;
use iface_names::IfaceName;
use sequence::Boxed;
use std::alloc::Global;

/// A set of controllers that is proposed to be active, with what is asked of its members: which of them are to be
/// activated, and the order of their updates.
#[derive(Clone, Copy)]
pub struct Proposal<'a> {
    /// Where the memory of what is told comes from.
    pub alloc: Global,
    /// What the set is judged by.
    pub view: View<'a>,
    /// The set.
    pub set: &'a PlaceSet,
    /// The controllers on the list to activate.
    pub on: &'a PlaceSet,
    /// The members in the order of their updates.
    pub order: &'a [Member],
}

/// The fault of a member: the first by kind.
pub fn fault(proposal: &Proposal, place: u32) -> Result<Option<Cause>, Memory>
    requires proposal { IsProposal proposal.now }
    requires within { IsPlace (proposal_scene proposal.now) place }
    ensures { IfOk result (λ found. found
        ≡ fault (proposal_scene proposal.now) (proposed proposal.now) (asked_on proposal.now) place) }
{
    for kind in FAULT_KINDS.iter() {
        if let Some(cause) = fault_of_kind(proposal, *kind, place)? {
            return Ok(Some(cause));
        }
    }
    Ok(None)
}

/// The fault of one kind of a member.
pub fn fault_of_kind(
    proposal: &Proposal,
    kind: FaultKind,
    place: u32,
) -> Result<Option<Cause>, Memory>
    requires proposal { IsProposal proposal.now }
    requires within { IsPlace (proposal_scene proposal.now) place }
    ensures { IfOk result (λ found. found
        ≡ fault_of_kind (proposal_scene proposal.now) (proposed proposal.now) (asked_on proposal.now) kind place) }
{
    let controller = described(&proposal.view, place);
    let claims = controller.claims.as_slice();
    match kind {
        FaultKind::Follower => missing_follower(proposal, claims),
        FaultKind::Availability => {
            unavailable(proposal.alloc, &proposal.view, claims, controller.reads())
        }
        FaultKind::Conflict => conflict(proposal, place, claims),
        FaultKind::Mode => mode_refused(proposal, claims),
        FaultKind::Readiness => Ok(not_ready(proposal, place)),
    }
}

/// An interface once more, on the heap.
fn boxed(alloc: Global, interface: &IfaceName) -> Result<Boxed<IfaceName>, Memory>
    ensures { IfOk result (λ copy. copy ≡ interface.now) }
{
    Ok(Boxed::new(alloc, interface.clone()?)?)
}

/// The first of these references whose exporter is not in the set.
fn missing_follower(proposal: &Proposal, claims: &[IfaceName]) -> Result<Option<Cause>, Memory>
    ensures { IfOk result (λ found. found ≡ first_of (missing_from proposal.now) claims.now) }
{
    for claim in claims {
        if interfaces::is_missing(controllers(&proposal.view), proposal.set, claim) {
            return Ok(Some(Cause::MissingFollower(boxed(proposal.alloc, claim)?)));
        }
    }
    Ok(None)
}

/// The first of these claims, or else of these reads, whose component is neither inactive nor active.
#[tactic(auto, using(crate::proofs::TestLemmas::first_of_append))]
fn unavailable(
    alloc: Global,
    view: &View,
    claims: &[IfaceName],
    reads: &[IfaceName],
) -> Result<Option<Cause>, Memory>
    ensures { IfOk result (λ found. found
        ≡ first_of (λ i. cause_if (is_unavailable (scene_of view.now) i) (cause.Unavailable i))
        (claims.now ++ reads.now)) }
{
    if let Some(cause) = first_unavailable(alloc, view, claims)? {
        return Ok(Some(cause));
    }
    let found = first_unavailable(alloc, view, reads)?;
    Ok(found)
}

/// The first of these interfaces whose component is neither inactive nor active.
fn first_unavailable(
    alloc: Global,
    view: &View,
    these: &[IfaceName],
) -> Result<Option<Cause>, Memory>
    ensures { IfOk result (λ found. found
        ≡ first_of (λ i. cause_if (is_unavailable (scene_of view.now) i) (cause.Unavailable i)) these.now) }
{
    for interface in these {
        if is_unavailable(view, interface) {
            return Ok(Some(Cause::Unavailable(boxed(alloc, interface)?)));
        }
    }
    Ok(None)
}

/// Whether an interface is a component's that is neither inactive nor active.
fn is_unavailable(view: &View, interface: &IfaceName) -> bool
    ensures { result ≡ is_unavailable (scene_of view.now) interface.now }
{
    let components = view.checked.description().components.as_slice();
    match interfaces::component_with(components, interface) {
        Some(place) => !is_up_at(view.components, place),
        None => false,
    }
}

/// Whether the component at a place has available interfaces.
fn is_up_at(components: &[Life], place: usize) -> bool
    ensures { result ≡ is_available (slice_index_or components.now place Unconfigured) }
{
    match components.get(place) {
        Some(life) => interfaces::is_available(*life),
        None => false,
    }
}

/// The first of these claims that another member claims too, with the first such member.
fn conflict(proposal: &Proposal, place: u32, claims: &[IfaceName]) -> Result<Option<Cause>, Memory>
    requires { IsProposal proposal.now }
    ensures { IfOk result (λ found. found
        ≡ first_of (conflict_over (proposal_scene proposal.now) (proposed proposal.now) place) claims.now) }
{
    for claim in claims {
        if let Some(cause) = conflict_over(proposal, place, claim)? {
            return Ok(Some(cause));
        }
    }
    Ok(None)
}

/// That another member claims this interface too, with the first such member.
fn conflict_over(
    proposal: &Proposal,
    place: u32,
    claim: &IfaceName,
) -> Result<Option<Cause>, Memory>
    requires { IsProposal proposal.now }
    ensures { IfOk result (λ found. found
        ≡ conflict_over (proposal_scene proposal.now) (proposed proposal.now) place claim.now) }
{
    let Some(owner) = rival(proposal, place, claim) else {
        return Ok(None);
    };
    let name = described(&proposal.view, owner.place).name.clone()?;
    Ok(Some(Cause::Conflict(boxed(proposal.alloc, claim)?, name)))
}

/// The first other member, by order, that claims an interface.
fn rival(proposal: &Proposal, place: u32, interface: &IfaceName) -> Option<Member>
    requires { IsProposal proposal.now }
    ensures rival { result ≡ rival (proposal_scene proposal.now) (proposed proposal.now) place interface.now }
    ensures within { IfSome result (λ m. IsPlace (proposal_scene proposal.now) m.place) }
{
    for member in proposal.order {
        if is_rival(&proposal.view, place, member, interface) {
            return Some(*member);
        }
    }
    None
}

/// Whether a member is another one and claims the interface.
fn is_rival(view: &View, place: u32, member: &Member, interface: &IfaceName) -> bool
    requires { IsPlace (scene_of view.now) member.now.place }
    ensures { result
        ≡ (not (member.now.place == place)
        && claims_at (controllers_in (scene_of view.now)) member.now.place interface.now) }
{
    member.place != place && interfaces::claims(described(view, member.place), interface)
}

/// The first joint of which these claims have a command interface and a member claims another one.
fn mode_refused(proposal: &Proposal, claims: &[IfaceName]) -> Result<Option<Cause>, Memory>
    requires { IsProposal proposal.now }
    ensures { IfOk result (λ found. found ≡ first_of (mode_taken_in proposal.now) claims.now) }
{
    for claim in claims {
        if is_mode_taken(proposal, claim) {
            return Ok(Some(Cause::ModeRefused(interfaces::joint_name(claim).clone()?)));
        }
    }
    Ok(None)
}

/// Whether a member claims another command interface of the interface's joint.
fn is_mode_taken(proposal: &Proposal, interface: &IfaceName) -> bool
    requires { IsProposal proposal.now }
    ensures { result ≡ is_mode_taken (proposal_scene proposal.now) (proposed proposal.now) interface.now }
{
    for seen in proposal.view.loaded {
        if proposal.set.has(seen.place)
            && interfaces::claims_beside(described(&proposal.view, seen.place), interface)
        {
            return true;
        }
    }
    false
}

/// That a controller is to be activated and is not ready.
fn not_ready(proposal: &Proposal, place: u32) -> Option<Cause>
    ensures { result
        ≡ cause_if (asked_on proposal.now place && not (is_ready (proposal_scene proposal.now) place)) cause.NotReady }
{
    if proposal.on.has(place) && !is_ready(&proposal.view, place) {
        Some(Cause::NotReady)
    } else {
        None
    }
}
