//! All checks of a description.

ghost use Rattle.sequence.specs.Answers.{Answers};
ghost use Rattle.cm_document.specs.Valid.{valid, IsDescribed};
ghost use Rattle.desc_check.specs.Verdict.{verdict};

use crate::counts::few_enough;
use crate::fallbacks::fallbacks_exist;
use crate::interfaces::links_exist;
use crate::loops::loop_free;
use crate::members::members_exist;
use crate::names::named_apart;
use crate::ranges::in_range;
use cm_document::{CheckFault, Checked, Description};
use std::alloc::Global;

/// Checks a description that was read: it is given back as Checked where it is valid, and else its first fault is told.
#[tactic(auto, using(crate::proofs::VerdictLemmas::valid_where_no_fault))]
pub fn check(alloc: Global, description: Description) -> Result<Checked, CheckFault>
    requires described { IsDescribed description }
    ensures { Answers CheckFault.Memory (valid description) result }
{
    no_fault(alloc, &description)?;
    Ok(Checked::hold(description))
}

/// The description is valid, or its first fault is told: counts, then names, ranges, interfaces, fallbacks, members and
/// loops.
#[tactic(auto, unfolding(cm_document::specs::Valid::valid, crate::specs::Verdict::verdict))]
pub(crate) fn no_fault(alloc: Global, description: &Description) -> Result<(), CheckFault>
    ensures { Answers CheckFault.Memory (verdict description.now) result }
{
    few_enough(description)?;
    named_apart(alloc, description)?;
    in_range(alloc, description)?;
    links_exist(alloc, description)?;
    fallbacks_exist(description)?;
    members_exist(description)?;
    loop_free(alloc, description)
}
