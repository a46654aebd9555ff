//! What is known of a cycle at its end.

ghost use Rattle.std.specs.Prelude.{◌≡◌, ◌<◌, ◌==◌};
ghost use Rattle.std.specs.List.{list_any};
ghost use Rattle.stop_plan.specs.Reports.{IsReport, count_in, has_failed_in, is_struck_in};

use cm_model::Member;
use cm_storage::FailedPart;
use switch_plan::Relations;

/// What is known of a cycle at its end, and decides who stops.
#[derive(Clone, Copy)]
pub struct Report<'a> {
    /// Whom and what each described controller has to do with.
    pub relations: &'a Relations,
    /// The active controllers, in the order of their updates.
    pub order: &'a [Member],
    /// The components whose read or write failed.
    pub failed: &'a [FailedPart],
    /// The serials of the controllers whose update failed.
    pub erred: &'a [u32],
}

/// Whether an active controller was struck: a component that it uses failed, or its update did.
pub(crate) fn is_struck(report: &Report, member: &Member) -> bool
    requires report { IsReport report.now }
    requires within { member.now.place < count_in report.now }
    ensures { result ≡ is_struck_in report.now member.now }
{
    uses_failed(report, report.relations.components(member.place))
        || has_erred(report.erred, member.serial)
}

/// Whether one of these components failed.
fn uses_failed(report: &Report, components: &[usize]) -> bool
    ensures { result ≡ list_any (has_failed_in report.now) components.now }
{
    components
        .iter()
        .any(|place| has_failed(report.failed, *place))
}

/// Whether the component at a place failed.
fn has_failed(failed: &[FailedPart], place: usize) -> bool
    ensures { result ≡ list_any (λ part. part.place == place) failed.now }
{
    failed.iter().any(|part| part.place as usize == place)
}

/// Whether the update of the controller of this serial failed.
fn has_erred(erred: &[u32], serial: u32) -> bool
    ensures { result ≡ list_any (λ n. n == serial) erred.now }
{
    erred.contains(&serial)
}
