//! What failed in a cycle, and why a controller was stopped at its end.

ghost use Rattle.std.specs.Prelude.{◌≡◌, ◌++◌, OnOk, string_bytes};
ghost use Rattle.draw_causes.specs.Words.{failure_words, failure_mend, stop_words, stop_mend};

use fixed_num::Memory;
use iface_names::Name;

/// What failed of a controller or a component.
#[derive(Clone, Copy, Debug, PartialEq, Eq)]
pub enum Failure {
    /// A controller's update.
    Update,
    /// A component's read.
    Read,
    /// A component's write.
    Write,
}

/// Why a controller was stopped at the end of a cycle.
#[derive(Clone, Copy, Debug, PartialEq, Eq)]
pub enum StopKind {
    /// Its own update failed.
    Update,
    /// It uses a component that failed, and that may come back.
    Component,
    /// It uses a component that failed, and that stays finalized.
    Finalized,
    /// It claims a reference of a controller that was stopped.
    Follower,
}

/// What failed.
pub fn failure_words(failure: Failure) -> &'static str
    ensures { result.now ≡ failure_words failure }
{
    match failure {
        Failure::Update => "its update failed",
        Failure::Read => "its read failed",
        Failure::Write => "its write failed",
    }
}

/// What would mend it. The document lists the cycles in which something fails.
pub fn failure_mend(failure: Failure) -> &'static str
    ensures { result.now ≡ failure_mend failure }
{
    match failure {
        Failure::Update => "take the cycle out of its fail_update in the document",
        Failure::Read => "take the cycle out of its fail_read in the document",
        Failure::Write => "take the cycle out of its fail_write in the document",
    }
}

/// Appends why a controller was stopped: because of what is named second.
pub fn push_stop(text: &mut String, kind: StopKind, because_of: &Name) -> Result<(), Memory>
    ensures { OnOk result (string_bytes text.new ≡ string_bytes text.old ++ stop_words kind because_of.now) }
{
    match kind {
        StopKind::Update => text.push_str("its update failed")?,
        StopKind::Component => write!(text, "it uses {because_of}, which failed")?,
        StopKind::Finalized => write!(
            text,
            "it uses {because_of}, which failed and stays finalized"
        )?,
        StopKind::Follower => {
            write!(
                text,
                "it claims a reference of {because_of}, which was stopped"
            )?
        }
    }
    Ok(())
}

/// Appends what would mend it.
pub fn push_stop_mend(
    text: &mut String,
    name: &Name,
    kind: StopKind,
    because_of: &Name,
) -> Result<(), Memory>
    ensures { OnOk result (string_bytes text.new ≡ string_bytes text.old ++ stop_mend name.now kind because_of.now) }
{
    match kind {
        StopKind::Update => write!(text, "activate {name} again")?,
        StopKind::Component => {
            write!(
                text,
                "bring {because_of} to active, then activate {name} again"
            )?
        }
        StopKind::Finalized => {
            write!(
                text,
                "set on_error of {because_of} to unconfigured in the document"
            )?
        }
        StopKind::Follower => write!(text, "activate {because_of} and {name} again in one switch")?,
    }
    Ok(())
}
