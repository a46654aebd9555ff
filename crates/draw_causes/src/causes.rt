//! What speaks against a name of a request.

ghost use Rattle.std.specs.Prelude.{◌≡◌, ◌++◌, OnOk, string_bytes};
ghost use Rattle.iface_names.specs.Names.{same_name};
ghost use Rattle.draw_causes.specs.Words.{is_reference_of, is_own, cause_words, cause_mend, fallback_mend};
ghost use Rattle.draw_causes.specs.Words.{missing_words, missing_mend};

use cm_model::Cause;
use fixed_num::Memory;
use iface_names::{IfaceName, Name};

/// What would mend that a name is unknown.
const UNKNOWN_MEND: &str =
    "name a controller that is loaded, or a component that the document describes";

/// Whether a missing follower is the controller itself: it was to leave, and one that stays claims a reference of it.
pub fn is_own(cause: &Cause, name: &Name) -> bool
    ensures { result ≡ is_own name.now cause.now }
{
    match cause {
        Cause::MissingFollower(interface) => is_reference_of(interface.get(), name),
        _ => false,
    }
}

/// Whether an interface is a reference of this controller.
fn is_reference_of(interface: &IfaceName, name: &Name) -> bool
    ensures { result ≡ is_reference_of name.now interface.now }
{
    match interface {
        IfaceName::Reference { controller, .. } => controller == name,
        IfaceName::Joint { .. } => false,
    }
}

/// Appends what speaks against a name.
pub fn push_cause(text: &mut String, name: &Name, cause: &Cause) -> Result<(), Memory>
    ensures { OnOk result (string_bytes text.new ≡ string_bytes text.old ++ cause_words name.now cause.now) }
{
    match cause {
        Cause::NoGroup => write!(text, "no group {name} is described")?,
        Cause::Unknown => write!(text, "{name} is not there")?,
        Cause::Twice => write!(text, "{name} is named twice in one list")?,
        Cause::NotActive => write!(text, "{name} is not active")?,
        Cause::NotConfigured => write!(text, "{name} is not configured")?,
        Cause::AlreadyActive => write!(text, "{name} is active already")?,
        Cause::MissingFollower(it) => push_missing(text, name, it.get())?,
        Cause::Unavailable(it) => {
            let it = it.get();
            write!(text, "{name} needs {it}, which is not available")?
        }
        Cause::Conflict(it, owner) => {
            let it = it.get();
            write!(text, "{name} claims {it}, which {owner} claims, too")?
        }
        Cause::ModeRefused(joint) => write!(text, "{name} would have {joint} driven in two modes")?,
        Cause::NotReady => write!(text, "{name} is not ready")?,
        Cause::NoSuchMove => write!(text, "{name} cannot go there")?,
        Cause::InUse(controller) => write!(text, "{name} is in use by {controller}")?,
    }
    Ok(())
}

/// Appends that a name claims a reference without its controller, or that this is a reference of its own.
fn push_missing(text: &mut String, name: &Name, missing: &IfaceName) -> Result<(), Memory>
    ensures { OnOk result (string_bytes text.new ≡ string_bytes text.old ++ missing_words name.now missing.now) }
{
    if is_reference_of(missing, name) {
        write!(text, "{name} is needed, because {missing} is claimed")?;
    } else {
        write!(
            text,
            "{name} claims {missing}, whose controller would not be active"
        )?;
    }
    Ok(())
}

/// Appends what would mend it.
pub fn push_cause_mend(text: &mut String, name: &Name, cause: &Cause) -> Result<(), Memory>
    ensures { OnOk result (string_bytes text.new ≡ string_bytes text.old ++ cause_mend name.now cause.now) }
{
    match cause {
        Cause::NoGroup => write!(
            text,
            "describe the group {name}, or name a controller without an @"
        )?,
        Cause::Unknown => text.push_str(UNKNOWN_MEND)?,
        Cause::Twice => write!(text, "name {name} once in each list")?,
        Cause::NotActive => write!(text, "leave {name} off the list to deactivate")?,
        Cause::NotConfigured => write!(text, "configure {name} first")?,
        Cause::AlreadyActive => write!(text, "leave {name} off the list to activate")?,
        Cause::MissingFollower(it) => push_missing_mend(text, name, it.get())?,
        Cause::Unavailable(it) => {
            let it = it.get();
            write!(
                text,
                "bring the component of {it} to inactive or active first, if it is not finalized"
            )?
        }
        Cause::Conflict(_, owner) => write!(
            text,
            "have only one of {name} and {owner} active at a time"
        )?,
        Cause::ModeRefused(joint) => write!(
            text,
            "have only one command interface of {joint} claimed at a time"
        )?,
        Cause::NotReady => write!(text, "ask for {name} again in a later cycle")?,
        Cause::NoSuchMove => write!(text, "leave {name} as it is, because it is finalized")?,
        Cause::InUse(controller) => write!(text, "deactivate {controller} first")?,
    }
    Ok(())
}

/// Appends what would mend that a fallback was left out.
pub fn push_fallback_mend(text: &mut String, name: &Name, cause: &Cause) -> Result<(), Memory>
    ensures { OnOk result (string_bytes text.new ≡ string_bytes text.old ++ fallback_mend name.now cause.now) }
{
    match cause {
        Cause::Unknown => write!(text, "load and configure {name} first")?,
        Cause::Twice => write!(text, "nothing, {name} is asked for once")?,
        Cause::AlreadyActive => write!(text, "nothing, {name} goes on")?,
        _ => push_cause_mend(text, name, cause)?,
    }
    Ok(())
}

/// Appends what would mend that a reference has no active controller, or one that is needed.
fn push_missing_mend(text: &mut String, name: &Name, missing: &IfaceName) -> Result<(), Memory>
    ensures { OnOk result (string_bytes text.new ≡ string_bytes text.old ++ missing_mend name.now missing.now) }
{
    if is_reference_of(missing, name) {
        write!(text, "deactivate the controller that claims {missing}, too")?;
    } else {
        write!(
            text,
            "have the controller of {missing} active whenever {name} is"
        )?;
    }
    Ok(())
}
