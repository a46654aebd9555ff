//! What was not done as asked, or went wrong, as lines of plain text: why, and below that what would mend it.

use crate::causes::{push_answered, push_asked, push_fallback, push_when};
use cm_model::{Dropped, Outcome};
use draw_causes::{
    CLOSED_MEND, Failure, StopKind, failure_mend, failure_words, push_cause, push_cause_mend,
    push_fallback_mend, push_stop, push_stop_mend, why_mend,
};
use draw_replay::{Answered, Became, Incident, Replay};
use fixed_num::Memory;
use iface_names::Name;

/// What is told if there is nothing to tell.
const NOTHING: &str = "Nothing was refused, left out or stopped, and nothing failed.\n";

/// What stands before what would mend something.
const MEND: &str = "\n    mend: ";

/// Appends all that was not done as asked, or went wrong.
pub fn push_whys(text: &mut String, replay: &Replay<'_>) -> Result<(), Memory> {
    if replay.incidents.is_empty() {
        text.push_str(NOTHING)?;
    }
    for incident in &replay.incidents {
        push_incident(text, replay, incident)?;
    }
    Ok(())
}

fn push_incident(
    text: &mut String,
    replay: &Replay<'_>,
    incident: &Incident<'_>,
) -> Result<(), Memory> {
    match *incident {
        Incident::Answered(number) => match replay.answered.get(number) {
            Some(answered) => push_became(text, answered),
            None => Ok(()),
        },
        Incident::Failed {
            cycle,
            name,
            failure,
        } => push_failed(text, cycle, name, failure),
        Incident::Stopped {
            cycle,
            name,
            kind,
            because_of,
        } => push_stopped(text, cycle, name, kind, because_of),
    }
}

/// Appends what failed.
fn push_failed(text: &mut String, cycle: u64, name: &Name, failure: Failure) -> Result<(), Memory> {
    let words = failure_words(failure);
    let mend = failure_mend(failure);
    write!(text, "cycle {cycle}, {name}: {words}{MEND}{mend}\n")?;
    Ok(())
}

/// Appends who was stopped, and why.
fn push_stopped(
    text: &mut String,
    cycle: u64,
    name: &Name,
    kind: StopKind,
    because_of: &Name,
) -> Result<(), Memory> {
    write!(text, "cycle {cycle}, {name}: stopped, ")?;
    push_stop(text, kind, because_of)?;
    text.push_str(MEND)?;
    push_stop_mend(text, name, kind, because_of)?;
    text.push_str("\n")?;
    Ok(())
}

/// Appends why a request was not wholly carried out, or why a call did nothing.
fn push_became(text: &mut String, answered: &Answered<'_>) -> Result<(), Memory> {
    match answered.became {
        Became::Not(why) => push_mended(text, answered, why_mend(why)),
        Became::Decided(Outcome::LoopEnded) => push_mended(text, answered, CLOSED_MEND),
        Became::Decided(Outcome::Refused(name, cause)) => {
            push_when(text, answered)?;
            push_answered(text, answered)?;
            text.push_str(MEND)?;
            push_cause_mend(text, name, cause.get())?;
            text.push_str("\n")?;
            Ok(())
        }
        Became::Decided(Outcome::Done { dropped }) => {
            push_all_dropped(text, answered, dropped.as_slice())
        }
    }
}

/// What became of a request or a call, with what would mend it.
fn push_mended(text: &mut String, answered: &Answered<'_>, mend: &str) -> Result<(), Memory> {
    push_when(text, answered)?;
    push_answered(text, answered)?;
    write!(text, "{MEND}{mend}\n")?;
    Ok(())
}

/// Each name that a request was carried out without.
fn push_all_dropped(
    text: &mut String,
    answered: &Answered<'_>,
    dropped: &[Dropped],
) -> Result<(), Memory> {
    for it in dropped {
        push_dropped(text, answered, it)?;
    }
    Ok(())
}

fn push_dropped(
    text: &mut String,
    answered: &Answered<'_>,
    dropped: &Dropped,
) -> Result<(), Memory> {
    push_when(text, answered)?;
    match answered.failed.is_empty() {
        true => push_asked(text, answered)?,
        false => push_fallback(text, answered.failed.as_slice(), &dropped.name)?,
    }
    text.push_str(": left out, ")?;
    push_cause(text, &dropped.name, &dropped.cause)?;
    text.push_str(MEND)?;
    match answered.failed.is_empty() {
        true => push_cause_mend(text, &dropped.name, &dropped.cause)?,
        false => push_fallback_mend(text, &dropped.name, &dropped.cause)?,
    }
    text.push_str("\n")?;
    Ok(())
}
