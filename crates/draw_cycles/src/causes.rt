//! What became of requests and calls, and why, in plain words.

use cm_document::{Call, CtlDesc, GroupDesc};
use cm_model::{Dropped, Outcome, Why};
use draw_causes::{push_cause, why_words};
use draw_replay::{Answered, Became};
use fixed_num::Memory;
use iface_names::Name;
use std::alloc::Global;

/// When a request was decided, or a call did nothing, who asked, what, and what became of it; behind that the trace's
/// own words.
pub fn answered_title(alloc: Global, answered: &Answered<'_>) -> Result<String, Memory> {
    let mut text = String::new(alloc);
    push_when(&mut text, answered)?;
    push_answered(&mut text, answered)?;
    match answered.became {
        Became::Decided(outcome) => write!(text, " ({outcome})")?,
        Became::Not(why) => write!(text, " ({why})")?,
    }
    Ok(text)
}

/// Appends when a request was decided, or a call did nothing, and who asked.
pub fn push_when(text: &mut String, answered: &Answered<'_>) -> Result<(), Memory> {
    let cycle = answered.cycle;
    match answered.became {
        Became::Decided(Outcome::LoopEnded) => text.push_str("at the close")?,
        Became::Not(Why::LoopEnded) => text.push_str("after the close")?,
        _ => write!(text, "cycle {cycle}")?,
    }
    if let Some(asked) = answered.asked {
        write!(text, ", {}", asked.who)?;
    }
    text.push_str(": ")?;
    Ok(())
}

/// Appends what was asked.
pub fn push_asked(text: &mut String, answered: &Answered<'_>) -> Result<(), Memory> {
    match (answered.asked, answered.ticket) {
        (Some(asked), _) => push_call(text, asked.call, answered.groups.as_slice())?,
        (None, Some(ticket)) => write!(text, "request {ticket}")?,
        (None, None) => push_fallbacks(text, answered.failed.as_slice())?,
    }
    Ok(())
}

/// Appends a call, and behind it the members of each group that it names.
fn push_call(text: &mut String, call: &Call, groups: &[&GroupDesc]) -> Result<(), Memory> {
    write!(text, "{call}")?;
    let mut before = " (";
    for group in groups {
        write!(text, "{before}{}: ", group.name)?;
        push_names(text, group.members.as_slice())?;
        before = "; ";
    }
    if !groups.is_empty() {
        text.push_str(")")?;
    }
    Ok(())
}

/// Appends the fallbacks of those whose updates failed, and whose they are.
fn push_fallbacks(text: &mut String, failed: &[&CtlDesc]) -> Result<(), Memory> {
    let mut before = "fallback ";
    for controller in failed {
        text.push_str(before)?;
        push_names(text, controller.fallback.as_slice())?;
        write!(text, " for {}", controller.name)?;
        before = ", and ";
    }
    Ok(())
}

fn push_names(text: &mut String, names: &[Name]) -> Result<(), Memory> {
    let mut before = "";
    for name in names {
        write!(text, "{before}{name}")?;
        before = " ";
    }
    Ok(())
}

/// Appends a fallback that is left out, and whose it is.
pub fn push_fallback(text: &mut String, failed: &[&CtlDesc], name: &Name) -> Result<(), Memory> {
    write!(text, "fallback {name}")?;
    let mut before = " for ";
    for controller in failed {
        if controller.fallback.as_slice().contains(name) {
            write!(text, "{before}{}", controller.name)?;
            before = " and ";
        }
    }
    Ok(())
}

/// Appends what was asked and what became of it.
pub fn push_answered(text: &mut String, answered: &Answered<'_>) -> Result<(), Memory> {
    push_asked(text, answered)?;
    match answered.became {
        Became::Decided(outcome) => push_outcome(text, outcome),
        Became::Not(why) => {
            text.push_str(": refused, ")?;
            text.push_str(why_words(why))?;
            Ok(())
        }
    }
}

/// Appends what became of a request.
fn push_outcome(text: &mut String, outcome: &Outcome) -> Result<(), Memory> {
    match outcome {
        Outcome::Done { dropped } => push_done(text, dropped.as_slice()),
        Outcome::Refused(name, cause) => {
            text.push_str(": refused, ")?;
            push_cause(text, name, cause.get())
        }
        Outcome::LoopEnded => {
            text.push_str(": not decided, the loop closed")?;
            Ok(())
        }
    }
}

/// Appends that a request was done, and what it was done without.
fn push_done(text: &mut String, dropped: &[Dropped]) -> Result<(), Memory> {
    text.push_str(": done")?;
    for it in dropped {
        let name = &it.name;
        write!(text, "; without {name}: ")?;
        push_cause(text, name, &it.cause)?;
    }
    Ok(())
}
