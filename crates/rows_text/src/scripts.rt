//! Scripts in their text, each with what is read of it or with its first bad line.

mod lines;
mod long;
mod printed;
mod sessions;

use crate::checks::in_words;
use cm_document::{Script, ScriptFault, SessionText, Turn, whole_grammar};
use lines::{BYTES, CALLS_ON_NAMES, POINTS, SWITCHES, VALUES, WHOLE_NUMBERS};
use long::{CALLS_AND_TURNS, LONG_LINES, SIZES_OF_CALLS};
use pages_cases::pages::{Teller, hold, hold_lines};
use printed::PRINTED;
pub(crate) use printed::Prints;
use script_text::{read_script, read_script_with};
use sessions::{FORMS_FURTHER_BELOW, ONE_FAULT_COUNTS, SCHEDULES, SESSIONS};
use std::alloc::Global;
use std::test::Fail;

/// The longest text that is tried.
const LONGEST: usize = 1_048_576;

/// What is read of a script where every form is accepted.
#[tactic(auto, using(cm_document::proofs::LineLemmas::raw_lines_within))]
fn read_every_form(alloc: Global, text: &str) -> Result<Result<Script, ScriptFault>, Fail> {
    let bytes = text.as_bytes();
    if bytes.len() > LONGEST {
        return Err(Fail::new("a text too long"));
    }
    Ok(read_script_with(alloc, whole_grammar(), bytes, 1))
}

/// The same where the first line is line 20.
#[tactic(auto, using(cm_document::proofs::LineLemmas::raw_lines_within))]
fn read_further_below(alloc: Global, text: &str) -> Result<Result<Script, ScriptFault>, Fail> {
    let bytes = text.as_bytes();
    if bytes.len() > LONGEST {
        return Err(Fail::new("a text too long"));
    }
    Ok(read_script(alloc, bytes, 20))
}

/// Tells a script where every form is accepted, or the first bad line.
#[derive(Clone, Copy)]
struct EveryForm;

impl Teller for EveryForm {
    fn told(&self, alloc: Global, text: &str) -> Result<String, Fail> {
        told_of(alloc, read_every_form(alloc, text)?)
    }
}

/// The same where the first line is line 20.
#[derive(Clone, Copy)]
struct FormsFurtherBelow;

impl Teller for FormsFurtherBelow {
    fn told(&self, alloc: Global, text: &str) -> Result<String, Fail> {
        told_of(alloc, read_further_below(alloc, text)?)
    }
}

/// What is told of a script that was read, or of its first bad line.
fn told_of(alloc: Global, read: Result<Script, ScriptFault>) -> Result<String, Fail> {
    match read {
        Ok(script) => {
            let told = told(alloc, &script);
            drop(script);
            told
        }
        Err(fault) => in_words(alloc, fault),
    }
}

/// The sessions with their calls, and the turns, each behind a bar; or that there are none.
fn told(alloc: Global, script: &Script) -> Result<String, Fail> {
    let mut text = String::new(alloc);
    for session in script.sessions.as_slice() {
        push_session(&mut text, session)?;
    }
    push_turns(&mut text, script.schedule.as_slice())?;
    if text.is_empty() {
        text.push_str("empty")?;
    }
    Ok(text)
}

fn push_session(text: &mut String, session: &SessionText) -> Result<(), Fail> {
    write!(text, "|{}", session.name)?;
    for call in session.lines.as_slice() {
        write!(text, "|{call}")?;
    }
    Ok(())
}

fn push_turns(text: &mut String, turns: &[Turn]) -> Result<(), Fail> {
    for turn in turns {
        match turn {
            Turn::Step(who) => write!(text, "|step {who}")?,
            Turn::Begin => text.push_str("|begin")?,
            Turn::End => text.push_str("|end")?,
        }
    }
    Ok(())
}

#[test]
fn scripts_are_read_or_told_by_their_first_bad_line(rt: HostRuntime) -> Result<(), Fail> {
    let alloc = rt.alloc();
    hold(alloc, &EveryForm, "", SESSIONS)?;
    hold(alloc, &EveryForm, "", SCHEDULES)?;
    hold(alloc, &EveryForm, "", ONE_FAULT_COUNTS)?;
    hold(alloc, &FormsFurtherBelow, "", FORMS_FURTHER_BELOW)?;
    hold(alloc, &Prints, "", PRINTED)
}

/// What stands before a line alone.
const BEGUN: &str = "session a\n";

#[test]
fn each_line_is_a_call_or_bad(rt: HostRuntime) -> Result<(), Fail> {
    let alloc = rt.alloc();
    for page in [
        CALLS_ON_NAMES,
        WHOLE_NUMBERS,
        VALUES,
        POINTS,
        SWITCHES,
        BYTES,
    ] {
        hold_lines(alloc, &OneCall, BEGUN, page)?;
    }
    Ok(())
}

#[test]
fn scripts_are_read_up_to_their_limits(rt: HostRuntime) -> Result<(), Fail> {
    let alloc = rt.alloc();
    hold(alloc, &CountsOfScript, "", CALLS_AND_TURNS)?;
    hold(alloc, &CountsOfScript, "", SIZES_OF_CALLS)?;
    hold(alloc, &CountsOfScript, "", LONG_LINES)
}

/// Tells the one call of the session `a`, as it prints; or `none`, or the first bad line.
#[derive(Clone, Copy)]
struct OneCall;

impl Teller for OneCall {
    fn told(&self, alloc: Global, text: &str) -> Result<String, Fail> {
        let told = EveryForm.told(alloc, text)?;
        Ok(String::from_str(alloc, one_call(told.as_str()))?)
    }
}

fn one_call(told: &str) -> &str {
    if told == "|a" {
        return "none";
    }
    told.strip_prefix("|a|").unwrap_or(told)
}

/// Tells how many sessions a script has where every form is accepted, and how many calls and turns; or the first bad
/// line.
#[derive(Clone, Copy)]
pub(crate) struct CountsOfScript;

impl Teller for CountsOfScript {
    fn told(&self, alloc: Global, text: &str) -> Result<String, Fail> {
        match read_every_form(alloc, text)? {
            Ok(script) => sizes(alloc, &script),
            Err(fault) => in_words(alloc, fault),
        }
    }
}

fn sizes(alloc: Global, script: &Script) -> Result<String, Fail> {
    let sessions = script.sessions.as_slice().len();
    Ok(format!(in alloc; "{sessions} and {}", count(script))?)
}

/// How many calls and turns a script has.
fn count(script: &Script) -> usize {
    let mut count = script.schedule.as_slice().len();
    for session in script.sessions.as_slice() {
        count = count.saturating_add(session.lines.as_slice().len());
    }
    count
}
