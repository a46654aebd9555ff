//! How a script prints: a line for each session, call and turn.

ghost use Rattle.std.specs.Prelude.{◌≡◌, ◌++◌, OnOk, IfOk, flat_map, codes, string_bytes};
ghost use Rattle.cm_document.specs.CallText.{call_text, session_text, session_name};
ghost use Rattle.cm_document.specs.CallText.{turn_text, schedule_text, script_text};
ghost use Rattle.cm_document.specs.ScriptLaws.{ReadsBack};

use cm_document::{Call, Script, SessionText, Turn, Verb};
use fixed_num::Memory;
use std::alloc::Global;

/// The text of a script: each session's line with its calls behind it, and `schedule` with the turns where there are
/// some. Words are parted by single spaces, numbers have one spelling, and a switch names those to deactivate first.
#[tactic(auto, using(crate::proofs::PrintScriptLemmas::printed_reads_back))]
pub fn print_script(alloc: Global, script: &Script) -> Result<Vec<u8>, Memory>
    ensures printed { IfOk result (λ text. text.items ≡ script_text script.now) }
    ensures reads_back { IfOk result (λ text. ReadsBack script.now text.items) }
{
    let text = text_of(alloc, script)?;
    Ok(text.into_bytes())
}

#[tactic(auto, unfolding(cm_document::specs::CallText::script_text))]
fn text_of(alloc: Global, script: &Script) -> Result<String, Memory>
    ensures { IfOk result (λ text. string_bytes text ≡ script_text script.now) }
{
    let mut text = String::new(alloc);
    let sessions = script.sessions.as_slice();
    push_sessions(&mut text, sessions)?;
    push_schedule(&mut text, sessions, script.schedule.as_slice())?;
    Ok(text)
}

fn push_sessions(text: &mut String, sessions: &[SessionText]) -> Result<(), Memory>
    ensures { OnOk result (string_bytes text.new ≡ string_bytes text.old ++ flat_map session_text sessions.now) }
{
    for session in sessions {
        push_session(text, session)?;
    }
    Ok(())
}

/// Appends a session's line and a line for each of its calls.
fn push_session(text: &mut String, session: &SessionText) -> Result<(), Memory>
    ensures { OnOk result (string_bytes text.new ≡ string_bytes text.old ++ session_text session.now) }
{
    let name = &session.name;
    write!(text, "{} {name}\n", Verb::Session)?;
    push_calls(text, session.lines.as_slice())
}

fn push_calls(text: &mut String, calls: &[Call]) -> Result<(), Memory>
    ensures { OnOk result
        (string_bytes text.new
        ≡ string_bytes text.old ++ flat_map (λ call. call_text call ++ codes "\n") calls.now) }
{
    for call in calls {
        write!(text, "{call}\n")?;
    }
    Ok(())
}

/// Appends the schedule, where there are turns.
fn push_schedule(text: &mut String, sessions: &[SessionText], turns: &[Turn]) -> Result<(), Memory>
    ensures { OnOk result (string_bytes text.new ≡ string_bytes text.old ++ schedule_text sessions.now turns.now) }
{
    if turns.is_empty() {
        return Ok(());
    }
    write!(text, "{}\n", Verb::Schedule)?;
    push_turns(text, sessions, turns)
}

fn push_turns(text: &mut String, sessions: &[SessionText], turns: &[Turn]) -> Result<(), Memory>
    ensures { OnOk result
        (string_bytes text.new ≡ string_bytes text.old ++ flat_map (turn_text sessions.now) turns.now) }
{
    for turn in turns {
        push_turn(text, sessions, turn)?;
    }
    Ok(())
}

fn push_turn(text: &mut String, sessions: &[SessionText], turn: &Turn) -> Result<(), Memory>
    ensures { OnOk result (string_bytes text.new ≡ string_bytes text.old ++ turn_text sessions.now turn.now) }
{
    match turn {
        Turn::Step(who) => {
            let name = name_of(sessions, *who);
            write!(text, "{} {name}\n", Verb::Step)?;
        }
        Turn::Begin => write!(text, "{}\n", Verb::Begin)?,
        Turn::End => write!(text, "{}\n", Verb::End)?,
    }
    Ok(())
}

/// The name of the session with this number.
fn name_of(sessions: &[SessionText], who: u32) -> &str
    ensures { result.now ≡ session_name sessions.now who }
{
    match sessions.get(who as usize) {
        Some(session) => session.name.as_str(),
        None => "",
    }
}
