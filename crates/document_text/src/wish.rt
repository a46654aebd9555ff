//! Documents of plans: the script has one session with one call, a strict switch that activates controllers by their
//! names.

ghost use Rattle.std.specs.Prelude.{◌≡◌, ◌+◌, ◌<◌, ◌≤◌, ◌^◌, length, [], None, Some};
ghost use Rattle.std.specs.Prelude.{Ok, Err, option_map, unwrap_or, IfErr, IfOk};
ghost use Rattle.sequence.specs.Answers.{Answers};
ghost use Rattle.cm_document.specs.Lines.{raw_lines};
ghost use Rattle.cm_document.specs.Picks.{picked_names};
ghost use Rattle.cm_document.specs.declared.limits.TheConstants.{LONGEST_DOCUMENT};
ghost use Rattle.document_text.specs.Plain.{IsPlainFault};
ghost use Rattle.script_text.specs.Said.{said_by};
ghost use Rattle.document_text.specs.Wished.{is_wish, opened_by, asked_by, stage_after, stage_behind};
ghost use Rattle.document_text.specs.Wished.{wishes_from, wishes_in};
ghost use Rattle.document_text.specs.Wished.{wished, wanted_in, named_first};

use crate::document::read_document;
use crate::parts::{Divided, divide};
use cm_document::{
    Call, Document, DocumentFault, Pick, Script, ScriptFault, ScriptLine, has_group,
};
use fixed_num::Memory;
use iface_names::Name;
use script_text::{first_line, said_by};
use sequence::Seq;
use std::alloc::Global;

/// How far the script of a plan has come.
#[derive(Clone, Copy, Debug, PartialEq, Eq)]
enum Stage {
    /// No line says anything yet.
    Bare,
    /// Its session has begun.
    Opened,
    /// And has asked for a switch.
    Asked,
}

/// The document that these bytes are for a plan, or its first fault: what breaks a script of a plan counts behind all
/// else.
#[tactic(auto, unfolding(crate::specs::Wished::wished), using(crate::proofs::PlainLemmas::plain_faults))]
pub fn read_wish(alloc: Global, bytes: &[u8]) -> Result<Document, DocumentFault>
    requires { length bytes.now ≤ LONGEST_DOCUMENT }
    ensures reads { Answers DocumentFault.Memory (wished bytes.now) result }
    ensures plain { IfErr result IsPlainFault }
{
    let document = read_document(alloc, bytes)?;
    let parts = divide(bytes);
    match wishes_in(alloc, &parts) {
        Ok(()) => Ok(document),
        Err(ScriptFault::Memory) => Err(DocumentFault::Memory),
        Err(fault) => Err(DocumentFault::Script(fault)),
    }
}

/// The script of these parts is that of a plan; else the first line that breaks it.
#[tactic(auto, using(cm_document::proofs::LineLemmas::raw_lines_within))]
fn wishes_in(alloc: Global, parts: &Divided<'_>) -> Result<(), ScriptFault>
    requires { parts.now.lines + unwrap_or (option_map (λ t. length t.now) parts.now.script) 0 + 2 < 2 ^ 32 }
    ensures { Answers ScriptFault.Memory (wishes_in
        (record { description = []; lines = parts.now.lines; script = option_map (λ t. t.now) parts.now.script }))
        result }
{
    match parts.script {
        Some(text) => wishes_from(alloc, text, parts.lines as u32 + 2),
        None => Ok(()),
    }
}

/// The lines of this text, of which the first has this number, are the script of a plan; else the first that breaks it.
fn wishes_from(alloc: Global, text: &[u8], first: u32) -> Result<(), ScriptFault>
    requires { first + length (raw_lines text.now) < 2 ^ 32 }
    ensures { Answers ScriptFault.Memory (wishes_from first Stage.Bare (raw_lines text.now)) result }
{
    let mut stage = Stage::Bare;
    let mut number = first;
    let mut rest = text;
    while !rest.is_empty() {
        let (line, more) = first_line(rest);
        stage = stage_behind(alloc, number, stage, line)?;
        number += 1;
        rest = more;
    }
    match stage {
        Stage::Asked => Ok(()),
        Stage::Bare | Stage::Opened => Err(ScriptFault::BadLine(number)),
    }
}

/// Where the script stands behind a line of this number.
fn stage_behind(alloc: Global, number: u32, stage: Stage, line: &[u8]) -> Result<Stage, ScriptFault>
    ensures { Answers ScriptFault.Memory (stage_behind number stage (said_by line.now)) result }
{
    let Some(says) = said_by(alloc, line)? else {
        return Ok(stage);
    };
    match stage_after(stage, &says) {
        Some(next) => Ok(next),
        None => Err(ScriptFault::BadLine(number)),
    }
}

/// Where it stands behind what a line says, if it may go on so.
fn stage_after(stage: Stage, says: &ScriptLine) -> Option<Stage>
    ensures { result ≡ stage_after stage says.now }
{
    match stage {
        Stage::Bare => opened_by(says),
        Stage::Opened => asked_by(says),
        Stage::Asked => None,
    }
}

/// Its session begins.
fn opened_by(says: &ScriptLine) -> Option<Stage>
    ensures { result ≡ opened_by says.now }
{
    match says {
        ScriptLine::Session(_) => Some(Stage::Opened),
        _ => None,
    }
}

/// And then asks.
fn asked_by(says: &ScriptLine) -> Option<Stage>
    ensures { result ≡ asked_by says.now }
{
    match says {
        ScriptLine::Call(call) if is_wish(call) => Some(Stage::Asked),
        _ => None,
    }
}

/// Whether a call is a strict switch that deactivates nothing and names no group.
fn is_wish(call: &Call) -> bool
    ensures { result ≡ is_wish call.now }
{
    match call {
        Call::Switch(request) => {
            request.strict && request.off.as_slice().len() == 0 && !has_group(request.on.as_slice())
        }
        _ => false,
    }
}

/// The names that a plan's script wants: those that the first call of its first session is to activate.
pub fn wanted_in(alloc: Global, script: &Script) -> Result<Seq<Name>, Memory>
    ensures { IfOk result (λ names. names ≡ wanted_in script.now) }
{
    match script.sessions.as_slice().first() {
        Some(session) => named_first(alloc, session.lines.as_slice()),
        None => Ok(Seq::new(alloc)),
    }
}

/// The names that the first of these calls is to activate.
fn named_first(alloc: Global, calls: &[Call]) -> Result<Seq<Name>, Memory>
    ensures { IfOk result (λ names. names ≡ named_first calls.now) }
{
    match calls.first() {
        Some(Call::Switch(request)) => picked_names(alloc, request.on.as_slice()),
        _ => Ok(Seq::new(alloc)),
    }
}

/// The names of the controllers that these pick by themselves.
fn picked_names(alloc: Global, picks: &[Pick]) -> Result<Seq<Name>, Memory>
    ensures { IfOk result (λ names. names ≡ picked_names picks.now) }
{
    let mut names = Seq::new(alloc);
    for pick in picks {
        if let Pick::One(name) = pick {
            names.push(name.clone()?)?;
        }
    }
    Ok(names)
}
