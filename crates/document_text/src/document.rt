//! The document that some bytes are: description and script, each accepted or told by its first fault.

ghost use Rattle.std.specs.Prelude.{◌≡◌, ◌≢◌, ◌+◌, ◌<◌, ◌≤◌, ◌^◌, length, option_map};
ghost use Rattle.std.specs.Prelude.{unwrap_or, Ok, Err, IfOk, IfErr, MatchResult};
ghost use Rattle.sequence.specs.Answers.{Answers};
ghost use Rattle.cm_document.specs.declared.limits.TheConstants.{LONGEST_DOCUMENT};
ghost use Rattle.cm_document.specs.Reading.{fault_as};
ghost use Rattle.cm_document.specs.Document.{accepted_description, accepted_script, document_of, document};
ghost use Rattle.cm_document.specs.Grammars.{whole_grammar};
ghost use Rattle.cm_document.specs.ScriptLaws.{MeetsRules};
ghost use Rattle.cm_document.specs.Valid.{valid, IsDescribed};
ghost use Rattle.document_text.specs.Plain.{IsPlainFault};
ghost use Rattle.document_text.specs.Traced.{traced};

use crate::parts::{divide, divide_twice};
use cm_document::{
    CheckFault, Checked, DescFault, DescProblem, Description, Document, DocumentFault, Script,
    ScriptFault,
};
use desc_check::check;
use desc_text::read_description;
use script_text::read_script;
use std::alloc::Global;

/// The document that these bytes are, or its first fault: the description's comes before the script's.
#[tactic(auto, unfolding(cm_document::specs::Document::document_of))]
pub fn read_document(alloc: Global, bytes: &[u8]) -> Result<Document, DocumentFault>
    requires { length bytes.now ≤ LONGEST_DOCUMENT }
    ensures reads { Answers DocumentFault.Memory (document whole_grammar bytes.now) result }
    ensures plain { IfErr result IsPlainFault }
{
    let parts = divide(bytes);
    let description = description(alloc, parts.description)?;
    let script = script(alloc, parts.lines, parts.script)?;
    Ok(Document {
        description,
        script,
    })
}

/// A document with the trace that stands behind its script.
#[derive(Drop)]
pub struct Traced<'a> {
    /// The description with its script.
    pub document: Document,
    /// All bytes behind the separator of the trace.
    pub trace: &'a [u8],
}

/// The document with its trace that these bytes are, or its first fault. The fault of a trace that is missing comes
/// last.
#[tactic(auto, unfolding(cm_document::specs::Document::document_of, crate::specs::Traced::traced))]
pub fn read_traced(alloc: Global, bytes: &[u8]) -> Result<Traced<'_>, DocumentFault>
    requires { length bytes.now ≤ LONGEST_DOCUMENT }
    ensures reads { MatchResult result
        (λ t. traced bytes.now ≡ Ok (record { document = t.document; trace = t.trace.now }))
        (λ fault. (fault ≢ DocumentFault.Memory) → traced bytes.now ≡ Err fault) }
    ensures plain { IfErr result IsPlainFault }
    ensures keeps { IfOk result
        (λ t. MeetsRules t.document.script × (length t.trace.now ≤ length bytes.now)) }
{
    let thirds = divide_twice(bytes);
    let description = description(alloc, thirds.description)?;
    let script = script(alloc, thirds.lines, thirds.script)?;
    let Some(trace) = thirds.trace else {
        return Err(DocumentFault::Script(ScriptFault::BadLine(thirds.all_lines as u32 + 1)));
    };
    Ok(Traced {
        document: Document {
            description,
            script,
        },
        trace,
    })
}

/// The description in its text: read, and then checked; or its first fault.
#[tactic(auto, unfolding(cm_document::specs::Document::accepted_description), using(crate::proofs::PlainLemmas::plain_faults))]
fn description(alloc: Global, text: &[u8]) -> Result<Checked, DocumentFault>
    ensures reads { Answers DocumentFault.Memory (fault_as DocumentFault.Description (accepted_description text.now))
        result }
    ensures plain { IfErr result IsPlainFault }
{
    match read_description(alloc, text) {
        Ok(description) => checked(alloc, description),
        Err(DescFault::Memory) => Err(DocumentFault::Memory),
        Err(fault) => Err(DocumentFault::Description(DescProblem::Text(fault))),
    }
}

/// A description that was read, checked.
#[tactic(auto, using(crate::proofs::PlainLemmas::plain_faults))]
fn checked(alloc: Global, description: Description) -> Result<Checked, DocumentFault>
    requires described { IsDescribed description }
    ensures reads { Answers DocumentFault.Memory
        (fault_as DocumentFault.Description (fault_as DescProblem.Check (valid description))) result }
    ensures plain { IfErr result IsPlainFault }
{
    match check(alloc, description) {
        Ok(checked) => Ok(checked),
        Err(CheckFault::Memory) => Err(DocumentFault::Memory),
        Err(fault) => Err(DocumentFault::Description(DescProblem::Check(fault))),
    }
}

/// The script after so many lines of description and a separator, or its first bad line. Lines are counted from 1 over
/// the whole document; without a separator the line after the last is bad.
#[tactic(auto, using(crate::proofs::PlainLemmas::plain_faults, cm_document::proofs::LineLemmas::raw_lines_within))]
fn script(alloc: Global, lines: usize, text: Option<&[u8]>) -> Result<Script, DocumentFault>
    requires { lines + unwrap_or (option_map (λ t. length t.now) text) 0 + 2 < 2 ^ 32 }
    ensures reads { Answers DocumentFault.Memory
        (fault_as DocumentFault.Script
        (accepted_script whole_grammar lines (option_map (λ t. t.now) text.entry))) result }
    ensures plain { IfErr result IsPlainFault }
{
    let Some(text) = text else {
        return Err(DocumentFault::Script(ScriptFault::BadLine(lines as u32 + 1)));
    };
    match read_script(alloc, text, lines as u32 + 2) {
        Ok(script) => Ok(script),
        Err(ScriptFault::Memory) => Err(DocumentFault::Memory),
        Err(fault) => Err(DocumentFault::Script(fault)),
    }
}
