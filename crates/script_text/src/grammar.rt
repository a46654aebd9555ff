//! The grammar of a script's lines: what the words of a line say.

ghost use Rattle.std.specs.Prelude.{◌≡◌, ◌∷◌, Ok};
ghost use Rattle.sequence.specs.Answers.{Answers};
ghost use Rattle.cm_document.specs.Lines.{words};
ghost use Rattle.cm_document.specs.LineGrammar.{where_accepted, a_call, list_in, said, line_of};
ghost use Rattle.script_text.specs.FewWords.{alone};

use crate::calls::{await_cycles, hardware, one_name, rate, send, switched};
use crate::verbs::{list, verb};
use crate::words::{next_word, only_word};
use cm_document::{Call, Grammar, ScriptFault, ScriptLine, Verb};
use std::alloc::Global;

/// What a line says whose first word is this one and whose other words stand in `rest`; nothing where it has no form.
pub fn line_of(
    alloc: Global,
    grammar: Grammar,
    first: &[u8],
    rest: &[u8],
) -> Result<Option<ScriptLine>, ScriptFault>
    ensures { Answers ScriptFault.Memory (Ok (line_of grammar (first.now ∷ words rest.now))) result }
{
    match verb(first) {
        Some(verb) => said(alloc, grammar, verb, rest),
        None => Ok(None),
    }
}

/// What a line says that begins with this verb and goes on with the words of `rest`.
#[tactic(auto, using(crate::proofs::GrammarLemmas::by_words))]
fn said(
    alloc: Global,
    grammar: Grammar,
    verb: Verb,
    rest: &[u8],
) -> Result<Option<ScriptLine>, ScriptFault>
    ensures { Answers ScriptFault.Memory (Ok (said grammar verb (words rest.now))) result }
{
    Ok(match verb {
        Verb::Session => one_name(alloc, rest)?.map(ScriptLine::Session),
        Verb::Load => a_call(grammar.load, one_name(alloc, rest)?.map(Call::Load)),
        Verb::Configure => a_call(
            grammar.configure,
            one_name(alloc, rest)?.map(Call::Configure),
        ),
        Verb::Cleanup => a_call(grammar.cleanup, one_name(alloc, rest)?.map(Call::Cleanup)),
        Verb::Unload => a_call(grammar.unload, one_name(alloc, rest)?.map(Call::Unload)),
        Verb::Rate => a_call(grammar.rate, rate(alloc, rest)?),
        Verb::Send => a_call(grammar.send, send(alloc, rest)?),
        Verb::Switch => a_call(grammar.switch, switched(alloc, rest)?),
        Verb::Hardware => a_call(grammar.hardware, hardware(alloc, rest)?),
        Verb::Await => a_call(grammar.await_cycles, await_cycles(rest)),
        Verb::List => list_line(grammar, rest),
        Verb::Schedule => alone(grammar.schedule, ScriptLine::Schedule, rest),
        Verb::Step => where_accepted(
            grammar.schedule,
            one_name(alloc, rest)?.map(ScriptLine::Step),
        ),
        Verb::Begin => alone(grammar.schedule, ScriptLine::Begin, rest),
        Verb::End => alone(grammar.schedule, ScriptLine::End, rest),
    })
}

/// What a line says where its form is accepted.
fn where_accepted(accepted: bool, says: Option<ScriptLine>) -> Option<ScriptLine>
    ensures { result ≡ where_accepted accepted says }
{
    if accepted { says } else { None }
}

/// A line that makes this call, where its form is accepted.
fn a_call(accepted: bool, call: Option<Call>) -> Option<ScriptLine>
    ensures { result ≡ where_accepted accepted (a_call call) }
{
    where_accepted(accepted, call.map(ScriptLine::Call))
}

/// `schedule`, `begin` and `end`: no word stands behind the verb.
fn alone(accepted: bool, says: ScriptLine, rest: &[u8]) -> Option<ScriptLine>
    ensures { result ≡ where_accepted accepted (alone says (words rest.now)) }
{
    match next_word(rest) {
        None => where_accepted(accepted, Some(says)),
        Some(_) => None,
    }
}

/// `list controllers`, `list interfaces`, `list components`.
#[tactic(auto, using(crate::proofs::GrammarLemmas::list_only))]
fn list_line(grammar: Grammar, rest: &[u8]) -> Option<ScriptLine>
    ensures { result ≡ list_in grammar (words rest.now) }
{
    let Some(word) = only_word(rest) else {
        return None;
    };
    let Some((accepted, call)) = list(grammar, word) else {
        return None;
    };
    a_call(accepted, Some(call))
}
