//! The calls that a session's lines make, behind their verbs.

ghost use Rattle.std.specs.Prelude.{◌≡◌, Ok, option_map};
ghost use Rattle.std.specs.Option.{option_and_then};
ghost use Rattle.sequence.specs.Answers.{Answers};
ghost use Rattle.cm_document.specs.Lines.{words};
ghost use Rattle.cm_document.specs.LineGrammar.{name_word, whole_word, rate_in, send_in, hardware_in};
ghost use Rattle.cm_document.specs.declared.call.Call.TheVariants as call;
ghost use Rattle.script_text.specs.FewWords.{only};
ghost use Rattle.script_text.specs.SwitchWords.{switch_words};

use crate::mail::mail;
use crate::numbers::{whole, whole_up_to};
use crate::switches::{name, switch};
use crate::verbs::{life, strictness};
use crate::words::{next_word, only_word, two_words};
use cm_document::{Call, HIGHEST_RATE, ScriptFault};
use iface_names::Name;
use std::alloc::Global;

/// The one name of a line like `load NAME`.
pub fn one_name(alloc: Global, rest: &[u8]) -> Result<Option<Name>, ScriptFault>
    ensures { Answers ScriptFault.Memory (Ok (option_and_then name_word (only (words rest.now)))) result }
{
    match only_word(rest) {
        Some(word) => name(alloc, word),
        None => Ok(None),
    }
}

/// `rate NAME HZ`, of at most the highest rate.
#[tactic(auto, using(crate::proofs::GrammarLemmas::rate_pair))]
pub fn rate(alloc: Global, rest: &[u8]) -> Result<Option<Call>, ScriptFault>
    ensures { Answers ScriptFault.Memory (Ok (rate_in (words rest.now))) result }
{
    let Some((word, hertz)) = two_words(rest) else {
        return Ok(None);
    };
    let Some(name) = name(alloc, word)? else {
        return Ok(None);
    };
    Ok(whole_up_to(HIGHEST_RATE, hertz).map(|hz| Call::Rate { name, hz }))
}

/// `send NAME ..`, values or points.
pub fn send(alloc: Global, rest: &[u8]) -> Result<Option<Call>, ScriptFault>
    ensures { Answers ScriptFault.Memory (Ok (send_in (words rest.now))) result }
{
    let Some((word, text)) = next_word(rest) else {
        return Ok(None);
    };
    let Some(name) = name(alloc, word)? else {
        return Ok(None);
    };
    Ok(mail(alloc, text)?.map(|mail| Call::Send { name, mail }))
}

/// `switch strict ..` and `switch best ..`.
pub fn switched(alloc: Global, rest: &[u8]) -> Result<Option<Call>, ScriptFault>
    ensures { Answers ScriptFault.Memory (Ok (option_map call.Switch (switch_words (words rest.now)))) result }
{
    let Some((word, text)) = next_word(rest) else {
        return Ok(None);
    };
    let Some(strict) = strictness(word) else {
        return Ok(None);
    };
    Ok(switch(alloc, strict, text)?.map(Call::Switch))
}

/// `hw NAME STATE`.
#[tactic(auto, using(crate::proofs::GrammarLemmas::hardware_pair))]
pub fn hardware(alloc: Global, rest: &[u8]) -> Result<Option<Call>, ScriptFault>
    ensures { Answers ScriptFault.Memory (Ok (hardware_in (words rest.now))) result }
{
    let Some((word, state)) = two_words(rest) else {
        return Ok(None);
    };
    let Some(component) = name(alloc, word)? else {
        return Ok(None);
    };
    Ok(life(state).map(|target| Call::Hardware { component, target }))
}

/// `await N`.
pub fn await_cycles(rest: &[u8]) -> Option<Call>
    ensures { result ≡ option_map call.Await (option_and_then whole_word (only (words rest.now))) }
{
    match only_word(rest) {
        Some(word) => whole(word).map(|cycles| Call::Await(u64::from(cycles))),
        None => None,
    }
}
