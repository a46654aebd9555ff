//! Switches: what is to be activated, and what deactivated.

ghost use Rattle.std.specs.Prelude.{◌≡◌, Some, Ok, option_map};
ghost use Rattle.sequence.specs.Answers.{Answers};
ghost use Rattle.cm_document.specs.Lines.{words};
ghost use Rattle.cm_document.specs.LineGrammar.{name_word, pick_word, behind, switch_in};
ghost use Rattle.cm_document.specs.declared.call.Pick.TheVariants.{One, Group};

use crate::words::next_word;
use cm_document::{Pick, ScriptFault, SwitchRequest};
use iface_names::{Name, NameFault};
use sequence::Seq;
use std::alloc::Global;

/// A switch of a text's words, each a signed name of a controller or a group; each list keeps its order.
#[tactic(auto, using(crate::proofs::SwitchLemmas::signed_so_far))]
pub fn switch(
    alloc: Global,
    strict: bool,
    text: &[u8],
) -> Result<Option<SwitchRequest>, ScriptFault>
    ensures { Answers ScriptFault.Memory (Ok (switch_in (Some strict) (words text.now))) result }
{
    let mut on = Seq::new(alloc);
    let mut off = Seq::new(alloc);
    let mut left = text;
    while let Some((word, more)) = next_word(left) {
        left = more;
        if let Some(pick) = behind(alloc, b'+', word)? {
            on.push(pick)?;
            continue;
        }
        let Some(pick) = behind(alloc, b'-', word)? else {
            return Ok(None);
        };
        off.push(pick)?;
    }
    Ok(Some(SwitchRequest { on, off, strict }))
}

/// What stands behind this sign, where the word begins with it.
fn behind(alloc: Global, sign: u8, word: &[u8]) -> Result<Option<Pick>, ScriptFault>
    ensures { Answers ScriptFault.Memory (Ok (behind sign word.now)) result }
{
    match word.split_first() {
        Some((first, text)) if *first == sign => pick(alloc, text),
        _ => Ok(None),
    }
}

/// The controller that a word names, or, behind an `@`, the group.
fn pick(alloc: Global, word: &[u8]) -> Result<Option<Pick>, ScriptFault>
    ensures { Answers ScriptFault.Memory (Ok (pick_word word.now)) result }
{
    match word.split_first() {
        Some((b'@', text)) => group(alloc, text),
        Some(_) => one(alloc, word),
        None => Ok(None),
    }
}

/// The group of this name.
fn group(alloc: Global, text: &[u8]) -> Result<Option<Pick>, ScriptFault>
    ensures { Answers ScriptFault.Memory (Ok (option_map Group (name_word text.now))) result }
{
    Ok(name(alloc, text)?.map(Pick::Group))
}

/// The controller of this name.
fn one(alloc: Global, text: &[u8]) -> Result<Option<Pick>, ScriptFault>
    ensures { Answers ScriptFault.Memory (Ok (option_map One (name_word text.now))) result }
{
    Ok(name(alloc, text)?.map(Pick::One))
}

/// The name that a word is, where it follows the naming rule.
pub fn name(alloc: Global, word: &[u8]) -> Result<Option<Name>, ScriptFault>
    ensures { Answers ScriptFault.Memory (Ok (name_word word.now)) result }
{
    match Name::read(alloc, word) {
        Ok(name) => Ok(Some(name)),
        Err(NameFault::BadName) => Ok(None),
        Err(NameFault::Memory) => Err(ScriptFault::Memory),
    }
}
