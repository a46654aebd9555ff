//! Whole scripts, line by line.

ghost use Rattle.std.specs.Prelude.{◌≡◌, ◌+◌, ◌<◌, ◌^◌, length};
ghost use Rattle.sequence.specs.Answers.{Answers};
ghost use Rattle.cm_document.specs.Lines.{raw_lines};
ghost use Rattle.cm_document.specs.ScriptRules.{nothing, with_line, with_lines, script_with};
ghost use Rattle.cm_document.specs.Grammars.{whole_grammar};

use crate::grammar::line_of;
use crate::lines::{bare_line, first_line};
use crate::rules::Draft;
use crate::words::{begins_comment, next_word};
use cm_document::{Grammar, LONGEST_LINE, Script, ScriptFault, whole_grammar};
use std::alloc::Global;

/// The script of this text, whose first line has this number in its document; or the first bad line. `Memory` where
/// memory ran out.
pub fn read_script(alloc: Global, text: &[u8], first_line: u32) -> Result<Script, ScriptFault>
    requires fits { first_line + length (raw_lines text.now) < 2 ^ 32 }
    ensures { Answers ScriptFault.Memory (script_with whole_grammar first_line text.now) result }
{
    read_script_with(alloc, whole_grammar(), text, first_line)
}

/// The script of this text by this grammar, its first line having this number; or the first bad line.
/// `Memory` where memory ran out.
#[tactic(auto, unfolding(cm_document::specs::ScriptRules::script_with))]
pub fn read_script_with(
    alloc: Global,
    grammar: Grammar,
    text: &[u8],
    first_line: u32,
) -> Result<Script, ScriptFault>
    requires fits { first_line + length (raw_lines text.now) < 2 ^ 32 }
    ensures { Answers ScriptFault.Memory (script_with grammar first_line text.now) result }
{
    Ok(read_lines(alloc, grammar, text, first_line)?.into_script(alloc))
}

/// What stands after all lines, of which the first has this number.
fn read_lines(
    alloc: Global,
    grammar: Grammar,
    text: &[u8],
    first: u32,
) -> Result<Draft, ScriptFault>
    requires fits { first + length (raw_lines text.now) < 2 ^ 32 }
    ensures { Answers ScriptFault.Memory (with_lines grammar first nothing (raw_lines text.now)) result }
{
    let mut draft = Draft::new(alloc);
    let mut line = first;
    let mut rest = text;
    while !rest.is_empty() {
        let (raw, more) = first_line(rest);
        draft = with_line(alloc, grammar, line, draft, raw)?;
        line += 1;
        rest = more;
    }
    Ok(draft)
}

/// What stands after a line of this number.
#[tactic(auto, unfolding(cm_document::specs::ScriptRules::with_line))]
fn with_line(
    alloc: Global,
    grammar: Grammar,
    line: u32,
    draft: Draft,
    raw: &[u8],
) -> Result<Draft, ScriptFault>
    ensures { Answers ScriptFault.Memory (with_line grammar line draft raw.now) result }
{
    let text = bare_line(raw);
    let Some((first, rest)) = next_word(text) else {
        return Ok(draft);
    };
    if begins_comment(first) {
        return Ok(draft);
    }
    if text.len() > LONGEST_LINE {
        return Err(ScriptFault::BadLine(line));
    }
    draft.with_said(alloc, grammar, line, line_of(alloc, grammar, first, rest)?)
}
