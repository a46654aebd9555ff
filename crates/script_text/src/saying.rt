//! What one line says, wherever it stands.

ghost use Rattle.std.specs.Prelude.{Ok};
ghost use Rattle.sequence.specs.Answers.{Answers};
ghost use Rattle.script_text.specs.Said.{said_by};

use crate::grammar::line_of;
use crate::lines::bare_line;
use crate::words::{begins_comment, next_word};
use cm_document::{ScriptFault, ScriptLine, whole_grammar};
use std::alloc::Global;

/// What a line says, wherever it stands; nothing if it is skipped or has no form. `Memory` if memory ran out.
pub fn said_by(alloc: Global, line: &[u8]) -> Result<Option<ScriptLine>, ScriptFault>
    ensures { Answers ScriptFault.Memory (Ok (said_by line.now)) result }
{
    let Some((first, rest)) = next_word(bare_line(line)) else {
        return Ok(None);
    };
    if begins_comment(first) {
        return Ok(None);
    }
    line_of(alloc, whole_grammar(), first, rest)
}
