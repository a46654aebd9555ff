//! The sessions of a script, each before its first line.

ghost use Rattle.std.specs.Prelude.{◌≡◌, ◌<◌, ◌^◌, length, map, IfOk};
ghost use Rattle.std.specs.List.{All};
ghost use Rattle.console_session.specs.Sessions.{AreLines};
ghost use Rattle.desk_turns.specs.Jobs.{AreAtFirst};

use cm_document::SessionText;
use console_session::Session;
use fixed_num::Memory;
use std::alloc::Global;

/// The sessions of a script, each before its first line. The script lends them their lines.
pub fn waiting<'a>(alloc: Global, texts: &'a [SessionText]) -> Result<Vec<Session<'a>>, Memory>
    requires few { length texts.now < 2 ^ 32 }
    requires lines { All (λ s. AreLines s.lines) texts.now }
    ensures first { IfOk result (λ sessions. AreAtFirst 0 sessions.items) }
    ensures lines { IfOk result
        (λ sessions. map (λ x. x.lines) sessions.items ≡ map (λ s. s.lines) texts.now) }
{
    let mut sessions = Vec::with_capacity(alloc, texts.len())?;
    for text in texts {
        let who = sessions.len() as u32;
        sessions.push(Session::make(who, text))?;
    }
    Ok(sessions)
}
