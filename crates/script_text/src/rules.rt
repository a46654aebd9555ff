//! The rules of a script: what stands after a line.

mod schedule;
mod sessions;

ghost use Rattle.std.specs.Prelude.{◌≡◌, Ok};
ghost use Rattle.sequence.specs.Answers.{Answers};
ghost use Rattle.cm_document.specs.ScriptRules.{nothing, script_in, with_session, with_call, with_said};

use crate::limits::call_fits;
use crate::rules::sessions::calling_last;
use cm_document::{
    Call, Grammar, MOST_CALLS, MOST_SESSIONS, Script, ScriptFault, ScriptLine, SessionText, Turn,
};
use iface_names::Name;
use sequence::Seq;
use std::alloc::Global;
use std::marker::Model;

/// What stands after some lines. How many calls and turns that makes is counted along.
#[derive(Debug, Drop)]
pub struct Draft {
    sessions: Seq<SessionText>,
    turns: Option<Seq<Turn>>,
    count: u32,
}

impl Model for Draft {
    ghost use Rattle.std.specs.Prelude.{◌≡◌, ◌≤◌, length};
    ghost use Rattle.cm_document.specs.declared.limits.TheConstants.{MOST_SESSIONS, MOST_CALLS};
    ghost use Rattle.cm_document.specs.ScriptRules.{Draft, script_in, calls_and_turns};

    ghost Value = { Draft };

    ghost view = { λ s. record { sessions = s.sessions; turns = s.turns } };

    ghost invariant = { λ s.
        (length s.sessions ≤ MOST_SESSIONS)
        × (s.count ≤ MOST_CALLS)
        × (calls_and_turns (script_in (record { sessions = s.sessions; turns = s.turns })) ≡ s.count) };
}

impl Draft {
    /// Nothing stands yet.
    pub fn new(alloc: Global) -> Draft
        ensures { result ≡ nothing }
    {
        Draft {
            sessions: Seq::new(alloc),
            turns: None,
            count: 0,
        }
    }

    /// What stands after what a line of this number says; a line without a form is bad.
    pub fn with_said(
        self,
        alloc: Global,
        grammar: Grammar,
        line: u32,
        said: Option<ScriptLine>,
    ) -> Result<Draft, ScriptFault>
        ensures { Answers ScriptFault.Memory (with_said grammar line self said) result }
    {
        match said {
            None => Err(ScriptFault::BadLine(line)),
            Some(ScriptLine::Session(name)) => self.with_session(alloc, grammar, line, name),
            Some(ScriptLine::Call(call)) => self.with_call(line, call),
            Some(ScriptLine::Schedule) => self.with_schedule(alloc, line),
            Some(ScriptLine::Step(name)) => self.with_step(line, &name),
            Some(ScriptLine::Begin) => self.with_turn(line, Turn::Begin),
            Some(ScriptLine::End) => self.with_turn(line, Turn::End),
        }
    }

    /// A session begins, where there are not the most that there may be.
    #[tactic(auto, using(crate::proofs::RuleLemmas::session_counts))]
    fn with_session(
        self,
        alloc: Global,
        grammar: Grammar,
        line: u32,
        name: Name,
    ) -> Result<Draft, ScriptFault>
        ensures { Answers ScriptFault.Memory (with_session grammar line self name) result }
    {
        if !self.is_session_line(grammar, &name) {
            return Err(ScriptFault::BadLine(line));
        }
        if self.sessions.as_slice().len() >= MOST_SESSIONS {
            return Err(ScriptFault::TooMany(line));
        }
        let Draft {
            mut sessions,
            turns,
            count,
        } = self;
        sessions.push(SessionText {
            name,
            lines: Seq::new(alloc),
        })?;
        Ok(Draft {
            sessions,
            turns,
            count,
        })
    }

    /// A call, which stands before the schedule and is the last session's.
    fn with_call(self, line: u32, call: Call) -> Result<Draft, ScriptFault>
        ensures { Answers ScriptFault.Memory (with_call line self call) result }
    {
        if self.turns.is_some() {
            return Err(ScriptFault::BadLine(line));
        }
        if self.sessions.as_slice().is_empty() {
            return Err(ScriptFault::NoSession(line));
        }
        if self.count >= MOST_CALLS || !call_fits(&call) {
            return Err(ScriptFault::TooMany(line));
        }
        Ok(Draft {
            sessions: calling_last(self.sessions, call)?,
            turns: self.turns,
            count: self.count + 1,
        })
    }

    /// The script of what stands at the end.
    pub fn into_script(self, alloc: Global) -> Script
        ensures { result ≡ script_in self }
    {
        Script {
            sessions: self.sessions,
            schedule: self.turns.unwrap_or(Seq::new(alloc)),
        }
    }
}
