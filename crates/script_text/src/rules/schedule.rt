//! The schedule of a script: turns, in written order.

ghost use Rattle.std.specs.Prelude.{◌≡◌};
ghost use Rattle.sequence.specs.Answers.{Answers};
ghost use Rattle.cm_document.specs.ScriptRules.{with_schedule, with_turn, with_step};

use crate::rules::Draft;
use cm_document::{MOST_CALLS, ScriptFault, Turn};
use iface_names::Name;
use sequence::Seq;
use std::alloc::Global;

impl Draft {
    /// The schedule begins, once.
    pub fn with_schedule(self, alloc: Global, line: u32) -> Result<Draft, ScriptFault>
        ensures { result ≡ with_schedule line self }
    {
        if self.turns.is_some() {
            return Err(ScriptFault::BadLine(line));
        }
        let Draft {
            sessions,
            count,
            ..
        } = self;
        Ok(Draft {
            sessions,
            turns: Some(Seq::new(alloc)),
            count,
        })
    }

    /// One turn more, behind `schedule`.
    pub fn with_turn(self, line: u32, turn: Turn) -> Result<Draft, ScriptFault>
        ensures { Answers ScriptFault.Memory (with_turn line self turn) result }
    {
        let Draft {
            sessions,
            turns,
            count,
        } = self;
        let Some(mut turns) = turns else {
            return Err(ScriptFault::BadLine(line));
        };
        if count >= MOST_CALLS {
            return Err(ScriptFault::TooMany(line));
        }
        turns.push(turn)?;
        Ok(Draft {
            sessions,
            turns: Some(turns),
            count: count + 1,
        })
    }

    /// A step of a session that is there.
    pub fn with_step(self, line: u32, name: &Name) -> Result<Draft, ScriptFault>
        ensures { Answers ScriptFault.Memory (with_step line self name.now) result }
    {
        if self.turns.is_none() {
            return Err(ScriptFault::BadLine(line));
        }
        match self.session_number(name) {
            Some(who) => self.with_turn(line, Turn::Step(who)),
            None => Err(ScriptFault::NoSession(line)),
        }
    }
}
