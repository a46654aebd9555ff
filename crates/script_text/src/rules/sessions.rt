//! The sessions of a script: which names may begin one, and which number each has.

ghost use Rattle.std.specs.Prelude.{◌≡◌, ◌<◌, Ok, IfSome, length, position};
ghost use Rattle.sequence.specs.Answers.{Answers};
ghost use Rattle.sequence.specs.Last.{in_last};
ghost use Rattle.iface_names.specs.Names.{same_name};
ghost use Rattle.cm_document.specs.ScriptRules.{is_used, session_accepted, is_session_line};
ghost use Rattle.cm_document.specs.ScriptRules.{then_calling, session_number};

use crate::rules::Draft;
use cm_document::{Call, Grammar, ScriptFault, SessionText};
use iface_names::Name;
use sequence::Seq;

impl Draft {
    /// Whether a session of this name may begin: the name is new and not `loop`, and no schedule stands.
    pub fn is_session_line(&self, grammar: Grammar, name: &Name) -> bool
        ensures { result ≡ is_session_line grammar self.now name.now }
    {
        self.accepts_session(grammar)
            && self.turns.is_none()
            && name.bytes() != b"loop".as_slice()
            && !self.is_used(name)
    }

    /// Whether a session's line is accepted, as the first one or as a further one.
    fn accepts_session(&self, grammar: Grammar) -> bool
        ensures { result ≡ session_accepted grammar self.now }
    {
        if self.sessions.as_slice().is_empty() {
            grammar.first_session
        } else {
            grammar.further_session
        }
    }

    /// Whether a session of this name is there.
    fn is_used(&self, name: &Name) -> bool
        ensures { result ≡ is_used name.now self.now }
    {
        self.sessions
            .as_slice()
            .iter()
            .any(|session| *name == session.name)
    }

    /// The number of the session of this name.
    pub fn session_number(&self, name: &Name) -> Option<u32>
        ensures { result ≡ session_number name.now self.now }
    {
        let place = place_of(self.sessions.as_slice(), name)?;
        Some(place as u32)
    }
}

/// Where the session of this name stands among these.
fn place_of(sessions: &[SessionText], name: &Name) -> Option<usize>
    ensures place { result ≡ position (λ s. same_name name.now s.name) sessions.now }
    ensures within { IfSome result (λ place. place < length sessions.now) }
{
    sessions.iter().position(|session| *name == session.name)
}

/// The sessions, of which the last has this call behind its others.
#[tactic(auto, using(sequence::proofs::ListLemmas::in_last_push))]
pub fn calling_last(sessions: Seq<SessionText>, call: Call) -> Result<Seq<SessionText>, ScriptFault>
    ensures { Answers ScriptFault.Memory (Ok (in_last (then_calling call) sessions)) result }
{
    let mut sessions = sessions.into_vec();
    let Some(mut session) = sessions.pop() else {
        return Ok(Seq::from_vec(sessions));
    };
    session.lines.push(call)?;
    let mut sessions = Seq::from_vec(sessions);
    sessions.push(session)?;
    Ok(sessions)
}
