//! Whom a line names.

ghost use Rattle.std.specs.Prelude.{◌≡◌, ◌<◌, ◌^◌, ◌==◌, ◌||◌, length, position, IfSome};
ghost use Rattle.iface_names.specs.Names.{same_name};
ghost use Rattle.trace_laws.specs.Next.{caller_named, first_word};

use cm_document::SessionText;

/// What stands before the first space of a line, or before its line feed if it has no space.
#[tactic(auto, using(crate::proofs::WordLemmas::first_words))]
pub fn first_word(line: &[u8]) -> &[u8]
    ensures { result.now ≡ first_word line.now }
{
    match end_of_word(line) {
        Some(end) => &line[..end],
        None => line,
    }
}

/// Where the first space or line feed of a line stands.
fn end_of_word(line: &[u8]) -> Option<usize>
    ensures at { result ≡ position (λ b. b == 32 || b == 10) line.now }
    ensures within { IfSome result (λ end. end < length line.now) }
{
    line.iter().position(|byte| *byte == b' ' || *byte == b'\n')
}

/// The number of the caller of this name: that of a session, or behind them that of the loop.
pub fn caller_named(sessions: &[SessionText], name: &[u8]) -> Option<u32>
    requires few { length sessions.now < 2 ^ 32 }
    ensures { result ≡ caller_named sessions.now name.now }
{
    if name == b"loop".as_slice() {
        return Some(sessions.len() as u32);
    }
    match session_named(sessions, name) {
        Some(who) => Some(who as u32),
        None => None,
    }
}

/// Which of these sessions has this name.
fn session_named(sessions: &[SessionText], name: &[u8]) -> Option<usize>
    ensures at { result ≡ position (λ s. same_name name.now s.name) sessions.now }
    ensures within { IfSome result (λ who. who < length sessions.now) }
{
    sessions
        .iter()
        .position(|session| name == session.name.bytes())
}
