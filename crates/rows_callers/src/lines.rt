//! The lines of a session, read from a case.

ghost use Rattle.std.specs.Prelude.{◌≡◌, true, IfOk};
ghost use Rattle.console_session.specs.Sessions.{IsLine, AreLines};

use cm_document::Call;
use pages_calls::calls::call_of;
use sequence::Seq;
use std::alloc::Global;
use std::test::Fail;

/// The most lines of a session here.
pub(crate) const MOST_LINES: usize = 10_000;

/// The lines of a session.
pub(crate) fn lines_of(alloc: Global, text: &str) -> Result<Seq<Call>, Fail>
    ensures { IfOk result (λ lines. AreLines lines) }
{
    let mut lines = Seq::new(alloc);
    for line in text.lines() {
        add(&mut lines, line_of(alloc, line)?)?;
    }
    Ok(lines)
}

/// A line more.
#[tactic(auto, using(sequence::proofs::ListLemmas::all_push))]
fn add(lines: &mut Seq<Call>, line: Call) -> Result<(), Fail>
    requires { AreLines lines.old }
    ensures { AreLines lines.new }
{
    if lines.as_slice().len() >= MOST_LINES || !is_line(&line) {
        return Err(Fail::new("no line of a session"));
    }
    lines.push(line)?;
    Ok(())
}

/// Whether a session may have this line.
fn is_line(call: &Call) -> bool
    ensures { result ≡ true → IsLine call.now }
{
    match call {
        Call::Told(_) | Call::Begin(_) | Call::End(_) | Call::Close => false,
        _ => true,
    }
}

fn line_of(alloc: Global, text: &str) -> Result<Call, Fail> {
    let (verb, rest) = text.split_once(" ").unwrap_or((text, ""));
    match verb {
        "await" => Ok(Call::Await(rest.parse()?)),
        _ => call_of(alloc, verb, rest),
    }
}
