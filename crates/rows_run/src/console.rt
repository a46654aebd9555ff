//! Sessions, call by call: each line is a call with its reply.

mod documents;
mod replies;

use documents::DOCUMENTS;
use pages_cases::acts::{Player, hold_acts};
use pages_cases::pages::{Teller, hold};
use pages_runs::runs::OF_PROGRAM;
use replies::{ARM, BY_KIND, BY_LIFECYCLE, BY_RATE, BY_SERIAL, WORKED};
use std::alloc::Global;
use std::test::Fail;

/// A document whose session `a` has grown up to here. A call is told by its reply in a run of that.
#[derive(Drop)]
struct Console {
    document: String,
}

impl Player for Console {
    fn begin(alloc: Global, before: &str, head: &str) -> Result<Console, Fail> {
        let document = format!(in alloc; "{before}{head}--- script ---\nsession a\n")?;
        Ok(Console { document })
    }

    fn told(&mut self, alloc: Global, act: &str) -> Result<String, Fail> {
        write!(self.document, "{act}\n")?;
        let told = OF_PROGRAM.told(alloc, self.document.as_str())?;
        last_reply(alloc, told.as_str())
    }
}

/// The last reply to session `a`; where it got none, all that is told.
fn last_reply(alloc: Global, told: &str) -> Result<String, Fail> {
    let mut reply = String::from_str(alloc, told)?;
    for line in told.lines() {
        if let Some(later) = reply_in(line) {
            reply = String::from_str(alloc, later)?;
        }
    }
    Ok(reply)
}

fn reply_in(line: &str) -> Option<&str> {
    let (_, reply) = line.strip_prefix("a ")?.split_once(": ")?;
    Some(reply)
}

#[test]
fn each_call_of_a_session_gets_the_first_reply_that_applies(rt: HostRuntime) -> Result<(), Fail> {
    let alloc = rt.alloc();
    hold_acts::<Console>(alloc, ARM, WORKED)?;
    hold_acts::<Console>(alloc, ARM, BY_LIFECYCLE)?;
    hold_acts::<Console>(alloc, ARM, BY_SERIAL)?;
    hold_acts::<Console>(alloc, ARM, BY_RATE)?;
    hold_acts::<Console>(alloc, ARM, BY_KIND)
}

#[test]
fn documents_whose_sessions_call_controllers_are_printed(rt: HostRuntime) -> Result<(), Fail> {
    hold(rt.alloc(), &OF_PROGRAM, "", DOCUMENTS)
}
