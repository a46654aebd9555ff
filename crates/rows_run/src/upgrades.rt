//! Documents whose description is upgraded and run again with their script: the same is printed.

use crate::fallbacks::{ROBOT as MOCK_AND_FORWARD, STAND_INS};
use crate::groups::{FIRST_VERSION, ROBOT as GROUPED, SWITCHES as OF_GROUPS, WITHOUT_GROUPS};
use crate::pages::DESCRIPTIONS;
use crate::shaping::{CHAINED, CLAIMED, GEARED, WRIST};
use crate::switches::{OF_MOVED, SWITCHES};
use cm_words::JobKind;
use pages_cases::pages::{Teller, halves, hold, joined};
use pages_runs::documents::MOVED;
use pages_runs::runs::{IN_STOCK, OF_PROGRAM, Runs, ample_sink};
use std::alloc::Global;
use std::str;
use std::test::Fail;

#[test]
fn an_upgraded_document_prints_the_same(rt: HostRuntime) -> Result<(), Fail> {
    let alloc = rt.alloc();
    hold(alloc, &Upgraded, MOVED, OF_MOVED)?;
    hold(alloc, &Upgraded, "", SWITCHES)?;
    hold(alloc, &Upgraded, MOCK_AND_FORWARD, STAND_INS)?;
    hold(alloc, &Upgraded, GROUPED, OF_GROUPS)?;
    hold(alloc, &Upgraded, FIRST_VERSION, WITHOUT_GROUPS)?;
    hold(alloc, &Upgraded, "", DESCRIPTIONS)
}

#[test]
fn upgraded_transmissions_and_limiters_print_the_same(rt: HostRuntime) -> Result<(), Fail> {
    let alloc = rt.alloc();
    hold(alloc, &Upgraded, GEARED, CHAINED)?;
    hold(alloc, &Upgraded, WRIST, CLAIMED)
}

/// The job `upgrade` with the program's stock.
const UPGRADE: Runs = Runs {
    kind: JobKind::Upgrade,
    step: 1000,
    in_stock: IN_STOCK,
};

/// The line between description and script.
const SEPARATOR: &str = "--- script ---\n";

/// Tells what the run of an upgraded document prints; of one that is refused, how its upgrade ends.
#[derive(Clone, Copy)]
struct Upgraded;

impl Teller for Upgraded {
    fn told(&self, alloc: Global, text: &str) -> Result<String, Fail> {
        let Some(described) = upgraded_description(alloc, text)? else {
            return UPGRADE.told(alloc, text);
        };
        let (_, script) = halves(text, SEPARATOR)?;
        let again = joined(alloc, described.as_str(), script)?;
        OF_PROGRAM.told(alloc, again.as_str())
    }
}

/// The upgraded description, with the line behind it; None if the document is refused.
fn upgraded_description(alloc: Global, text: &str) -> Result<Option<String>, Fail> {
    let mut sink = ample_sink(alloc)?;
    let ended = UPGRADE.ended(alloc, text, &mut sink)?;
    if ended.as_str() != "ok" {
        return Ok(None);
    }
    let described = joined(alloc, str::from_utf8(sink.bytes())?, SEPARATOR)?;
    Ok(Some(described))
}
