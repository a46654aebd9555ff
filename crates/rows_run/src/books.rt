//! What a run leaves behind: its history and the boxes of the controllers that are loaded then.

use cm_words::JobKind;
use outside_io::{MemSink, MemSource};
use pages_calls::stocks::few_blanks;
use pages_cases::pages::{Teller, hold};
use pages_runs::books::left_by;
use pages_runs::documents::ROBOT;
use pages_runs::runs::{IN_STOCK, OF_PROGRAM, ample_sink, run_by};
use std::alloc::Global;
use std::test::Fail;

/// Tells how the run of a document ends by a job, how many entries its book has, and what box by box it holds.
#[derive(Clone, Copy)]
struct Books {
    kind: JobKind,
}

impl Teller for Books {
    fn told(&self, alloc: Global, text: &str) -> Result<String, Fail> {
        let mut source = OF_PROGRAM.source(alloc, text)?;
        let mut sink = ample_sink(alloc)?;
        self.left_over(alloc, &mut source, &mut sink)
    }
}

impl Books {
    /// How a run between these ends, and what it leaves.
    fn left_over(
        &self,
        alloc: Global,
        source: &mut MemSource,
        sink: &mut MemSink,
    ) -> Result<String, Fail> {
        if self.kind == JobKind::Live {
            return Err(Fail::new("a live run"));
        }
        let blanks = few_blanks(alloc, IN_STOCK)?;
        let (status, book) = run_by(self.kind, alloc, source, sink, blanks);
        left_by(alloc, status, book)
    }
}

/// Two mocks that are not ready in some cycles, which they know once they are configured, one that refuses to be, a
/// forward and a passthrough. Lines 1 to 31 of the document.
const STOCKED: &str = r#"version = 1
update_rate = 100
cycles = 0
[[component]]
name = "arm"
kind = "actuator"
[[component.joint]]
name = "j1"
vmax = 1
command = ["position"]
[[controller]]
name = "fwd"
type = "forward"
claims = ["j1/position"]
[[controller]]
name = "relay"
type = "passthrough"
claims = ["j1/position"]
[[controller]]
name = "mk"
type = "mock"
not_ready = [2]
[[controller]]
name = "late"
type = "mock"
not_ready = [0, 4]
[[controller]]
name = "stiff"
type = "mock"
not_ready = [1]
refuse_config = true
"#;

/// Every call is an entry, a refused one too, and so is the close. The boxes of the loaded controllers stand by serial,
/// each with its own data: those that moved out are gone, and one that is loaded again is a blank.
const BOOKS: &str = r"--- script ---
session a
=> ok
entries 1

--- script ---
session a
load fwd
load mk
load relay
=> ok
entries 4
forward
mock
passthrough

--- script ---
session a
load relay
load late
load mk
load fwd
configure mk
configure late
configure relay
=> ok
entries 8
passthrough
mock, not ready in 0, not ready in 4
mock, not ready in 2
forward

--- script ---
session a
load late
load mk
configure late
configure mk
cleanup late
list controllers
=> ok
entries 7
mock
mock, not ready in 2

--- script ---
session a
load fwd
load mk
load late
configure mk
configure late
unload mk
=> ok
entries 7
forward
mock, not ready in 0, not ready in 4

--- script ---
session a
load mk
configure mk
load relay
unload mk
load mk
=> ok
entries 6
passthrough
mock

--- script ---
session a
load stiff
configure stiff
load nosuch
load stiff
unload mk
rate mk 5
send stiff 1
=> ok
entries 8
mock

--- script ---
session a
load mk
unload mk
unload mk
=> ok
entries 4

zzz = 1
--- script ---
session a
load mk
=> description: bad_key controller[4].zzz
no book

--- script ---
session a
load mk
session a
=> script: bad_line 35
no book

#<0..1048576 * x>\
=> document longer than 1048576 bytes
no book";

/// The same by the turns of a schedule: what is unloaded while a cycle is aloft, and what is loaded there.
const BOOKS_OF_TURNS: &str = r"cycles = 1
--- script ---
session a
load fwd
configure fwd
switch strict +fwd
unload fwd
session b
load traj2
configure traj2
unload traj2
load mk
schedule
step a
step a
step a
step b
step b
begin
step a
step a
step b
step b
end
=> ok
entries 12
forward
mock";

#[test]
fn a_run_leaves_its_history_and_the_boxes_that_are_loaded(rt: HostRuntime) -> Result<(), Fail> {
    hold(rt.alloc(), &Books { kind: JobKind::Run }, STOCKED, BOOKS)?;
    hold(
        rt.alloc(),
        &Books {
            kind: JobKind::Steps,
        },
        ROBOT,
        BOOKS_OF_TURNS,
    )
}
