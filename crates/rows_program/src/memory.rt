//! Runs of the program where one allocation may be refused.

use crate::given::GivenWords;
use cm_program::run_words;
use cm_top::Status;
use fixed_num::Memory;
use outside_io::{MemSink, MemSource};
use std::alloc::{AllocError, Global};
use std::process::Abort;
use std::sync::Wait;
use std::thread::Threads;

/// An arm that cannot be read in cycle 1, a forward that commands it, and a mock whose update fails in cycle 2: they
/// are switched on together, both are stopped, and the forward is refused while the arm is down, and left out as a
/// fallback. The last request waits until the loop closes.
const DOCUMENT: &str = r#"version = 1
update_rate = 100
cycles = 4
[[component]]
name = "arm"
kind = "actuator"
fail_read = [1]
[[component.joint]]
name = "j1"
vmax = 1
command = ["position"]
state = ["position"]
[[controller]]
name = "fwd"
type = "forward"
claims = ["j1/position"]
[[controller]]
name = "mk"
type = "mock"
fallback = ["spare", "fwd"]
fail_update = [2]
[[controller]]
name = "spare"
type = "mock"
--- script ---
session a
load fwd
load mk
load spare
configure fwd
configure mk
configure spare
switch strict +fwd +mk
send fwd 0.5
hw arm active
list interfaces
switch strict +fwd
hw arm inactive
switch strict -spare
"#;

/// What a run of it prints.
const TRACE: &str = "a load fwd: ok 0
a load mk: ok 1
a load spare: ok 2
a configure fwd: ok
a configure mk: ok
a configure spare: ok
a switch strict +fwd +mk: queued 0
loop begin 0: 0 done
loop end 0: run fwd ok unset; run mk ok; joint j1 0.000000 0.000000 0.000000
a told 0: done
a send fwd 0.500000: ok
a hw arm active: queued 1
loop begin 1: 1 done
loop end 1: fail arm read; run mk ok; joint j1 0.000000 0.000000 0.000000; stop fwd
a told 1: done
a list interfaces: state j1/position unavailable; command j1/position unavailable
a switch strict +fwd: queued 2
loop begin 2: 2 refused fwd unavailable j1/position
loop end 2: run mk error; joint j1 0.000000 0.000000 0.000000; stop mk
a told 2: refused fwd unavailable j1/position
a hw arm inactive: queued 3
loop begin 3: fallback done dropped fwd unavailable j1/position; 3 done
loop end 3: run spare ok; joint j1 0.000000 0.000000 0.000000
a told 3: done
a switch strict -spare: queued 4
loop close: 4 loop_ended
a told 4: loop_ended
";

/// Where at most one allocation is refused, at most one of two runs may want memory: that one has printed a front of
/// the trace, and the other all of it. So a run that tells a want of memory though nothing was refused to it fails
/// here, wherever one is refused.
#[test]
fn memory_is_wanted_only_where_it_was_refused(rt: HostRuntime) {
    let first = wants_memory(&rt, rt.alloc());
    let second = wants_memory(&rt, rt.alloc());
    assert!(rt; !(first && second));
}

/// Whether a run of the document, or what it was to run between, wanted memory. Whatever else it comes to has the whole
/// trace.
fn wants_memory<R>(rt: &R, alloc: Global) -> bool
where
    R: Abort + Threads + Wait + Sync + AllocGlobal,
{
    let Ok(words) = GivenWords::of(alloc, "run") else {
        return true;
    };
    let Ok(mut source) = source(alloc) else {
        return true;
    };
    let Ok(mut sink) = sink(alloc) else {
        return true;
    };
    let status = run_words(&(words, alloc), rt, &mut source, &mut sink);
    wanted_memory(rt, status, sink.bytes())
}

/// Whether a run that ended with this status wanted memory. It has printed what it was to.
fn wanted_memory<R: Abort>(rt: &R, status: Status, printed: &[u8]) -> bool {
    let wanted = status == Status::Memory;
    hold_trace(rt, &status, printed);
    drop(status);
    wanted
}

/// Ends the test where a run ended with another status, or has not printed what it was to.
fn hold_trace<R: Abort>(rt: &R, status: &Status, printed: &[u8]) {
    let trace = TRACE.as_bytes();
    match status {
        Status::Ok => assert!(rt; printed == trace),
        Status::Memory => assert!(rt; trace.starts_with(printed)),
        other => panic!(rt; "ended with {other}"),
    }
}

fn source(alloc: Global) -> Result<MemSource, AllocError> {
    let bytes = DOCUMENT.as_bytes().to_vec(alloc)?;
    Ok(MemSource::make(bytes, 100, vec![in alloc]?))
}

fn sink(alloc: Global) -> Result<MemSink, Memory> {
    MemSink::make(alloc, 2000, 1000, vec![in alloc]?)
}
