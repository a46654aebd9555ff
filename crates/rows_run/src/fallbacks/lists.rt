//! Several whose updates fail, and who stands in for them, list by list.

/// Mocks, most of which fail in cycle 1. One of those that they name fails a cycle later, and one is not ready before
/// it. A script follows, of a session that has begun.
pub(crate) const MOCKS: &str = r#"version = 1
update_rate = 100
cycles = 4
[[controller]]
name = "mk"
type = "mock"
fallback = ["a", "b"]
fail_update = [1]
[[controller]]
name = "m2"
type = "mock"
fallback = ["c", "a"]
fail_update = [1]
[[controller]]
name = "m3"
type = "mock"
fallback = ["b"]
[[controller]]
name = "m4"
type = "mock"
fail_update = [1]
[[controller]]
name = "a"
type = "mock"
fallback = ["b"]
fail_update = [2]
[[controller]]
name = "b"
type = "mock"
[[controller]]
name = "c"
type = "mock"
not_ready = [2]
--- script ---
session s
"#;

/// The list of the one that was updated first comes first. Who is named twice is asked for once. Who is not ready is
/// not asked for again. One that goes on, and one without a list, bring nobody. Who stands in may fail, and brings its
/// own.
pub(crate) const LIST_BY_LIST: &str = r"load m2
load mk
load a
configure m2
configure mk
configure a
switch strict +mk +m2
=> ok
s load m2: ok 0
s load mk: ok 1
s load a: ok 2
s configure m2: ok
s configure mk: ok
s configure a: ok
s switch strict +mk +m2: queued 0
loop begin 0: 0 done
loop end 0: run m2 ok; run mk ok
s told 0: done
loop begin 1: none
loop end 1: run m2 error; run mk error; stop m2; stop mk
loop begin 2: fallback done dropped c unknown, a twice, b unknown
loop end 2: run a error; stop a
loop begin 3: fallback done dropped b unknown
loop end 3: none
loop close: none

load mk
load m2
load b
load c
configure mk
configure m2
configure b
configure c
switch strict +m2 +mk
=> ok
s load mk: ok 0
s load m2: ok 1
s load b: ok 2
s load c: ok 3
s configure mk: ok
s configure m2: ok
s configure b: ok
s configure c: ok
s switch strict +m2 +mk: queued 0
loop begin 0: 0 done
loop end 0: run mk ok; run m2 ok
s told 0: done
loop begin 1: none
loop end 1: run mk error; run m2 error; stop mk; stop m2
loop begin 2: fallback done dropped a unknown, a unknown, c not_ready
loop end 2: run b ok
loop begin 3: none
loop end 3: run b ok
loop close: none

load m3
load m4
load b
configure m3
configure m4
configure b
switch strict +m3 +m4
=> ok
s load m3: ok 0
s load m4: ok 1
s load b: ok 2
s configure m3: ok
s configure m4: ok
s configure b: ok
s switch strict +m3 +m4: queued 0
loop begin 0: 0 done
loop end 0: run m3 ok; run m4 ok
s told 0: done
loop begin 1: none
loop end 1: run m3 ok; run m4 error; stop m4
loop begin 2: none
loop end 2: run m3 ok
loop begin 3: none
loop end 3: run m3 ok
loop close: none

load m2
load a
load b
configure m2
configure a
configure b
switch strict +m2
=> ok
s load m2: ok 0
s load a: ok 1
s load b: ok 2
s configure m2: ok
s configure a: ok
s configure b: ok
s switch strict +m2: queued 0
loop begin 0: 0 done
loop end 0: run m2 ok
s told 0: done
loop begin 1: none
loop end 1: run m2 error; stop m2
loop begin 2: fallback done dropped c unknown
loop end 2: run a error; stop a
loop begin 3: fallback done
loop end 3: run b ok
loop close: none

load mk
load a
load b
configure mk
configure a
configure b
switch strict +mk
=> ok
s load mk: ok 0
s load a: ok 1
s load b: ok 2
s configure mk: ok
s configure a: ok
s configure b: ok
s switch strict +mk: queued 0
loop begin 0: 0 done
loop end 0: run mk ok
s told 0: done
loop begin 1: none
loop end 1: run mk error; stop mk
loop begin 2: fallback done
loop end 2: run a error; run b ok; stop a
loop begin 3: fallback done dropped b already_active
loop end 3: run b ok
loop close: none";

/// The same by turns. Both lists are known when their cycle has ended, whatever becomes of those that failed; and who
/// is named is looked at in the begin, with what was called until then.
pub(crate) const LISTS_BY_TURNS: &str = r"load m2
load mk
load a
load b
configure m2
configure mk
configure a
switch strict +mk +m2
configure b
unload mk
cleanup m2
unload a
schedule
step s
step s
step s
step s
step s
step s
step s
step s
begin
step s
end
begin
step s
end
step s
step s
step s
begin
end
begin
=> ok
s load m2: ok 0
s load mk: ok 1
s load a: ok 2
s load b: ok 3
s configure m2: ok
s configure mk: ok
s configure a: ok
s switch strict +mk +m2: queued 0
loop begin 0: 0 done
s told 0: done
loop end 0: run m2 ok; run mk ok
loop begin 1: none
s configure b: ok
loop end 1: run m2 error; run mk error; stop m2; stop mk
s unload mk: ok
s cleanup m2: ok
s unload a: ok
loop begin 2: fallback done dropped c unknown, a unknown, a unknown
loop end 2: run b ok
loop begin 3: none
loop end 3: run b ok
loop close: none";

/// Two that name one another fail in one cycle, and both are back in the next.
pub(crate) const EACH_OTHER: &str = r#"version = 1
update_rate = 100
cycles = 3
[[controller]]
name = "mk"
type = "mock"
fallback = ["m2"]
fail_update = [1]
[[controller]]
name = "m2"
type = "mock"
fallback = ["mk"]
fail_update = [1]
--- script ---
session s
load mk
load m2
configure mk
configure m2
switch strict +mk +m2
=> ok
s load mk: ok 0
s load m2: ok 1
s configure mk: ok
s configure m2: ok
s switch strict +mk +m2: queued 0
loop begin 0: 0 done
loop end 0: run mk ok; run m2 ok
s told 0: done
loop begin 1: none
loop end 1: run mk error; run m2 error; stop mk; stop m2
loop begin 2: fallback done
loop end 2: run mk ok; run m2 ok
loop close: none"#;
