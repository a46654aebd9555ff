//! Lines behind `session a`, each with the call that it makes as it prints, or with its fault.

/// Calls that have names, and words that stand for something.
pub(crate) const CALLS_ON_NAMES: &str = r"load mk => load mk
configure mk => configure mk
cleanup mk => cleanup mk
unload mk => unload mk
load A_9z => load A_9z
load => bad_line 2
load a b => bad_line 2
load 1a => bad_line 2
load _a => bad_line 2
load a-b => bad_line 2
load a/b => bad_line 2
configure => bad_line 2
cleanup 1a => bad_line 2
unload a b => bad_line 2
Load mk => bad_line 2
loads mk => bad_line 2
jump mk => bad_line 2
list controllers => list controllers
list interfaces => list interfaces
list components => list components
list => bad_line 2
list all => bad_line 2
list controllers now => bad_line 2
hw arm unconfigured => hw arm unconfigured
hw arm inactive => hw arm inactive
hw arm active => hw arm active
hw arm finalized => hw arm finalized
hw arm Active => bad_line 2
hw arm => bad_line 2
hw arm active now => bad_line 2
hw 1 active => bad_line 2";

/// Rates and waits.
pub(crate) const WHOLE_NUMBERS: &str = r"rate mk 0 => rate mk 0
rate mk 000000000 => rate mk 0
rate mk 007 => rate mk 7
rate mk 10000 => rate mk 10000
rate mk 10001 => bad_line 2
rate mk 0000000001 => bad_line 2
rate mk -1 => bad_line 2
rate mk 1.0 => bad_line 2
rate mk => bad_line 2
rate mk 1 2 => bad_line 2
rate 1k 1 => bad_line 2
await 0 => await 0
await 000000000 => await 0
await 999999999 => await 999999999
await 1000000000 => bad_line 2
await 0000000001 => bad_line 2
await +5 => bad_line 2
await 5x => bad_line 2
await => bad_line 2
await 1 2 => bad_line 2";

/// Plain values.
pub(crate) const VALUES: &str = r"send mk 0.5 -1 => send mk 0.500000 -1.000000
send mk 007 => send mk 7.000000
send mk -0 => send mk 0.000000
send mk -0.0 => send mk 0.000000
send mk 0.000001 => send mk 0.000001
send mk 1000000000 => send mk 1000000000.000000
send mk -1000000000.000000 => send mk -1000000000.000000
send mk 1000000000.000001 => bad_line 2
send mk -1000000001 => bad_line 2
send mk 0.0000001 => bad_line 2
send mk .5 => bad_line 2
send mk 1. => bad_line 2
send mk +5 => bad_line 2
send mk 1e3 => bad_line 2
send mk 1 x => bad_line 2
send mk => bad_line 2
send => bad_line 2
send 1k 1 => bad_line 2";

/// Timed points.
pub(crate) const POINTS: &str = r"send mk @1 0 => send mk @1 0.000000
send mk @000000001 1 2 @999999999 3 4 => send mk @1 1.000000 2.000000 @999999999 3.000000 4.000000
send mk @1 0 @2 1 @3 2 => send mk @1 0.000000 @2 1.000000 @3 2.000000
send mk @0 1 => bad_line 2
send mk @1000000000 1 => bad_line 2
send mk @2 1 @2 1 => bad_line 2
send mk @2 1 @1 1 => bad_line 2
send mk @1 => bad_line 2
send mk @1 @2 1 => bad_line 2
send mk @1 1 @2 => bad_line 2
send mk 1 @2 1 => bad_line 2
send mk @ 1 => bad_line 2
send mk @x 1 => bad_line 2
send mk @1.5 1 => bad_line 2
send mk @1 x => bad_line 2
send mk @1 1 @2 x => bad_line 2";

/// What is to be activated and what deactivated.
pub(crate) const SWITCHES: &str = r"switch strict +c -d +e => switch strict -d +c +e
switch best +c -f -d => switch best -f -d +c
switch best => switch best
switch strict => switch strict
switch strict +c -c => switch strict -c +c
switch strict +@c -d -@e +f => switch strict -d -@e +@c +f
switch best -@c +@c => switch best -@c +@c
switch strict +c +c => switch strict +c +c
switch => bad_line 2
switch Strict +c => bad_line 2
switch +c => bad_line 2
switch strict c => bad_line 2
switch strict + => bad_line 2
switch strict - => bad_line 2
switch strict +1 => bad_line 2
switch strict ++c => bad_line 2
switch strict +@ => bad_line 2
switch strict -@1 => bad_line 2
switch strict +@@c => bad_line 2
switch strict @c => bad_line 2
switch strict @+c => bad_line 2
switch strict + @c => bad_line 2
switch strict + c => bad_line 2
switch best +c d => bad_line 2";

/// Bytes before, between and behind words, and lines that are skipped.
pub(crate) const BYTES: &str = "\
\\s\\sload\t \tmk \\t => load mk
load mk\\r => load mk
load mk \\r => load mk
load mk\\r\\r => bad_line 2
load\rmk => bad_line 2
\\rload mk => bad_line 2
\\r => none
\\r\\r => bad_line 2
load mk # x => bad_line 2
load m\u{b}k => bad_line 2
load m\u{e9} => bad_line 2
load\u{a0}mk => bad_line 2
load m\u{0} => bad_line 2
load \u{7f} => bad_line 2
# load 1a => none
\\s\t#x => none
\\s\\t => none
 => none";
