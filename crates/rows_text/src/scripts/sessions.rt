//! Whole scripts: sessions, the schedule, and which of two faults counts. A session, a call and a turn stand behind a
//! bar each.

/// Sessions with their calls.
pub(crate) const SESSIONS: &str = r"=> empty

\n\
# x
=> empty

session a\
=> |a

session a
load mk\
=> |a|load mk

session a\r
load mk\r
=> |a|load mk

session a
session b
=> |a|b

session a
load c
session b
load d
list controllers
=> |a|load c|b|load d|list controllers

session
=> bad_line 1

session a b
=> bad_line 1

session 1
=> bad_line 1

session loop
=> bad_line 1

session Loop
=> |Loop

session a
session a
=> bad_line 2

session a
session b
session a
=> bad_line 3

session a
session b
session b
=> bad_line 3

load mk
session a
=> no_session 1

\n\
\n\
await 1
=> no_session 3";

/// Schedules, and where they may stand.
pub(crate) const SCHEDULES: &str = r"schedule
=> empty

schedule
begin
end
=> |begin|end

session a
load c
schedule
=> |a|load c

session a
session b
session c
schedule
step b
step c
begin
step a
end
=> |a|b|c|step 1|step 2|begin|step 0|end

schedule
schedule
=> bad_line 2

schedule
begin
schedule
=> bad_line 3

schedule now
=> bad_line 1

begin
=> bad_line 1

end
=> bad_line 1

session a
step a
=> bad_line 2

session a
begin
schedule
=> bad_line 2

session a
schedule
load c
=> bad_line 3

session a
schedule
session b
=> bad_line 3

schedule
load c
=> bad_line 2

schedule
begin 1
=> bad_line 2

schedule
end now
=> bad_line 2

session a
schedule
step
=> bad_line 3

session a
schedule
step a a
=> bad_line 3

session a
schedule
step 1
=> bad_line 3

session a
schedule
step b
=> no_session 3

step b
=> bad_line 1";

/// Faults, some of which a later one follows.
pub(crate) const ONE_FAULT_COUNTS: &str = r"load 1a
=> bad_line 1

rate mk 10001
=> bad_line 1

jump
load mk
=> bad_line 1

load mk
jump
=> no_session 1

session a
jump
session a
=> bad_line 2

session a
session a
jump
=> bad_line 2

told 1
=> bad_line 1

close
=> bad_line 1";

/// The forms of a script that begins further below in its document, and of each fault some.
pub(crate) const FORMS_FURTHER_BELOW: &str = r"=> empty

session a
load mk
configure mk
cleanup mk
unload mk
rate mk 5
send mk 1 -0.5
send mk @1 1 @2 -0.5
switch strict +mk
switch best -mk
hw arm active
await 1
list controllers
list interfaces
list components
=> |a|load mk|configure mk|cleanup mk|unload mk|rate mk 5|send mk 1.000000 -0.500000\
|send mk @1 1.000000 @2 -0.500000|switch strict +mk|switch best -mk|hw arm active|await 1\
|list controllers|list interfaces|list components

session a
session b
=> |a|b

schedule
=> empty

session a
load mk
schedule
step a
begin
end
=> |a|load mk|step 0|begin|end

session a
load mk
schedule
=> |a|load mk

session a
step a
=> bad_line 21

begin
=> bad_line 20

end
=> bad_line 20

session a
schedule
step a
step b
=> no_session 23

load mk
=> no_session 20

configure mk
=> no_session 20

send mk<0..33 * \s1>
=> no_session 20

await 1
=> no_session 20

switch strict +mk
=> no_session 20

hw arm active
=> no_session 20

session a
configure 1a
=> bad_line 21

session a
rate mk 10001
=> bad_line 21

session a
send mk<0..32 * \s1>
send mk<0..33 * \s1>
=> too_many 22

session a
send mk<1..66 *  @# 0>\
=> too_many 21";
