//! Limits of scripts, met and passed by one: how many sessions there are, and how many calls and turns.

/// At most 10,000 calls and turns, and 8 sessions.
pub(crate) const CALLS_AND_TURNS: &str = r"session a
<0..10000 * load c
>\
=> 1 and 10000

session a
<0..10000 * load c
># x
\n\
=> 1 and 10000

session a
<0..10000 * load c
>session b
schedule
=> 2 and 10000

session a
<0..10001 * load c
>\
=> too_many 10002

session a
<0..10000 * load c
>load 1a
=> bad_line 10002

session a
<0..10000 * load c
>schedule
begin
=> too_many 10003

session a
load c
schedule
<0..9999 * step a
>\
=> 1 and 10000

session a
load c
schedule
<0..9999 * step a
>end
=> too_many 10003

schedule
<0..10000 * begin
>step b
=> no_session 10002

schedule
<0..10000 * begin
>load c
=> bad_line 10002

<0..8 * session s#
>\
=> 8 and 0

<0..9 * session s#
>\
=> too_many 9

<0..8 * session s#
>session s7
=> bad_line 9";

/// At most 128 words of a switch, 32 values, 64 points and 64 bytes of a name.
pub(crate) const SIZES_OF_CALLS: &str = r"session a
switch strict<0..128 * \s+c>
=> 1 and 1

session a
switch strict<0..127 * \s+c>\s-d
=> 1 and 1

session a
switch strict<0..127 * \s+@c>\s-d
=> 1 and 1

session a
switch strict<0..127 * \s+c>\s-@d\s-d
=> too_many 2

session a
switch strict<0..128 * \s+c>\s-d
=> too_many 2

session a
switch best<0..129 * \s-c>
=> too_many 2

session a
switch best<0..129 * \s-c>\sc
=> bad_line 2

switch best<0..129 * \s-c>
=> no_session 1

session a
send c<0..32 * \s1>
=> 1 and 1

session a
send c<0..33 * \s1>
=> too_many 2

session a
send c<0..33 * \s1>\sx
=> bad_line 2

send c<0..33 * \s1>
=> no_session 1

session a
send c @1<0..32 * \s1>
=> 1 and 1

session a
send c @1<0..33 * \s1>
=> too_many 2

session a
send c @1 1 @2<0..33 * \s1>\s@3 1
=> too_many 2

session a
load <0..64 * n>
=> 1 and 1

session a
load <0..65 * n>
=> bad_line 2

session a
send c<1..65 *  @# 0>\
=> 1 and 1

session a
send c<1..66 *  @# 0>\
=> too_many 2";

/// At most 65,536 bytes of a line that is not skipped.
pub(crate) const LONG_LINES: &str = r"session a
load<0..65530 * \s>mk
=> 1 and 1

session a
load<0..65530 * \s>mk\r
=> 1 and 1

session a
load<0..65531 * \s>mk
=> bad_line 2

session a
load<0..65531 * \s>mk\
=> bad_line 2

load<0..65531 * \s>mk\
=> bad_line 1

<0..70000 * \s>
session a
=> 1 and 0

#<0..70000 * x>
session a
=> 1 and 0

<0..70000 * \s># x
session a
=> 1 and 0";
