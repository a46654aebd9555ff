//! Calls of pids, trajectories and broadcasters, and their answers. After an update stands what the claims hold.

/// A pid brings what it reads to what is wanted.
pub(crate) const PIDS: &str = "\
pid 2 1 0.1 10 10
configure
activate 0
update 0, for 30000, states 0, refs 1
send 1
update 1, for 30000, states 0, refs 5
update 2, for 30000, states 0.6, refs unset
=> done
done
ok unset
done
ok 2.030000
ok -1.158000

pid 2 1 0.1 10 10
configure
activate chained 0
send 5
update 0, for 30000, states 0, refs 1
update 1, for 30000, states 9, refs unset
update 2, for 30000, states 0.6, refs 1
=> done
done
chained
ok 2.030000
ok unset
ok -1.158000

pid 0 1 0 10 10
configure
activate 0
send 1
update 0, for 1000000, states 0, refs unset
update 1, for 1000000, states 0, refs unset
deactivate
activate 0
update 2, for 1000000, states 0, refs unset
send 1
update 3, for 1000000, states 0, refs unset
=> done
done
done
ok 1.000000
ok 2.000000
done
done
ok unset
done
ok 1.000000

pid 1 1 1 1 1
configure
activate 0
update 0, states 1
update 0, refs 1
update 0, for 0, states 1, refs 1
update 0, for 1000001, states 1, refs 1
send 1 2
send @1 1
send 1
=> done
done
wrong counts
wrong counts
no time
no time
does not fit
does not fit
done

pid 1 1 1 -0.000001 1
configure
configure pid 1 1 1 1 -0.000001
configure pid -1 -1 -1 0 0
=> out of range
out of range
done";

/// The integral and the output of a pid stay within their limits, division rounds down, and sums are exact.
pub(crate) const LIMITS: &str = "\
pid 0 1 0 0.05 10
configure
activate 0
send 1
update 0, for 30000, states 0, refs unset
update 1, for 30000, states 0, refs unset
update 2, for 30000, states 0, refs unset
update 3, for 30000, states 2, refs unset
=> done
done
done
ok 0.030000
ok 0.050000
ok 0.050000
ok 0.020000

pid 2 0 0 10 1.5
configure
activate 0
send 1
update 0, states 0, refs unset
update 1, states 2, refs unset
update 2, states 0.5, refs unset
=> done
done
done
ok 1.500000
ok -1.500000
ok 1.000000

pid 0 1 0 10 10
configure
activate 0
send 0
update 0, for 10000, states -0.000001, refs unset
update 1, for 10000, states 0.000001, refs unset
=> done
done
done
ok 0.000000
ok -0.000001

pid 0.5 0 0 10 10
configure
activate 0
send 0
update 0, states 0.000001, refs unset
update 1, states -0.000001, refs unset
=> done
done
done
ok -0.000001
ok 0.000000

pid 0 0 1 10 10
configure
activate 0
send 0
update 0, for 300000, states 0, refs unset
update 1, for 300000, states 0.000001, refs unset
update 2, for 300000, states 0, refs unset
=> done
done
done
ok 0.000000
ok -0.000004
ok 0.000003

pid 1000000000 1000000000 1000000000 1000000000 1000000000
configure
activate 0
send 2
update 0, for 1000000, states 0, refs unset
update 1, for 1000000, states 1, refs unset
=> done
done
done
ok 1000000000.000000
ok 1000000000.000000

pid 0 0 1 10 1000000000
configure
activate 0
send 1000000000
update 0, for 1, states 1000000000, refs unset
update 1, for 1, states -1000000000, refs unset
update 2, for 1000000, states 1000000000, refs unset
=> done
done
done
ok 0.000000
ok 1000000000.000000
ok -1000000000.000000";

/// A trajectory goes on straight lines from point to point, from the update that takes them.
pub(crate) const TRAJECTORIES: &str = "\
trajectory 1
configure
activate 0
update 0, at 0, states 0.7
send @20000 0.1
update 3, at 30000, states 0.02
update 4, at 40000, states 0.5
update 5, at 50000, states 0.5
update 6, at 60000, states 0.5
=> done
done
ok 0.000000
done
ok 0.020000
ok 0.060000
ok 0.100000
ok 0.100000

trajectory 2
configure
activate 0 1
send @100 1 0, @200 0 0
update 0, at 1000, states 0 1
update 1, at 1050, states 0 0
update 2, at 1100, states 0 0
update 3, at 1150, states 0 0
update 4, at 1200, states 9 9
update 5, at 1200000000, states 9 9
=> done
done
done
ok 0.000000 1.000000
ok 0.500000 0.500000
ok 1.000000 0.000000
ok 0.500000 0.000000
ok 0.000000 0.000000
ok 0.000000 0.000000

trajectory 1
configure
activate 0
send @100 1
update 0, at 0, states 0
update 1, at 50, states 0
send @100 0
update 2, at 60, states 0.4
update 3, at 110, states 0
update 4, at 160, states 0
=> done
done
done
ok 0.000000
ok 0.500000
done
ok 0.400000
ok 0.200000
ok 0.000000

trajectory 1
configure
activate 0
send @100 1
send @100 2
update 0, at 1000, states 0.5
update 1, at 900, states 0
update 2, at 1050, states 0
=> done
done
done
done
ok 0.500000
ok 0.500000
ok 1.250000

trajectory 1
configure
activate 0
send @0 3
update 0, at 70, states 1
send @100 1
update 1, at 80, states 1
deactivate
activate 0.3
update 2, at 500, states 0.9
=> done
done
done
ok 3.000000
done
ok 1.000000
done
done
ok 0.300000

trajectory 2
configure
activate 0
activate 0 0
update 0, at 0, states 0
send 1 2
send @100 1
send @100 1 2, @200 1
send @100 1 2, @200 1 2
=> done
wrong states
done
wrong counts
does not fit
does not fit
does not fit
done

trajectory 33
configure
configure trajectory 0
configure trajectory 32
=> out of range
out of range
done";

/// Lines round down, times need not rise, and any time and any number may stand there.
pub(crate) const LINES: &str = "\
trajectory 2
configure
activate 0 0
send @3 0.000001 -0.000001
update 0, at 0, states 0 0
update 1, at 1, states 0 0
update 2, at 3, states 0 0
=> done
done
done
ok 0.000000 0.000000
ok 0.000000 -0.000001
ok 0.000001 -0.000001

trajectory 1
configure
activate 0
send @200 4, @100 1
update 0, at 0, states 0
update 1, at 50, states 0
update 2, at 100, states 0
=> done
done
done
ok 0.000000
ok 1.000000
ok 1.000000

trajectory 1
configure
activate 0
send @100 1, @50 5, @200 2
update 0, at 0, states 0
update 1, at 60, states 0
update 2, at 100, states 0
=> done
done
done
ok 0.000000
ok 0.600000
ok 4.000000

trajectory 2
configure
activate 0 0
send @3000000000000 1000000000 -1000000000
update 0, at 5, states -500000000 0
update 1, at 1000000000005, states 0 0
=> done
done
done
ok -500000000.000000 0.000000
ok 0.000000 -333333333.333334

trajectory 1
configure
activate 0
send @18446744073709551615 1
update 0, at 0, states 0
update 1, at 9223372036854775808, states 0
update 2, at 18446744073709551615, states 0
=> done
done
done
ok 0.000000
ok 0.500000
ok 1.000000

trajectory 32
configure
activate<0..32 *  0>
send @0<0..32 *  0>(1..64 * , @#000<0..32 *  #>)
update 0, at 0, states<0..32 *  7>
update 1, at 62500, states<0..32 *  7>
update 2, at 63000, states<0..32 *  7>
=> done
done
done
ok<0..32 *  0.000000>
ok<0..32 *  62.500000>
ok<0..32 *  63.000000>";

/// A broadcaster commands nothing, and takes no mail.
pub(crate) const BROADCASTERS: &str = "\
broadcaster 3
configure
activate 1 2
activate 1 2 3
update 0, states 4 5 6
update 1, states 4 5
send 1
send @1 1
deactivate
=> done
wrong states
done
ok
wrong counts
takes none
takes none
done

broadcaster 0
configure
activate
update 0
=> done
done
ok

broadcaster 256
configure
activate<0..256 *  #>
update 0, states<0..256 *  -#>
=> done
done
ok";
