//! Calls of controllers that shape a command, and their answers. After an update stands what the claims hold.

/// A transmission tells its actuator what the joint is to do, by its reference where it is chained, else by what it was
/// sent: a position without the offset, so many times a velocity as the reduction says, that part of an effort.
pub(crate) const TRANSMISSIONS: &str = "\
transmission position 3 0.1
configure
activate
update 0, refs 7
send 0.5
update 1, refs 7
=> done
done
ok unset
done
ok 1.200000

transmission position 3 0.1
configure
activate chained
send 0.5
update 0, refs 0.5
update 1, refs unset
update 2, refs -0.9
=> done
done
chained
ok 1.200000
ok unset
ok -3.000000

transmission position 0.333333 0
configure
activate chained
update 0, refs 0.5
=> done
done
ok 0.166666

transmission velocity 3 0.1
configure
activate chained
update 0, refs 0.5
update 1, refs -0.000001
=> done
done
ok 1.500000
ok -0.000003

transmission effort 3 0.1
configure
activate chained
update 0, refs 0.5
update 1, refs -0.5
=> done
done
ok 0.166666
ok -0.166667

transmission velocity 2 0
configure
activate
send 1
update 0, refs 5
deactivate
activate
update 1, refs 5
deactivate
activate chained
update 2, refs 5
=> done
done
done
ok 2.000000
done
done
ok unset
done
done
ok 10.000000

transmission position 1 0
configure
activate
send 1 2
send @20000 1
send 1
configure transmission position 0 0
=> done
done
does not fit
does not fit
done
it runs

transmission position 0 0
configure
configure transmission effort -0.000001 0
configure transmission effort 0.000001 0
=> out of range
out of range
done";

/// A differential tells two actuators what two joints are to do: the one by the sum, the other by the difference. Where
/// one joint is unset, so are both actuators.
pub(crate) const DIFFERENTIALS: &str = "\
differential position 2 2 0 0
configure
activate
update 0, refs 7 8
send 0.3 0.1
update 1, refs 7 8
=> done
done
ok unset unset
done
ok 0.800000 0.400000

differential position 3 0.5 0.1 -0.2
configure
activate chained
send 1 2
update 0, refs 0.5 0.1
update 1, refs 0.5 unset
update 2, refs unset 0.1
=> done
done
chained
ok 2.100000 0.050000
ok unset unset
ok unset unset

differential velocity 3 0.5 0.1 -0.2
configure
activate chained
update 0, refs 0.5 0.1
=> done
done
ok 1.800000 0.200000

differential velocity 1 1 0 0
configure
activate
send 1 2
update 0, refs 0 0
deactivate
activate
update 1, refs 0 0
deactivate
activate chained
update 2, refs 4 3
=> done
done
done
ok 3.000000 -1.000000
done
done
ok unset unset
done
done
ok 7.000000 1.000000

differential position 1 1 0 0
configure
activate
send 1
send 1 2 3
send 1 2
=> done
done
does not fit
does not fit
done

differential effort 1 1 0 0
configure
configure differential position 0 1 0 0
configure differential position 1 -1 0 0
configure differential velocity 1 1 0 0
=> out of range
out of range
out of range
done";

/// A limiter leads a position to where it is wanted, within a speed and an acceleration, and stops at its ends. It may
/// pass what is wanted and come back.
pub(crate) const LIMITERS: &str = "\
limiter -1 1 1 10
configure
activate 0
send 0.006
update 0, states 0, refs unset
update 1, states 0, refs unset
update 2, states 0, refs unset
update 3, states 0, refs unset
update 4, states 0, refs unset
update 5, states 0, refs unset
update 6, states 0, refs unset
=> done
done
done
ok 0.001000
ok 0.003000
ok 0.006000
ok 0.008000
ok 0.009000
ok 0.009000
ok 0.008000

limiter -1 0.006 1 10
configure
activate chained 0
send 1
update 0, states 0, refs 1
update 1, states 0, refs 1
update 2, states 0, refs 1
update 3, states 0, refs 1
update 4, states 0, refs 1
=> done
done
chained
ok 0.001000
ok 0.003000
ok 0.005000
ok 0.006000
ok 0.006000

limiter -1 1 1 10
configure
activate chained 0
update 0, states 0, refs 1
update 1, states 0, refs 1
update 2, states 0, refs 1
update 3, states 0, refs unset
update 4, states 0, refs unset
update 5, states 0, refs unset
update 6, states 0, refs unset
=> done
done
ok 0.001000
ok 0.003000
ok 0.006000
ok 0.008000
ok 0.009000
ok 0.009000
ok 0.009000

limiter -1 1 1 10
configure
activate 5
update 0, states 5, refs 0
deactivate
activate -5
update 1, states 5, refs 0
send 0
deactivate
activate chained 0.5
update 2, states 5, refs unset
=> done
done
ok 1.000000
done
done
ok -1.000000
done
done
done
ok 0.500000";

/// A limiter whose speed or change comes to nothing stands, and so does one whose ends are one. After an update for a
/// far longer time no step may be feasible: then it stands, and begins anew.
pub(crate) const STANDING: &str = "\
limiter -1 1 0 10
configure
activate chained 0
update 0, states 0, refs 1
=> done
done
ok 0.000000

limiter -1 1 1 0.009999
configure
activate chained 0.5
update 0, states 0, refs 1
update 1, for 20000, states 0, refs 1
=> done
done
ok 0.500000
ok 0.500003

limiter -1 1 1 0.01
configure
activate chained 0.5
update 0, states 0, refs 1
update 1, states 0, refs 1
=> done
done
ok 0.500001
ok 0.500003

limiter 0.5 0.5 1 10
configure
activate chained 0
update 0, states 0, refs 1
update 1, states 0, refs -1
=> done
done
ok 0.500000
ok 0.500000

limiter -1 1 1 10
configure
activate chained 0
update 0, for 20000, states 0, refs 1
update 1, for 20000, states 0, refs 1
update 2, for 1000, states 0, refs 1
update 3, for 1000, states 0, refs 1
=> done
done
ok 0.004000
ok 0.012000
ok 0.012000
ok 0.012010

limiter 1 -1 1 10
configure
configure limiter -1 1 -0.000001 10
configure limiter -1 1 1 -0.000001
configure limiter -1 -1 0 0
=> out of range
out of range
out of range
done

limiter -1 1 1 10
configure
activate 0
send 1 2
send @20000 1
send 1
=> done
done
does not fit
does not fit
done";
