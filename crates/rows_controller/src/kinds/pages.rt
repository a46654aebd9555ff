//! Calls of controllers, and their answers. After an update stands what the claims hold.

/// A forward gives what it was sent, where that fits.
pub(crate) const FORWARDS: &str = "\
forward 2
configure
activate
update 0
send 0.5 -1
update 1
update 2
send 3 4
update 3
=> done
done
ok unset unset
done
ok 0.500000 -1.000000
ok 0.500000 -1.000000
done
ok 3.000000 4.000000

forward 2
configure
activate chained
send 0.5 -1
update 0
=> done
done
done
ok 0.500000 -1.000000

forward 32
configure
activate
send <0..32 * # >
update 0
=> done
done
done
ok<0..32 *  #.000000>

forward 2
configure
activate
send 1
send 1 2 3
send @20000 1 2
send 1 2
=> done
done
does not fit
does not fit
does not fit
done";

/// A passthrough gives its references where it is chained, else what it was sent; it may have 32 claims.
pub(crate) const PASSTHROUGHS: &str = "\
passthrough 2
configure
activate chained
send 0.5 -1
update 0, refs 7 unset
update 1, refs unset 8
=> done
done
chained
ok 7.000000 unset
ok unset 8.000000

passthrough 2
configure
activate
update 0, refs 7 8
send 0.5 -1
update 1, refs 7 8
=> done
done
ok unset unset
done
ok 0.500000 -1.000000

passthrough 2
configure
activate
send 0.5 -1
deactivate
activate chained
update 0, refs 1 2
deactivate
activate
update 1, refs 1 2
=> done
done
done
done
done
ok 1.000000 2.000000
done
done
ok unset unset

passthrough 32
configure
activate chained
update 0, refs <0..32 * # >
=> done
done
ok<0..32 *  #.000000>

passthrough 1
configure
activate
send 1 2
send @20000 1
send 1
=> done
done
does not fit
does not fit
done";

/// A mock refuses, is not ready, and fails, as its parameters say, also where it has as many claims as a controller may
/// have and lists as many cycles as a run may have.
pub(crate) const MOCKS: &str = "\
mock 1, refuses
configure
configure mock 1
configure mock 2, refuses
activate
send 5
update 0
=> refused
done
refused
done
done
ok 5.000000

mock 1, not ready 4 6, fails 2
ready 4
configure
ready 3
ready 4
ready 5
ready 6
=> yes
done
yes
no
yes
no

mock 1, fails 2 3
configure
activate 0.5 1 2
send 1
update 1, states 7
send 2
update 2, states 7 8
update 3
update 4
=> done
done
done
ok 1.000000
done
error 1.000000
error 1.000000
ok 2.000000

mock 0
configure
activate
send 1
update 0
=> done
done
takes none
ok

mock 32, not ready <0..100000 * # >, fails <0..100000 * # >
configure
ready 99999
ready 100000
activate
update 99999
update 100000
=> done
no
yes
done
error<0..32 *  unset>
ok<0..32 *  unset>

mock 1, not ready 4, fails 2
configure
cleanup
ready 4
configure mock 1
ready 4
activate
update 2
=> done
done
yes
done
yes
done
ok unset

mock 3
configure
activate
send 1 2
send @1 1 2 3, @2 1 2 3
send 1 2 3
=> done
done
does not fit
does not fit
done";

/// Each call in each lifecycle state.
pub(crate) const LIFECYCLE: &str = "\
forward 1
activate
send 1
update 0
deactivate
cleanup
=> unconfigured
not active
not active
not active
not inactive

forward 1
configure
send 1
update 0
deactivate
cleanup
activate
configure
activate
configure
cleanup
=> done
not active
not active
not active
done
unconfigured
done
done
it runs
not inactive

forward 1
configure
configure forward 2
activate
update 0
=> done
done
done
ok unset unset

forward 1
configure
activate
send 9
deactivate
activate
update 0
=> done
done
done
done
done
ok unset

forward 33
configure
configure forward 0
configure mock 1
configure forward 32
=> out of range
out of range
out of range
done";
