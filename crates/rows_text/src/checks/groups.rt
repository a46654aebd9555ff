//! Groups of controllers, which a description of the second version may have, and its larger limits.

/// The top of a description of the second version.
pub(crate) const SECOND: &str = "version = 2\nupdate_rate = 100\ncycles = 5\n";

/// Groups that fit, and each fault that they may have, alone and beside another.
pub(crate) const GROUPS: &str = r#"[[controller]]
name = "m"
type = "mock"
[[group]]
name = "g"
members = ["m"]
=> valid

[[group]]
name = "g"
members = ["m"]
=> no_member g m

[[controller]]
name = "m"
type = "mock"
[[group]]
name = "g"
members = ["m", "k"]
=> no_member g k

[[controller]]
name = "m"
type = "mock"
[[group]]
name = "g"
members = []
=> bad_range group[0].members

[[controller]]
name = "m"
type = "mock"
[[group]]
name = "g"
members = [<0..33 * "a#", >]
=> bad_range group[0].members

[[controller]]
name = "m"
type = "mock"
[[group]]
name = "g"
members = [<0..32 * "a#", >]
=> no_member g a0

[[controller]]
name = "m"
type = "mock"
[[group]]
name = "g"
members = ["m", "m"]
=> name_twice m

[[controller]]
name = "m"
type = "mock"
[[group]]
name = "m"
members = ["m"]
[[group]]
name = "m"
members = ["m"]
=> name_twice m

[[controller]]
name = "m"
type = "mock"
[[group]]
name = "m"
members = ["m"]
[[group]]
name = "g"
members = ["m"]
=> valid

<0..17 * [[group]]
name = "g#"
members = ["m"]
>\
=> too_many groups

<0..16 * [[group]]
name = "g#"
members = ["m"]
>\
=> no_member g0 m

[[controller]]
name = "m"
type = "mock"
fallback = ["k"]
[[group]]
name = "g"
members = ["k"]
=> no_fallback m k

[[controller]]
name = "m"
type = "mock"
fallback = ["g"]
[[group]]
name = "g"
members = ["m"]
=> no_fallback m g

[[controller]]
name = "m"
type = "mock"
reads = ["j1/position"]
[[group]]
name = "g"
members = []
=> bad_range group[0].members

[[controller]]
name = "p"
type = "passthrough"
claims = ["p/j1/position"]
[[group]]
name = "g"
members = ["m"]
=> no_member g m

[[controller]]
name = "m"
type = "mock"
[[group]]
name = "g"
=> bad_key group[0].members

[[controller]]
name = "m"
type = "mock"
[[group]]
members = ["m"]
=> bad_key group[0].name

[[controller]]
name = "m"
type = "mock"
[[group]]
name = "g"
members = "m"
=> bad_value group[0].members

[[controller]]
name = "m"
type = "mock"
[[group]]
name = "g"
members = ["m/"]
=> bad_value group[0].members[0]

[[controller]]
name = "m"
type = "mock"
[group]
name = "g"
members = ["m"]
=> bad_value group

[[controller]]
name = "m"
type = "mock"
[[group]]
name = "g"
members = ["m"]
kind = "x"
=> bad_key group[0].kind

[[component]]
name = "c"
kind = "system"
<0..33 * [[component.joint]]
name = "j#"
vmax = 1
>\
=> valid

[[component]]
name = "c"
kind = "system"
<0..64 * [[component.joint]]
name = "j#"
vmax = 1
>\
=> valid

[[component]]
name = "c"
kind = "system"
<0..65 * [[component.joint]]
name = "j#"
vmax = 1
>\
=> too_many joints"#;
