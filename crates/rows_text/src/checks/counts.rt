//! Each count at its limit, and one past it.

/// Sensors of one joint, joints that move, and mocks; and all states and commands of as many joints as there may be.
pub(crate) const PARTS: &str = r#"=> valid

<0..16 * [[component]]
name = "c#"
kind = "sensor"
joint = [{name = "j#", vmax = 1}]
>\
=> valid

<0..17 * [[component]]
name = "c#"
kind = "sensor"
joint = [{name = "j#", vmax = 1}]
>\
=> too_many components

[[component]]
name = "sys"
kind = "system"
<0..32 * [[component.joint]]
name = "j#"
vmax = 1
command = ["position"]
state = ["position"]
>\
=> valid

[[component]]
name = "sys"
kind = "system"
<0..33 * [[component.joint]]
name = "j#"
vmax = 1
command = ["position"]
state = ["position"]
>\
=> too_many joints

<0..64 * [[controller]]
name = "m#"
type = "mock"
>\
=> valid

<0..65 * [[controller]]
name = "m#"
type = "mock"
>\
=> too_many controllers

<0..17 * [[component]]
name = "c#"
kind = "sensor"
joint = [{name = "j#", vmax = 1}]
>\
<0..65 * [[controller]]
name = "m#"
type = "mock"
>\
=> too_many components

[[component]]
name = "sys"
kind = "system"
<0..33 * [[component.joint]]
name = "j#"
vmax = 1
command = ["position"]
state = ["position"]
>\
<0..65 * [[controller]]
name = "m#"
type = "mock"
>\
=> too_many joints

[[component]]
name = "sys"
kind = "system"
<0..32 * [[component.joint]]
name = "j#"
vmax = 1
command = ["position", "velocity", "effort"]
state = ["effort", "velocity", "position"]
>\
=> valid"#;

/// As many joints as there may be, each commanded and measured by position.
pub(crate) const JOINTS: &str = r#"version = 1
update_rate = 100
cycles = 5
[[component]]
name = "sys"
kind = "system"
<0..32 * [[component.joint]]
name = "j#"
vmax = 1
command = ["position"]
state = ["position"]
>"#;

/// Behind these joints passthroughs of 32 claims and of one, forwards of 32 claims and of one, broadcasters of 32
/// reads, and mocks of one read. Passthroughs export what they claim, the others nothing.
pub(crate) const SHARES: &str = r#"<0..3 * [[controller]]
name = "p#"
type = "passthrough"
claims = [(0..32 * "j#/position", )]
>\
=> valid

<0..3 * [[controller]]
name = "p#"
type = "passthrough"
claims = [(0..32 * "j#/position", )]
>\
<0..1 * [[controller]]
name = "q#"
type = "passthrough"
claims = ["j0/position"]
>\
=> too_many references

<0..6 * [[controller]]
name = "f#"
type = "forward"
claims = [(0..32 * "j#/position", )]
>\
=> valid

<0..6 * [[controller]]
name = "f#"
type = "forward"
claims = [(0..32 * "j#/position", )]
>\
<0..1 * [[controller]]
name = "g#"
type = "forward"
claims = ["j0/position"]
>\
=> too_many claims

<0..3 * [[controller]]
name = "p#"
type = "passthrough"
claims = [(0..32 * "j#/position", )]
>\
<0..3 * [[controller]]
name = "f#"
type = "forward"
claims = [(0..32 * "j#/position", )]
>\
=> valid

<0..3 * [[controller]]
name = "p#"
type = "passthrough"
claims = [(0..32 * "j#/position", )]
>\
<0..3 * [[controller]]
name = "f#"
type = "forward"
claims = [(0..32 * "j#/position", )]
>\
<0..1 * [[controller]]
name = "g#"
type = "forward"
claims = ["j0/position"]
>\
=> too_many claims

<0..8 * [[controller]]
name = "b#"
type = "broadcaster"
reads = "all"
>\
=> valid

<0..8 * [[controller]]
name = "b#"
type = "broadcaster"
reads = "all"
>\
<0..1 * [[controller]]
name = "l#"
type = "mock"
reads = ["j0/position"]
>\
=> too_many reads

<0..3 * [[controller]]
name = "p#"
type = "passthrough"
claims = [(0..32 * "j#/position", )]
>\
<0..1 * [[controller]]
name = "q#"
type = "passthrough"
claims = ["j0/position"]
>\
<0..6 * [[controller]]
name = "f#"
type = "forward"
claims = [(0..32 * "j#/position", )]
>\
<0..1 * [[controller]]
name = "g#"
type = "forward"
claims = ["j0/position"]
>\
<0..8 * [[controller]]
name = "b#"
type = "broadcaster"
reads = "all"
>\
<0..1 * [[controller]]
name = "l#"
type = "mock"
reads = ["j0/position"]
>\
=> too_many references

<0..6 * [[controller]]
name = "f#"
type = "forward"
claims = [(0..32 * "j#/position", )]
>\
<0..1 * [[controller]]
name = "g#"
type = "forward"
claims = ["j0/position"]
>\
<0..8 * [[controller]]
name = "b#"
type = "broadcaster"
reads = "all"
>\
<0..1 * [[controller]]
name = "l#"
type = "mock"
reads = ["j0/position"]
>\
=> too_many claims"#;

/// Behind these joints a controller that claims as many as one may claim, and one more.
pub(crate) const CLAIMS: &str = r#"[[controller]]
name = "c0"
type = "forward"
claims = [(0..32 * "j#/position", )]
=> valid

[[controller]]
name = "c0"
type = "forward"
claims = [(0..33 * "j#/position", )]
=> bad_range controller[0].claims

[[controller]]
name = "c0"
type = "passthrough"
claims = [(0..32 * "j#/position", )]
=> valid

[[controller]]
name = "c0"
type = "passthrough"
claims = [(0..33 * "j#/position", )]
=> bad_range controller[0].claims

[[controller]]
name = "c0"
type = "trajectory"
claims = [(0..32 * "j#/position", )]
reads = [(0..32 * "j#/position", )]
=> valid

[[controller]]
name = "c0"
type = "trajectory"
claims = [(0..33 * "j#/position", )]
reads = [(0..33 * "j#/position", )]
=> bad_range controller[0].claims

[[controller]]
name = "c0"
type = "mock"
claims = [(0..32 * "j#/position", )]
=> valid

[[controller]]
name = "c0"
type = "mock"
claims = [(0..33 * "j#/position", )]
=> bad_range controller[0].claims"#;
