//! Which fault of a text comes first.

/// The top table alone.
pub(crate) const AT_THE_TOP: &str = r#"=> bad_key version

version = 1
update_rate = 100
=> bad_key cycles

cycles = 1.5
version = true
update_rate = 100
=> bad_value version

cycles = 1.5
version = 1
update_rate = "x"
=> bad_value update_rate

cycles = 1.5
version = 1
update_rate = 2
=> float_given cycles

alpha = 1
Zeta = 2
=> bad_key Zeta

b = 1
a = 1
c = 1
=> bad_key a

version = -1
zzz = 1
=> bad_key zzz

zzz.aaa = 1
version = 1.5
=> bad_key zzz

"a.b" = 1
=> bad_key a.b

version = -1
[[component]]
zzz = 1
=> bad_value version"#;

/// Components, behind the keys that the top table must have.
pub(crate) const OF_COMPONENTS: &str = r#"controller = [1]
component = [1]
=> bad_value component[0]

component = [1]
controller = 5
=> bad_value component[0]

component = []
controller = [[]]
=> bad_value controller[0]

component = [{}, 1]
=> bad_key component[0].name

component = [{name = "a", kind = "sensor", joint = []}, 1]
=> bad_value component[1]

component = [1, {}]
=> bad_value component[0]

[component]
name = "arm"
=> bad_value component

[[component]]
zzz = 1
aaa = 1
=> bad_key component[0].aaa

[[component]]
kind = 1
name = 1
=> bad_value component[0].name

[[component]]
kind = 1
name = "arm"
=> bad_value component[0].kind

[[component]]
kind = "system"
=> bad_key component[0].name

[[component]]
name = "arm"
kind = "sensor"
on_error = 1
initial = 1
=> bad_value component[0].initial

[[component]]
name = "arm"
kind = "sensor"
on_error = 1
fail_read = 1
=> bad_value component[0].on_error

[[component]]
name = "arm"
kind = "sensor"
fail_write = 1
fail_read = 1
=> bad_value component[0].fail_read

[[component]]
name = "arm"
kind = "sensor"
fail_write = 1
=> bad_value component[0].fail_write

[[component]]
name = "arm"
kind = "sensor"
=> bad_key component[0].joint

[[component]]
name = "arm"
kind = "sensor"
joint = [{name = "j", vmax = 1}, {zzz = 1}]
=> bad_key component[0].joint[1].zzz

[[component]]
name = "arm"
kind = "sensor"
joint = [{vmax = 1.5, name = "j"}, 7]
=> float_given component[0].joint[0].vmax

[[component]]
name = "arm"
kind = "sensor"
joint = [{vmax = 1, name = "j"}, 7]
=> bad_value component[0].joint[1]

[[component]]
name = "arm"
kind = "sensor"
joint = [{vmax = 1.5, name = 7}]
=> bad_value component[0].joint[0].name

[[component]]
name = "arm"
kind = "sensor"
joint = [{vmax = 1, name = "j", damping = 1.5, gain = true}]
=> bad_value component[0].joint[0].gain

[[component]]
name = "arm"
kind = "sensor"
joint = [{vmax = 1, name = "j", damping = 1.5, position = true}]
=> float_given component[0].joint[0].damping

[[component]]
name = "arm"
kind = "sensor"
joint = [{vmax = 1, name = "j", velocity = 1.5, position = true}]
=> bad_value component[0].joint[0].position

[[component]]
name = "arm"
kind = "sensor"
joint = [{vmax = 1, name = "j", velocity = 1.5, command = 1}]
=> float_given component[0].joint[0].velocity

[[component]]
name = "arm"
kind = "sensor"
joint = [{vmax = 1, name = "j", state = 1, command = 1}]
=> bad_value component[0].joint[0].command

[[component]]
zzz = 1
[[controller]]
zzz = 1
=> bad_key component[0].zzz"#;

/// Controllers, behind the same keys.
pub(crate) const OF_CONTROLLERS: &str = r#"[[controller]]
zzz = 1
=> bad_key controller[0].type

[[controller]]
zzz = 1
type = "x"
=> bad_value controller[0].type

[[controller]]
zzz = 1
type = "mock"
=> bad_key controller[0].zzz

[[controller]]
type = "mock"
update_rate = 1.5
=> bad_key controller[0].name

[[controller]]
type = "pid"
name = "p"
update_rate = 1.5
=> float_given controller[0].update_rate

[[controller]]
type = "pid"
name = "p"
reads = 1
=> bad_key controller[0].claims

[[controller]]
type = "pid"
name = "p"
claims = []
kp = 1.5
=> bad_key controller[0].reads

[[controller]]
type = "pid"
name = "p"
claims = []
reads = []
kd = 1.5
ki = true
kp = "x"
=> bad_value controller[0].kp

[[controller]]
type = "pid"
name = "p"
claims = []
reads = []
kd = 1.5
ki = true
=> bad_value controller[0].ki

[[controller]]
type = "pid"
name = "p"
claims = []
reads = []
kd = 1.5
imax = true
=> float_given controller[0].kd

[[controller]]
type = "pid"
name = "p"
claims = []
reads = []
omax = 1.5
imax = true
=> bad_value controller[0].imax

[[controller]]
type = "mock"
name = "m"
reads = 1
claims = 1.5
=> bad_value controller[0].claims

[[controller]]
type = "mock"
name = "m"
reads = 1
refuse_config = 1
=> bad_value controller[0].reads

[[controller]]
type = "mock"
name = "m"
not_ready = 1
refuse_config = 1
=> bad_value controller[0].refuse_config

[[controller]]
type = "mock"
name = "m"
[[controller]]
name = "n"
=> bad_key controller[1].type

[[controller]]
type = "broadcaster"
name = "b"
reads = "al"
=> bad_value controller[0].reads

[[controller]]
type = "broadcaster"
name = "b"
reads = ["all"]
=> bad_value controller[0].reads[0]

[[controller]]
type = "pid"
name = "b"
claims = []
reads = "all"
=> bad_value controller[0].reads

[[controller]]
type = "trajectory"
name = "b"
claims = []
reads = "all"
=> bad_value controller[0].reads"#;
