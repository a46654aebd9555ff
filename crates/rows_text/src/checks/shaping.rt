//! Controllers that shape a command, at the ends of their ranges, and just past them.

/// Transmissions and differentials behind the arm: how many they claim, what these carry, and their reductions.
pub(crate) const TRANSMISSIONS: &str = r#"[[controller]]
name = "t"
type = "transmission"
claims = ["j1/position"]
reduction = "0.000001"
offset = -1
=> valid

[[controller]]
name = "t"
type = "transmission"
claims = ["j1/position"]
reduction = 0
=> bad_range controller[0].reduction

[[controller]]
name = "t"
type = "transmission"
claims = ["j1/position"]
reduction = "-0.000001"
=> bad_range controller[0].reduction

[[controller]]
name = "t"
type = "transmission"
claims = []
reduction = 0
=> bad_range controller[0].claims

[[controller]]
name = "t"
type = "transmission"
claims = ["j1/position", "j1/velocity"]
reduction = 1
=> bad_range controller[0].claims

[[controller]]
name = "t"
type = "transmission"
claims = ["j1/effort"]
reduction = 1
=> no_interface t j1/effort

[[controller]]
name = "t"
type = "transmission"
claims = ["j1/position"]
reduction = 1
[[controller]]
name = "u"
type = "transmission"
claims = ["t/j1/position"]
reduction = 2
[[controller]]
name = "f"
type = "forward"
claims = ["u/j1/position"]
=> valid

[[controller]]
name = "d"
type = "differential"
claims = ["j1/position"]
reduction1 = 1
reduction2 = 1
=> bad_range controller[0].claims

[[controller]]
name = "d"
type = "differential"
claims = ["j1/position", "j2/position", "j3/position"]
reduction1 = 1
reduction2 = 1
=> bad_range controller[0].claims

[[controller]]
name = "d"
type = "differential"
claims = ["j1/position", "j2/velocity"]
reduction1 = 1
reduction2 = 1
=> bad_range controller[0].claims

[[controller]]
name = "d"
type = "differential"
claims = ["j1/velocity", "j2/position"]
reduction1 = 1
reduction2 = 1
=> bad_range controller[0].claims

[[controller]]
name = "d"
type = "differential"
claims = ["j1/effort", "j2/effort"]
reduction1 = 0
reduction2 = 0
=> bad_range controller[0].claims

[[controller]]
name = "d"
type = "differential"
claims = ["j1/position", "j2/position"]
reduction1 = 0
reduction2 = 0
=> bad_range controller[0].reduction1

[[controller]]
name = "d"
type = "differential"
claims = ["j1/velocity", "j2/velocity"]
reduction1 = 1
reduction2 = -1
=> bad_range controller[0].reduction2

[[controller]]
name = "d"
type = "differential"
claims = ["j1/position", "j2/position"]
reduction1 = 1
reduction2 = 1
=> no_interface d j2/position"#;

/// Limiters behind the arm: what they claim and read, and their limits.
pub(crate) const LIMITERS: &str = r#"[[controller]]
name = "l"
type = "limiter"
claims = ["j1/position"]
reads = ["j1/position"]
min = 0
max = 0
vmax = 0
amax = 0
=> valid

[[controller]]
name = "l"
type = "limiter"
claims = ["j1/position"]
reads = ["j1/position"]
min = -1
max = 1
vmax = 1
amax = 10
=> valid

[[controller]]
name = "l"
type = "limiter"
claims = []
reads = ["j1/position"]
min = 1
max = 0
vmax = 1
amax = 1
=> bad_range controller[0].claims

[[controller]]
name = "l"
type = "limiter"
claims = ["j1/velocity"]
reads = ["j1/velocity"]
min = 0
max = 1
vmax = 1
amax = 1
=> bad_range controller[0].claims

[[controller]]
name = "l"
type = "limiter"
claims = ["j1/position"]
reads = []
min = 0
max = 1
vmax = 1
amax = 1
=> bad_range controller[0].reads

[[controller]]
name = "l"
type = "limiter"
claims = ["j1/position"]
reads = ["j1/velocity"]
min = 1
max = 0
vmax = 1
amax = 1
=> bad_range controller[0].reads

[[controller]]
name = "l"
type = "limiter"
claims = ["j1/position"]
reads = ["j1/position", "j2/position"]
min = 0
max = 1
vmax = 1
amax = 1
=> bad_range controller[0].reads

[[controller]]
name = "l"
type = "limiter"
claims = ["j1/position"]
reads = ["j1/position"]
min = 0
max = "-0.000001"
vmax = -1
amax = -1
=> bad_range controller[0].max

[[controller]]
name = "l"
type = "limiter"
claims = ["j1/position"]
reads = ["j1/position"]
min = 0
max = 1
vmax = -1
amax = -1
=> bad_range controller[0].vmax

[[controller]]
name = "l"
type = "limiter"
claims = ["j1/position"]
reads = ["j1/position"]
min = 0
max = 1
vmax = 0
amax = "-0.000001"
=> bad_range controller[0].amax

[[controller]]
name = "l"
type = "limiter"
claims = ["m/j1/position"]
reads = ["j1/position"]
min = 0
max = 1
vmax = 1
amax = 1
[[controller]]
name = "m"
type = "limiter"
claims = ["j1/position"]
reads = ["j1/position"]
min = 0
max = 1
vmax = 1
amax = 1
=> valid"#;
