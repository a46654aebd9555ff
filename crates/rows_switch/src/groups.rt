//! Switches that name groups, over one joint.

/// One joint with a pid, a trajectory above it and a mock, and a group of the first two.
pub(crate) const GROUPED: &str = r#"version = 2
update_rate = 100
cycles = 6
[[component]]
name = "arm"
kind = "system"
joint = [{ name = "j1", vmax = 1, command = ["velocity"], state = ["position"] }]
[[controller]]
name = "pid"
type = "pid"
claims = ["j1/velocity"]
reads = ["j1/position"]
[[controller]]
name = "traj"
type = "trajectory"
claims = ["pid/j1/position"]
reads = ["j1/position"]
[[controller]]
name = "mk"
type = "mock"
[[group]]
name = "motion"
members = ["pid", "traj"]
"#;

/// Members stand in their order at the place of their group, and can stand twice. A group that is not described is no
/// controller.
pub(crate) const GROUPS: &str = r#"pid inactive
traj inactive
mk inactive
strict +@motion => done;; +pid +traj
strict +@motion +mk => done;; +pid +mk +traj
strict +@motion +@motion => refused pid twice;;
strict +traj +@motion => refused traj twice;;
best +@motion +pid => done dropped pid twice;; +pid +traj
best +@motion +@motion => done dropped pid twice, traj twice;; +pid +traj
strict -@motion => refused pid not_active;;
best -@motion => done dropped pid not_active, traj not_active;;
strict +@nosuch => refused nosuch no_group;;
best +@nosuch +@nosuch => done dropped nosuch no_group, nosuch no_group;;
best +@pid +pid => done dropped pid no_group;; +pid
best +motion => done dropped motion unknown;;
strict +nosuch +@nosuch => refused nosuch unknown;;
strict +@nosuch +nosuch => refused nosuch no_group;;
strict -@nosuch +nosuch => refused nosuch no_group;;
strict -nosuch +@nosuch => refused nosuch unknown;;

pid chained
traj active
strict -@motion => done; -traj -pid;
strict -@motion +@motion => done; -traj -pid; +pid +traj
strict -@motion +pid => done; -traj -pid; +pid
strict -pid +@motion => refused traj already_active;;
best -@motion +@motion => done; -traj -pid; +pid +traj
best -pid +@motion => done dropped pid missing_follower pid/j1/position, pid already_active, traj already_active;;
strict -@motion -pid +@motion +pid => refused pid twice;;
best -@motion -pid +@motion +pid => done dropped pid twice, pid twice; -traj -pid; +pid +traj
best -traj -@motion +traj +@motion => done dropped traj twice, traj twice; -traj -pid; +pid +traj
strict -@motion +@nosuch => refused nosuch no_group;;
best -@motion +@nosuch => done dropped nosuch no_group; -traj -pid;

pid unconfigured
strict +@motion => refused pid not_configured;;
best +@motion => done dropped pid not_configured, traj unknown;;"#;

/// A chain in which each controller leads the one behind it, and a group of them all: as many members as a group may
/// have.
pub(crate) const IN_A_CHAIN: &str = r#"version = 2
update_rate = 100
cycles = 1
[[component]]
name = "arm"
kind = "system"
joint = [{ name = "j", vmax = 1, command = ["position"] }]
<0..31 * [[controller]]
name = "c#"
type = "passthrough"
claims = ["c#'/j/position"]
>[[controller]]
name = "c31"
type = "passthrough"
claims = ["j/position"]
[[group]]
name = "all"
members = [(0..32 * "c#", )]
"#;

/// The whole chain comes, leaves and restarts by one word. Who is led comes first, and who leads leaves first.
pub(crate) const CHAIN: &str = r#"<0..32 * c# inactive
>strict +@all => done;; +c31 +c30 +c29 +c28 +c27 +c26 +c25 +c24 +c23 +c22 +c21 +c20 +c19 +c18 +c17 +c16 +c15 +c14 +c13\
 +c12 +c11 +c10 +c9 +c8 +c7 +c6 +c5 +c4 +c3 +c2 +c1 +c0
best +@all +c0 => done dropped c0 twice;; +c31 +c30 +c29 +c28 +c27 +c26 +c25 +c24 +c23 +c22 +c21 +c20 +c19 +c18 +c17\
 +c16 +c15 +c14 +c13 +c12 +c11 +c10 +c9 +c8 +c7 +c6 +c5 +c4 +c3 +c2 +c1 +c0

c0 active
<1..32 * c# chained
>strict -@all => done;<0..32 *  -c#>;
strict -@all +@all => done;<0..32 *  -c#>; +c31 +c30 +c29 +c28 +c27 +c26 +c25 +c24 +c23 +c22 +c21 +c20 +c19 +c18 +c17\
 +c16 +c15 +c14 +c13 +c12 +c11 +c10 +c9 +c8 +c7 +c6 +c5 +c4 +c3 +c2 +c1 +c0
strict -@all +c31 => done;<0..32 *  -c#>; +c31
best -c31 +@all => done dropped c31 missing_follower c31/j/position<0..32 * , c# already_active>;;"#;
