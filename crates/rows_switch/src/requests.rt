//! Requests on one joint with seven controllers round it.

pub(crate) const ONE_JOINT: &str = r#"fwd inactive
strict => done;;
best => done;;
strict +fwd => done;; +fwd
strict +fwd +fwd => refused fwd twice;;
best +fwd +fwd => done dropped fwd twice;; +fwd
best +nosuch +nosuch => done dropped nosuch unknown, nosuch unknown;;

pid inactive
traj inactive
strict +traj => refused traj missing_follower pid/j1/position;;
strict +pid +traj => done;; +pid +traj
best +traj +pid => done;; +pid +traj

pid chained
traj active
strict -pid => refused traj missing_follower pid/j1/position;;
best -pid => done dropped pid missing_follower pid/j1/position;;
strict -pid -traj => done; -traj -pid;
best -pid +pid => done dropped pid missing_follower pid/j1/position, pid already_active;;
strict -pid +pid => done; -pid; +pid

fwd active
traj2 inactive
pid inactive
jsb inactive
strict +traj2 => refused traj2 conflict j1/position fwd;;
strict +pid => refused pid mode_refused j1;;
strict -fwd +traj2 => done; -fwd; +traj2
best +nosuch +traj2 +jsb => done dropped nosuch unknown, traj2 conflict j1/position fwd;; +jsb

fwd inactive
jsb inactive
mk late
strict +fwd +jsb +mk => refused mk not_ready;;
best +fwd +mk +jsb => done dropped mk not_ready;; +jsb +fwd

0 unconfigured
fwd inactive
strict +fwd => refused fwd unavailable j1/position;;

0 inactive
fwd inactive
strict +fwd => done;; +fwd

0 finalized
jsb inactive
fwd inactive
best +jsb +fwd => done dropped jsb unavailable j1/position, fwd unavailable j1/position;;

traj2 active
jsb active
pt inactive
pid inactive
strict -traj2 +pt +pid => done; -traj2; +pid +pt"#;
