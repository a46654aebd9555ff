//! Best effort: what can join joins, and what cannot is dropped with its first fault.

pub(crate) const EFFORTS: &str = r#"fwd inactive
other inactive
speed inactive
watch inactive
best +fwd +other +speed +watch => done dropped other conflict j1/position fwd, speed mode_refused j1;; +watch +fwd
best +speed +other +fwd +watch => done dropped other mode_refused j1, fwd mode_refused j1;; +watch +speed
best +watch +nosuch +other +fwd => done dropped nosuch unknown, fwd conflict j1/position other;; +watch +other

fwd active
other inactive
speed inactive
best -fwd +other => done; -fwd; +other
best -fwd +fwd +other => done dropped other conflict j1/position fwd; -fwd; +fwd
best -fwd +other +fwd => done dropped fwd conflict j1/position other; -fwd; +other
best -other +speed => done dropped other not_active, speed mode_refused j1;;
best +speed -fwd => done; -fwd; +speed

fwd active
watch late
base inactive
1 unconfigured
best +base +watch => done dropped base unavailable j2/position, watch unavailable j2/velocity;;
best -nosuch -fwd -fwd +nosuch +base +base => \
done dropped nosuch unknown, fwd twice, nosuch unknown, base twice, base unavailable j2/position; -fwd;"#;
