//! Every cause, and every two causes in both orders.

/// Faults of the lists.
pub(crate) const LISTS: &str = r#"fwd active
watch inactive
strict -nosuch => refused nosuch unknown;;
strict -watch => refused watch not_active;;
strict -fwd -fwd => refused fwd twice;;
strict -nosuch -nosuch => refused nosuch unknown;;
strict -watch -watch => refused watch not_active;;
strict -nosuch -fwd -fwd => refused nosuch unknown;;
strict -fwd -fwd -nosuch => refused fwd twice;;
strict -fwd -nosuch -fwd => refused nosuch unknown;;
strict -nosuch -watch => refused nosuch unknown;;
strict -watch -nosuch => refused watch not_active;;
strict -fwd -fwd -watch => refused fwd twice;;
strict -watch -fwd -fwd => refused watch not_active;;
best -fwd -nosuch -fwd -watch => done dropped nosuch unknown, fwd twice, watch not_active; -fwd;

fwd active
watch inactive
other unconfigured
base inactive
strict +nosuch => refused nosuch unknown;;
strict +other => refused other not_configured;;
strict +fwd => refused fwd already_active;;
strict +watch +watch => refused watch twice;;
strict +nosuch +nosuch => refused nosuch unknown;;
strict +other +other => refused other not_configured;;
strict +fwd +fwd => refused fwd already_active;;
strict +nosuch +watch +watch => refused nosuch unknown;;
strict +watch +watch +nosuch => refused watch twice;;
strict +nosuch +other => refused nosuch unknown;;
strict +other +nosuch => refused other not_configured;;
strict +nosuch +fwd => refused nosuch unknown;;
strict +fwd +nosuch => refused fwd already_active;;
strict +watch +watch +other => refused watch twice;;
strict +other +watch +watch => refused other not_configured;;
strict +watch +watch +fwd => refused watch twice;;
strict +fwd +watch +watch => refused fwd already_active;;
strict +other +fwd => refused other not_configured;;
strict +fwd +other => refused fwd already_active;;
strict -watch +nosuch => refused watch not_active;;
strict -fwd +nosuch => refused nosuch unknown;;
best +nosuch +other +fwd +watch +watch +base => done dropped nosuch unknown, other not_configured, fwd already_active, \
watch twice;; +base +watch"#;

/// Faults of members: in each case the member whose fault is named comes after the other one, in the lists and by
/// serial.
pub(crate) const MEMBERS: &str = r#"fwd inactive
top inactive
0 unconfigured
strict +fwd => refused fwd unavailable j1/position;;
strict +top => refused top missing_follower middle/j2/position;;
strict +fwd +top => refused top missing_follower middle/j2/position;;
strict +top +fwd => refused top missing_follower middle/j2/position;;

fwd active
other inactive
top inactive
strict +other => refused other conflict j1/position fwd;;
strict +other +top => refused top missing_follower middle/j2/position;;

fwd active
speed inactive
top inactive
strict +speed => refused speed mode_refused j1;;
strict +speed +top => refused top missing_follower middle/j2/position;;

speed late
top inactive
strict +speed => refused speed not_ready;;
strict +speed +top => refused top missing_follower middle/j2/position;;

fwd active
other inactive
watch inactive
1 unconfigured
strict +watch => refused watch unavailable j2/velocity;;
strict +other +watch => refused watch unavailable j2/velocity;;

fwd active
speed inactive
watch inactive
1 finalized
strict +speed +watch => refused watch unavailable j2/velocity;;

speed late
watch inactive
1 unconfigured
strict +speed +watch => refused watch unavailable j2/velocity;;

fwd active
speed inactive
other inactive
strict +speed +other => refused other conflict j1/position fwd;;
strict +other +speed => refused other conflict j1/position fwd;;

watch late
fwd active
other inactive
strict +watch +other => refused other conflict j1/position fwd;;

watch late
fwd active
speed inactive
strict +watch +speed => refused speed mode_refused j1;;

fwd active
other late
speed late
strict +other => refused other conflict j1/position fwd;;
strict +speed => refused speed mode_refused j1;;

other inactive
fwd inactive
strict +fwd +other => refused other conflict j1/position fwd;;

0 unconfigured
other late
fwd inactive
top inactive
strict +fwd +other => refused other unavailable j1/position;;
strict +nosuch +top => refused nosuch unknown;;"#;
