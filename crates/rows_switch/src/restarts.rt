//! Restarts by name and by chained mode, and chains of three.

pub(crate) const RESTARTS: &str = r#"base chained
middle chained
top active
strict -middle => refused top missing_follower middle/j2/position;;
strict -base => refused middle missing_follower base/j2/position;;
strict -top => done; -top -middle; +middle
strict -top -middle => done; -top -middle -base; +base
strict -middle -top => done; -top -middle -base; +base
strict -top -middle -base => done; -top -middle -base;
strict -base -middle -top => done; -top -middle -base;
strict -middle +middle => done; -middle; +middle
strict -base -top +base => done; -top -middle -base; +base +middle
strict -top -middle -base +top +middle +base => done; -top -middle -base; +base +middle +top
best -middle => done dropped middle missing_follower middle/j2/position;;
best -middle -base => done dropped middle missing_follower middle/j2/position, base missing_follower base/j2/position;;
best -base -middle => done dropped base missing_follower base/j2/position, middle missing_follower middle/j2/position;;
best -base -middle -top => done; -top -middle -base;
best -top => done; -top -middle; +middle
best -base -top => done dropped base missing_follower base/j2/position; -top -middle; +middle

top inactive
middle inactive
base inactive
strict +top +base => refused top missing_follower middle/j2/position;;
strict +top +middle => refused middle missing_follower base/j2/position;;
strict +top +middle +base => done;; +base +middle +top
best +top +middle +base => done;; +base +middle +top
best +top +base => done dropped top missing_follower middle/j2/position;; +base
best +top +middle => done dropped middle missing_follower base/j2/position, top missing_follower middle/j2/position;;

base active
middle inactive
top inactive
strict +middle => done; -base; +base +middle
strict +top +middle => done; -base; +base +middle +top
strict -base +base +middle => done; -base; +base +middle
strict -base +middle => refused middle missing_follower base/j2/position;;
best -base +middle => done dropped middle missing_follower base/j2/position; -base;
best -base +middle +base => done; -base; +base +middle

base late
strict +base => refused base not_ready;;
strict -base => refused base not_active;;

base active
middle inactive
watch active
strict -watch +watch +middle => done; -base -watch; +base +watch +middle
strict +middle -watch => done; -base -watch; +base +middle"#;
