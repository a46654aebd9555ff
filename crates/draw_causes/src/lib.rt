//! Why something was not done, or went wrong, in plain words, and what would mend it.
//! `specs/Words.antt` is the table of the sentences.
#![tactic(auto)]

pub use causes::{is_own, push_cause, push_cause_mend, push_fallback_mend};
pub use failures::{Failure, StopKind, failure_mend, failure_words, push_stop, push_stop_mend};
pub use whys::{CLOSED_MEND, why_mend, why_words};

mod causes;
mod failures;
mod whys;
