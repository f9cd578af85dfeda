//! Allowed pairs by plain tests, and the verdict on a certificate.
#![tactic(auto)]

mod entry;
mod extent;
mod indexed;
mod laws;
mod near;
mod plain;
mod prefixes;
mod sides;
mod state;
mod verdicts;

pub use laws::{accepted_keep_fewest, judged_once, yes_is_sound, yes_keeps_chains};
pub use plain::allowed;
pub use prefixes::compare;
pub use state::{JudgeState, judge};
pub use verdicts::{Reason, Verdict};
