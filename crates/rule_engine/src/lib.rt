//! What a list of rules decides about a connection.
#![tactic(auto)]

pub use judging::{Judged, TracksSoFar, Verdict, after_rule, is_true, judge, judge_after};
pub use scene::{NO_TRACKS, Scene, Tracks};

mod judging;
mod scene;
