//! The published rule on overlaps: two tasks on one processor never run at the same tick, whatever the frames.
#![tactic(auto)]

mod exclusions;
pub mod overlap;
pub mod overlaps;
pub mod search;
