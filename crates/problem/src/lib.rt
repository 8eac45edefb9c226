//! A scheduling problem: the major time frame, the tasks, the windows, and what binds tasks to each other.
#![tactic(auto)]

pub mod dependency;
pub mod dimensions;
pub mod exclusion;
pub mod limits;
pub mod lookup;
pub mod problem;
pub mod task;
pub mod window;
