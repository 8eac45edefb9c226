//! The published rule on dependencies: a task starts when the data that it waits for is there.
#![tactic(auto)]

pub mod dependencies;
mod link;
