//! The published rule on windows: a task runs only where its partition is served.
#![tactic(auto)]

pub mod window;
