#![tactic(auto)]

pub mod allocation;
pub mod deadline;
pub mod duration;
pub mod release;
pub mod whole;
