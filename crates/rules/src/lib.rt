//! What a rule is, what makes a table lawful under a book of rules, and the search for the first broken place.
#![tactic(auto)]

pub mod each_task;
pub mod judgement;
pub mod label;
pub mod naming;
pub mod rule;
pub mod search;
pub mod task_rule;
