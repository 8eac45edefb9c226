//! Every fault as its number, layer, position and label, and the line that is printed.
#![tactic(auto)]

pub mod check;
pub mod refusal;
pub mod verdict;
