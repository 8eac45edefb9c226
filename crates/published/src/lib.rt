//! The published book: the eight rules, and the judgement of a whole table by it.
#![tactic(auto)]

pub mod book;
pub mod judge;
