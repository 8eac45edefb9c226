//! Scheduling tables: for each task of a problem a row, of lawful shape, or none.
#![tactic(auto)]

pub mod dates;
pub mod fault;
pub mod part;
pub mod placed;
pub mod row;
pub mod rows;
pub mod shape;
mod stored;
pub mod table;
