//! Rules made of other rules: two one after the other, one with places waived, one confined to a partition.
#![tactic(auto)]

pub mod confinement;
pub mod fault;
pub mod pair;
mod scope;
pub mod scoped;
pub mod unlisted;
pub mod waiver;
