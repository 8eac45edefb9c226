//! The form of a problem file: its header, and its records one by one.
#![tactic(auto)]

pub mod counts;
mod decode;
pub mod fault;
pub mod file;
pub mod header;
pub mod layout;
pub mod read_file;
pub mod read_header;
pub mod reader;
pub mod record;
