//! The records of a property file, and their reader.
#![tactic(auto)]

pub mod body;
pub mod fault;
pub mod reader;
pub mod record;
