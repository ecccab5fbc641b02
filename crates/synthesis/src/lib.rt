//! From a property file to a table that admits exactly the beginnings of its property, or the fault that it gets.
#![tactic(auto)]

mod course;
mod drawn;
pub mod fault;
mod make;
mod rows;
mod source;
pub mod synthesize;
pub mod theorems;
mod weighed;
mod weights;
mod write;
