//! The letters of a machine, and the alphabet that a rule speaks of.
#![tactic(auto)]

pub mod alphabet;
pub mod letter;
pub mod refusal;
