//! From a property file and calls to the answers of a guard: synthesis, the table rule, the cap and the guard, joined.
#![tactic(auto)]

pub mod enforce;
pub mod fault;
pub mod offers;
