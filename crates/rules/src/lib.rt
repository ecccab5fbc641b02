//! Rules over letters: what a rule is, the laws that it keeps, and the rules that are made here.
#![tactic(auto)]

pub mod cap;
pub mod count;
pub mod fault;
pub mod rule;
pub mod table;
pub mod theorems;

pub use cap::Cap;
pub use count::Count;
pub use fault::RuleFault;
pub use rule::Rule;
pub use table::Table;

#[cfg(test)]
mod tests;
