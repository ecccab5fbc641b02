//! From a property file to a checked property: its alphabet and its nodes, or the fault that it gets.
#![tactic(auto)]

pub mod branches;
pub mod check;
mod declared;
mod family;
pub mod fault;
mod listed;
pub mod node;
pub mod place;
pub mod sizes;
#[cfg(test)]
mod tests;
