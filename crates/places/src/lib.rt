//! The places of a property: where a list of letters leads.
#![tactic(auto)]

pub mod outcome;
pub mod places;
pub mod theorems;
