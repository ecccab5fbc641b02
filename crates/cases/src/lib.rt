//! The larger tests, over all the crates below.
#![tactic(auto)]

#[cfg(test)]
mod enforcer_tests;
#[cfg(test)]
mod guard_tests;
#[cfg(test)]
mod letter_tests;
#[cfg(test)]
mod plate;
pub mod plate_cases;
pub mod reading;
#[cfg(test)]
mod reading_tests;
#[cfg(test)]
mod synthesis_tests;
