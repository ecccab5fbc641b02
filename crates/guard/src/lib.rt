//! Guards over any rule, and runs of their calls.
#![tactic(auto)]

pub mod calls;
pub mod refusal;
pub mod runs;
