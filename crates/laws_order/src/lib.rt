//! The order of goals: the laws that tie it to the relation of ordered goals, and computed examples of it.
#![tactic(auto)]

pub mod examples;
pub mod laws;
