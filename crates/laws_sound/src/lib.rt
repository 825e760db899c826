//! Accepted procedures are good: the theorem that the language's word stands on, over its definitions alone.
#![tactic(auto)]

pub mod examples;
pub mod laws;
