//! The laws that show how the definitions of the language fit together, and computed examples of them.
#![tactic(auto)]

pub mod examples;
pub mod laws;
