//! The laws that what the definitions compute is accepted, and examples that meet what they ask.
//! The laws of switch forms and of determinisms, and computed examples of them.
#![tactic(auto)]

pub mod acceptance_examples;
pub mod acceptance_laws;
pub mod examples;
pub mod laws;
