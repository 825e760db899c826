//! Laws of what mode analysis answers.
//! Programs whose types are regular: under each type finitely many types are met.
//! Laws of goals that wait.
#![tactic(auto)]

pub mod examples;
pub mod laws;
pub mod regular_laws;
pub mod wait_laws;
