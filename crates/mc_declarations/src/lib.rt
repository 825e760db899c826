//! What a program declares: its constructors, functions and predicates with their types.
#![tactic(auto)]

mod builtins;
mod constructors;
mod declared;
mod declaring;
mod laws;
mod predicates;
mod program;
mod terms;

pub use laws::declarations_fit;
pub use program::declarations;
