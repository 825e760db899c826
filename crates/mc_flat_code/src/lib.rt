//! Bodies of procedures as flat code: goals by their places, each with the places where it goes on.
#![tactic(auto)]

pub mod code;
mod flatten;
mod law;
mod once;
mod opening;
mod program;
mod reading;

pub use law::code_runs_as_source;
pub use program::FlatQuery;
