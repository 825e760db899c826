//! What clauses and queries are before their names are resolved: the laws that typing them asks for.
//! Typing: the laws that tie the walk of a clause to the typing of its normal goal, and computed examples of resolving.
//! The program that runs fits as far as types go.
#![tactic(auto)]

mod clause_laws;
pub mod examples;
pub mod laws;
mod whole_laws;

pub use clause_laws::{
    candidates_are_there, clauses_fit, clauses_have_names, clauses_have_values,
    clauses_name_their_own,
};
pub use whole_laws::{
    candidates_are_known, judged_are_typed, judged_programs_fit, resolved_are_typed_in,
    seen_types_are_typed, whole_types_fit,
};
