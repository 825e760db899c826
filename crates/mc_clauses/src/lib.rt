//! What the clauses of a program are before their names are resolved, what they declare, and what typing says of them.
#![tactic(auto)]

mod clauses;
mod examples;
mod goals;
mod pieces;
mod terms;
mod variables;
mod view;

pub use clauses::{unresolved_clause, unresolved_query};
pub use examples::unresolved_clauses;
pub use terms::Module;
pub use variables::Variables;
