//! State variables written out, for clauses and for the goals of queries.
#![tactic(auto)]

mod atoms;
mod branches;
mod clause;
mod conditions;
mod examples;
mod facts;
mod finishing;
mod goals;
mod held;
mod names;
mod numbering;
mod pieces;
mod plain_goals;
mod quantifiers;
mod steps;
mod terms;
mod updates;

pub use clause::{numbered_clause, numbered_goal};
pub use examples::written_out;
pub use facts::stays_as_written;
