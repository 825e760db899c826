//! Clauses with their scopes written out, and normal goals: the one goal of a predicate over its head variables.
#![tactic(auto)]

mod building;
mod clauses;
mod goals;
mod normal;
mod numbering;
mod numbers;
mod occurrences;
mod outside;
mod query;
mod scopes;
mod shape;
mod terms;

pub use clauses::{ClauseGoal, goal_of_clause};
pub use normal::normal_goal;
pub use occurrences::{push_all_occurring, push_all_variables, push_occurring, push_variables};
pub use query::query_clause;
pub use scopes::scoped_clause;
pub use shape::{Shape, flat_goal};
