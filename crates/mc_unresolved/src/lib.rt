//! Clauses whose names are not resolved, the steps of their walk, and the clause that picks make of one.
#![tactic(auto)]

mod clause;
mod goal;
mod picks;
mod resolved;
mod steps;
mod tasks;
mod term;

pub use clause::UnresolvedClause;
pub use goal::UnresolvedGoal;
pub use resolved::resolved_clause;
pub use steps::WalkStep;
pub use tasks::walk_steps;
pub use term::Unresolved;
