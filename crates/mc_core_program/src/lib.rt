//! The program that runs: its clauses with their scopes written out and their variables' types without equivalences.
//! The program that runs, of what a program declares, its typed clauses and its query.
#![tactic(auto)]

mod clauses;
mod goals;
mod numbered;
mod program;
mod query;
mod whole_program_clauses;
mod whole_program_program;

pub use clauses::{whole_clause, whole_query};
pub use goals::normal_goals;
pub use numbered::by_number;
pub use program::with_clauses;
pub use whole_program_program::{WholeProgram, whole_program};
