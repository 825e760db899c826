//! The one resolution of a clause with the types of its variables, or the rule that it breaks.
//! Typing a clause: its walk step by step, its one resolution and its types, or why there is none.
#![tactic(auto)]

mod check_clause_table;
mod checking;
mod fitting;
mod laws;
mod marks;
mod named;
mod numbers;
mod picking;
mod resolving;
mod rigid;
mod signatures;
mod table;
mod types;
mod walk;
mod walking;

pub use check_clause_table::signatures_of;
pub use checking::{TypeFault, check_any_clause, check_clause};
pub use fitting::fits;
pub use laws::{search_decides, walk_is_proper, walk_means};
pub use named::NamedWalk;
pub use resolving::resolve_walk;
pub use table::Signatures;
pub use walk::Walk;
