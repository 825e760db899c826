//! Types as a graph of cells: made equal without copies, and undone by a list of changes.
//! The search for the one choice of candidates that types a clause.
//! Types made equal: substitutions of types for type variables, and the most general one that makes two types equal.
#![tactic(auto)]

mod cells;
mod fresh;
mod joins;
mod laws;
mod outcome;
mod proper;
mod resolves;
mod search;
mod signature;
mod state;
mod steps;
mod subst;
mod type_search_written;
mod types;
mod unifying;
mod visits;
mod written;
mod written_types;

pub use cells::{Cell, Change, Graph, TypeName};
pub use fresh::{add_cell, add_free};
pub use joins::{Pair, restore, root, unify};
pub use laws::founded_is_solved;
pub use outcome::Outcome;
pub use proper::is_proper;
pub use resolves::resolve;
pub use signature::Signature;
pub use steps::Step;
pub use subst::Subst;
pub use types::add_type;
pub use visits::{enough_marks, founded};
pub use written::{resolve_type, write_type};
pub use written_types::Written;
