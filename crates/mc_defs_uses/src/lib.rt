//! The names in an item: what it declares or defines, what it uses, and what it is of.
#![tactic(auto, using(crate::proofs::Steps::adding))]

mod constructors;
mod declared;
mod definition_set;
mod goals;
mod infixes;
mod insts;
mod name_arity_set;
mod occurrences;
mod signatures;
mod subject;
mod terms;
mod twice;
mod types;

pub use declared::definitions;
pub use definition_set::DefinitionSet;
pub use occurrences::{goal_uses, uses};
pub use subject::{clause_of, mode_of, without_mode};
pub use twice::twice_in;
