//! Names: what a name in an item is, the names of a program, and what a name may mean in one of its modules.
#![tactic(auto)]

mod candidates;
mod character;
mod definition;
mod head;
mod homes;
mod index;
mod names;
mod occurrence;
mod parameters;
mod paths;
mod per_kind;
mod put;
mod searched;
mod type_candidates;

pub use character::sole_character;
pub use definition::{Definition, Kind, NameArity};
pub use head::{head_name, last_part, symbol_name};
pub use homes::defining_module;
pub use mc_source::name::Candidate;
pub use names::{Named, Names, Scope};
pub use occurrence::Occurrence;
pub use parameters::{parameters_of, place_of};
pub use paths::joined;
pub use per_kind::{PerKind, nothing, rows};
pub use put::put_where;
