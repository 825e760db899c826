//! The types of a program as a table, or the rules that their definitions break.
#![tactic(auto)]

mod bodies;
mod definitions;
mod equivalences;
mod expansion;
mod faults;
mod fields;
mod mentioned;
mod replaced;
mod table;
mod types;
mod variables;
mod visibility;
mod written;

pub use equivalences::equivalent;
pub use fields::constructor_fields;
pub use replaced::{SizeBudget, with_definitions};
pub use table::type_table;
pub use types::types_of;
pub use variables::stray_variable;
pub use visibility::{all_definitions, seen_definitions, sees_definition};
pub use written::{named_type, type_of_term};
