//! Switches: which disjunctions of procedures' bodies are switches, on which variable, and their arms.
#![tactic(auto)]

mod choice;
mod context;
mod disjunct;
mod equations;
mod formed;
mod forming;
mod grouping;
mod groups;
mod law;
mod merging;
mod opening;
mod parts;
mod procedures;
mod symbols;

pub use equations::is_equation;
pub use law::{closed_forms, closed_suit};
pub use opening::{Opening, OpeningLabel, openings};
pub use procedures::switches;
