//! Instantiation sets: a graph of nodes with cycles, and inclusion by walks over visited pairs at types.
#![tactic(auto)]

mod bounds;
mod cases;
mod chains;
mod define;
mod functors;
mod graph;
mod grow;
mod insts;
mod intern;
mod merge;
mod merging;
mod narrow;
mod over;
mod pairs;
mod rows;
mod tidy;
mod triples;
mod types;
mod walk;

pub use define::{InstDef, InstFault};
pub use insts::{InstId, Insts};
