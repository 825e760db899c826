//! Points of clauses that are being put in order: the insts of variables there, with a trail that leads back, and what atoms
//! do there.
#![tactic(auto)]

mod applied;
mod applying;
mod asking;
mod atoms;
mod branches;
mod builtin_modes;
mod call;
mod calls;
mod changes;
mod ends;
mod entry;
mod fault;
mod finding;
mod fresh;
mod joining;
mod leaving;
mod made;
mod modes;
mod nodes;
mod over;
mod part;
mod picking;
mod returning;
mod state;
mod table;

pub use calls::has;
pub use fault::{Failed, ModeFault};
pub use joining::differs;
pub use nodes::Nodes;
pub use part::{Part, unmarked};
pub use state::{Snapshot, State};
pub use table::NodeTable;
