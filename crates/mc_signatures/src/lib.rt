//! The declared modes of predicates and functions, as their items write them.
//! The signatures of predicates: what their declared modes mean over nodes of the graph of insts, and the definitions of
//! these nodes.
#![tactic(auto)]

mod by_name;
mod callable;
mod declared;
mod expansion;
mod keys;
mod meant;
mod nodes;
mod query;
mod rows;
mod signed;
mod written;

pub use declared::declared_modes;
pub use query::query_signature;
pub use signed::{ModeTable, signatures};
pub use written::WrittenMode;
