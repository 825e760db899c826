//! The terms of a text, item by item.
#![tactic(auto, using(crate::proofs::Rules::ends))]

pub use mc_operators::{Fix, infix, prefix};

mod fault;
mod item;
mod position;
mod term;

pub use fault::{ItemFault, ReadFault, ReadKind};
pub use mc_term_data::{Node, Term};
pub use position::Position;
pub use term::{ReadItem, read_next, read_term};
