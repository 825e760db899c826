//! The forms of declarations, judged on terms that were read.
#![tactic(auto)]

mod copied;
mod declaring;
mod definition;
mod determinism;
mod directive;
mod entry;
mod head;
mod insts;
mod item;
mod keyword;
mod parts;
mod signature;
mod types;

pub use declaring::declaration;
pub use directive::{declared_part, is_declaration};
pub use entry::{Entry, ItemsFault};
pub use item::Decl;
pub use signature::are_moded;
