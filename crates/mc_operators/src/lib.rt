//! The operators of terms, with their numbers.
#![tactic(auto)]

mod table;

pub use table::{Fix, infix, is, prefix};
