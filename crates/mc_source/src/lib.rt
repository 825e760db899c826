//! Broken rules in the order of the places at which they are told.
//! What every phase of the compiler speaks of: the rules that sources break, names, places and determinisms.
#![tactic(auto)]

pub mod det;
pub mod name;
pub mod place;
mod places;
pub mod rule;

pub use places::sort_by_place;
