//! The values of a run in a heap, where each is named by a number.
#![tactic(auto)]

mod cell;
mod heap;
mod part;

pub use heap::{Heap, Mark, Ref, marks_rise};
