//! Skeletons of goals, which say what their determinisms are made of, and the least determinisms of procedures.
#![tactic(auto)]

mod callers;
mod constraint;
mod inference;
mod order;
mod pending;
mod stack;

pub use constraint::Step;
pub use inference::least;
