//! The components of a graph: which of its nodes reach each other.
#![tactic(auto)]

mod certificate;
mod coming_back;
mod law;
mod numbering;
mod search;

pub use coming_back::{one_comes_back, reaches_itself};
pub use law::reached_by_ways;
pub use numbering::components;
