//! Determinisms of procedures: declared ones, and the least that bodies allow; and goals that are pruned.
#![tactic(auto)]

mod copies;
mod facts;
mod inference;
mod keeping;
mod law;
mod mark;
mod outside;
mod point;
mod procedures;
mod prune;
mod pruned;
mod symbols;
mod tested;
mod variables;
mod walk;

pub use copies::{copy_changes, copy_on};
pub use inference::determinisms;
pub use keeping::kept;
pub use law::{least_by_skeletons, marks_are_kept, pruned_keep_marks, skeletons_tell};
pub use point::{Point, emptied};
pub use procedures::{infer, replace_all, with_body};
pub use pruned::prune_goals;
