//! What each builtin does at its inputs, over values in a heap.
#![tactic(auto)]

mod applied;
mod applying;
mod integers;
mod kind;
mod library;
mod made;
mod reading;
mod texts;

pub use applied::Applied;
pub use applying::apply;
pub use library::Library;
pub use reading::{ReadResult, read_line};
