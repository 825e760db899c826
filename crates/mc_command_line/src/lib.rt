//! What the words of a command line mean.
#![tactic(auto)]

mod goal;
mod limits;
mod parser;
mod words;

pub use goal::query_text;
pub use limits::Bounds;
pub use words::{Command, read_words};
