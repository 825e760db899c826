//! Terms of the source language: what the reader answers.
#![tactic(auto)]

mod copy;
mod depth;
mod last;
mod parts;
mod same;
mod shape;
mod term;

pub use copy::copied_terms;
pub use parts::arity;
pub use shape::{constant, has_none, has_one, is_the_word, is_word, operands, two, variable, word};
pub use term::{Node, Term};
