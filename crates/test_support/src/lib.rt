//! Insts that test what they are asked, and programs and definitions made piece by piece, for tests and measurements.
//! Procedures that are written out as tables of words, for tests and measurements of what runs them.
#![tactic(auto)]

mod fits;
mod fixtures;
mod goals;
mod procedures;
mod tested;
mod word;

pub use fits::definitions_fit;
pub use fixtures::{
    add_constructor, add_type, bound, choice, empty_program, list_program, named, old,
};
pub use procedures::{flat_query, program};
pub use tested::{NoAnswer, TestedInsts};
pub use word::{Word, Written};
