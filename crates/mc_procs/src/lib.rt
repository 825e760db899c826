//! The procedures of a program: its predicates in their modes, with the program and the insts that they are over.
#![tactic(auto)]

mod procs;

pub use procs::Procs;
