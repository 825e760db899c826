//! Laws of one answer: whatever insts a compiler makes, and in whatever order, the same comes of a program.
#![tactic(auto)]

pub mod laws;
