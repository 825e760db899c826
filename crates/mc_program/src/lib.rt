//! Values, types, terms and programs as the compiler holds them, their plain views, copies and equality, and the text
//! that they are printed as.
#![tactic(auto)]

pub mod builtin;
pub mod copy;
pub mod expr;
pub mod program;
mod replaced_first;
pub mod same;
pub mod ty;
pub mod value;
