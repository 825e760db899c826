//! The rules of determinism that procedures break, from the marks of their bodies.
#![tactic(auto)]

mod binding;
mod calls;
mod entry;
mod io;
mod listed;
mod rules;
mod texts;

pub use entry::{main_fault, main_is_there, main_procedure};
pub use listed::faults;
pub use rules::{call_fault, declaration_fault, io_fault, undeclared_fault};
