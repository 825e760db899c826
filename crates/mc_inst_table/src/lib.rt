//! Insts and modes that a program defines: what a written one means, and the rules that definitions break.
#![tactic(auto)]

mod bodies;
mod faults;
mod functors;
mod heads;
mod inside;
mod inst;
mod items;
mod links;
mod meaning;
mod mode_rings;
mod modes;
mod needs;
mod others;
mod places;
mod rings;
mod written;

pub use bodies::inst_bodies;
pub use faults::inst_faults;
pub use inst::{Functor, Inst, Mode};
pub use items::insts_written;
pub use modes::mode_of_term;
pub use written::inst_of_term;
