//! The language, as every phase behind linking speaks of it: types, builtins, truth, goals, insts, what runs do, and
//! which runs are good. What the crates below say of sources and programs is passed on.
#![tactic(auto)]

pub mod flat;
pub mod inst;
pub mod run;
pub mod sched;

pub use mc_base::{Copied, Memory, Row, Text};
pub use mc_program::{builtin, copy, expr, program, same, ty, value};
pub use mc_source::{det, rule};
