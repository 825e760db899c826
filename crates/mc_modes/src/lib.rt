//! Goals in the order in which they run: the one order of a clause's goal from the insts at its beginning, or the rule
//! that it breaks.
//! The goals of all declared modes of a program in their order, with the procedures that they make, or the rules of modes
//! that are broken.
#![tactic(auto)]

mod arranging;
mod atoms;
mod ending;
mod faults;
mod inputs;
mod makings;
mod modes;
mod order;
mod ordering;
mod outside;
mod places;
mod scheduling;
mod sleeping;
mod texts;
mod trying;
mod variables;
mod waiting;

pub use arranging::{Arrangement, Refusal, arrange};
pub use atoms::modes_at;
pub use modes::{ModeId, mode_ids};
pub use order::try_goal;
pub use ordering::{Orders, list_faults, order_goals};
pub use scheduling::schedule;
