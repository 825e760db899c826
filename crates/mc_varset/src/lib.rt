//! Sets of variables, or of other numbers below a bound.
#![tactic(auto)]

mod var_set;

pub use var_set::VarSet;
