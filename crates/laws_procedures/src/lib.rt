//! Laws of rules: the procedures of a program that breaks none are good.
//! Laws of switches: the arms of the bodies that mc_switch makes merge their disjuncts.
#![tactic(auto)]

pub mod laws;
pub mod rule_laws;
