//! The tests of typing, from mc_unresolved to mc_type_phase. They stand in a crate of their own, since a crate with
//! tests is proved twice.
#![tactic(auto)]

#[cfg(test)]
mod choice_tests;
#[cfg(test)]
mod clause_tests;
#[cfg(test)]
mod deep_tests;
#[cfg(test)]
mod hostile_tests;
#[cfg(test)]
mod programs;
#[cfg(test)]
mod source_tests;
#[cfg(test)]
mod sources;
