//! The tests of mc_types and mc_components. They stand in a crate of their own, since a crate with
//! tests is proved twice.
#![tactic(auto)]

#[cfg(test)]
mod components_tests;
#[cfg(test)]
mod search_tests;
#[cfg(test)]
mod subst_tests;
