//! The tests of mc_base and mc_outside. They stand in a crate of their own, since a crate with tests is proved twice.
#![tactic(auto)]

#[cfg(test)]
mod base_tests;
#[cfg(test)]
mod copy_tests;
#[cfg(test)]
mod data_tests;
#[cfg(test)]
mod det_tests;
#[cfg(test)]
mod outside_tests;
#[cfg(test)]
mod var_set_tests;
