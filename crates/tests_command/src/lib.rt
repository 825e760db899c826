//! The tests of mc_command_line and mc_cmd. They stand in a crate of their own, since a crate with tests is proved twice.
#![tactic(auto)]

#[cfg(test)]
mod command_tests;
#[cfg(test)]
mod words_tests;
