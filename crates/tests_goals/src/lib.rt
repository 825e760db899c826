//! The tests of mc_goals. They stand in a crate of their own, since a crate with tests is proved twice.
#![tactic(auto)]

#[cfg(test)]
mod library_tests;
#[cfg(test)]
mod tests;
