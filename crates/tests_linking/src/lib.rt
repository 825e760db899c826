//! The tests of linking, which call what `mc_modules` offers. They stand in a crate of their own, since a crate with
//! tests is proved twice.
#![tactic(auto)]

#[cfg(test)]
mod tests;
#[cfg(test)]
mod tests_names;
