//! The tests of compiling, which call what `mc_compile` offers. They stand in a crate of their own, since a crate with
//! tests is proved twice.
#![tactic(auto)]

#[cfg(test)]
mod tests;
#[cfg(test)]
mod tests_sources;
