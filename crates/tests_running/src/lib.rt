//! Tests of mc_plain: runs of procedures that are written out. They stand in a crate of their own, since a crate with tests
//! is proved twice.
//! Tests of the crates that run programs.
#![tactic(auto)]

#[cfg(test)]
mod builtins;
#[cfg(test)]
mod lines;
#[cfg(test)]
mod runs;
#[cfg(test)]
mod shown;
#[cfg(test)]
mod tests;
#[cfg(test)]
mod values_tests;
#[cfg(test)]
mod words;
