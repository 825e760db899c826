//! The tests of mc_insts. They stand in a crate of their own, since a crate with tests is proved twice.
#![tactic(auto)]

#[cfg(test)]
mod defining;
mod examples;
#[cfg(test)]
mod lists;
#[cfg(test)]
mod paths;
#[cfg(test)]
mod small_graphs;
#[cfg(test)]
mod tests;
#[cfg(test)]
mod wide;

pub use examples::definitions;
