//! The tests of printing, and of reading back what is printed. They stand in a crate of their own, since a crate with tests is
//! proved twice.
#![tactic(auto)]

#[cfg(test)]
mod tests;
