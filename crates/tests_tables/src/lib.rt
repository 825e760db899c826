//! The tests of the tables of types and of insts, and of declared modes. They stand in a crate of their own, since a crate
//! with tests is proved twice.
#![tactic(auto)]

#[cfg(test)]
mod inst_table_tests;
#[cfg(test)]
mod signatures_tests;
#[cfg(test)]
mod sources;
#[cfg(test)]
mod type_table_tests;
