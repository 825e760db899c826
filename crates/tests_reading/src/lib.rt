//! The tests of reading: tokens, terms, the forms of items and goals. They stand in a crate of their own, since a crate
//! with tests is proved twice.
//! The tests of state variables that are written out, which call what `mc_state_variables` offers. They stand in a crate
//! of their own, since a crate with tests is proved twice.
#![tactic(auto)]

#[cfg(test)]
mod chain_tests;
#[cfg(test)]
mod facts_tests;
#[cfg(test)]
mod hostile_tests;
#[cfg(test)]
mod items_tests;
#[cfg(test)]
mod parser_tests;
#[cfg(test)]
mod terms_tests;
#[cfg(test)]
mod tests;
#[cfg(test)]
mod token_tests;
