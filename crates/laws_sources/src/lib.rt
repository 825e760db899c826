//! What files that are linked declare is well written: the law that typing them asks for.
//! The numbers and texts of what is read are values: the laws of it that typing asks for.
#![tactic(auto)]

mod examples;
mod laws;
mod reading_laws;

pub use examples::types_of_programs;
pub use laws::{
    given_are_linked, items_have_form, library_matters, library_stays_linked, linked_by_test,
    sources_are_well_written, well_written,
};
pub use reading_laws::{
    items_have_values, numbered_are_of_values, read_are_of_values, sources_have_values,
};
