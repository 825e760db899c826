//! Printed text: values, the lines of answers and the lines of broken rules.
#![tactic(auto)]

mod line;
mod name;
mod value;

pub use line::{answer_line, broken_line};
pub use name::write_constant;
pub use value::{printed, value_text};
