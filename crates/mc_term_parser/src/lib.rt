//! Terms from tokens: the operators, and the reader of the tokens of one item.
#![tactic(auto)]

mod arguments;
mod frame;
mod infixes;
mod law;
mod lexeme;
mod reader;
mod reading;
mod starting;

pub use law::{at_most_one_term, terms_are_no_deeper};
pub use lexeme::Lexeme;
pub use reading::Reading;
pub use starting::read;
