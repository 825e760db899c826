use mc_base::{Row, Text};
use mc_program::ty::Ty;
use mc_program::value::Value;

/// A goal whose atoms hold variables alone: an equation of two variables, of a variable and a constructor over
/// variables, of a variable and a constant, a call, or a compound goal. `Disj` of an empty row is `fail`.
#[derive(Drop)]
pub enum Flat {
    True,
    Conj(Row<Flat>),
    Disj(Row<Flat>),
    /// The row holds the variables that are quantified over condition and then part.
    Ite(Row<u32>, Box<Flat>, Box<Flat>, Box<Flat>),
    Not(Box<Flat>),
    Some(Row<u32>, Box<Flat>),
    Same(u32, u32),
    Made(u32, u32, Row<u32>),
    Const(u32, Value),
    Call(u32, Row<u32>),
}

/// The one goal of a predicate, over its head variables 0, 1, .. The types and names are those of all its variables, by
/// their numbers; a variable without a name in the source has the empty name.
#[derive(Drop)]
pub struct Normal {
    pub pred: u32,
    pub head: Row<u32>,
    pub var_types: Row<Ty>,
    pub var_names: Row<Text>,
    pub body: Flat,
}
