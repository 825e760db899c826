use mc_base::{Row, Text};
use mc_source::det::Det;
use mc_source::place::Place;

/// A node of the graph of insts, by its number: 0 is `free`, 1 `ground`, 2 `unique`, 3 `dead`.
pub type InstId = u32;

/// An inst that a definition names: one that is there, or the one that the definition in a place of the same row makes.
#[derive(Clone, Copy, Debug, PartialEq, Eq)]
pub enum InstRef {
    Old(InstId),
    New(u32),
}

/// A constructor that a bound inst lists, by name and number of arguments, with the insts of its arguments.
#[derive(Debug, PartialEq, Eq, Drop)]
pub struct Choice {
    pub name: Text,
    pub arity: u32,
    pub args: Row<InstRef>,
}

/// A declared mode of a predicate: its procedure, the insts of its arguments at a call and at an answer, and its
/// determinism where one is declared.
#[derive(Debug, PartialEq, Eq, Drop)]
pub struct ModeDecl {
    pub proc: u32,
    pub first: Row<InstId>,
    pub last: Row<InstId>,
    pub det: Option<Det>,
    pub at: Place,
}

/// The declared modes of a predicate, in order.
#[derive(Debug, PartialEq, Eq, Drop)]
pub struct Sig {
    pub pred: u32,
    pub modes: Row<ModeDecl>,
}
