use mc_base::{Row, Text};

/// A constructor that `bound` lists, by its name and its number of arguments.
#[derive(Debug, PartialEq, Eq, Drop)]
pub struct Functor {
    pub name: Text,
    pub arity: u32,
}

/// An inst as it is written, where definitions stand by their names.
#[derive(Drop)]
pub enum Inst {
    /// A parameter of the definition in which it stands, by its place.
    Parameter(u32),
    /// A builtin inst, by its node.
    Node(u32),
    /// A definition, by its number, over insts.
    Defined(u32, Row<Inst>),
    /// What `bound` lists: its constructors, and the insts of the arguments of all of them, one behind another.
    Bound(Row<Functor>, Row<Inst>),
}

/// A mode as it is written.
#[derive(Drop)]
pub enum Mode {
    /// From one inst to another.
    FromTo(Inst, Inst),
    /// A definition, by its number, over insts.
    Defined(u32, Row<Inst>),
}
