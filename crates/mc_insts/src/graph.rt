use crate::functors::Functors;
use mc_base::Row;

/// What is listed under a functor, by its number: the insts of its arguments in a bound inst, the rows of their types
/// in a type.
#[derive(Drop)]
pub struct Case {
    pub functor: u32,
    pub args: Row<u32>,
}

/// A node of the graph.
#[derive(Drop)]
pub enum Node {
    Free,
    Ground,
    Unique,
    Dead,
    Bound(Row<Case>),
}

/// A type as a walk sees it: a type of constants, io's state, a type variable, or a union with its constructors.
#[derive(Drop)]
pub enum Shape {
    Constants,
    State,
    Any,
    Union(Row<Case>),
}

/// The types that are reached, each a row. The first functors, as many as are known, are those that a constructor of
/// the program has.
#[derive(Drop)]
pub struct Shapes {
    pub rows: Row<Shape>,
    pub known: u32,
}

/// The graph of insts, and the functors that it lists.
#[derive(Drop)]
pub struct InstGraph {
    pub functors: Functors,
    pub nodes: Row<Node>,
}
