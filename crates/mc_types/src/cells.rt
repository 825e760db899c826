ghost use Rattle.std.specs.Prelude.{◌≡◌, ◌↔◌, [], IsTrue};

use std::alloc::Global;

/// What names a type before its arguments: a builtin type, or a union type by its number.
#[derive(Clone, Copy, Debug, PartialEq, Eq)]
pub enum TypeName {
    Int,
    Char,
    Str,
    Io,
    Union(u32),
}

impl TypeName {
    /// Whether the two are the same name.
    pub fn is(self, other: TypeName) -> bool
        ensures { IsTrue result ↔ (self ≡ other) }
    {
        self == other
    }
}

/// What is known of the type at a place.
#[derive(Clone, Copy)]
pub enum Cell {
    /// Nothing yet.
    Free,
    /// It is the type at another place, which is lower.
    Same(usize),
    /// It is a builtin type, or a union type without its arguments.
    Named(TypeName),
    /// It is a rigid type variable.
    Rigid(u32),
    /// It is the type at one place, applied to the type at another.
    App(usize, usize),
}

/// A cell that was overwritten, and what it held.
#[derive(Clone, Copy)]
pub struct Change {
    pub at: usize,
    pub was: Cell,
}

/// The cells, and their changes in order.
#[derive(Drop)]
pub struct Graph {
    pub cells: Vec<Cell>,
    pub changes: Vec<Change>,
}

impl Graph {
    /// The graph of no cells, which takes no memory yet.
    pub fn new(alloc: Global) -> Graph
        ensures cells { result.cells.items ≡ [] }
        ensures changes { result.changes.items ≡ [] }
    {
        Graph {
            cells: Vec::new(alloc),
            changes: Vec::new(alloc),
        }
    }
}
