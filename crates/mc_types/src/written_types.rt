use crate::TypeName;

/// A type written out, over the free cells of a graph.
#[derive(Drop)]
pub enum Written {
    Free(usize),
    Rigid(u32),
    Named(TypeName),
    App(Box<Written>, Box<Written>),
}
