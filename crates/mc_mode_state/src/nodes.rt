ghost use Rattle.std.specs.Prelude.{◌≡◌, []};

use crate::table::NodeTable;
use mc_program::ty::Ty;
use std::alloc::Global;

/// The nodes that were looked for while goals were tried, so that the same question has the same answer: those of one
/// symbol over insts, and those that several insts were merged to at a type, by the type's place among those met.
#[derive(Drop)]
pub struct Nodes {
    pub overs: NodeTable,
    pub joins: NodeTable,
    pub types: Vec<Ty>,
}

impl Nodes {
    /// None yet, which take no memory.
    pub fn new(alloc: Global) -> Nodes
        ensures overs { result.overs ≡ [] }
        ensures joins { result.joins ≡ [] }
        ensures types { result.types.items ≡ [] }
    {
        Nodes {
            overs: NodeTable::new(alloc),
            joins: NodeTable::new(alloc),
            types: Vec::new(alloc),
        }
    }
}
