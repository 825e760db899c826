ghost use Rattle.std.specs.Prelude.{◌≡◌, ℕ, ◌<◌, length, replicate, IfOk, MatchOption, true, false};
ghost use Rattle.mc_insts.specs.code.Cases.{node_has};
ghost use Rattle.mc_insts.specs.code.Walks.{node_at, functor_at};
ghost use Rattle.mc_insts.specs.code.Overs.{NodeRises, node_list};

use crate::cases::find;
use crate::graph::{InstGraph, Node};
use mc_base::{Copied, Memory, Row};
use std::alloc::Global;

/// A number, n times.
pub(crate) fn repeated(alloc: Global, i: u32, n: u32) -> Result<Row<u32>, Memory>
    ensures { IfOk result (λ row. row ≡ replicate n i) }
{
    let items = Vec::from_elem(alloc, i, n as usize)?;
    Row::of(items)
}

impl InstGraph {
    /// The insts of a constructor's arguments, by its functor; None exactly where the inst excludes it.
    pub fn arguments(&self, alloc: Global, i: u32, functor: u32) -> Result<Option<Row<u32>>, Memory>
        requires there { i < length self.now.nodes }
        requires rises { NodeRises (node_at self.now.nodes i) }
        requires functor { functor < length self.now.functors }
        ensures { IfOk result (λ o. MatchOption o (node_has (node_at self.now.nodes i) functor ≡ false) (λ row. (node_has (node_at self.now.nodes i) functor ≡ true) × (row ≡ node_list (node_at self.now.nodes i) i functor (functor_at self.now.functors functor).arity))) }
    {
        let arity = self.functors.arity(functor);
        match self.node(i) {
            Node::Free => Ok(None),
            Node::Ground => Ok(Some(repeated(alloc, i, arity)?)),
            Node::Unique => Ok(Some(repeated(alloc, i, arity)?)),
            Node::Dead => Ok(Some(repeated(alloc, i, arity)?)),
            Node::Bound(cases) => match find(cases.as_slice(), functor) {
                Some(args) => Ok(Some(args.copied(alloc)?)),
                None => Ok(None),
            },
        }
    }
}
