ghost use Rattle.std.specs.Prelude.{◌≡◌, ◌&&◌, ℕ, List, [], Some, IfOk, OnOk, OnErr, nat_eq, if◌then◌else◌};
ghost use Rattle.std.specs.Str.{bytes_eq};
ghost use Rattle.mc_mode_state.specs.Tables.{node_in};

use indexmap::IndexMap;
use mc_base::Memory;
use mc_model::inst::InstId;
use std::alloc::Global;
use std::marker::Model;

/// What a node is looked for by.
#[derive(Debug, PartialEq, Eq, Hash, Drop)]
struct Key {
    number: u32,
    insts: Vec<InstId>,
}

/// Nodes that were found, each for a number and insts. A look-up takes the time of one hash. Those over no insts, as
/// constants are, stand apart: to look for one of them makes no key.
#[derive(Drop)]
pub struct NodeTable {
    bare: IndexMap<u32, InstId>,
    found: IndexMap<Key, InstId>,
}

impl Model for NodeTable {
    ghost use Rattle.std.specs.Prelude.{List, map, [], ◌++◌};
    ghost use Rattle.mc_mode_state.specs.Tables.{Entry, entry};
    ghost use Rattle.mc_mode_state.specs.code.Bare.{over_some};

    ghost Value = { List Entry };

    ghost view = { λ t. map (λ e. entry e.0 [] e.1) t.bare.entries
        ++ over_some (map (λ e. entry e.0.number e.0.insts.items e.1) t.found.entries) };
}

impl NodeTable {
    /// No nodes, which take no memory yet.
    pub fn new(alloc: Global) -> NodeTable
        ensures { result ≡ [] }
    {
        NodeTable {
            bare: IndexMap::new(alloc),
            found: IndexMap::new(alloc),
        }
    }

    /// The node that was found for a number and insts.
    pub fn get(
        &self,
        alloc: Global,
        number: u32,
        insts: &[InstId],
    ) -> Result<Option<InstId>, Memory>
        ensures { IfOk result (λ node. node ≡ node_in self.now number insts.now) }
    {
        if insts.is_empty() {
            return Ok(self.bare.get(&number).copied());
        }
        if self.found.is_empty() {
            return Ok(None);
        }
        let insts = Vec::from_slice(alloc, insts)?;
        let key = Key { number, insts };
        Ok(self.found.get(&key).copied())
    }

    /// Notes the node that was found for a number and insts. After want of memory nothing is noted.
    pub fn put(
        &mut self,
        alloc: Global,
        number: u32,
        insts: &[InstId],
        node: InstId,
    ) -> Result<(), Memory>
        ensures ok { OnOk result
            ((other : ℕ) (others : List ℕ) → node_in self.new other others
            ≡ (if nat_eq other number && bytes_eq others insts.now then Some node
            else node_in self.old other others)) }
        ensures err { OnErr result (self.new ≡ self.old) }
    {
        if insts.is_empty() {
            self.bare.insert(number, node)?;
            return Ok(());
        }
        let insts = Vec::from_slice(alloc, insts)?;
        self.found.insert(Key { number, insts }, node)?;
        Ok(())
    }
}
