ghost use Rattle.std.specs.Prelude.{◌≡◌, ◌⊎◌, ℕ, [], IfSome};
ghost use Rattle.mc_insts.specs.declared.triples.Triple.{Triple};
ghost use Rattle.mc_insts.specs.code.Pairs.{Holds};

use crate::triples::Triple;
use indexmap::IndexMap;
use mc_base::Memory;
use std::alloc::Global;
use std::marker::Model;

/// The insts that pairs of insts were merged to, each pair at the type of a row. A look-up takes the time of one hash.
#[derive(Drop)]
pub struct MergedPairs {
    merged: IndexMap<Triple, u32>,
}

impl Model for MergedPairs {
    ghost use Rattle.std.specs.Prelude.{List, ℕ};
    ghost use Rattle.mc_insts.specs.declared.triples.Triple.{Triple};

    ghost Value = { List (Triple × ℕ) };

    ghost view = { λ s. s.merged.entries };
}

impl MergedPairs {
    /// No pairs, which take no memory yet.
    pub fn new(alloc: Global) -> MergedPairs
        ensures { result ≡ [] }
    {
        MergedPairs {
            merged: IndexMap::new(alloc),
        }
    }

    /// What a pair was merged to.
    pub fn get(&self, pair: Triple) -> Option<u32>
        ensures { IfSome result (λ k. Holds self.now pair k) }
    {
        self.merged.get(&pair).copied()
    }

    /// Notes what a pair was merged to. After want of memory nothing is noted.
    pub fn put(&mut self, pair: Triple, k: u32) -> Result<(), Memory>
        ensures { (u : Triple) (n : ℕ) → Holds self.new u n → Holds self.old u n ⊎ ((u ≡ pair) × (n ≡ k)) }
    {
        self.merged.insert(pair, k)?;
        Ok(())
    }
}
