ghost use Rattle.std.specs.Prelude.{◌≡◌, ℕ, ◌<◌, ◌^◌, [], length, get_or, IfOk, OnOk, OnErr, MatchOption, ◌≤◌};
ghost use Rattle.mc_insts.specs.code.Lists.{Extends, Stands};

use indexmap::IndexSet;
use mc_base::Memory;
use std::alloc::Global;
use std::marker::Model;

/// Two insts at a type, each by its number.
#[derive(Clone, Copy, Debug, PartialEq, Eq, Hash)]
pub struct Triple {
    pub low: u32,
    pub high: u32,
    pub row: u32,
}

/// Triples, each once, in the order in which they came. A look-up takes the time of one hash.
#[derive(Drop)]
pub struct TripleSet {
    triples: IndexSet<Triple>,
}

impl Model for TripleSet {
    ghost use Rattle.std.specs.Prelude.{List};
    ghost use Rattle.mc_insts.specs.declared.triples.Triple.{Triple};

    ghost Value = { List Triple };

    ghost view = { λ s. s.triples.keys };
}

impl TripleSet {
    /// The set of no triples, which takes no memory yet.
    pub fn new(alloc: Global) -> TripleSet
        ensures { result ≡ [] }
    {
        TripleSet {
            triples: IndexSet::new(alloc),
        }
    }

    /// How many there are.
    pub fn len(&self) -> usize
        ensures len { result ≡ length self.now }
        ensures small { result < 2 ^ 63 }
    {
        self.triples.len()
    }

    /// The triple of a number.
    pub fn get(&self, n: usize) -> Option<Triple>
        ensures triple { MatchOption result (length self.now ≤ n) (λ t. Stands self.now n t) }
        ensures small { length self.now < 2 ^ 63 }
    {
        let _len = self.triples.len();
        self.triples.get_index(n).copied()
    }

    /// Puts a triple in, where the set doesn't have it yet, and answers its number. After want of memory the set is
    /// as it was.
    pub fn insert(&mut self, t: Triple) -> Result<usize, Memory>
        ensures stands { IfOk result (λ n. Stands self.new n t) }
        ensures extends { Extends self.old self.new }
        ensures last { IfOk result (λ n. (k : ℕ) → length self.old ≤ k → k < length self.new → Stands self.new k t) }
        ensures err { OnErr result (self.new ≡ self.old) }
    {
        let (n, _) = self.triples.insert_full(t)?;
        Ok(n)
    }
}
