ghost use Rattle.std.specs.Prelude.{◌≡◌, ◌≤◌, ◌+◌, [], length, IfOk, OnErr, MatchOption};
ghost use Rattle.mc_insts.specs.code.Lists.{Extends};
ghost use Rattle.mc_signatures.specs.code.Keys.{terms, term_of, KeyFits, IsInst};

use indexmap::IndexSet;
use mc_base::Memory;
use std::alloc::Global;
use std::marker::Model;

/// A constructor that an inst lists, by its name and its number of arguments.
#[derive(Debug, PartialEq, Eq, Hash, Drop)]
pub struct ListedFunctor {
    pub name: Vec<u8>,
    pub arity: u32,
}

/// An inst over insts that are there already, by their numbers.
#[derive(Debug, PartialEq, Eq, Hash, Drop)]
pub enum InstKey {
    /// A definition, by its number, over insts.
    Defined(u32, Vec<u32>),
    /// Constructors that are listed, and the insts of the arguments of all of them, one behind another.
    Listed(Vec<ListedFunctor>, Vec<u32>),
}

/// Insts, each once, by their numbers: below 4 the builtin ones, behind them one for each key. The arguments of an inst
/// come before it.
#[derive(Drop)]
pub struct InstSet {
    keys: IndexSet<InstKey>,
}

impl Model for InstSet {
    ghost use Rattle.std.specs.Prelude.{List, length, ◌<◌, ◌^◌};
    ghost use Rattle.mc_signatures.specs.declared.keys.InstKey.{InstKey};
    ghost use Rattle.mc_signatures.specs.code.Keys.{KeysFit};

    ghost Value = { List InstKey };

    ghost view = { λ s. s.keys.keys };

    ghost invariant = { λ s. (length s.keys.keys < 2 ^ 32) × KeysFit 4 s.keys.keys };
}

impl InstSet {
    /// The builtin insts alone, which take no memory.
    pub fn new(alloc: Global) -> InstSet
        ensures { result ≡ [] }
    {
        InstSet {
            keys: IndexSet::new(alloc),
        }
    }

    /// The key in a place, whose number is by 4 greater.
    pub fn get(&self, place: u32) -> Option<&InstKey>
        ensures { MatchOption result (length (terms self.now) ≤ 4 + place)
            (λ key. IsInst (terms self.now) (4 + place) (term_of (terms self.now) key.now)
            × KeyFits (length (terms self.now)) key.now) }
    {
        self.keys.get_index(place as usize)
    }

    /// Puts an inst in, where it isn't there yet, and answers its number. After want of memory they are as before.
    pub fn insert(&mut self, key: InstKey) -> Result<u32, Memory>
        requires { KeyFits (length (terms self.old)) key }
        ensures inst { IfOk result (λ k. IsInst (terms self.new) k (term_of (terms self.old) key)) }
        ensures extends { Extends (terms self.old) (terms self.new) }
        ensures err { OnErr result (self.new ≡ self.old) }
    {
        if self.keys.len() >= u32::MAX as usize - 4 {
            return Err(Memory);
        }
        let (place, _) = self.keys.insert_full(key)?;
        Ok(4 + place as u32)
    }
}
