ghost use Rattle.std.specs.Prelude.{◌≡◌, ◌≤◌, [], length, IfOk, OnErr, MatchOption};
ghost use Rattle.mc_insts.specs.code.Lists.{Extends};
ghost use Rattle.mc_insts.specs.code.TypeRows.{terms, term_of, KeyFits, RowOf};

use indexmap::IndexSet;
use mc_base::Memory;
use std::alloc::Global;
use std::marker::Model;

/// A type over types that are there already, by their numbers.
#[derive(Debug, PartialEq, Eq, Hash, Drop)]
pub enum TypeKey {
    Int,
    Char,
    Str,
    Io,
    Var(u32),
    Union(u32, Vec<u32>),
}

/// Types, each once, by their numbers; the arguments of a type come before it.
#[derive(Drop)]
pub struct TypeSet {
    keys: IndexSet<TypeKey>,
}

impl Model for TypeSet {
    ghost use Rattle.std.specs.Prelude.{List, length, ◌<◌, ◌^◌};
    ghost use Rattle.mc_insts.specs.declared.types.TypeKey.{TypeKey};
    ghost use Rattle.mc_insts.specs.code.TypeRows.{KeysFit};

    ghost Value = { List TypeKey };

    ghost view = { λ s. s.keys.keys };

    ghost invariant = { λ s. (length s.keys.keys < 2 ^ 32) × KeysFit 0 s.keys.keys };
}

impl TypeSet {
    /// No types, which take no memory yet.
    pub fn new(alloc: Global) -> TypeSet
        ensures { result ≡ [] }
    {
        TypeSet {
            keys: IndexSet::new(alloc),
        }
    }

    /// How many there are.
    pub fn len(&self) -> u32
        ensures { result ≡ length (terms self.now) }
    {
        self.keys.len() as u32
    }

    /// The key of a type.
    pub fn get(&self, r: u32) -> Option<&TypeKey>
        ensures { MatchOption result (length (terms self.now) ≤ r)
            (λ key. RowOf (terms self.now) r (term_of (terms self.now) key.now)
            × KeyFits (length (terms self.now)) key.now) }
    {
        self.keys.get_index(r as usize)
    }

    /// Puts a type in, where it isn't there yet, and answers its number. After want of memory they are as before.
    pub fn insert(&mut self, key: TypeKey) -> Result<u32, Memory>
        requires { KeyFits (length (terms self.old)) key }
        ensures row { IfOk result (λ r. RowOf (terms self.new) r (term_of (terms self.old) key)) }
        ensures extends { Extends (terms self.old) (terms self.new) }
        ensures err { OnErr result (self.new ≡ self.old) }
    {
        if self.keys.len() >= u32::MAX as usize {
            return Err(Memory);
        }
        let (r, _) = self.keys.insert_full(key)?;
        Ok(r as u32)
    }
}
