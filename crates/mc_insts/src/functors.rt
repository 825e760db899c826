ghost use Rattle.std.specs.Prelude.{◌≡◌, ◌<◌, ◌≤◌, ℕ, [], length, IfOk, OnErr};
ghost use Rattle.mc_insts.specs.code.Lists.{Extends};
ghost use Rattle.mc_insts.specs.code.Walks.{functor_at};
ghost use Rattle.mc_insts.specs.code.Shown.{Distinct};

use indexmap::IndexSet;
use mc_base::{Memory, Text};
use std::alloc::Global;
use std::marker::Model;

/// A name with a number of arguments.
#[derive(Debug, PartialEq, Eq, Hash, Drop)]
struct NameArity {
    name: Vec<u8>,
    arity: u32,
}

/// The names with numbers of arguments by which bound insts and types list constructors, each once, by their numbers.
/// A look-up takes the time of one hash.
#[derive(Drop)]
pub struct Functors {
    named: IndexSet<NameArity>,
}

impl Model for Functors {
    ghost use Rattle.std.specs.Prelude.{List, map, length, ◌<◌, ◌^◌};
    ghost use Rattle.mc_insts.specs.code.Functors.{Functor};

    ghost Value = { List Functor };

    ghost view = { λ s. map (λ n. record { name = n.name.items; arity = n.arity }) s.named.keys };

    ghost invariant = { λ s. length s.named.keys < 2 ^ 32 };
}

impl Functors {
    ghost use Rattle.mc_insts.specs.code.Functors.{Functor};

    /// No functors, which take no memory yet.
    pub fn new(alloc: Global) -> Functors
        ensures { result ≡ [] }
    {
        Functors {
            named: IndexSet::new(alloc),
        }
    }

    /// How many there are.
    pub fn len(&self) -> u32
        ensures { result ≡ length self.now }
    {
        self.named.len() as u32
    }

    /// The number of a functor's arguments.
    pub fn arity(&self, functor: u32) -> u32
        requires { functor < length self.now }
        ensures { result ≡ (functor_at self.now functor).arity }
    {
        match self.named.get_index(functor as usize) {
            Some(named) => named.arity,
            None => 0,
        }
    }

    /// Puts a functor in, where it isn't there yet, and answers its number. After want of memory they are as before.
    pub fn insert(&mut self, alloc: Global, name: &Text, arity: u32) -> Result<u32, Memory>
        ensures there { IfOk result (λ f. f < length self.new) }
        ensures functor { IfOk result (λ f. functor_at self.new f ≡ record { name = name.now; arity = arity }) }
        ensures extends { Extends self.old self.new }
        ensures last { IfOk result (λ f. (k : ℕ) → length self.old ≤ k → k < length self.new → k ≡ f) }
        ensures distinct { Distinct self.old → Distinct self.new }
        ensures err { OnErr result (self.new ≡ self.old) }
    {
        if self.named.len() >= u32::MAX as usize {
            return Err(Memory);
        }
        let name = Vec::from_slice(alloc, name.bytes())?;
        let (f, _) = self.named.insert_full(NameArity { name, arity })?;
        Ok(f as u32)
    }
}
