//! Names with their numbers of arguments, each once.

ghost use Rattle.std.specs.Prelude.{◌≡◌, [], not, IfOk, OnOk};
ghost use Rattle.std.specs.Set.{is_member};
ghost use Rattle.mc_self_check.specs.code.Constructors.{is_functor, plain_functor, with_functor};

use indexmap::IndexSet;
use mc_base::Memory;
use std::alloc::Global;
use std::marker::Model;

/// A name with a number of arguments.
#[derive(Clone, Copy, Debug, PartialEq, Eq, Hash)]
pub(crate) struct Functor<'a> {
    pub name: &'a [u8],
    pub arity: u32,
}

/// Names with their numbers of arguments, each once. A look-up takes the time of one hash.
#[derive(Drop)]
pub(crate) struct FunctorSet<'a> {
    functors: IndexSet<Functor<'a>>,
}

impl<'a> Model for FunctorSet<'a> {
    ghost use Rattle.std.specs.Prelude.{List, map};
    ghost use Rattle.mc_self_check.specs.code.Constructors.{PlainFunctor, plain_functor};

    ghost Value = { List PlainFunctor };

    ghost view = { λ s. map plain_functor s.functors.keys };
}

impl<'a> FunctorSet<'a> {
    /// The set of no functors, which takes no memory yet.
    pub fn new(alloc: Global) -> FunctorSet<'a>
        ensures { result ≡ [] }
    {
        FunctorSet {
            functors: IndexSet::new(alloc),
        }
    }

    /// Puts a functor in, where the set doesn't have it yet, and answers whether it was new.
    pub fn put(&mut self, functor: Functor<'a>) -> Result<bool, Memory>
        ensures added { IfOk result
            (λ added.
            added ≡ not (is_member is_functor self.old (plain_functor functor.entry))) }
        ensures ok { OnOk result (self.new ≡ with_functor self.old (plain_functor functor.entry)) }
    {
        let added = self.functors.insert(functor)?;
        Ok(added)
    }
}
