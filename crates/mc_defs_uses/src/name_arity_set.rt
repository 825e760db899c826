ghost use Rattle.std.specs.Prelude.{◌≡◌, [], not, IfOk, OnOk};
ghost use Rattle.std.specs.Set.{is_member};
ghost use Rattle.mc_names.specs.Plain.{is_name_arity, plain_name_arity};
ghost use Rattle.mc_defs_uses.specs.code.Steps.{with_name_arity};

use indexmap::IndexSet;
use mc_base::Memory;
use mc_names::NameArity;
use std::alloc::Global;
use std::marker::Model;

/// Names with the numbers of their arguments, each once. A look-up takes the time of one hash.
#[derive(Drop)]
pub struct NameAritySet<'a> {
    names: IndexSet<NameArity<'a>>,
}

impl<'a> Model for NameAritySet<'a> {
    ghost use Rattle.std.specs.Prelude.{List, map};
    ghost use Rattle.mc_names.specs.Plain.{PlainNameArity, plain_name_arity};

    ghost Value = { List PlainNameArity };

    ghost view = { λ s. map plain_name_arity s.names.keys };
}

impl<'a> NameAritySet<'a> {
    /// The set of no names, which takes no memory yet.
    pub fn new(alloc: Global) -> NameAritySet<'a>
        ensures { result ≡ [] }
    {
        NameAritySet {
            names: IndexSet::new(alloc),
        }
    }

    /// Puts a name in, where the set doesn't have it yet, and answers whether it was new.
    pub fn insert(&mut self, name: NameArity<'a>) -> Result<bool, Memory>
        ensures added { IfOk result
            (λ added.
            added ≡ not (is_member is_name_arity self.old (plain_name_arity name.entry))) }
        ensures ok { OnOk result (self.new ≡ with_name_arity self.old (plain_name_arity name.entry)) }
    {
        let added = self.names.insert(name)?;
        Ok(added)
    }
}
