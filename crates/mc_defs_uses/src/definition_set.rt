ghost use Rattle.std.specs.Prelude.{◌≡◌, [], not, false, IfOk, OnOk, OnErr};
ghost use Rattle.std.specs.Set.{is_member};
ghost use Rattle.mc_names.specs.Plain.{is_definition, is_kind, plain_definition};
ghost use Rattle.mc_defs_uses.specs.Sets.{put};

use indexmap::IndexSet;
use mc_base::Memory;
use mc_names::{Definition, Kind};
use std::alloc::Global;
use std::marker::Model;

/// Definitions, each once, in the order in which they came. A look-up takes the time of one hash.
#[derive(Drop)]
pub struct DefinitionSet<'a> {
    definitions: IndexSet<Definition<'a>>,
    // Each name of a type is looked up as an abstract one too, and most sets have none.
    has_abstract_types: bool,
}

impl<'a> Model for DefinitionSet<'a> {
    ghost use Rattle.std.specs.Prelude.{List, map};
    ghost use Rattle.mc_names.specs.Plain.{PlainDefinition, plain_definition};

    ghost Value = { List PlainDefinition };

    ghost use Rattle.mc_defs_uses.specs.code.Steps.{TellsAbstractTypes};

    ghost view = { λ s. map plain_definition s.definitions.keys };

    ghost invariant = { λ s. TellsAbstractTypes s.has_abstract_types (map plain_definition s.definitions.keys) };
}

impl<'a> DefinitionSet<'a> {
    /// The set of no definitions, which takes no memory yet.
    pub fn new(alloc: Global) -> DefinitionSet<'a>
        ensures { result ≡ [] }
    {
        DefinitionSet {
            definitions: IndexSet::new(alloc),
            has_abstract_types: false,
        }
    }

    /// Puts a definition in, where the set doesn't have it yet, and answers whether it was new. After want of memory the
    /// set is as it was; a definition that is there wants none.
    pub fn insert(&mut self, definition: Definition<'a>) -> Result<bool, Memory>
        ensures added { IfOk result
            (λ added.
            added ≡ not (is_member is_definition self.old (plain_definition definition.entry))) }
        ensures ok { OnOk result (self.new ≡ put self.old (plain_definition definition.entry)) }
        ensures err { OnErr result (self.new ≡ self.old) }
        ensures absent { OnErr result
            (is_member is_definition self.old (plain_definition definition.entry) ≡ false) }
    {
        let added = self.definitions.insert(definition)?;
        if is_abstract(definition.kind) {
            self.has_abstract_types = true;
        }
        Ok(added)
    }

    /// Whether the set has a definition.
    pub fn contains(&self, definition: Definition<'a>) -> bool
        ensures { result ≡ is_member is_definition self.now (plain_definition definition.entry) }
    {
        if is_abstract(definition.kind) && !self.has_abstract_types {
            return false;
        }
        self.definitions.contains(&definition)
    }
}

fn is_abstract(kind: Kind) -> bool
    ensures { result ≡ is_kind kind Kind.AbstractType }
{
    matches!(kind, Kind::AbstractType)
}
