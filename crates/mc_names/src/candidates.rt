ghost use Rattle.std.specs.Prelude.{◌≡◌, ◌++◌, [], true, Some, slice_get, slice_index_or, map, IfOk, OnOk};
ghost use Rattle.mc_names.specs.Plain.{id, qualifiers, last_part, plain_name_arity};
ghost use Rattle.mc_names.specs.Characters.{character};
ghost use Rattle.mc_names.specs.Linked.{plain_named, plain_names};
ghost use Rattle.mc_names.specs.Candidates.{defined_by, fits, fitting, fitting_in, is_module, named_so, looked_in, as_character, candidates};
ghost use Rattle.mc_names.specs.code.Searched.{modules_of};

use crate::character::sole_character;
use crate::definition::{Kind, NameArity};
use crate::names::{Named, Names};
use crate::occurrence::Occurrence;
use crate::paths::joined;
use crate::put::put_where;
use crate::searched::Searched;
use mc_base::{Memory, Row, Text};
use mc_source::name::Candidate;
use std::alloc::Global;

impl Names {
    /// What a name over so many arguments may mean in a module, which has a number: first what the module itself has, then
    /// what the modules have that it imports, in the order of first import, in each in the order of declaration; last
    /// the character. A qualified name means what the modules of that name have among those that the module sees.
    pub fn candidates(
        &self,
        alloc: Global,
        own: u32,
        name: &Row<Text>,
        arity: u32,
    ) -> Result<Row<Candidate>, Memory>
        ensures { IfOk result
            (λ all.
            all
            ≡ candidates (plain_names self.now) own (qualifiers name.now)
            (id (last_part name.now) arity)) }
    {
        let used = Occurrence::of(Kind::Symbol, name.as_slice(), arity as usize);
        let mut all = Vec::new(alloc);
        let searched = self.looked_in(alloc, own, used.qualifiers)?;
        self.put_of_modules(own, searched.modules(), used.id, &mut all)?;
        put_character(used.qualifiers, used.id, &mut all)?;
        Row::of(all)
    }

    /// What a module itself, which has a number, has of a name without qualifiers over so many arguments, in the order of
    /// declaration.
    pub fn own_candidates(
        &self,
        alloc: Global,
        own: u32,
        name: &[u8],
        arity: usize,
    ) -> Result<Row<Candidate>, Memory>
        ensures { IfOk result
            (λ all.
            all
            ≡ fitting (plain_names self.now) true (id name.now arity)
            (slice_index_or self.now.declared own [])) }
    {
        let mut all = Vec::new(alloc);
        self.put_of_module(true, own, NameArity { name, arity }, &mut all)?;
        Row::of(all)
    }

    /// The modules in which a name with these qualifiers is looked up.
    pub(crate) fn looked_in(
        &self,
        alloc: Global,
        own: u32,
        qualifiers: &[Text],
    ) -> Result<Searched<'_>, Memory>
        ensures { IfOk result
            (λ searched.
            modules_of searched
            ≡ looked_in (plain_names self.now) (slice_get self.now.scopes own)
            qualifiers.now) }
    {
        if own >= self.scopes.len() {
            return Ok(Searched::Unqualified(&[]));
        }
        let scope = self.scopes.get(own);
        if qualifiers.is_empty() {
            return Ok(Searched::Unqualified(scope.unqualified.as_slice()));
        }
        let name = joined(alloc, qualifiers)?;
        let modules = self.named_so(alloc, &name, scope.seen.as_slice())?;
        Ok(Searched::Qualified(modules))
    }

    // Those of these modules that have a name.
    fn named_so(&self, alloc: Global, name: &Text, modules: &[u32]) -> Result<Row<u32>, Memory>
        ensures { IfOk result (λ all. all ≡ named_so (plain_names self.now) name.now modules.now) }
    {
        let mut all = Vec::new(alloc);
        for module in modules {
            put_where(self.is_named(*module, name), *module, &mut all)?;
        }
        Row::of(all)
    }

    /// Whether the module of this number has a name.
    pub(crate) fn is_named(&self, number: u32, name: &Text) -> bool
        ensures { result ≡ is_module name.now (slice_get self.now.scopes number) }
    {
        number < self.scopes.len() && self.scopes.get(number).module.bytes() == name.bytes()
    }

    // Puts in what these modules have of a name.
    fn put_of_modules(
        &self,
        own: u32,
        modules: &[u32],
        id: NameArity,
        all: &mut Vec<Candidate>,
    ) -> Result<(), Memory>
        ensures { OnOk result
            (all.new.items
            ≡ all.old.items
            ++ fitting_in (plain_names self.now) own (plain_name_arity id.entry)
            modules.now) }
    {
        for module in modules {
            self.put_of_module(own == *module, *module, id, all)?;
        }
        Ok(())
    }

    // Puts in what a module has of a name, for itself or for another.
    fn put_of_module(
        &self,
        own: bool,
        number: u32,
        id: NameArity,
        all: &mut Vec<Candidate>,
    ) -> Result<(), Memory>
        ensures { OnOk result
            (all.new.items
            ≡ all.old.items
            ++ fitting (plain_names self.now) own (plain_name_arity id.entry)
            (slice_index_or self.now.declared number [])) }
    {
        self.put_fitting(own, id, self.called(number, id.name), all)
    }

    fn put_fitting(
        &self,
        own: bool,
        id: NameArity,
        candidates: &[Candidate],
        all: &mut Vec<Candidate>,
    ) -> Result<(), Memory>
        ensures { OnOk result
            (all.new.items
            ≡ all.old.items
            ++ fitting (plain_names self.now) own (plain_name_arity id.entry)
            candidates.now) }
    {
        for candidate in candidates {
            put_where(self.fits(own, id, *candidate), *candidate, all)?;
        }
        Ok(())
    }

    // Whether a candidate has the name, and is seen.
    fn fits(&self, own: bool, id: NameArity, candidate: Candidate) -> bool
        ensures { result
            ≡ fits own (plain_name_arity id.entry) (defined_by (plain_names self.now) candidate) }
    {
        match candidate {
            Candidate::Con(k) => fits_at(own, id, &self.symbols, k),
            Candidate::Func(k) => fits_at(own, id, &self.preds, k),
            Candidate::Pred(k) => fits_at(own, id, &self.preds, k),
            Candidate::Char(_) => false,
        }
    }
}

fn fits_at(own: bool, id: NameArity, names: &Row<Named>, k: u32) -> bool
    ensures { result ≡ fits own (plain_name_arity id.entry) (slice_get (map plain_named names.now) k) }
{
    k < names.len() && fits_named(own, id, names.get(k))
}

fn fits_named(own: bool, id: NameArity, named: &Named) -> bool
    ensures { result ≡ fits own (plain_name_arity id.entry) (Some (plain_named named.now)) }
{
    let name = &named.name;
    (own || named.exported) && (name.arity as usize == id.arity && name.name.bytes() == id.name)
}

fn put_character(qualifiers: &[Text], id: NameArity, all: &mut Vec<Candidate>) -> Result<(), Memory>
    ensures { OnOk result
        (all.new.items
        ≡ all.old.items ++ as_character (character qualifiers.now (plain_name_arity id.entry))) }
{
    if !qualifiers.is_empty() || id.arity != 0 {
        return Ok(());
    }
    if let Some(character) = sole_character(id.name) {
        all.push(Candidate::Char(character))?;
    }
    Ok(())
}
