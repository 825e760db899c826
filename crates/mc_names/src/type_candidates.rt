ghost use Rattle.std.specs.Prelude.{◌≡◌, ◌++◌, nat_eq, ◌&&◌, ◌||◌, slice_get, IfOk, OnOk};
ghost use Rattle.mc_names.specs.Plain.{id, qualifiers, last_part, plain_name_arity};
ghost use Rattle.mc_names.specs.Linked.{plain_names};
ghost use Rattle.mc_names.specs.Numbers.{numbers_where};
ghost use Rattle.mc_names.specs.Candidates.{is_module, type_candidates};
ghost use Rattle.mc_names.specs.code.Chosen.{passes, chosen, has_id, type_seen, types_seen};

use crate::definition::{Kind, NameArity};
use crate::names::{Named, Names};
use crate::occurrence::Occurrence;
use crate::put::put_where;
use mc_base::{Memory, Row, Text};
use std::alloc::Global;

impl Names {
    /// The types that a name over so many arguments may mean in a module, which has a number: first those of the module
    /// itself, then those of the modules that it imports, in the order of first import, in each in the order of
    /// declaration; each by its number. A qualified name means the types of the modules of that name among those that
    /// the module sees. The built-in types are not among them.
    pub fn type_candidates(
        &self,
        alloc: Global,
        own: u32,
        name: &Row<Text>,
        arity: u32,
    ) -> Result<Row<u32>, Memory>
        ensures { IfOk result
            (λ all.
            all
            ≡ type_candidates (plain_names self.now) own (qualifiers name.now)
            (id (last_part name.now) arity)) }
    {
        let used = Occurrence::of(Kind::DefinedType, name.as_slice(), arity as usize);
        let searched = self.looked_in(alloc, own, used.qualifiers)?;
        let types = self.types_of(alloc, used.id)?;
        let seen = self.seen_in(alloc, own, searched.modules(), types.as_slice())?;
        Row::of(seen)
    }

    // The types of a name over so many arguments, whatever module they stand in: in legal sources one for each module at
    // most.
    fn types_of(&self, alloc: Global, id: NameArity) -> Result<Vec<u32>, Memory>
        ensures { IfOk result
            (λ all.
            all.items
            ≡ numbers_where (has_id (plain_name_arity id.entry)) 0
            (plain_names self.now).types) }
    {
        self.with_arity(alloc, self.types_called(id.name), id.arity)
    }

    fn with_arity(&self, alloc: Global, types: &[u32], arity: usize) -> Result<Vec<u32>, Memory>
        ensures { IfOk result
            (λ all. all.items ≡ chosen (λ d. nat_eq d.name.arity arity) self.now.types types.now) }
    {
        let mut all = Vec::new(alloc);
        for found in types {
            put_where(self.has_arity(*found, arity), *found, &mut all)?;
        }
        Ok(all)
    }

    fn has_arity(&self, found: u32, arity: usize) -> bool
        ensures { result ≡ passes (λ d. nat_eq d.name.arity arity) (slice_get self.now.types found) }
    {
        found < self.types.len() && self.types.get(found).name.arity as usize == arity
    }

    // Those of these types that these modules have, and the module of the number `own` sees.
    fn seen_in(
        &self,
        alloc: Global,
        own: u32,
        modules: &[u32],
        types: &[u32],
    ) -> Result<Vec<u32>, Memory>
        ensures { IfOk result
            (λ all. all.items ≡ types_seen (plain_names self.now) own types.now modules.now) }
    {
        let mut all = Vec::new(alloc);
        for module in modules {
            self.put_seen(own, *module, types, &mut all)?;
        }
        Ok(all)
    }

    fn put_seen(
        &self,
        own: u32,
        number: u32,
        types: &[u32],
        all: &mut Vec<u32>,
    ) -> Result<(), Memory>
        ensures { OnOk result
            (all.new.items
            ≡ all.old.items
            ++ chosen (type_seen (plain_names self.now) own number)
            (plain_names self.now).types types.now) }
    {
        for found in types {
            put_where(self.is_type_seen(own, number, *found), *found, all)?;
        }
        Ok(())
    }

    fn is_type_seen(&self, own: u32, number: u32, found: u32) -> bool
        ensures { result
            ≡ passes (type_seen (plain_names self.now) own number)
            (slice_get (plain_names self.now).types found) }
    {
        found < self.types.len() && self.is_seen_in(own, number, self.types.get(found))
    }

    fn is_seen_in(&self, own: u32, number: u32, named: &Named) -> bool
        ensures { result
            ≡ (is_module named.now.name.«module» (slice_get self.now.scopes number)
            && (nat_eq own number || named.now.exported)) }
    {
        self.is_named(number, &named.name.module) && (own == number || named.exported)
    }
}
