ghost use Rattle.std.specs.Prelude.{◌≡◌, ◌<◌, ◌≤◌, ◌^◌, ◌&&◌, not, nat_eq, nat_lt, [], length, IfOk};
ghost use Rattle.std.specs.Option.{is_some};
ghost use Rattle.mc_names.specs.Plain.{plain_name_arity, plain_occurrence};
ghost use Rattle.mc_decl_syntax.specs.Entries.{plain_files};
ghost use Rattle.mc_modules.specs.Visible.{how_many, meanings, meanings_as, is_qualified};
ghost use Rattle.mc_names.specs.Characters.{character};
ghost use Rattle.mc_modules.specs.Faults.{is_single};

use crate::builtin::is_builtin;
use crate::linking::Linking;
use mc_base::Memory;
use mc_names::{Kind, NameArity, Occurrence, sole_character};
use std::alloc::Global;

impl<'a> Linking<'a> {
    /// Whether anything that a module sees has a name that it uses.
    pub fn has_meaning(
        &self,
        alloc: Global,
        own: u32,
        used: &Occurrence<'a>,
    ) -> Result<bool, Memory>
        requires own { own < length self.now }
        ensures { IfOk result
            (λ is.
            is
            ≡ not
            (nat_eq
            (meanings (plain_files self.now) own
            (plain_occurrence used.now)) 0)) }
    {
        match used.kind {
            Kind::Symbol => Ok(
                self.is_found_as(alloc, own, Kind::Symbol, used)?
                    || self.is_found_as(alloc, own, Kind::Func, used)?
                    || is_character(used),
            ),
            kind => self.is_found_as(alloc, own, kind, used),
        }
    }

    // Whether a name that a module uses is found as a definition of a kind.
    #[tactic(auto, using(crate::proofs::Counts::found_none, crate::proofs::Counts::found_in, crate::proofs::Counts::not_empty))]
    fn is_found_as(
        &self,
        alloc: Global,
        own: u32,
        kind: Kind,
        used: &Occurrence<'a>,
    ) -> Result<bool, Memory>
        requires own { own < length self.now }
        ensures { IfOk result
            (λ is.
            is
            ≡ not
            (nat_eq
            (meanings_as (plain_files self.now) own kind
            (plain_occurrence used.now)) 0)) }
    {
        if used.qualifiers.is_empty() {
            return Ok(self.is_found_unqualified(own, kind, used));
        }
        match self.number(alloc, used.qualifiers)? {
            Some(number) => {
                Ok(self.is_seen(own, number) && self.has_definition(own, number, kind, used.id))
            }
            None => Ok(false),
        }
    }

    // The same of a name without qualifiers.
    #[tactic(auto, using(crate::proofs::Counts::found_unqualified))]
    fn is_found_unqualified(&self, own: u32, kind: Kind, used: &Occurrence<'a>) -> bool
        requires own { own < length self.now }
        requires unqualified { (plain_occurrence used.now).qualifiers ≡ [] }
        ensures { result
            ≡ not
            (nat_eq
            (meanings_as (plain_files self.now) own kind
            (plain_occurrence used.now)) 0) }
    {
        is_builtin(kind, &used.id) || self.is_in_any(own, self.unqualified(own), kind, used.id)
    }

    // Whether any of these modules has a definition.
    #[tactic(auto, using(crate::proofs::Counts::some_more))]
    fn is_in_any(&self, own: u32, numbers: &[u32], kind: Kind, id: NameArity<'a>) -> bool
        ensures { result
            ≡ not
            (nat_eq
            (how_many (plain_files self.now) own kind (plain_name_arity id.entry)
            numbers.now) 0) }
    {
        for number in numbers {
            if self.has_definition(own, *number, kind, id) {
                return true;
            }
        }
        false
    }

    // How many of these modules have a definition.
    fn how_many(&self, own: u32, numbers: &[u32], kind: Kind, id: NameArity<'a>) -> usize
        requires few { length numbers.now < 2 ^ 32 }
        ensures count { result
            ≡ how_many (plain_files self.now) own kind (plain_name_arity id.entry)
            numbers.now }
        ensures few { result ≤ length numbers.now }
    {
        let mut count = 0;
        for number in numbers {
            if self.has_definition(own, *number, kind, id) {
                count += 1;
            }
        }
        count
    }

    /// Whether a name that a module uses is that of a type, an inst or a mode, has no qualifiers, and more than one
    /// meaning.
    pub fn is_ambiguous(&self, own: u32, used: &Occurrence<'a>) -> bool
        requires own { own < length self.now }
        ensures { result
            ≡ (is_single (plain_occurrence used.now).kind
            && (not (is_qualified (plain_occurrence used.now).qualifiers)
            && nat_lt 1
            (meanings (plain_files self.now) own
            (plain_occurrence used.now)))) }
    {
        if !is_single(used.kind) || !used.qualifiers.is_empty() {
            return false;
        }
        let count = self.how_many(own, self.unqualified(own), used.kind, used.id);
        if is_builtin(used.kind, &used.id) {
            count > 0
        } else {
            count > 1
        }
    }
}

fn is_single(kind: Kind) -> bool
    ensures { result ≡ is_single kind }
{
    matches!(kind, Kind::DefinedType | Kind::Inst | Kind::Mode)
}

// Whether a name without qualifiers and arguments is a character.
fn is_character(used: &Occurrence<'_>) -> bool
    ensures { result
        ≡ is_some
        (character (plain_occurrence used.now).qualifiers (plain_occurrence used.now).id) }
{
    used.qualifiers.is_empty() && used.id.arity == 0 && sole_character(used.id.name).is_some()
}
