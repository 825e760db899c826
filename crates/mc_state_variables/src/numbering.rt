ghost use Rattle.std.specs.Prelude.{◌≡◌, ◌++◌, [], ◌∷◌, suc, IfOk, OnOk, if◌then◌else◌};
ghost use Rattle.mc_term_data.specs.Plain.{plain_term};
ghost use Rattle.mc_clause_syntax.specs.States.{names_of, in_scope, quantified};
ghost use Rattle.mc_state_variables.specs.Updates.{updated};
ghost use Rattle.mc_state_variables.specs.Versions.{renewed, renewed_behind, handed, entered, entered_behind, begun, behind, distinct, unnamed};
ghost use Rattle.mc_state_variables.specs.code.Helds.{plain_held, plain_helds};

use crate::held::{Held, unnamed};
use crate::names::distinct;
use crate::updates::updated_set;
use mc_base::{Memory, NameSet};
use mc_clause_syntax::{name_set, push_quantified};
use mc_term_data::Term;
use std::alloc::Global;

/// Where the numbering of versions stands.
#[derive(Drop)]
pub struct Numbering {
    pub alloc: Global,
    /// the first number that no version has yet
    pub next: u32,
}

/// The state variables in scope as a goal is given them, and as they are behind it.
#[derive(Drop)]
pub struct ScopeChange<'a> {
    pub given: Vec<Held<'a>>,
    pub behind: Vec<Held<'a>>,
}

impl Numbering {
    // The number of a new version. `Memory` comes where every number is taken.
    fn fresh(&mut self) -> Result<u32, Memory>
        ensures number { IfOk result (λ number. number ≡ self.old.next) }
        ensures next { OnOk result (self.new.next ≡ suc self.old.next) }
    {
        let number = self.next;
        match number.checked_add(1) {
            Some(next) => {
                self.next = next;
                Ok(number)
            }
            None => Err(Memory),
        }
    }

    // A new state variable.
    fn begun<'a>(&mut self, name: &'a [u8]) -> Result<Held<'a>, Memory>
        ensures held { IfOk result (λ state. plain_held state ∷ [] ≡ begun self.old.next (name.now ∷ [])) }
        ensures next { OnOk result (self.new.next ≡ behind self.old.next (name.now ∷ [])) }
    {
        let before = self.fresh()?;
        let after = self.fresh()?;
        Ok(Held {
            name,
            before,
            after,
        })
    }

    /// What is in scope under a quantifier of these names, whose state variables begin anew.
    pub fn entered<'a>(
        &mut self,
        held: &[Held<'a>],
        names: &[&'a [u8]],
    ) -> Result<Vec<Held<'a>>, Memory>
        ensures held { IfOk result
            (λ inside.
            plain_helds inside.items ≡ entered (names_of names.now) self.old.next (plain_helds held.now)) }
        ensures next { OnOk result (self.new.next ≡ entered_behind (names_of names.now) self.old.next) }
    {
        let mut inside = not_hidden(self.alloc, names, held)?;
        self.begin_once(&mut inside, names)?;
        Ok(inside)
    }

    /// The same, of a quantifier with this list.
    pub fn entered_by<'a>(
        &mut self,
        held: &[Held<'a>],
        list: &'a Term,
    ) -> Result<Vec<Held<'a>>, Memory>
        ensures held { IfOk result
            (λ inside.
            plain_helds inside.items ≡ entered (quantified (plain_term list.now)) self.old.next (plain_helds held.now)) }
        ensures next { OnOk result (self.new.next ≡ entered_behind (quantified (plain_term list.now)) self.old.next) }
    {
        let mut names = Vec::new(self.alloc);
        push_quantified(&mut names, list)?;
        self.entered(held, &names)
    }

    // Puts a new state variable of each name behind others.
    fn begin_once<'a>(
        &mut self,
        inside: &mut Vec<Held<'a>>,
        names: &[&'a [u8]],
    ) -> Result<(), Memory>
        ensures held { OnOk result
            (plain_helds inside.new.items
            ≡ plain_helds inside.old.items ++ begun self.old.next (distinct (names_of names.now))) }
        ensures next { OnOk result (self.new.next ≡ entered_behind (names_of names.now) self.old.next) }
    {
        let once = distinct(self.alloc, names)?;
        self.begin(inside, &once)
    }

    // Puts new state variables behind others.
    #[tactic(auto, using(crate::proofs::Lists::adding))]
    fn begin<'a>(&mut self, inside: &mut Vec<Held<'a>>, names: &[&'a [u8]]) -> Result<(), Memory>
        ensures held { OnOk result
            (plain_helds inside.new.items
            ≡ plain_helds inside.old.items ++ begun self.old.next (names_of names.now)) }
        ensures next { OnOk result (self.new.next ≡ behind self.old.next (names_of names.now)) }
    {
        for name in names {
            inside.push(self.begun(name)?)?;
        }
        Ok(())
    }

    /// What a goal is given that updates some names and ends with new versions of others, and what is in scope behind it.
    #[tactic(auto, using(crate::proofs::Lists::adding, crate::proofs::Sets::renewing))]
    pub fn around<'a>(
        &mut self,
        updated: &NameSet<'_>,
        fresh_names: &NameSet<'_>,
        held: &[Held<'a>],
    ) -> Result<ScopeChange<'a>, Memory>
        ensures given { IfOk result
            (λ around.
            plain_helds around.given.items ≡ renewed fresh_names.now self.old.next (plain_helds held.now)) }
        ensures behind { IfOk result
            (λ around.
            plain_helds around.behind.items
            ≡ handed updated.now (plain_helds around.given.items) (plain_helds held.now)) }
        ensures next { OnOk result
            (self.new.next ≡ renewed_behind fresh_names.now self.old.next (plain_helds held.now)) }
    {
        let mut given = Vec::new(self.alloc);
        let mut behind = Vec::new(self.alloc);
        for state in held {
            let after = self.after(fresh_names, state)?;
            let before = before_behind(updated, after, state);
            given.push(Held { after, ..*state })?;
            behind.push(Held { before, ..*state })?;
        }
        Ok(ScopeChange { given, behind })
    }

    /// The same of a goal that ends with new versions of all that it updates.
    #[tactic(auto, using(crate::proofs::Sets::sets))]
    pub fn around_whole<'a>(
        &mut self,
        held: &[Held<'a>],
        goal: &Term,
    ) -> Result<ScopeChange<'a>, Memory>
        ensures given { IfOk result
            (λ around.
            plain_helds around.given.items
            ≡ renewed (updated (plain_term goal.now)) self.old.next (plain_helds held.now)) }
        ensures behind { IfOk result
            (λ around.
            plain_helds around.behind.items
            ≡ handed (updated (plain_term goal.now)) (plain_helds around.given.items) (plain_helds held.now)) }
        ensures next { OnOk result
            (self.new.next ≡ renewed_behind (updated (plain_term goal.now)) self.old.next (plain_helds held.now)) }
    {
        let updates = updated_set(self.alloc, goal)?;
        self.around(&updates, &updates, held)
    }

    // The version with which a goal must end, a new one of these names.
    fn after(&mut self, fresh_names: &NameSet<'_>, state: &Held<'_>) -> Result<u32, Memory>
        ensures after { IfOk result
            (λ after. after ≡ (if in_scope fresh_names.now state.now.name.now then self.old.next else state.now.after)) }
        ensures next { OnOk result
            (self.new.next ≡ (if in_scope fresh_names.now state.now.name.now then suc self.old.next else self.old.next)) }
    {
        if fresh_names.contains(state.name) {
            self.fresh()
        } else {
            Ok(state.after)
        }
    }
}

// Those in scope that a quantifier of these names doesn't hide.
#[tactic(auto, using(crate::proofs::Sets::sets))]
fn not_hidden<'a>(
    alloc: Global,
    names: &[&[u8]],
    held: &[Held<'a>],
) -> Result<Vec<Held<'a>>, Memory>
    ensures { IfOk result
        (λ rest. plain_helds rest.items ≡ unnamed (names_of names.now) (plain_helds held.now)) }
{
    let hidden = name_set(alloc, names)?;
    unnamed(alloc, &hidden, held)
}

// The version from which what stands behind a goal starts that ended with that version.
fn before_behind(updated: &NameSet<'_>, after: u32, whole: &Held<'_>) -> u32
    ensures { result ≡ (if in_scope updated.now whole.now.name.now then after else whole.now.before) }
{
    if updated.contains(whole.name) {
        after
    } else {
        whole.before
    }
}
