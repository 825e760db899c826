ghost use Rattle.std.specs.Prelude.{List, ◌≡◌, ◌≤◌, ◌<◌, ℕ, Some, length, IfOk, OnOk, [], map, ◌++◌, ◌∷◌, if◌then◌else◌};
ghost use Rattle.std.specs.Str.{bytes_eq};
ghost use Rattle.mc_term_data.specs.Plain.{plain_term, term_list};
ghost use Rattle.mc_clauses.specs.Variables.{Numbers, Met, Quantified, nothing_met, variable_of, one_quantified, quantified_by, listed};
ghost use Rattle.mc_clauses.specs.code.Meanings.{Knows, KeepsHidden, meaning_of, meanings_of, Hides, Enters};

use indexmap::IndexMap;
use mc_base::Memory;
use mc_term_data::{Node, Term};
use std::alloc::Global;

/// The variables of a clause that were met, and what names mean where the walk stands. A look-up takes the time of one
/// hash, also under quantifiers.
#[derive(Drop)]
pub struct Variables<'a> {
    /// The variable that a name means here; None where it was met under a quantifier alone.
    pub meanings: IndexMap<&'a [u8], Option<u32>>,
    /// The names of all variables, by their numbers.
    pub names: Vec<&'a [u8]>,
}

/// A name that a quantifier hides, with what it means outside.
#[derive(Clone, Copy)]
pub struct Hidden<'a> {
    pub name: &'a [u8],
    pub meaning: Option<u32>,
}

/// The variables that a quantifier names, and what their names mean outside it.
#[derive(Drop)]
pub struct Inner<'a> {
    pub vars: Vec<u32>,
    pub hidden: Vec<Hidden<'a>>,
}

impl<'a> Variables<'a> {
    /// No variables.
    pub fn new(alloc: Global) -> Variables<'a>
        ensures { Knows [] nothing_met result }
    {
        Variables {
            meanings: IndexMap::new(alloc),
            names: Vec::new(alloc),
        }
    }

    /// The variable that a name means.
    pub fn number(&mut self, name: &'a [u8]) -> Result<u32, Memory>
        ensures { IfOk result (λ number. (q : Numbers) (m : Met) → Knows q m self.old
            → (number ≡ (variable_of q name.now m).0) × Knows q (variable_of q name.now m).1 self.new) }
    {
        if name == b"_".as_slice() {
            return self.one_more(name);
        }
        match self.meaning(name) {
            Some(number) => Ok(number),
            None => {
                let number = self.one_more(name)?;
                self.mean(name, Some(number))?;
                Ok(number)
            }
        }
    }

    // What a name means here.
    fn meaning(&self, name: &[u8]) -> Option<u32>
        ensures { result ≡ meaning_of (meanings_of self.now) name.now }
    {
        self.meanings.get(name).copied().flatten()
    }

    // Lets a name mean this, and tells what it meant.
    fn mean(&mut self, name: &'a [u8], meaning: Option<u32>) -> Result<Option<u32>, Memory>
        ensures before { IfOk result (λ before. before ≡ meaning_of (meanings_of self.old) name.now) }
        ensures meanings { OnOk result ((x : List ℕ) → meaning_of (meanings_of self.new) x
            ≡ (if bytes_eq x name.now then meaning else meaning_of (meanings_of self.old) x)) }
        ensures names { self.new.names ≡ self.old.names }
    {
        let before = self.meanings.insert(name, meaning)?;
        Ok(before.flatten())
    }

    // One variable more of this name, whatever the name means.
    fn one_more(&mut self, name: &'a [u8]) -> Result<u32, Memory>
        ensures number { IfOk result (λ number. number ≡ length self.old.names.items) }
        ensures names { OnOk result (map (λ x. x.now) self.new.names.items
            ≡ map (λ x. x.now) self.old.names.items ++ name.now ∷ []) }
        ensures meanings { self.new.meanings ≡ self.old.meanings }
    {
        if self.names.len() > u32::MAX as usize {
            return Err(Memory);
        }
        let number = self.names.len() as u32;
        self.names.push(name)?;
        Ok(number)
    }

    /// Lets the names of a quantifier's list mean variables of their own.
    pub fn enter(&mut self, alloc: Global, list: &'a Term) -> Result<Inner<'a>, Memory>
        ensures { IfOk result (λ inner. (q : Numbers) (m : Met) → Knows q m self.old
            → Enters q m (quantified_by (plain_term list.now) q m) inner self.new) }
    {
        let mut inner = Inner {
            vars: Vec::new(alloc),
            hidden: Vec::new(alloc),
        };
        for term in elements(list) {
            self.hide(term, &mut inner)?;
        }
        Ok(inner)
    }

    // Lets a variable of a quantifier's list mean one of its own.
    fn hide(&mut self, term: &'a Term, inner: &mut Inner<'a>) -> Result<(), Memory>
        ensures { OnOk result ((q : Numbers) (m : Met) (s : Quantified)
            → Enters q m s inner.old self.old
            → Enters q m (one_quantified (plain_term term.now) s) inner.new self.new) }
    {
        if let Node::Var(name) = &term.node {
            let name = name.bytes();
            let number = self.one_more(name)?;
            let meaning = self.mean(name, Some(number))?;
            inner.hidden.push(Hidden { name, meaning })?;
            inner.vars.push(number)?;
        }
        Ok(())
    }

    /// Lets the names that a quantifier hid mean again what they meant outside it.
    pub fn leave(&mut self, mut hidden: Vec<Hidden<'a>>) -> Result<(), Memory>
        ensures { OnOk result ((q : Numbers) (m after : Met) (s : Quantified)
            → Hides q m s hidden.entry.items → KeepsHidden s.numbers s.met after
            → Knows s.numbers after self.old → Knows q after self.new) }
    {
        while let Some(Hidden { name, meaning }) = hidden.pop() {
            self.mean(name, meaning)?;
        }
        Ok(())
    }
}

/// The elements of a list that has an end; a quantifier's list is one.
fn elements(list: &Term) -> &[Term]
    ensures { term_list (map plain_term result.now) ≡ listed (plain_term list.now) }
{
    match &list.node {
        Node::List(terms, None) => terms.as_slice(),
        Node::List(_, Some(_)) => &[],
        Node::Var(_) => &[],
        Node::Int(_) => &[],
        Node::Str(_) => &[],
        Node::App(_, _) => &[],
        Node::Conj(_) => &[],
        Node::Disj(_) => &[],
    }
}
