ghost use Rattle.std.specs.Prelude.{◌≡◌, ◌+◌, ◌<◌, ◌≤◌, ◌++◌, ◌∷◌, [], Some, length, map, IfOk, OnOk};
ghost use Rattle.mc_program.specs.Programs.{Source};
ghost use Rattle.mc_accepted.specs.ProperTypes.{Parameters};
ghost use Rattle.mc_accepted.specs.Resolving.{push_variable, push_number, push_text, choose, equate, call, close_head};
ghost use Rattle.mc_typecheck.specs.Ties.{Declared, topmost, below};
ghost use Rattle.mc_typecheck.specs.Searched.{plain_step};
ghost use Rattle.mc_typecheck.specs.code.Tables.{only_step};
ghost use Rattle.mc_typecheck.specs.declared.table.Signatures.{Signatures as Table};
ghost use Rattle.mc_typecheck.specs.Walked.{IsAt, Takes, start, entry};

use crate::signatures::{EQUATION, NUMBER, TEXT};
use crate::table::Signatures;
use mc_base::Memory;
use mc_source::name::Candidate;
use mc_types::Step;
use std::alloc::Global;

/// The walk of a clause so far: the steps that tie places, the places of the terms that are walked and not yet taken,
/// and the next place.
#[derive(Drop)]
pub struct Walk {
    pub steps: Vec<Step>,
    pub stack: Vec<usize>,
    pub next: usize,
}

impl Walk {
    /// A walk that has not begun, of a clause with so many variables.
    pub fn new(alloc: Global, vars: usize) -> Walk
        ensures { (P : Source) (D : Parameters) (t : Table) → IsAt P D t result (start vars) }
    {
        Walk {
            steps: Vec::new(alloc),
            stack: Vec::new(alloc),
            next: vars,
        }
    }

    /// A variable.
    pub fn push_variable(&mut self, v: usize) -> Result<(), Memory>
        ensures { OnOk result ((t : Table) → Takes t self.old self.new (push_variable v)) }
    {
        self.stack.push(v)?;
        Ok(())
    }

    /// The places of the topmost terms, which are taken off.
    fn take(&mut self, alloc: Global, count: usize) -> Result<Vec<usize>, Memory>
        ensures taken { IfOk result (λ places. places.items ≡ topmost count self.old.stack.items) }
        ensures left { self.new.stack.items ≡ below count self.old.stack.items }
        ensures steps { self.new.steps.items ≡ self.old.steps.items }
        ensures next { self.new.next ≡ self.old.next }
    {
        let from = self.stack.len().saturating_sub(count);
        let places = self.stack[from..].to_vec(alloc);
        self.stack.truncate(from);
        Ok(places?)
    }

    /// A place behind all others, whose term is the topmost.
    fn push_place(&mut self) -> Result<usize, Memory>
        ensures place { IfOk result (λ place. place ≡ self.old.next) }
        ensures stack { OnOk result (self.new.stack.items ≡ self.old.stack.items ++ self.old.next ∷ []) }
        ensures next { OnOk result (self.new.next ≡ self.old.next + 1) }
        ensures steps { self.new.steps.items ≡ self.old.steps.items }
    {
        let place = self.next;
        if place == usize::MAX {
            return Err(Memory);
        }
        self.stack.push(place)?;
        self.next = place + 1;
        Ok(place)
    }

    /// A number.
    pub fn push_number(&mut self, alloc: Global, signatures: &Signatures) -> Result<(), Memory>
        ensures { OnOk result (Takes signatures.now self.old self.new push_number) }
    {
        self.push_constant(alloc, signatures, NUMBER)?;
        Ok(())
    }

    /// A text.
    pub fn push_text(&mut self, alloc: Global, signatures: &Signatures) -> Result<(), Memory>
        ensures { OnOk result (Takes signatures.now self.old self.new push_text) }
    {
        self.push_constant(alloc, signatures, TEXT)?;
        Ok(())
    }

    /// A constant, whose meaning stands at a place of the table.
    fn push_constant(
        &mut self,
        alloc: Global,
        signatures: &Signatures,
        meaning: usize,
    ) -> Result<(), Memory>
        ensures next { OnOk result (self.new.next ≡ self.old.next + 1) }
        ensures stack { OnOk result (self.new.stack.items ≡ self.old.stack.items ++ self.old.next ∷ []) }
        ensures steps { OnOk result ((d : Declared) → entry signatures.now meaning ≡ Some d
            → map (plain_step signatures.now.all.items) self.new.steps.items
            ≡ map (plain_step signatures.now.all.items) self.old.steps.items
            ++ only_step d (self.old.next ∷ []) ∷ []) }
    {
        let mut places = Vec::new(alloc);
        places.push(self.push_place()?)?;
        self.tie(signatures.sole(alloc, meaning, 1)?, places)
    }

    /// A step more.
    fn tie(&mut self, candidates: Vec<usize>, places: Vec<usize>) -> Result<(), Memory>
        ensures steps { OnOk result (self.new.steps.items
            ≡ self.old.steps.items ++ record { candidates = candidates; places = places } ∷ []) }
        ensures stack { self.new.stack.items ≡ self.old.stack.items }
        ensures next { self.new.next ≡ self.old.next }
    {
        self.steps.push(Step { candidates, places })?;
        Ok(())
    }

    /// An occurrence of a name in a term, behind its arguments.
    pub fn choose(
        &mut self,
        alloc: Global,
        signatures: &Signatures,
        candidates: &[Candidate],
        arguments: usize,
    ) -> Result<(), Memory>
        ensures { OnOk result (Takes signatures.now self.old self.new (choose candidates.now arguments)) }
    {
        let mut places = self.take(alloc, arguments)?;
        places.push(self.push_place()?)?;
        let offered = signatures.offered(alloc, false, candidates, places.len())?;
        self.tie(offered, places)?;
        Ok(())
    }

    /// The sides of an equation, behind both.
    pub fn equate(&mut self, alloc: Global, signatures: &Signatures) -> Result<(), Memory>
        ensures { OnOk result (Takes signatures.now self.old self.new equate) }
    {
        let places = self.take(alloc, 2)?;
        let meanings = signatures.sole(alloc, EQUATION, places.len())?;
        self.tie(meanings, places)?;
        Ok(())
    }

    /// An atom, behind its arguments.
    pub fn call(
        &mut self,
        alloc: Global,
        signatures: &Signatures,
        candidates: &[Candidate],
        arguments: usize,
    ) -> Result<(), Memory>
        ensures { OnOk result (Takes signatures.now self.old self.new (call candidates.now arguments)) }
    {
        let places = self.take(alloc, arguments)?;
        let offered = signatures.offered(alloc, true, candidates, places.len())?;
        self.tie(offered, places)?;
        Ok(())
    }

    /// The end of a head, behind its arguments.
    pub fn close_head(
        &mut self,
        alloc: Global,
        signatures: &Signatures,
        pred: u32,
        arguments: usize,
    ) -> Result<(), Memory>
        ensures { OnOk result (Takes signatures.now self.old self.new (close_head pred arguments)) }
    {
        let places = self.take(alloc, arguments)?;
        let meanings = signatures.sole_head(alloc, pred, places.len())?;
        self.tie(meanings, places)?;
        Ok(())
    }
}
