ghost use Rattle.std.specs.Prelude.{◌≡◌, ◌+◌, ◌++◌, ℕ, List, [], map, IfOk, OnOk, Contains};
ghost use Rattle.mc_program.specs.Programs.{Source};
ghost use Rattle.mc_accepted.specs.ProperTypes.{Parameters};
ghost use Rattle.mc_source.specs.declared.name.Candidate.{Candidate as AnyCandidate};
ghost use Rattle.mc_unresolved.specs.Steps.{plain_walk_step};
ghost use Rattle.mc_typecheck.specs.Ties.{of_name, tied, picks_of};
ghost use Rattle.mc_typecheck.specs.Walked.{Shows, ShowsAll};
ghost use Rattle.mc_typecheck.specs.code.Tables.{passes_as};
ghost use Rattle.mc_typecheck.specs.code.Choices.{taken_choice, fewer};

use crate::Signatures;
use mc_base::Memory;
use mc_source::name::Candidate;
use mc_unresolved::WalkStep;
use std::alloc::Global;

/// The candidates that are picked by choices, one for each step of the walk that ties: each is the number of a meaning
/// among those that its step may have.
pub fn picked(
    alloc: Global,
    signatures: &Signatures,
    steps: &[WalkStep],
    choices: &[usize],
) -> Result<Vec<Candidate>, Memory>
    ensures { IfOk result (λ picks. (P : Source) (D : Parameters) (vars : ℕ)
        → ShowsAll P D signatures.now (map plain_walk_step steps.now)
        → picks.items ≡ picks_of (tied P D (map plain_walk_step steps.now) vars []) choices.now) }
{
    let picks = Vec::with_capacity(alloc, choices.len())?;
    let mut picking = Picking {
        choices,
        height: 0,
        picks,
    };
    for step in steps {
        picking.take(signatures, *step)?;
    }
    let Picking {
        choices: _,
        height: _,
        picks,
    } = picking;
    Ok(picks)
}

/// Choices that are not yet taken, how many types are on the stack of the walk, and the picks so far.
#[derive(Drop)]
struct Picking<'a> {
    choices: &'a [usize],
    height: usize,
    picks: Vec<Candidate>,
}

impl Picking<'_> {
    ghost use Rattle.mc_typecheck.specs.code.Picking.{PicksOn, Picks, noted};

    /// A step more.
    fn take(&mut self, signatures: &Signatures, step: WalkStep) -> Result<(), Memory>
        ensures { OnOk result (PicksOn signatures.now (plain_walk_step step.entry) self.old self.new) }
    {
        match step {
            WalkStep::Variable(_) => self.grow(),
            WalkStep::Number => {
                self.next();
                self.grow()?;
                Ok(())
            }
            WalkStep::Text => {
                self.next();
                self.grow()?;
                Ok(())
            }
            WalkStep::Choose(candidates, arguments) => {
                let arguments = self.shrink(arguments);
                self.grow()?;
                self.pick(signatures, false, candidates, arguments, 1)
            }
            WalkStep::Equate => {
                self.next();
                self.shrink(2);
                Ok(())
            }
            WalkStep::Call(candidates, arguments) => {
                let arguments = self.shrink(arguments);
                self.pick(signatures, true, candidates, arguments, 0)?;
                Ok(())
            }
            WalkStep::CloseHead(_, arguments) => {
                self.next();
                self.shrink(arguments);
                Ok(())
            }
        }
    }

    /// A type more is on the stack.
    fn grow(&mut self) -> Result<(), Memory>
        ensures height { OnOk result (self.new.height ≡ self.old.height + 1) }
        ensures choices { self.new.choices.now ≡ self.old.choices.now }
        ensures picks { self.new.picks.items ≡ self.old.picks.items }
    {
        if self.height == usize::MAX {
            return Err(Memory);
        }
        self.height += 1;
        Ok(())
    }

    /// So many types are taken off the stack, or as many as there are; how many these are.
    fn shrink(&mut self, count: usize) -> usize
        ensures taken { result ≡ fewer count self.old.height }
        ensures height { self.new.height + result ≡ self.old.height }
        ensures choices { self.new.choices.now ≡ self.old.choices.now }
        ensures picks { self.new.picks.items ≡ self.old.picks.items }
    {
        let taken = self.height - self.height.saturating_sub(count);
        self.height -= taken;
        taken
    }

    /// The next choice, where one is left.
    fn next(&mut self) -> Option<usize>
        ensures choice { (result, self.new.choices.now) ≡ taken_choice self.old.choices.now }
        ensures height { self.new.height ≡ self.old.height }
        ensures picks { self.new.picks.items ≡ self.old.picks.items }
    {
        match self.choices {
            [] => None,
            [first, others @ ..] => {
                let first = *first;
                self.choices = others;
                Some(first)
            }
        }
    }

    /// The pick of the next choice, of a name that has so many types, those of its arguments and its own.
    fn pick(
        &mut self,
        signatures: &Signatures,
        of_atom: bool,
        candidates: &[Candidate],
        arguments: usize,
        own: usize,
    ) -> Result<(), Memory>
        ensures height { OnOk result (self.new.height ≡ self.old.height) }
        ensures picks { OnOk result ((P : Source) (D : Parameters)
            → ((c : AnyCandidate) → Contains candidates.now c → Shows P D signatures.now (of_name c))
            → Picks P D (passes_as of_atom) candidates.now (arguments + own) self.old self.new) }
    {
        match arguments.checked_add(own) {
            None => Err(Memory),
            Some(count) => {
                let choice = self.next();
                self.note(signatures, of_atom, candidates, count, choice)?;
                Ok(())
            }
        }
    }

    /// Notes the candidate that a choice is.
    fn note(
        &mut self,
        signatures: &Signatures,
        of_atom: bool,
        candidates: &[Candidate],
        count: usize,
        choice: Option<usize>,
    ) -> Result<(), Memory>
        ensures height { OnOk result (self.new.height ≡ self.old.height) }
        ensures choices { OnOk result (self.new.choices.now ≡ self.old.choices.now) }
        ensures picks { OnOk result ((P : Source) (D : Parameters)
            → ((c : AnyCandidate) → Contains candidates.now c → Shows P D signatures.now (of_name c))
            → self.new.picks.items ≡ self.old.picks.items
            ++ noted P D (passes_as of_atom) candidates.now count choice) }
    {
        if let Some(choice) = choice {
            if let Some(candidate) = signatures.chosen(of_atom, candidates, count, choice) {
                self.picks.push(candidate)?;
            }
        }
        Ok(())
    }
}
