ghost use Rattle.std.specs.Prelude.{◌≡◌, ◌++◌, ◌∷◌, [], true, length, map, IfOk, OnOk};
ghost use Rattle.mc_unresolved.specs.Steps.{plain_walk_step};
ghost use Rattle.mc_typecheck.specs.code.Marking.{marking, first_marking, topmost, below, unmarked, all_unmarked, equated, after, after_all};

use mc_base::Memory;
use mc_unresolved::WalkStep;
use std::alloc::Global;

/// A term that was walked and isn't taken yet: a variable, or the occurrence at a place.
#[derive(Clone, Copy)]
pub enum Top {
    Variable,
    Occurrence(usize),
}

/// A flag for each place of a walk so far, and the terms that were walked and aren't taken yet. A place's flag is set
/// where its type is given: at each variable, and at each occurrence that has a variable of its own in the normal goal.
#[derive(Drop)]
pub struct Marks {
    pub stack: Vec<Top>,
    pub flags: Vec<bool>,
}

/// The flags of the places of a walk whose steps these are, of a clause with so many variables.
pub fn marked(alloc: Global, steps: &[WalkStep], vars: usize) -> Result<Vec<bool>, Memory>
    ensures { IfOk result (λ flags. flags.items
        ≡ (after_all (map plain_walk_step steps.now) (first_marking vars)).flags) }
{
    let mut marks = Marks::new(alloc, vars)?;
    for step in steps {
        marks.take_step(*step)?;
    }
    let Marks { stack: _, flags } = marks;
    Ok(flags)
}

impl Marks {
    /// Each variable's flag is set.
    fn new(alloc: Global, vars: usize) -> Result<Marks, Memory>
        ensures { IfOk result (λ marks. marking marks ≡ first_marking vars) }
    {
        let mut flags = Vec::new(alloc);
        for _v in 0..vars {
            flags.push(true)?;
        }
        Ok(Marks {
            stack: Vec::new(alloc),
            flags,
        })
    }

    /// Takes a step.
    fn take_step(&mut self, step: WalkStep) -> Result<(), Memory>
        ensures { OnOk result (marking self.new
            ≡ after (plain_walk_step step.entry) (marking self.old)) }
    {
        match step {
            WalkStep::Variable(_) => {
                self.stack.push(Top::Variable)?;
                Ok(())
            }
            WalkStep::Number => self.push_occurrence(),
            WalkStep::Text => self.push_occurrence(),
            WalkStep::Choose(_, arguments) => {
                self.take(arguments);
                self.push_occurrence()
            }
            WalkStep::Equate => {
                let side = self.equated_side();
                self.take(2);
                self.unmark(side);
                Ok(())
            }
            WalkStep::Call(_, arguments) => {
                self.take(arguments);
                Ok(())
            }
            WalkStep::CloseHead(_, arguments) => {
                self.unmark_topmost(arguments);
                self.take(arguments);
                Ok(())
            }
        }
    }

    /// An occurrence, behind all others.
    fn push_occurrence(&mut self) -> Result<(), Memory>
        ensures stack { OnOk result (self.new.stack.items
            ≡ self.old.stack.items ++ Top.Occurrence (length self.old.flags.items) ∷ []) }
        ensures flags { OnOk result (self.new.flags.items ≡ self.old.flags.items ++ true ∷ []) }
    {
        let place = self.flags.len();
        self.stack.push(Top::Occurrence(place))?;
        self.flags.push(true)?;
        Ok(())
    }

    /// Takes off the topmost terms.
    fn take(&mut self, count: usize)
        ensures left { self.new.stack.items ≡ below count self.old.stack.items }
        ensures flags { self.new.flags.items ≡ self.old.flags.items }
    {
        let from = self.stack.len().saturating_sub(count);
        self.stack.truncate(from);
    }

    /// The side of an equation, whose sides are the topmost terms, that is equated with the other's variable.
    fn equated_side(&self) -> Top
        ensures { result ≡ equated (topmost 2 self.now.stack.items) }
    {
        let from = self.stack.len().saturating_sub(2);
        equated(&self.stack[from..])
    }

    /// Takes back the flag of an occurrence that is equated with a variable.
    fn unmark(&mut self, top: Top)
        ensures flags { self.new.flags.items ≡ unmarked top self.old.flags.items }
        ensures stack { self.new.stack.items ≡ self.old.stack.items }
    {
        if let Top::Occurrence(place) = top {
            if place < self.flags.len() {
                self.flags[place] = false;
            }
        }
    }

    /// The same for the topmost terms, the arguments of a head.
    fn unmark_topmost(&mut self, count: usize)
        ensures flags { self.new.flags.items
            ≡ all_unmarked (topmost count self.old.stack.items) self.old.flags.items }
        ensures stack { self.new.stack.items ≡ self.old.stack.items }
    {
        for k in self.stack.len().saturating_sub(count)..self.stack.len() {
            let top = self.stack[k];
            self.unmark(top);
        }
    }
}

/// The side of an equation that is equated with the other's variable.
fn equated(sides: &[Top]) -> Top
    ensures { result ≡ equated sides.now }
{
    match sides {
        [left, right] => match *right {
            Top::Variable => *left,
            Top::Occurrence(_) => *right,
        },
        _ => Top::Variable,
    }
}
