ghost use Rattle.std.specs.Prelude.{◌≡◌, ℕ, List, [], ◌∷◌, ◌<◌, ◌^◌, ◌++◌, length, map, OnOk};
ghost use Rattle.mc_program.specs.Programs.{Expression};
ghost use Rattle.mc_program.specs.PlainPrograms.{plain_expression};
ghost use Rattle.mc_accepted.specs.Scope.{variables_in};

use crate::goals::variable_of;
use crate::numbers::Number;
use crate::occurrences::push_variables;
use mc_base::{Memory, Row};
use mc_program::expr::Expr;
use std::alloc::Global;

/// The variables of a clause that were met so far, with their numbers: a head argument that is met there first is the
/// head variable of its place, and each other one has the next number from `first` on.
#[derive(Drop)]
pub struct Numbering {
    pub slots: Vec<Option<Number>>,
    pub others: Vec<u32>,
    pub first: u32,
}

impl Numbering {
    ghost use Rattle.mc_goals.specs.code.Meeting.{slot_of, IsPut, Met, MetArgument, Knows, head_variables};

    /// What is known of a variable.
    fn slot(&self, variable: u32) -> Option<Number>
        ensures { result ≡ slot_of self.now variable }
    {
        let k = variable as usize;
        if k >= self.slots.len() {
            return None;
        }
        self.slots[k]
    }

    /// Sets what is known of a variable.
    fn put(&mut self, variable: u32, number: Number) -> Result<(), Memory>
        ensures { OnOk result (IsPut self.old variable number self.new) }
    {
        let k = variable as usize;
        'room: while self.slots.len() <= k {
            self.slots.push(None)?;
        }
        self.slots[k] = Some(number);
        Ok(())
    }

    /// A variable occurs that isn't a head argument in the place where it stands.
    pub fn meet(&mut self, variable: u32) -> Result<(), Memory>
        ensures { OnOk result (Met self.old variable self.new) }
    {
        if self.slot(variable).is_some() {
            return Ok(());
        }
        match u32::try_from(self.others.len()) {
            Err(_) => Err(Memory),
            Ok(place) => match self.first.checked_add(place) {
                None => Err(Memory),
                Some(number) => {
                    self.put(variable, Number::Other(number))?;
                    self.others.push(variable)?;
                    Ok(())
                }
            },
        }
    }

    /// A variable is the head argument in this place.
    pub fn meet_argument(&mut self, variable: u32, place: u32) -> Result<(), Memory>
        ensures { OnOk result (MetArgument self.old variable place self.new) }
    {
        if self.slot(variable).is_some() {
            return Ok(());
        }
        self.put(variable, Number::Argument(place))
    }

    /// Variables occur, in order, that aren't head arguments in the places where they stand.
    #[tactic(auto, using(crate::proofs::Meeting::knows_more))]
    pub fn meet_all(&mut self, variables: &[u32]) -> Result<(), Memory>
        ensures { (n : ℕ) (head : List Expression) (ys : List ℕ) → Knows n head ys self.old
            → OnOk result (Knows n head (ys ++ variables.now) self.new) }
    {
        for variable in variables {
            self.meet(*variable)?;
        }
        Ok(())
    }

    /// The next head argument, whose place this is.
    pub fn meet_at(&mut self, alloc: Global, place: u32, argument: &Expr) -> Result<(), Memory>
        ensures { (n : ℕ) (head : List Expression) → place ≡ length head
            → Knows n head (head_variables head) self.old
            → OnOk result (Knows n (head ++ plain_expression argument.now ∷ [])
            (head_variables head ++ variables_in (plain_expression argument.now)) self.new) }
    {
        if let Some(variable) = variable_of(argument) {
            return self.meet_argument(variable, place);
        }
        let mut variables = Vec::new(alloc);
        push_variables(&mut variables, argument)?;
        self.meet_all(variables.as_slice())
    }

    /// The arguments of a head, in order.
    pub fn meet_head(&mut self, alloc: Global, head: &Row<Expr>) -> Result<(), Memory>
        ensures { (n : ℕ) → Knows n [] [] self.old
            → OnOk result (Knows n (map plain_expression head.now)
            (head_variables (map plain_expression head.now)) self.new) }
    {
        for place in 0..head.len() {
            self.meet_at(alloc, place, head.get(place))?;
        }
        Ok(())
    }
}
