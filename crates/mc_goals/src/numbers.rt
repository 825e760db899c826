ghost use Rattle.std.specs.Prelude.{◌≡◌, ◌<◌, ◌^◌, map, IfOk, slice_index_or};

use mc_base::Memory;
use std::alloc::Global;

/// What a variable of a clause is in the normal goal: the head variable of an argument, or one of its own. Each by its
/// number there.
#[derive(Clone, Copy, Drop)]
pub enum Number {
    Argument(u32),
    Other(u32),
}

/// The numbers that a clause's variables have in the normal goal; a variable that isn't the clause's has `rest`.
#[derive(Drop)]
pub struct Numbers {
    pub slots: Vec<Option<Number>>,
    pub rest: u32,
}

impl Numbers {
    ghost use Rattle.mc_goals.specs.code.Numbering.{number_at, own_place};

    /// The number of a variable.
    pub fn of(&self, variable: u32) -> u32
        ensures { result ≡ number_at self.now variable }
    {
        let k = variable as usize;
        if k >= self.slots.len() {
            return self.rest;
        }
        match self.slots[k] {
            None => self.rest,
            Some(Number::Argument(number)) => number,
            Some(Number::Other(number)) => number,
        }
    }

    /// The numbers of variables, in order.
    pub fn all(&self, alloc: Global, variables: &[u32]) -> Result<Vec<u32>, Memory>
        ensures { IfOk result (λ numbers. numbers.items ≡ map (number_at self.now) variables.now) }
    {
        let mut numbers = Vec::with_capacity(alloc, variables.len())?;
        for variable in variables {
            numbers.push(self.of(*variable))?;
        }
        Ok(numbers)
    }

    /// Whether a variable is itself the head variable of this place.
    pub fn is_own(&self, variable: u32, place: u32) -> bool
        ensures { result ≡ own_place place (slice_index_or self.now.slots.items variable None) }
    {
        let k = variable as usize;
        if k >= self.slots.len() {
            return false;
        }
        match self.slots[k] {
            None => false,
            Some(Number::Argument(number)) => place == number,
            Some(Number::Other(_)) => false,
        }
    }
}
