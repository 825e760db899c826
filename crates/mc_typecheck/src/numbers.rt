ghost use Rattle.std.specs.Prelude.{◌≡◌, ℕ, List, [], ◌∷◌, ◌++◌, Some, nat_eq, if◌then◌else◌, IfOk, OnOk};

use mc_base::Memory;
use std::alloc::Global;

/// The numbers of the type variables that stand for free places: behind the rigid ones, in the order in which the
/// places occur first. `met` is how many places have one, and `slots` has them by place.
#[derive(Drop)]
pub struct Numbers {
    pub rigid: u32,
    pub met: u32,
    pub slots: Vec<Option<u32>>,
}

impl Numbers {
    ghost use Rattle.mc_typecheck.specs.VariableTypes.{number_of};
    ghost use Rattle.mc_typecheck.specs.code.Numbering.{Knows, slot_of, IsPut};

    /// No place has a number yet.
    pub fn new(alloc: Global, rigid: u32) -> Numbers
        ensures { Knows rigid [] result }
    {
        Numbers {
            rigid,
            met: 0,
            slots: Vec::new(alloc),
        }
    }

    /// The number of a place, which is the next one where it has none.
    pub fn number(&mut self, place: usize) -> Result<u32, Memory>
        ensures { (r : ℕ) (seen : List ℕ) → Knows r seen self.old
            → IfOk result (λ number. Knows r (seen ++ place ∷ []) self.new
            × (number ≡ number_of r (seen ++ place ∷ []) place)) }
    {
        if let Some(number) = self.slot(place) {
            return Ok(number);
        }
        let number = self.next(place)?;
        Ok(number)
    }

    /// The number that a place has.
    fn slot(&self, place: usize) -> Option<u32>
        ensures { result ≡ slot_of self.now place }
    {
        if place >= self.slots.len() {
            return None;
        }
        self.slots[place]
    }

    /// Gives the next number to a place.
    fn next(&mut self, place: usize) -> Result<u32, Memory>
        ensures { IfOk result (λ number. IsPut self.old place number self.new) }
    {
        match self.rigid.checked_add(self.met) {
            None => Err(Memory),
            Some(number) => match self.met.checked_add(1) {
                None => Err(Memory),
                Some(met) => {
                    self.put(place, number)?;
                    self.met = met;
                    Ok(number)
                }
            },
        }
    }

    /// Sets the number of a place.
    fn put(&mut self, place: usize, number: u32) -> Result<(), Memory>
        ensures slots { OnOk result ((k : ℕ) → slot_of self.new k
            ≡ (if nat_eq k place then Some number else slot_of self.old k)) }
        ensures rigid { self.new.rigid ≡ self.old.rigid }
        ensures met { self.new.met ≡ self.old.met }
    {
        'room: while self.slots.len() <= place {
            self.slots.push(None)?;
        }
        self.slots[place] = Some(number);
        Ok(())
    }
}
