ghost use Rattle.std.specs.Prelude.{◌≡◌, ◌∷◌, [], OnOk};
ghost use Rattle.mc_source.specs.Determinism.{inferred, row_of};
ghost use Rattle.mc_det_constraints.specs.Skeletons.{top, below};

use crate::order::most_of;
use mc_base::Memory;
use mc_source::det::{Det, Most};
use std::alloc::Global;
use std::marker::Model;

/// A stack of determinisms, the last one put on first.
#[derive(Drop)]
pub struct Stack {
    dets: Vec<Det>,
}

impl Model for Stack {
    ghost use Rattle.std.specs.Prelude.{List, map, reverse};
    ghost use Rattle.mc_source.specs.Determinism.{Determinism, row_of};

    ghost Value = { List Determinism };

    ghost view = { λ s. map row_of (reverse s.dets.items) };
}

impl Stack {
    pub fn new(alloc: Global) -> Stack
        ensures { result ≡ [] }
    {
        Stack {
            dets: Vec::new(alloc),
        }
    }

    /// Puts a determinism on.
    pub fn push(&mut self, d: Det) -> Result<(), Memory>
        ensures { OnOk result (self.new ≡ row_of d ∷ self.old) }
    {
        self.dets.push(d)?;
        Ok(())
    }

    /// Takes the topmost off; `det` where there is none.
    pub fn pop(&mut self) -> Det
        ensures top { result ≡ inferred (top self.old) }
        ensures others { self.new ≡ below self.old }
    {
        match self.dets.pop() {
            Some(d) => Det {
                can_fail: d.can_fail,
                most: most_of(d),
                committed: false,
            },
            None => Det {
                can_fail: false,
                most: Most::One,
                committed: false,
            },
        }
    }
}
