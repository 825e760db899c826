ghost use Rattle.std.specs.Prelude.{◌≡◌, ◌&&◌, ℕ, List, Bool, length, IfOk};
ghost use Rattle.mc_model.specs.Stream.{is_bound};
ghost use Rattle.mc_accepted.specs.Arranged.{ascending};
ghost use Rattle.mc_accepted.specs.Least.{least};
ghost use Rattle.mc_procs.specs.Named.{NumbersBelow};
ghost use Rattle.mc_mode_state.specs.States.{point_of, is_outside};

use crate::asking::{is_bound, place};
use crate::state::State;
use mc_base::{Memory, Row};
use std::alloc::Global;

impl State {
    /// Those of these variables that occur outside, ascending, each once.
    pub fn seen(&self, alloc: Global, own: &[u32]) -> Result<Row<u32>, Memory>
        requires { NumbersBelow (length self.now.outside.items) own.now }
        ensures { IfOk result (λ row. row ≡ ascending (is_outside self.now.outside.items) own.now) }
    {
        let mut row = Vec::new(alloc);
        let mut k = own.len();
        while k > 0 {
            k -= 1;
            place(&mut row, own[k], self.is_outside(own[k]))?;
        }
        Row::of(row)
    }

    /// The first of these variables that is bound; of a row that ascends it is the least.
    pub fn first_bound(&self, xs: &[u32]) -> Option<u32>
        requires { NumbersBelow (length self.now.insts.items) xs.now }
        ensures { (wanted : ℕ → Bool) (ys : List ℕ) → xs.now ≡ ascending wanted ys
            → least (λ x. wanted x && is_bound (point_of self.now.insts.items x)) ys ≡ result }
    {
        for x in xs {
            if is_bound(self.inst(*x)) {
                return Some(*x);
            }
        }
        None
    }
}
