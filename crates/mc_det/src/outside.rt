ghost use Rattle.std.specs.Prelude.{◌≡◌, ◌+◌, ◌<◌, ◌≤◌, ◌&&◌, ℕ, length, get_or, not, nat_eq, IfOk, OnOk, if◌then◌else◌};
ghost use Rattle.mc_accepted.specs.Ordered.{times_in};

use mc_base::Memory;
use std::alloc::Global;
use std::marker::Model;

/// How often each variable occurs outside the goal at hand.
#[derive(Drop)]
pub(crate) struct Outside {
    counts: Vec<u32>,
}

impl Model for Outside {
    ghost use Rattle.std.specs.Prelude.{ℕ, List};

    ghost Value = { List ℕ };

    ghost view = { λ o. o.counts.items };
}

impl Outside {
    /// No variable occurs outside.
    pub(crate) fn none(alloc: Global, variables: u32) -> Result<Outside, Memory>
        ensures count { IfOk result (λ o. length o ≡ variables) }
        ensures none { IfOk result (λ o. (x : ℕ) → get_or o x 0 ≡ 0) }
    {
        let mut counts = Vec::new(alloc);
        for _ in 0..variables {
            counts.push(0)?;
        }
        Ok(Outside { counts })
    }

    /// These variables occur outside too; numbers past the end are left out.
    pub(crate) fn enter(&mut self, variables: &[u32]) -> Result<(), Memory>
        ensures count { OnOk result (length self.new ≡ length self.old) }
        ensures more { OnOk result ((x : ℕ) → x < length self.old
            → get_or self.new x 0 ≡ get_or self.old x 0 + times_in x variables.now) }
    {
        for x in variables {
            self.one_more(*x)?;
        }
        Ok(())
    }

    fn one_more(&mut self, x: u32) -> Result<(), Memory>
        ensures count { OnOk result (length self.new ≡ length self.old) }
        ensures more { OnOk result ((y : ℕ) → y < length self.old
            → get_or self.new y 0 ≡ get_or self.old y 0 + (if nat_eq y x then 1 else 0)) }
    {
        let x = x as usize;
        if x < self.counts.len() {
            match self.counts[x].checked_add(1) {
                Some(count) => self.counts[x] = count,
                None => return Err(Memory),
            }
        }
        Ok(())
    }

    /// Takes back what `enter` did.
    pub(crate) fn leave(&mut self, variables: &[u32])
        requires { (x : ℕ) → x < length self.old → times_in x variables.now ≤ get_or self.old x 0 }
        ensures count { length self.new ≡ length self.old }
        ensures fewer { (x : ℕ) → x < length self.old
            → get_or self.new x 0 + times_in x variables.now ≡ get_or self.old x 0 }
    {
        for x in variables {
            self.one_fewer(*x);
        }
    }

    fn one_fewer(&mut self, x: u32)
        requires { x < length self.old → 1 ≤ get_or self.old x 0 }
        ensures count { length self.new ≡ length self.old }
        ensures fewer { (y : ℕ) → y < length self.old
            → get_or self.new y 0 + (if nat_eq y x then 1 else 0) ≡ get_or self.old y 0 }
    {
        let x = x as usize;
        if x < self.counts.len() {
            self.counts[x] -= 1;
        }
    }

    /// Whether a variable occurs outside.
    pub(crate) fn has(&self, x: u32) -> bool
        ensures { result ≡ not (nat_eq (get_or self.now x 0) 0) }
    {
        let x = x as usize;
        x < self.counts.len() && self.counts[x] != 0
    }
}
