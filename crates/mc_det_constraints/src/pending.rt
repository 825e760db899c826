ghost use Rattle.std.specs.Prelude.{◌≡◌, ◌<◌, ◌++◌, ◌∷◌, [], ℕ, slice_set, IsTrue, IfOk, OnOk, MatchOption};
ghost use Rattle.std.specs.List.{Contains};
ghost use Rattle.mc_det_constraints.specs.code.Callers.{AllBelow, HasPut};
ghost use Rattle.mc_det_constraints.specs.code.Pending.{IsPending, PutAll};

use mc_base::Memory;
use std::alloc::Global;

/// Procedures that are to be looked at, the last one first, and of each whether it is among them. None is there twice.
#[derive(Drop)]
pub struct Pending {
    list: Vec<u32>,
    flags: Vec<bool>,
}

impl Pending {
    /// The procedures of the numbers below n.
    pub fn all(alloc: Global, n: u32) -> Result<Pending, Memory>
        ensures pending { IfOk result (λ r. IsPending r) }
        ensures has { IfOk result (λ r. (p : ℕ) → p < n → Contains r.list.items p) }
        ensures below { IfOk result (λ r. AllBelow n r.list.items) }
    {
        let mut list = Vec::new(alloc);
        let mut flags = Vec::new(alloc);
        for p in 0..n {
            list.push(p)?;
            flags.push(true)?;
        }
        Ok(Pending { list, flags })
    }

    /// Takes the last procedure off.
    pub fn take(&mut self) -> Option<u32>
        requires { IsPending self.old }
        ensures pending { IsPending self.new }
        ensures last { MatchOption result (self.old.list.items ≡ [])
            (λ p. self.old.list.items ≡ self.new.list.items ++ p ∷ []) }
    {
        match self.list.pop() {
            Some(p) => {
                self.mark(p, false);
                Some(p)
            }
            None => None,
        }
    }

    /// Puts those procedures on that aren't there.
    pub fn put_all(&mut self, ps: &[u32]) -> Result<(), Memory>
        requires { IsPending self.old }
        ensures pending { OnOk result (IsPending self.new) }
        ensures put { OnOk result (PutAll ps.now self.old.list.items self.new.list.items) }
    {
        for p in ps {
            self.put(*p)?;
        }
        Ok(())
    }

    /// Puts a procedure on, where it isn't there.
    fn put(&mut self, p: u32) -> Result<(), Memory>
        requires { IsPending self.old }
        ensures pending { OnOk result (IsPending self.new) }
        ensures put { OnOk result (HasPut p self.old.list.items self.new.list.items) }
    {
        if self.is_there(p) {
            return Ok(());
        }
        self.list.push(p)?;
        self.mark(p, true);
        Ok(())
    }

    /// Whether a procedure is among them.
    fn is_there(&self, p: u32) -> bool
        requires { IsPending self.now }
        ensures { IsTrue result → Contains self.now.list.items p }
    {
        let p = p as usize;
        p < self.flags.len() && self.flags[p]
    }

    /// Notes whether a procedure is among them; that of a number past the end isn't noted.
    fn mark(&mut self, p: u32, is_there: bool)
        ensures list { self.new.list.items ≡ self.old.list.items }
        ensures flags { self.new.flags.items ≡ slice_set self.old.flags.items p is_there }
    {
        let p = p as usize;
        if p < self.flags.len() {
            self.flags[p] = is_there;
        }
    }
}
