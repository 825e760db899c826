ghost use Rattle.std.specs.Prelude.{◌≡◌, ℕ, ◌<◌, length, replicate, slice_set, count_by, true, false, ◌||◌, ◌&&◌, not, ◌↔◌, IsTrue, IfOk};
ghost use Rattle.mc_varset.specs.Members.{has};

use mc_base::Memory;
use std::alloc::Global;
use std::marker::Model;

/// A set of numbers below a bound. Contracts see the list that tells for each of them whether it is
/// a member, in order; the list's length is the bound.
#[derive(Drop)]
pub struct VarSet {
    members: Vec<bool>,
}

impl Model for VarSet {
    ghost use Rattle.std.specs.Prelude.{List, Bool, length, ◌<◌, ◌^◌};

    ghost Value = { List Bool };

    ghost view = { λ s. s.members.items };

    ghost invariant = { λ s. length s.members.items < 2 ^ 32 };
}

impl VarSet {
    /// The empty set below a bound, with all the room that it will take.
    pub fn new(alloc: Global, bound: u32) -> Result<VarSet, Memory>
        ensures { IfOk result (λ s. s ≡ replicate bound false) }
    {
        let members = Vec::from_elem(alloc, false, bound as usize)?;
        Ok(VarSet { members })
    }

    /// Another set with the same members and the same bound.
    pub fn copy(&self, alloc: Global) -> Result<VarSet, Memory>
        ensures { IfOk result (λ s. s ≡ self.now) }
    {
        let mut members = Vec::with_capacity(alloc, self.members.len())?;
        members.extend_from_slice(self.members.as_slice())?;
        Ok(VarSet { members })
    }

    /// Whether a number is a member.
    pub fn contains(&self, v: u32) -> bool
        requires { v < length self.now }
        ensures { result ≡ has self.now v }
    {
        self.members[v as usize]
    }

    /// Puts a number in; no other comes or goes.
    pub fn insert(&mut self, v: u32)
        requires { v < length self.old }
        ensures { self.new ≡ slice_set self.old v true }
    {
        self.members[v as usize] = true;
    }

    /// Takes a number out; no other comes or goes.
    pub fn remove(&mut self, v: u32)
        requires { v < length self.old }
        ensures { self.new ≡ slice_set self.old v false }
    {
        self.members[v as usize] = false;
    }

    /// Puts the members of another set in.
    pub fn union_with(&mut self, other: &VarSet)
        requires { length self.old ≡ length other.now }
        ensures bound { length self.new ≡ length self.old }
        ensures members { (v : ℕ) → has self.new v ≡ (has self.old v || has other.now v) }
    {
        for v in 0..self.members.len() {
            if other.members[v] {
                self.members[v] = true;
            }
        }
    }

    /// Takes the members of another set out.
    pub fn minus(&mut self, other: &VarSet)
        requires { length self.old ≡ length other.now }
        ensures bound { length self.new ≡ length self.old }
        ensures members { (v : ℕ) → has self.new v ≡ (has self.old v && not (has other.now v)) }
    {
        for v in 0..self.members.len() {
            if other.members[v] {
                self.members[v] = false;
            }
        }
    }

    /// Whether each member is one of another set.
    pub fn is_subset(&self, other: &VarSet) -> bool
        requires { length self.now ≡ length other.now }
        ensures { IsTrue result ↔ ((v : ℕ) → has self.now v ≡ true → has other.now v ≡ true) }
    {
        for v in 0..self.members.len() {
            if self.members[v] && !other.members[v] {
                return false;
            }
        }
        true
    }

    /// How many members there are.
    pub fn count(&self) -> u32
        ensures { result ≡ count_by (λ member. member) self.now }
    {
        let mut count = 0;
        for member in self.members.as_slice() {
            if *member {
                count += 1;
            }
        }
        count
    }
}
