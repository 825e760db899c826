ghost use Rattle.std.specs.Prelude.{◌≡◌, ◌⊎◌, ◌≤◌, ◌++◌, ◌∷◌, [], length, slice_set, IfOk, OnOk, MatchOption};
ghost use Rattle.mc_accepted.specs.Accepted.{entered};
ghost use Rattle.mc_accepted.specs.Ordered.{change_at};
ghost use Rattle.mc_procs.specs.Named.{NumbersBelow};
ghost use Rattle.mc_det.specs.code.Points.{insts_in, undone, ChangesBelow};

use mc_base::Memory;
use mc_model::inst::InstId;
use std::alloc::Global;
use std::marker::Model;
use std::mem;

/// A point of a body: the insts of its variables there.
#[derive(Drop)]
pub struct Point {
    insts: Vec<InstId>,
}

impl Model for Point {
    ghost use Rattle.std.specs.Prelude.{ℕ, List};

    ghost Value = { List ℕ };

    ghost view = { λ p. p.insts.items };
}

impl Point {
    /// The point at the call: head variables have their initial insts, all others are free. Of a variable that stands twice
    /// in the head the first place counts.
    pub fn entered(
        alloc: Global,
        variables: u32,
        head: &[u32],
        first: &[InstId],
    ) -> Result<Point, Memory>
        requires { NumbersBelow variables head.now }
        ensures count { IfOk result (λ p. length p ≡ variables) }
        ensures insts { IfOk result (λ p. insts_in p ≡ entered head.now first.now) }
    {
        let mut point = Point::free(alloc, variables)?;
        let mut n = fewer(head.len(), first.len());
        while n > 0 {
            n -= 1;
            point.put(head[n], first[n]);
        }
        Ok(point)
    }

    /// A point where all is free.
    fn free(alloc: Global, variables: u32) -> Result<Point, Memory>
        ensures count { IfOk result (λ p. length p ≡ variables) }
        ensures insts { IfOk result (λ p. insts_in p ≡ (λ _. 0)) }
    {
        let mut insts = Vec::new(alloc);
        for _ in 0..variables {
            insts.push(0)?;
        }
        Ok(Point { insts })
    }

    /// The inst of a variable; a number past the end is free.
    pub fn get(&self, x: u32) -> InstId
        ensures { result ≡ insts_in self.now x }
    {
        let x = x as usize;
        if x < self.insts.len() {
            self.insts[x]
        } else {
            0
        }
    }

    /// The insts of all variables, in their order.
    pub fn as_slice(&self) -> &[InstId]
        ensures { result.now ≡ self.now }
    {
        self.insts.as_slice()
    }

    /// A variable gets an inst; a number past the end changes nothing.
    fn put(&mut self, x: u32, i: InstId)
        ensures { self.new ≡ slice_set self.old x i }
    {
        let x = x as usize;
        if x < self.insts.len() {
            self.insts[x] = i;
        }
    }

    /// The point after a goal that changes these insts; what each change found is put behind what was found before. Of a
    /// variable that stands twice among the changes the first place counts.
    pub fn enter(
        &mut self,
        changes: &[(u32, InstId)],
        found: &mut Vec<(u32, InstId)>,
    ) -> Result<(), Memory>
        requires { ChangesBelow (length self.old) changes.now }
        ensures count { OnOk result (length self.new ≡ length self.old) }
        ensures insts { OnOk result (insts_in self.new ≡ (λ x. change_at x changes.now (insts_in self.old x))) }
        ensures found { OnOk result (undone found.new.items self.new ≡ undone found.old.items self.old) }
    {
        let mut n = changes.len();
        while n > 0 {
            n -= 1;
            let (x, i) = changes[n];
            found.push((x, self.get(x)))?;
            self.put(x, i);
        }
        Ok(())
    }

    /// The point as it was before changes that found this.
    pub fn undo(&mut self, mut found: Vec<(u32, InstId)>)
        ensures { self.new ≡ undone found.items self.old }
    {
        self.undo_all(&mut found);
    }

    /// The point as it was before changes that found this, which are taken off the list.
    pub fn undo_all(&mut self, found: &mut Vec<(u32, InstId)>)
        ensures { self.new ≡ undone found.old.items self.old }
    {
        while let Some(change) = last_of(found) {
            self.put(change.0, change.1);
        }
    }
}

/// An empty list, in the room of one that is done with.
pub fn emptied<T: Drop>(alloc: Global, done: &mut Vec<T>) -> Vec<T>
    ensures { result.items ≡ [] }
{
    let mut list = mem::replace(done, Vec::new(alloc));
    list.clear();
    list
}

/// Takes the last change off.
fn last_of(changes: &mut Vec<(u32, InstId)>) -> Option<(u32, InstId)>
    ensures { MatchOption result (changes.old.items ≡ []) (λ last. changes.old.items ≡ changes.new.items ++ last ∷ []) }
{
    changes.pop()
}

/// The less of two numbers.
fn fewer(a: usize, b: usize) -> usize
    ensures first { result ≤ a }
    ensures second { result ≤ b }
    ensures either { (result ≡ a) ⊎ (result ≡ b) }
{
    if a < b {
        return a;
    }
    b
}
