//! The places of a conjunction's goals that wait.
ghost use Rattle.std.specs.Prelude.{◌≡◌, ◌<◌, ◌≤◌, ◌+◌, ◌-◌, ◌++◌, ◌↔◌, [], length, get_or, IsTrue, OnOk};
ghost use Rattle.std.specs.List.{remove};
ghost use Rattle.mc_model.specs.Lists.{from};

use mc_base::Memory;
use std::alloc::Global;
use std::collections::VecDeque;
use std::marker::Model;

/// The places of the goals that wait, ascending: those that were passed over, and behind them so many from the next one on.
/// Mostly the first that waits is the next that runs, and then nothing is kept of places. Those that were passed over are a
/// queue, since to take the first of them moves none of the others.
#[derive(Drop)]
pub struct Places {
    passed: VecDeque<usize>,
    next: usize,
    rest: usize,
}

impl Model for Places {
    ghost use Rattle.std.specs.Prelude.{ℕ, List, length, ◌++◌, ◌+◌, ◌<◌, ◌≤◌, ◌^◌};
    ghost use Rattle.mc_model.specs.Lists.{from};

    ghost Value = { List ℕ };

    ghost view = { λ p. p.passed.items ++ from p.next p.rest };

    ghost invariant = { λ p. (length p.passed.items ≤ p.next) × (p.next + p.rest < 2 ^ 64) };
}

impl Places {
    /// Those of so many goals.
    pub fn of(alloc: Global, many: usize) -> Places
        ensures { result ≡ from 0 many }
    {
        Places {
            passed: VecDeque::new(alloc),
            next: 0,
            rest: many,
        }
    }

    /// How many goals wait.
    pub fn len(&self) -> usize
        ensures { result ≡ length self.now }
    {
        self.passed.len() + self.rest
    }

    /// Whether none waits.
    pub fn is_empty(&self) -> bool
        ensures { IsTrue result ↔ (self.now ≡ []) }
    {
        self.len() == 0
    }

    /// The place of a waiting goal, which is counted from 0.
    pub fn get(&self, k: usize) -> usize
        requires { k < length self.now }
        ensures { result ≡ get_or self.now k 0 }
    {
        let passed = self.passed.len();
        if k < passed {
            self.passed[k]
        } else {
            self.next + (k - passed)
        }
    }

    /// Takes a waiting goal out: those before it are passed over.
    pub fn take(&mut self, k: usize) -> Result<(), Memory>
        requires { k < length self.old }
        ensures { OnOk result (self.new ≡ remove self.old k) }
    {
        let passed = self.passed.len();
        if k < passed {
            self.passed.remove(k);
            return Ok(());
        }
        let first = self.next;
        let taken = first + (k - passed);
        self.next = taken + 1;
        self.rest -= k - passed + 1;
        push_between(&mut self.passed, first, taken)?;
        Ok(())
    }
}

/// Puts the numbers from one on, below another, at the end.
fn push_between(list: &mut VecDeque<usize>, first: usize, end: usize) -> Result<(), Memory>
    requires { first ≤ end }
    ensures numbers { OnOk result (list.new.items ≡ list.old.items ++ from first (end - first)) }
    ensures few { length list.new.items ≤ length list.old.items + (end - first) }
{
    for k in first..end {
        list.push_back(k)?;
    }
    Ok(())
}
