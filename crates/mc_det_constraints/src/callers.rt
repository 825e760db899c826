ghost use Rattle.std.specs.Prelude.{◌≡◌, ◌<◌, ◌^◌, ◌++◌, ◌∷◌, [], ℕ, length, get_or, IsTrue, IfOk, OnOk};
ghost use Rattle.std.specs.List.{Contains};
ghost use Rattle.mc_det_constraints.specs.Skeletons.{called};
ghost use Rattle.mc_det_constraints.specs.code.Callers.{AreCallers, HasPut, PutCall, PutStep, PutCalls};

use crate::constraint::Step;
use mc_base::{Memory, Row};
use std::alloc::Global;
use std::marker::Model;

/// Of each procedure those whose bodies call it.
#[derive(Drop)]
pub struct Callers {
    lists: Vec<Vec<u32>>,
}

impl Model for Callers {
    ghost use Rattle.std.specs.Prelude.{ℕ, List, map};

    ghost Value = { List (List ℕ) };

    ghost view = { λ c. map (λ v. v.items) c.lists.items };
}

impl Callers {
    /// The callers of procedures with these bodies.
    pub fn of(alloc: Global, bodies: &[Row<Step>]) -> Result<Callers, Memory>
        requires { length bodies.now < 2 ^ 32 }
        ensures { IfOk result (λ r. AreCallers bodies.now r) }
    {
        let mut callers = Callers::none(alloc, bodies.len())?;
        for (p, body) in bodies.iter().enumerate() {
            callers.put_calls(p as u32, body.as_slice())?;
        }
        Ok(callers)
    }

    /// No callers of so many procedures.
    fn none(alloc: Global, count: usize) -> Result<Callers, Memory>
        ensures many { IfOk result (λ r. length r ≡ count) }
        ensures none { IfOk result (λ r. (q : ℕ) → get_or r q [] ≡ []) }
    {
        let mut lists = Vec::new(alloc);
        for _ in 0..count {
            lists.push(Vec::new(alloc))?;
        }
        Ok(Callers { lists })
    }

    /// The callers of a procedure.
    pub fn get(&self, q: u32) -> &[u32]
        requires { q < length self.now }
        ensures list { result.now ≡ get_or self.now q [] }
        ensures few { length result.now < 2 ^ 64 }
    {
        self.lists[q as usize].as_slice()
    }

    /// A procedure calls what its body calls.
    fn put_calls(&mut self, p: u32, steps: &[Step]) -> Result<(), Memory>
        ensures { OnOk result (PutCalls p steps.now self.old self.new) }
    {
        for step in steps {
            self.put_step(p, *step)?;
        }
        Ok(())
    }

    /// A procedure calls what a step of its body calls.
    fn put_step(&mut self, p: u32, step: Step) -> Result<(), Memory>
        ensures { OnOk result (PutStep p step self.old self.new) }
    {
        match called(step) {
            Some(q) => self.put(q, p),
            None => Ok(()),
        }
    }

    /// A procedure calls another.
    fn put(&mut self, q: u32, p: u32) -> Result<(), Memory>
        ensures { OnOk result (PutCall p q self.old self.new) }
    {
        let q = q as usize;
        if q >= self.lists.len() {
            return Ok(());
        }
        put_last(&mut self.lists[q], p)?;
        Ok(())
    }
}

/// The procedure that a step calls.
fn called(step: Step) -> Option<u32>
    ensures { result ≡ called step }
{
    match step {
        Step::Call(q, _) => Some(q),
        _ => None,
    }
}

/// Puts a caller last, where it isn't the last one already.
fn put_last(list: &mut Vec<u32>, p: u32) -> Result<(), Memory>
    ensures { OnOk result (HasPut p list.old.items list.new.items) }
{
    if is_last(list.as_slice(), p) {
        return Ok(());
    }
    list.push(p)?;
    Ok(())
}

/// Whether that is the last one.
fn is_last(list: &[u32], p: u32) -> bool
    ensures { IsTrue result → Contains list.now p }
{
    let n = list.len();
    n > 0 && list[n - 1] == p
}
