ghost use Rattle.std.specs.Prelude.{◌≡◌, ◌<◌, ◌≤◌, ◌+◌, ℕ, List, [], ◌++◌, ◌∷◌, length, get_or, slice_set, IfOk, OnOk};
ghost use Rattle.mc_procs.specs.Named.{NumbersBelow};
ghost use Rattle.mc_accepted.specs.Arranged.{with_inst};
ghost use Rattle.mc_accepted.specs.Ordered.{times_in};
ghost use Rattle.mc_mode_state.specs.States.{point_of, is_outside, snapshot_of, TrailWithin, TrailRestores, SameState, Later, SameLengths};
ghost use Rattle.mc_mode_state.specs.declared.state.State.{State};

use crate::nodes::Nodes;
use mc_base::Memory;
use mc_model::inst::InstId;
use mc_program::ty::{Ty, copy_type};
use std::alloc::Global;

/// What is kept while a clause's goals are put in order: the inst of each variable, the insts that were replaced, the
/// latest last, how often each variable occurs outside the goal at hand, the variables' types, and the nodes that were
/// looked for.
#[derive(Drop)]
pub struct State {
    pub insts: Vec<InstId>,
    pub trail: Vec<(u32, InstId)>,
    pub outside: Vec<u32>,
    pub types: Vec<Ty>,
    pub nodes: Nodes,
}

/// A moment of a state, to which it can be taken back.
#[derive(Clone, Copy, Debug, PartialEq, Eq)]
pub struct Snapshot {
    pub trail: usize,
    pub variables: usize,
}

/// Counts each variable outside, as often as it stands in the list.
pub(crate) fn count_up(outside: &mut Vec<u32>, vars: &[u32]) -> Result<(), Memory>
    requires { NumbersBelow (length outside.old.items) vars.now }
    ensures len { OnOk result (length outside.new.items ≡ length outside.old.items) }
    ensures counts { OnOk result ((x : ℕ) → get_or outside.new.items x 0
        ≡ get_or outside.old.items x 0 + times_in x vars.now) }
{
    for x in vars {
        let count = outside[*x as usize].checked_add(1);
        match count {
            Some(count) => outside[*x as usize] = count,
            None => return Err(Memory),
        }
    }
    Ok(())
}

impl State {
    /// The present moment.
    pub fn mark(&self) -> Snapshot
        ensures { result ≡ snapshot_of self.now }
    {
        Snapshot {
            trail: self.trail.len(),
            variables: self.insts.len(),
        }
    }

    /// The inst of a variable.
    pub fn inst(&self, x: u32) -> InstId
        requires { x < length self.now.insts.items }
        ensures { result ≡ point_of self.now.insts.items x }
    {
        self.insts[x as usize]
    }

    /// A variable gets an inst.
    pub fn set(&mut self, x: u32, i: InstId) -> Result<(), Memory>
        requires { x < length self.old.insts.items }
        ensures point { OnOk result
            (point_of self.new.insts.items ≡ with_inst ℕ x i (point_of self.old.insts.items)) }
        ensures trail { OnOk result
            (self.new.trail.items ≡ self.old.trail.items ++ (x, point_of self.old.insts.items x) ∷ []) }
        ensures count { OnOk result (length self.new.insts.items ≡ length self.old.insts.items) }
        ensures outside { OnOk result (self.new.outside ≡ self.old.outside) }
        ensures types { OnOk result (self.new.types ≡ self.old.types) }
        ensures nodes { OnOk result (self.new.nodes ≡ self.old.nodes) }
    {
        let was = self.insts[x as usize];
        self.trail.push((x, was))?;
        self.insts[x as usize] = i;
        Ok(())
    }

    fn put_back(&mut self, x: u32, was: InstId)
        requires { x < length self.old.insts.items }
        ensures point { point_of self.new.insts.items ≡ with_inst ℕ x was (point_of self.old.insts.items) }
        ensures count { length self.new.insts.items ≡ length self.old.insts.items }
        ensures trail { self.new.trail ≡ self.old.trail }
        ensures outside { self.new.outside ≡ self.old.outside }
        ensures types { self.new.types ≡ self.old.types }
        ensures nodes { self.new.nodes ≡ self.old.nodes }
    {
        self.insts[x as usize] = was;
    }

    /// Gives variables back the insts that they had when the trail had this length. New variables stay, and are free.
    pub fn back(&mut self, trail: usize)
        requires { TrailWithin (length self.old.insts.items) self.old.trail.items }
        ensures back { (s : State) → TrailRestores s self.old → length s.trail.items ≡ trail
            → (point_of self.new.insts.items ≡ point_of s.insts.items)
            × (self.new.trail.items ≡ s.trail.items) }
        ensures count { length self.new.insts.items ≡ length self.old.insts.items }
        ensures outside { self.new.outside ≡ self.old.outside }
        ensures types { self.new.types ≡ self.old.types }
        ensures nodes { self.new.nodes ≡ self.old.nodes }
    {
        while self.trail.len() > trail {
            if let Some((x, was)) = self.trail.pop() {
                self.put_back(x, was);
            }
        }
    }

    /// Goes back to a moment: all is as it was then, but for nodes that were found.
    pub fn undo(&mut self, mark: Snapshot)
        requires trail { TrailWithin (length self.old.insts.items) self.old.trail.items }
        requires even { SameLengths self.old }
        ensures same { (s : State) → Later s self.old → SameLengths s → mark ≡ snapshot_of s → SameState s self.new }
        ensures nodes { self.new.nodes ≡ self.old.nodes }
    {
        self.back(mark.trail);
        self.insts.truncate(mark.variables);
        self.outside.truncate(mark.variables);
        self.types.truncate(mark.variables);
    }

    /// The variables occur outside too, each as often as it stands in the list.
    pub fn enter(&mut self, vars: &[u32]) -> Result<(), Memory>
        requires { NumbersBelow (length self.old.outside.items) vars.now }
        ensures insts { OnOk result (self.new.insts ≡ self.old.insts) }
        ensures trail { OnOk result (self.new.trail ≡ self.old.trail) }
        ensures types { OnOk result (self.new.types ≡ self.old.types) }
        ensures nodes { OnOk result (self.new.nodes ≡ self.old.nodes) }
        ensures len { OnOk result (length self.new.outside.items ≡ length self.old.outside.items) }
        ensures counts { OnOk result ((x : ℕ) → get_or self.new.outside.items x 0
            ≡ get_or self.old.outside.items x 0 + times_in x vars.now) }
    {
        count_up(&mut self.outside, vars)?;
        Ok(())
    }

    /// Takes back what `enter` did.
    pub fn leave(&mut self, vars: &[u32])
        requires below { NumbersBelow (length self.old.outside.items) vars.now }
        requires enough { (x : ℕ) → times_in x vars.now ≤ get_or self.old.outside.items x 0 }
        ensures insts { self.new.insts ≡ self.old.insts }
        ensures trail { self.new.trail ≡ self.old.trail }
        ensures types { self.new.types ≡ self.old.types }
        ensures nodes { self.new.nodes ≡ self.old.nodes }
        ensures len { length self.new.outside.items ≡ length self.old.outside.items }
        ensures counts { (x : ℕ) → get_or self.new.outside.items x 0 + times_in x vars.now
            ≡ get_or self.old.outside.items x 0 }
    {
        for x in vars {
            self.outside[*x as usize] -= 1;
        }
    }

    /// Whether a variable occurs outside.
    pub fn is_outside(&self, x: u32) -> bool
        requires { x < length self.now.outside.items }
        ensures { result ≡ is_outside self.now.outside.items x }
    {
        self.outside[x as usize] != 0
    }
}
