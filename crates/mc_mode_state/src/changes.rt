ghost use Rattle.std.specs.Prelude.{◌≡◌, ◌<◌, ◌∷◌, ◌++◌, [], ℕ, false, length, map, drop, IfOk, OnOk};
ghost use Rattle.std.specs.Bool.{OnTrue};
ghost use Rattle.std.specs.List.{All};
ghost use Rattle.std.specs.List.Sorted.{IsNonDecreasingBy};
ghost use Rattle.mc_source.specs.Determinism.{inferred, det};
ghost use Rattle.mc_model.specs.Scheduled.{node, nodes, node_then, no_nodes};
ghost use Rattle.mc_model.specs.PlainGoals.{plain_node, plain_sched};
ghost use Rattle.mc_accepted.specs.Arranged.{alone, changes, changes_from, changing, with_change};
ghost use Rattle.mc_accepted.specs.NodeOracle.{NodeOracle, of_nodes, other_node};
ghost use Rattle.mc_mode_state.specs.States.{point_of, undo, TrailWithin, TrailRestores};
ghost use Rattle.mc_mode_state.specs.Answers.{end_of};
ghost use Rattle.mc_mode_state.specs.declared.state.State.{State};

use crate::part::Part;
use crate::state::State;
use mc_base::{Memory, Row};
use mc_model::inst::InstId;
use mc_model::sched::{GoalNode, Sched};
use mc_source::det::{Det, Most};
use std::alloc::Global;

/// The one goal of a row that holds no other.
fn only(row: Row<GoalNode>) -> GoalNode
    requires { length row ≡ 1 }
    ensures { row ≡ result ∷ [] }
{
    let mut row = row;
    match row.pop() {
        Some(goal) => goal,
        None => unreachable!(),
    }
}

/// Whether insts that were replaced stand in order of variables.
fn are_in_order(replaced: &[(u32, InstId)]) -> bool
    ensures { OnTrue result (IsNonDecreasingBy (λ e. e.0) replaced.now) }
{
    let mut last = 0;
    for e in replaced {
        if e.0 < last {
            return false;
        }
        last = e.0;
    }
    true
}

/// A goal that changes these insts, without what is told of it later.
fn changing(goal: Sched, changes: Row<(u32, InstId)>) -> GoalNode
    ensures { plain_node result ≡ node (plain_sched goal) changes (inferred det) false }
{
    GoalNode {
        goal,
        changes,
        det: Det {
            can_fail: false,
            most: Most::One,
            committed: false,
        },
        pruned: false,
    }
}

impl State {
    /// The insts that were replaced since the trail had this length, in order of variables, and of one variable the first
    /// first.
    fn replaced_since(&self, alloc: Global, trail: usize) -> Result<Vec<(u32, InstId)>, Memory>
        requires { TrailWithin (length self.now.insts.items) self.now.trail.items }
        ensures within { IfOk result (λ replaced.
            All (λ e. e.0 < length self.now.insts.items) replaced.items) }
        ensures sorted { IfOk result (λ replaced. IsNonDecreasingBy (λ e. e.0) replaced.items) }
        ensures same { IfOk result (λ replaced. (b : ℕ → ℕ) (x : ℕ)
            → undo replaced.items b x ≡ undo (drop trail self.now.trail.items) b x) }
    {
        let start = trail.min(self.trail.len());
        let mut replaced = Vec::from_slice(alloc, &self.trail[start..])?;
        replaced.sort_by_key(|(x, _)| *x)?;
        Ok(replaced)
    }

    /// Tells a variable that has another inst than this, with the inst that it has.
    fn tell(&self, changes: &mut Vec<(u32, InstId)>, x: u32, was: InstId) -> Result<(), Memory>
        requires { x < length self.now.insts.items }
        ensures { OnOk result (changes.new.items ≡ changes.old.items
            ++ with_change x (other_node was (point_of self.now.insts.items x)) []) }
    {
        let inst = self.inst(x);
        if inst != was {
            changes.push((x, inst))?;
        }
        Ok(())
    }

    /// What variables have other insts than before these were replaced: each with the inst that it has now, in order of
    /// variables.
    fn changes_of(
        &self,
        alloc: Global,
        replaced: &[(u32, InstId)],
    ) -> Result<Row<(u32, InstId)>, Memory>
        requires within { All (λ e. e.0 < length self.now.insts.items) replaced.now }
        requires sorted { IsNonDecreasingBy (λ e. e.0) replaced.now }
        ensures { IfOk result (λ row. row ≡ changes_from other_node 0 (length self.now.insts.items)
            (undo replaced.now (point_of self.now.insts.items)) (point_of self.now.insts.items)) }
    {
        let mut changes = Vec::with_capacity(alloc, replaced.len())?;
        // Variables below this one are done: of several insts of one variable that were replaced, the first counts.
        let mut next: usize = 0;
        for (x, was) in replaced {
            if (*x as usize) < next {
                continue;
            }
            self.tell(&mut changes, *x, *was)?;
            next = *x as usize + 1;
        }
        let row = Row::of(changes)?;
        Ok(row)
    }

    /// The same, where one inst was replaced.
    fn change_of(&self, alloc: Global, x: u32, was: InstId) -> Result<Row<(u32, InstId)>, Memory>
        requires { x < length self.now.insts.items }
        ensures { IfOk result (λ row. row ≡ changes_from other_node 0 (length self.now.insts.items)
            (undo ((x, was) ∷ []) (point_of self.now.insts.items)) (point_of self.now.insts.items)) }
    {
        let inst = self.inst(x);
        if inst == was {
            return Ok(Row::new(alloc));
        }
        let changes = vec![in alloc; (x, inst)]?;
        Ok(Row::from_vec(changes))
    }

    /// What variables have other insts than when the trail had this length: each with the inst that it has now, in order of
    /// variables.
    pub fn changes_since(&self, alloc: Global, trail: usize) -> Result<Row<(u32, InstId)>, Memory>
        requires { TrailWithin (length self.now.insts.items) self.now.trail.items }
        ensures { IfOk result (λ row. (s : State) → TrailRestores s self.now → length s.trail.items ≡ trail
            → row ≡ changes_from other_node 0 (length self.now.insts.items) (point_of s.insts.items)
            (point_of self.now.insts.items)) }
    {
        let start = trail.min(self.trail.len());
        let latest = &self.trail[start..];
        if latest.len() == 1 {
            let row = self.change_of(alloc, latest[0].0, latest[0].1)?;
            return Ok(row);
        }
        if are_in_order(latest) {
            let row = self.changes_of(alloc, latest)?;
            return Ok(row);
        }
        let replaced = self.replaced_since(alloc, trail)?;
        let row = self.changes_of(alloc, replaced.as_slice())?;
        Ok(row)
    }

    /// What a goal keeps of the changes since the trail had this length: none where the point after it is unreachable.
    fn changes_before(
        &self,
        alloc: Global,
        trail: usize,
        reachable: bool,
    ) -> Result<Row<(u32, InstId)>, Memory>
        requires { TrailWithin (length self.now.insts.items) self.now.trail.items }
        ensures { IfOk result (λ row. (s : State) → TrailRestores s self.now → length s.trail.items ≡ trail
            → row ≡ changes other_node (length self.now.insts.items) (point_of s.insts.items)
            (end_of reachable self.now)) }
    {
        if reachable {
            self.changes_since(alloc, trail)
        } else {
            Ok(Row::new(alloc))
        }
    }

    /// A goal with what it changed since the trail had this length. Where the point after it is unreachable it keeps none.
    pub fn keeping(
        &self,
        alloc: Global,
        goal: Sched,
        trail: usize,
        reachable: bool,
    ) -> Result<GoalNode, Memory>
        requires { TrailWithin (length self.now.insts.items) self.now.trail.items }
        ensures { IfOk result (λ node. (s : State) → TrailRestores s self.now → length s.trail.items ≡ trail
            → plain_node node ≡ changing other_node (length self.now.insts.items)
            (point_of s.insts.items) (end_of reachable self.now) (plain_sched goal)) }
    {
        let changes = self.changes_before(alloc, trail, reachable)?;
        Ok(changing(goal, changes))
    }

    /// One goal, with what it changed since the trail had this length.
    pub fn one(
        &self,
        alloc: Global,
        goal: Sched,
        trail: usize,
        reachable: bool,
    ) -> Result<Part, Memory>
        requires { TrailWithin (length self.now.insts.items) self.now.trail.items }
        ensures goals { IfOk result (λ part. (s : State) → TrailRestores s self.now
            → length s.trail.items ≡ trail
            → nodes (map plain_node part.goals.items) ≡ node_then
            (changing other_node (length self.now.insts.items) (point_of s.insts.items)
            (end_of reachable self.now) (plain_sched goal)) no_nodes) }
        ensures reachable { IfOk result (λ part. part.reachable ≡ reachable) }
        ensures freshened { IfOk result (λ part. part.freshened.items ≡ []) }
    {
        let changes = self.changes_before(alloc, trail, reachable)?;
        let goals = vec![in alloc; changing(goal, changes)]?;
        Ok(Part {
            goals,
            reachable,
            freshened: Vec::new(alloc),
        })
    }

    /// One goal stands alone. Others are a conjunction, with what it changed since the trail had this length.
    pub fn alone(
        &self,
        alloc: Global,
        goals: Vec<GoalNode>,
        trail: usize,
        reachable: bool,
    ) -> Result<GoalNode, Memory>
        requires { TrailWithin (length self.now.insts.items) self.now.trail.items }
        ensures { IfOk result (λ goal. (s : State) → TrailRestores s self.now → length s.trail.items ≡ trail
            → (C : NodeOracle) → plain_node goal ≡ alone (of_nodes C) (length self.now.insts.items)
            (point_of s.insts.items) (end_of reachable self.now) (nodes (map plain_node goals.items))) }
    {
        let row = Row::of(goals)?;
        if row.len() == 1 {
            return Ok(only(row));
        }
        let goal = self.keeping(alloc, Sched::Conj(row), trail, reachable)?;
        Ok(goal)
    }
}
