ghost use Rattle.std.specs.Prelude.{◌≡◌, ◌<◌, ℕ, List, length, map, get_or, false, nat_eq, not, ◌||◌, ◌&&◌, IfOk, OnOk};
ghost use Rattle.std.specs.List.{list_any};
ghost use Rattle.mc_program.specs.Programs.{variable_type};
ghost use Rattle.mc_source.specs.Determinism.{is_zero};
ghost use Rattle.mc_model.specs.Scheduled.{nodes, Conj, Disj, Switch};
ghost use Rattle.mc_model.specs.PlainGoals.{plain_node, plain_sched, plain_arm, arms_of};
ghost use Rattle.mc_model.specs.Stream.{is_bound};
ghost use Rattle.mc_accepted.specs.Ordered.{binds_one, builtin_most, change_at};
ghost use Rattle.mc_accepted.specs.Determined.{insts_after, excludes};
ghost use Rattle.mc_accepted.specs.MergedArms.{takes_constants};
ghost use Rattle.mc_insts.specs.Graphs.{count_of};
ghost use Rattle.mc_procs.specs.Named.{ChangesNamed, Named, NamedIn, EachNamed, EachArmNamed};
ghost use Rattle.mc_procs.specs.Procedures.{insts_of};
ghost use Rattle.mc_det.specs.Pruned.{then_reached};
ghost use Rattle.mc_det.specs.code.Points.{insts_in, undone};
ghost use Rattle.mc_det.specs.code.Walks.{bounds_in, Ready};
ghost use Rattle.mc_det.specs.code.Prunes.{Counted, HasCounted, is_free_outside, InDeclared, Keeps, IsNode, IsGoal, IsWithin, IsBeside, IsThen, never_declared};

use crate::mark::taken;
use crate::outside::Outside;
use crate::point::{Point, emptied};
use crate::symbols::allows;
use crate::variables::{variables_of, variables_of_all};
use mc_base::{Memory, Row};
use mc_model::inst::InstId;
use mc_model::sched::{Arm, GoalNode, Sched};
use mc_procs::Procs;
use mc_program::builtin::Builtin;
use mc_program::ty::Ty;
use mc_source::det::Most;
use std::alloc::Global;

/// A walk that prunes a body's goals: the insts at the point where it is, how often each variable occurs outside the goal
/// at hand, and room for what changes found and for the variables of goals.
#[derive(Drop)]
pub(crate) struct Pruning {
    pub(crate) point: Point,
    pub(crate) outside: Outside,
    pub(crate) found: Vec<(u32, InstId)>,
    pub(crate) all: Vec<u32>,
    pub(crate) own: Vec<u32>,
}

/// A then part that is marked; behind a condition that never ends it is not pruned.
fn unprune(then_part: &mut GoalNode, never: bool)
    ensures { plain_node then_part.new ≡ then_reached never (plain_node then_part.old) }
{
    then_part.pruned = both(then_part.pruned, !never);
}

/// Whether one of two holds.
fn either(a: bool, b: bool) -> bool
    ensures { result ≡ a || b }
{
    a || b
}

/// Whether both of two hold.
fn both(a: bool, b: bool) -> bool
    ensures { result ≡ a && b }
{
    a && b
}

/// Whether a procedure is declared to have no answer; a number past the end is no procedure.
fn never_answers(procs: &Procs, k: u32) -> bool
    ensures { result ≡ never_declared procs.now k }
{
    if k >= procs.count() {
        return false;
    }
    match procs.get(k).declared {
        Some(d) => d.most == Most::Zero,
        None => false,
    }
}

/// Whether a builtin has no answer.
fn never_applies(op: Builtin) -> bool
    ensures { result ≡ is_zero (builtin_most op) }
{
    match op {
        Builtin::Error => true,
        _ => false,
    }
}

/// Whether an inst allows the constants of builtin types: it is `ground`, `unique` or `dead`.
fn takes_constants(procs: &Procs, i: InstId) -> bool
    ensures { result ≡ takes_constants (insts_of procs.now i) }
{
    procs.fit();
    is_whole(i)
}

/// Whether an inst is one of `ground`, `unique` and `dead`.
fn is_whole(i: InstId) -> bool
    ensures { result ≡ nat_eq i 1 || (nat_eq i 2 || nat_eq i 3) }
{
    i == 1 || i == 2 || i == 3
}

/// The inst of a variable after changes, which was this one before; of one that stands twice among them the first place
/// counts.
fn inst_after(changes: &[(u32, InstId)], x: u32, before: InstId) -> InstId
    ensures { result ≡ change_at x changes.now before }
{
    for change in changes {
        if change.0 == x {
            return change.1;
        }
    }
    before
}

impl Pruning {
    /// Whether a variable is free at the point and occurs outside, and these changes bind it.
    fn is_given(&self, changes: &[(u32, InstId)], x: u32) -> bool
        ensures { result ≡ (nat_eq (insts_in self.now.point x) 0 && not (nat_eq (get_or self.now.outside x 0) 0))
            && is_bound (change_at x changes.now (insts_in self.now.point x)) }
    {
        let before = self.point.get(x);
        before == 0 && self.outside.has(x) && inst_after(changes, x, before) != 0
    }

    /// Whether one of these changes binds a variable that is free at the point and occurs outside.
    fn one_given(&self, changes: &[(u32, InstId)]) -> bool
        ensures { result ≡ list_any (λ change. is_free_outside self.now.point self.now.outside change
            && is_bound (change_at change.0 changes.now (insts_in self.now.point change.0))) changes.now }
    {
        for change in changes {
            if self.is_given(changes, change.0) {
                return true;
            }
        }
        false
    }

    /// Whether the point after a deconstruction is unreachable: the inst excludes the symbol.
    fn never_takes(&self, alloc: Global, procs: &Procs, x: u32, symbol: u32) -> Result<bool, Memory>
        requires { insts_in self.now.point x < count_of procs.now.insts }
        ensures { IfOk result (λ never. InDeclared procs.now
            (λ S. never ≡ excludes S (λ y. variable_type y) (insts_in self.now.point x) symbol)) }
    {
        Ok(!allows(alloc, procs, self.point.get(x), symbol)?)
    }

    /// Enters the changes of a goal; what each of them found is put behind what was found before.
    fn enter(
        &mut self,
        changes: &Row<(u32, InstId)>,
        found: &mut Vec<(u32, InstId)>,
        procs: &Procs,
        types: &[Ty],
    ) -> Result<(), Memory>
        requires ready { Ready procs.now types.now self.old.point }
        requires named { ChangesNamed (bounds_in procs.now (length types.now)) changes.now }
        ensures ready { OnOk result (Ready procs.now types.now self.new.point) }
        ensures insts { OnOk result (insts_in self.new.point
            ≡ (λ x. change_at x changes.now (insts_in self.old.point x))) }
        ensures found { OnOk result (undone found.new.items self.new.point
            ≡ undone found.old.items self.old.point) }
        ensures outside { self.new.outside ≡ self.old.outside }
    {
        self.point.enter(changes.as_slice(), found)
    }

    /// Whether a goal binds a variable that occurs outside it.
    fn binds_outside(&self, goal: &GoalNode, procs: &Procs, types: &[Ty]) -> bool
        requires count { length self.now.outside ≡ length types.now }
        requires named { Named (bounds_in procs.now (length types.now)) (plain_node goal.now) }
        ensures { (Q : List ℕ) → Counted Q self.now.outside → result ≡ binds_one Q (insts_in self.now.point)
            (insts_after (plain_node goal.now) (insts_in self.now.point)) }
    {
        let _ = (procs.count(), types.len());
        self.one_given(goal.changes.as_slice())
    }
}

impl Pruning {
    /// Prunes a goal and its parts, which occur beside what is outside, and tells whether the point after it is
    /// unreachable: it is pruned where that point is reachable and it binds nothing outside.
    #[tactic(auto, using(crate::proofs::Naming::sched_named, crate::proofs::Naming::ready_same, crate::proofs::Counting::count_same))]
    #[cycle(prune)]
    pub(crate) fn prune(
        &mut self,
        alloc: Global,
        goal: &mut GoalNode,
        procs: &Procs,
        types: &[Ty],
    ) -> Result<bool, Memory>
        requires ready { Ready procs.now types.now self.old.point }
        requires count { length self.old.outside ≡ length types.now }
        requires named { Named (bounds_in procs.now (length types.now)) (plain_node goal.old) }
        ensures keeps { OnOk result (Keeps self.old self.new) }
        ensures changes { OnOk result (goal.new.changes ≡ goal.old.changes) }
        ensures pruned { IfOk result
            (IsNode procs.now types.now self.old (plain_node goal.old) (plain_node goal.new)) }
    {
        let binds = self.binds_outside(goal, procs, types);
        let never_ends = self.prune_sched(alloc, &mut goal.goal, procs, types)?;
        goal.pruned = !either(never_ends, binds);
        Ok(never_ends)
    }

    /// Prunes a goal's parts, and tells whether the point after it is unreachable.
    #[tactic(auto, using(crate::proofs::Naming::conj_named, crate::proofs::Naming::disj_named, crate::proofs::Naming::arms_in_named, crate::proofs::Naming::condition_named, crate::proofs::Naming::then_named, crate::proofs::Naming::else_named, crate::proofs::Naming::not_named, crate::proofs::Naming::some_named, crate::proofs::Naming::ready_same, crate::proofs::Counting::count_same))]
    #[cycle(prune)]
    fn prune_sched(
        &mut self,
        alloc: Global,
        goal: &mut Sched,
        procs: &Procs,
        types: &[Ty],
    ) -> Result<bool, Memory>
        requires ready { Ready procs.now types.now self.old.point }
        requires count { length self.old.outside ≡ length types.now }
        requires named { NamedIn (bounds_in procs.now (length types.now)) (plain_sched goal.old) }
        ensures keeps { OnOk result (Keeps self.old self.new) }
        ensures pruned { IfOk result
            (IsGoal procs.now types.now self.old (plain_sched goal.old) (plain_sched goal.new)) }
    {
        match goal {
            Sched::Conj(goals) => self.prune_conj(alloc, goals, procs, types),
            Sched::Disj(goals) => self.prune_disj(alloc, goals, procs, types),
            Sched::Switch(x, arms) => self.prune_arms(alloc, arms, *x, procs, types),
            Sched::Ite(_, condition, then_part, else_part) => {
                let of_then = variables_of(alloc, &mut self.own, then_part)?;
                let second = self.prune_then(alloc, then_part, condition, procs, types)?;
                let first = self.prune_beside(alloc, condition, of_then, procs, types)?;
                let third = self.prune(alloc, else_part, procs, types)?;
                unprune(then_part, first);
                Ok(both(either(first, second), third))
            }
            Sched::Not(inner) => {
                self.prune(alloc, inner, procs, types)?;
                Ok(false)
            }
            Sched::Some(_, inner) => self.prune(alloc, inner, procs, types),
            Sched::Assign(_, _) => Ok(false),
            Sched::Test(_, _) => Ok(false),
            Sched::Build(_, _, _) => Ok(false),
            Sched::Take(x, symbol, _) => self.never_takes(alloc, procs, *x, *symbol),
            Sched::Const(_, _) => Ok(false),
            Sched::TestConst(x, _) => Ok(!takes_constants(procs, self.point.get(*x))),
            Sched::Call(k, _, _) => Ok(never_answers(procs, *k)),
            Sched::Apply(op, _, _) => Ok(never_applies(*op)),
        }
    }

    /// Prunes the goals of a conjunction: each occurs beside all others.
    #[cycle(prune)]
    fn prune_conj(
        &mut self,
        alloc: Global,
        goals: &mut Row<GoalNode>,
        procs: &Procs,
        types: &[Ty],
    ) -> Result<bool, Memory>
        requires ready { Ready procs.now types.now self.old.point }
        requires count { length self.old.outside ≡ length types.now }
        requires named { EachNamed (bounds_in procs.now (length types.now)) (nodes (map plain_node
            goals.old)) }
        ensures keeps { OnOk result (Keeps self.old self.new) }
        ensures pruned { IfOk result (IsGoal procs.now types.now self.old
            (Conj (nodes (map plain_node goals.old))) (Conj (nodes (map plain_node goals.new)))) }
    {
        let all = variables_of_all(alloc, &mut self.all, goals.as_slice())?;
        self.outside.enter(all.as_slice())?;
        let mut found = emptied(alloc, &mut self.found);
        let mut nodes = taken(alloc, goals);
        let mut never_end = false;
        for n in 0..nodes.len() {
            let never_ends = self.prune_within(alloc, &mut nodes[n], procs, types)?;
            self.enter(&nodes[n].changes, &mut found, procs, types)?;
            never_end = either(never_end, never_ends);
        }
        *goals = Row::from_vec(nodes);
        self.point.undo_all(&mut found);
        self.found = found;
        self.outside.leave(all.as_slice());
        self.all = all;
        Ok(never_end)
    }

    /// Prunes the disjuncts of a disjunction: none of them occurs beside another.
    #[cycle(prune)]
    fn prune_disj(
        &mut self,
        alloc: Global,
        goals: &mut Row<GoalNode>,
        procs: &Procs,
        types: &[Ty],
    ) -> Result<bool, Memory>
        requires ready { Ready procs.now types.now self.old.point }
        requires count { length self.old.outside ≡ length types.now }
        requires named { EachNamed (bounds_in procs.now (length types.now)) (nodes (map plain_node
            goals.old)) }
        ensures keeps { OnOk result (Keeps self.old self.new) }
        ensures pruned { IfOk result (IsGoal procs.now types.now self.old
            (Disj (nodes (map plain_node goals.old))) (Disj (nodes (map plain_node goals.new)))) }
    {
        let mut nodes = taken(alloc, goals);
        let mut never_end = true;
        for n in 0..nodes.len() {
            let never_ends = self.prune(alloc, &mut nodes[n], procs, types)?;
            never_end = both(never_end, never_ends);
        }
        *goals = Row::from_vec(nodes);
        Ok(never_end)
    }

    /// Prunes the arms of a switch: none of them occurs beside another.
    #[cycle(prune)]
    fn prune_arms(
        &mut self,
        alloc: Global,
        arms: &mut Row<Arm>,
        x: u32,
        procs: &Procs,
        types: &[Ty],
    ) -> Result<bool, Memory>
        requires ready { Ready procs.now types.now self.old.point }
        requires count { length self.old.outside ≡ length types.now }
        requires named { EachArmNamed (bounds_in procs.now (length types.now)) (arms_of (map
            plain_arm arms.old)) }
        ensures keeps { OnOk result (Keeps self.old self.new) }
        ensures pruned { IfOk result (IsGoal procs.now types.now self.old
            (Switch x (arms_of (map plain_arm arms.old))) (Switch x (arms_of (map plain_arm arms.new)))) }
    {
        let mut bodies = taken(alloc, arms);
        let mut never_end = true;
        for n in 0..bodies.len() {
            let never_ends = self.prune(alloc, &mut bodies[n].body, procs, types)?;
            never_end = both(never_end, never_ends);
        }
        *arms = Row::from_vec(bodies);
        Ok(never_end)
    }

    /// Prunes a goal whose own variables were counted as outside.
    #[cycle(prune)]
    fn prune_within(
        &mut self,
        alloc: Global,
        goal: &mut GoalNode,
        procs: &Procs,
        types: &[Ty],
    ) -> Result<bool, Memory>
        requires ready { Ready procs.now types.now self.old.point }
        requires count { length self.old.outside ≡ length types.now }
        requires named { Named (bounds_in procs.now (length types.now)) (plain_node goal.old) }
        requires counted { HasCounted self.old.outside (plain_node goal.old) }
        ensures keeps { OnOk result (Keeps self.old self.new) }
        ensures changes { OnOk result (goal.new.changes ≡ goal.old.changes) }
        ensures pruned { IfOk result
            (IsWithin procs.now types.now self.old (plain_node goal.old) (plain_node goal.new)) }
    {
        let own = variables_of(alloc, &mut self.own, goal)?;
        self.outside.leave(own.as_slice());
        let never_ends = self.prune(alloc, goal, procs, types)?;
        self.outside.enter(own.as_slice())?;
        self.own = own;
        Ok(never_ends)
    }

    /// Prunes a goal that occurs beside these variables, the room of which is used again.
    #[cycle(prune)]
    fn prune_beside(
        &mut self,
        alloc: Global,
        goal: &mut GoalNode,
        beside: Vec<u32>,
        procs: &Procs,
        types: &[Ty],
    ) -> Result<bool, Memory>
        requires ready { Ready procs.now types.now self.old.point }
        requires count { length self.old.outside ≡ length types.now }
        requires named { Named (bounds_in procs.now (length types.now)) (plain_node goal.old) }
        ensures keeps { OnOk result (Keeps self.old self.new) }
        ensures pruned { IfOk result (IsBeside procs.now types.now self.old beside.items
            (plain_node goal.old) (plain_node goal.new)) }
    {
        self.outside.enter(beside.as_slice())?;
        let never_ends = self.prune(alloc, goal, procs, types)?;
        self.outside.leave(beside.as_slice());
        self.own = beside;
        Ok(never_ends)
    }

    /// Prunes a then part, which stands after the changes of its condition and beside it.
    #[cycle(prune)]
    fn prune_then(
        &mut self,
        alloc: Global,
        then_part: &mut GoalNode,
        condition: &GoalNode,
        procs: &Procs,
        types: &[Ty],
    ) -> Result<bool, Memory>
        requires ready { Ready procs.now types.now self.old.point }
        requires count { length self.old.outside ≡ length types.now }
        requires named { Named (bounds_in procs.now (length types.now)) (plain_node then_part.old) }
        requires condition { Named (bounds_in procs.now (length types.now)) (plain_node
            condition.now) }
        ensures keeps { OnOk result (Keeps self.old self.new) }
        ensures pruned { IfOk result (IsThen procs.now types.now self.old (plain_node condition.now)
            (plain_node then_part.old) (plain_node then_part.new)) }
    {
        let of_condition = variables_of(alloc, &mut self.own, condition)?;
        let mut found = Vec::new(alloc);
        self.enter(&condition.changes, &mut found, procs, types)?;
        let never_ends = self.prune_beside(alloc, then_part, of_condition, procs, types)?;
        self.point.undo(found);
        Ok(never_ends)
    }
}
