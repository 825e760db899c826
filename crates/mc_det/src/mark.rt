ghost use Rattle.std.specs.Prelude.{◌≡◌, ◌<◌, ◌^◌, ◌||◌, List, length, map, not, false, if◌then◌else◌, IfOk, OnOk};
ghost use Rattle.mc_program.specs.Values.{plain_value};
ghost use Rattle.mc_source.specs.Determinism.{inferred, row_of, conj, pruned, semidet};
ghost use Rattle.mc_source.specs.declared.det.Det.{Det};
ghost use Rattle.mc_model.specs.Scheduled.{nodes, Conj, Disj, Switch, Take};
ghost use Rattle.mc_model.specs.PlainGoals.{plain_node, plain_sched, plain_arm, arms_of};
ghost use Rattle.mc_accepted.specs.Determined.{knows_constant, then_tests};
ghost use Rattle.mc_procs.specs.Named.{Named, NamedIn, EachNamed, EachArmNamed};
ghost use Rattle.mc_det_constraints.specs.Least.{assigned};
ghost use Rattle.mc_accepted.specs.Inferred.{join};
ghost use Rattle.mc_det.specs.Marked.{marked};
ghost use Rattle.mc_det.specs.code.Facts.{known_in};
ghost use Rattle.mc_det.specs.code.Walks.{bounds_in, Ready};
ghost use Rattle.mc_det.specs.code.Marks.{Stays, NodeMarked, ThenMarked, IsTold, all_told, any_told, arms_told};

use crate::copies::copy_on;
use crate::facts::{Fact, has_constant, last_fact};
use crate::point::emptied;
use crate::walk::{
    DET, ERRONEOUS, FAILURE, SEMIDET, Walk, builtin_determinism, misses_symbol, take_determinism,
    uncommitted,
};
use mc_base::{Memory, Row};
use mc_model::sched::{Arm, GoalNode, Sched};
use mc_procs::Procs;
use mc_program::ty::Ty;
use mc_program::value::Value;
use mc_source::det::{Det, Most};
use std::alloc::Global;
use std::mem;

/// The determinism of a conjunction of marked goals.
fn all_told(goals: &[GoalNode]) -> Det
    ensures { result ≡ inferred (all_told (nodes (map plain_node goals.now))) }
{
    let mut det = DET;
    let mut n = goals.len();
    while n > 0 {
        n -= 1;
        det = goals[n].det.conj(det);
    }
    det
}

/// The determinism of a disjunction of marked goals.
fn any_told(goals: &[GoalNode]) -> Det
    ensures { result ≡ inferred (any_told (nodes (map plain_node goals.now))) }
{
    let mut det = FAILURE;
    let mut n = goals.len();
    while n > 0 {
        n -= 1;
        det = goals[n].det.disj(det);
    }
    det
}

/// The determinism of a procedure; a number past the end is no procedure.
pub(crate) fn assigned(dets: &[Det], k: u32) -> Det
    ensures { result ≡ assigned dets.now k }
{
    let k = k as usize;
    if k < dets.len() { dets[k] } else { DET }
}

/// The determinism of a call, after which implied arguments are tested or not.
fn called(dets: &[Det], k: u32, is_tested: bool) -> Det
    ensures { result ≡ inferred (if is_tested then conj (row_of (assigned dets.now k)) semidet
        else row_of (assigned dets.now k)) }
{
    let det = assigned(dets, k);
    if is_tested {
        det.conj(SEMIDET)
    } else {
        row(det)
    }
}

/// A determinism's row in the tables: one that is committed has many answers there.
fn row(d: Det) -> Det
    ensures { result ≡ inferred (row_of d) }
{
    Det {
        can_fail: d.can_fail,
        most: if d.committed { Most::Many } else { d.most },
        committed: false,
    }
}

/// The determinism of two arms.
fn either(a: Det, b: Det) -> Det
    ensures { result ≡ inferred (join (row_of a) (row_of b)) }
{
    let first = row(a);
    let second = row(b);
    uncommitted(
        first.can_fail || second.can_fail,
        most(first.most, second.most),
    )
}

/// The greater of two.
fn most(a: Most, b: Most) -> Most
    ensures { result ≡ Rattle.mc_source.specs.Determinism.greater a b }
{
    match a {
        Most::Zero => b,
        Most::One if b == Most::Many => Most::Many,
        Most::One => Most::One,
        Most::Many => Most::Many,
    }
}

/// The determinism of marked arms.
fn arms_told(arms: &[Arm]) -> Det
    ensures { result ≡ inferred (arms_told (arms_of (map plain_arm arms.now))) }
{
    let mut det = ERRONEOUS;
    let mut n = arms.len();
    while n > 0 {
        n -= 1;
        det = either(arms[n].body.det, det);
    }
    det
}

/// The determinism of a call, after which implied arguments are tested.
fn call_told(dets: &[Det], k: u32, implied: &Row<u32>) -> Det
    ensures { result ≡ inferred (then_tests implied.now (row_of (assigned dets.now k))) }
{
    called(dets, k, !implied.is_empty())
}

/// The determinism of a goal that is pruned or isn't.
fn goal_told(det: Det, is_pruned: bool) -> Det
    ensures { result ≡ (if is_pruned then inferred (pruned (row_of det)) else det) }
{
    if is_pruned { det.pruned() } else { det }
}

/// The determinism of a switch that misses a symbol or doesn't, over its arms.
fn switch_told(is_missed: bool, arms: Det) -> Det
    ensures { result ≡ record { can_fail = is_missed || arms.can_fail; most = arms.most; committed = false } }
{
    uncommitted(is_missed || arms.can_fail, arms.most)
}

/// Takes the elements of a row, which is then empty.
pub(crate) fn taken<T: Drop>(alloc: Global, row: &mut Row<T>) -> Vec<T>
    ensures items { result.items ≡ row.old }
    ensures small { length row.old < 2 ^ 32 }
{
    mem::replace(row, Row::new(alloc)).into_vec()
}

impl Walk {
    /// The determinism of a deconstruction at this point.
    fn take_told(
        &self,
        alloc: Global,
        procs: &Procs,
        types: &[Ty],
        x: u32,
        symbol: u32,
        args: &Row<u32>,
    ) -> Result<Det, Memory>
        requires ready { Ready procs.now types.now self.now.point }
        requires there { x < length types.now }
        ensures { IfOk result (λ det. (dets : List Det) → IsTold procs.now types.now dets self.now
            (Take x symbol args.now) (Take x symbol args.now) det) }
    {
        let known = self.known.as_slice();
        let listed = args.as_slice();
        take_determinism(alloc, procs, types, &self.point, known, x, symbol, listed)
    }

    /// The determinism of a test of a constant.
    fn test_told(&self, x: u32, value: &Value) -> Det
        ensures { result ≡ inferred (record {
          can_fail = not (knows_constant (known_in self.now.known.items x) (plain_value value.now));
          most = Most.One;
        }) }
    {
        let can_fail = !has_constant(self.known.as_slice(), x, value);
        uncommitted(can_fail, Most::One)
    }
}

impl Walk {
    /// Marks a goal and its parts, where procedures have these determinisms.
    #[tactic(auto, using(crate::proofs::Naming::sched_named))]
    #[cycle(mark)]
    pub(crate) fn mark(
        &mut self,
        alloc: Global,
        goal: &mut GoalNode,
        dets: &[Det],
        procs: &Procs,
        types: &[Ty],
    ) -> Result<(), Memory>
        requires ready { Ready procs.now types.now self.old.point }
        requires named { Named (bounds_in procs.now (length types.now)) (plain_node goal.old) }
        ensures stays { OnOk result (Stays self.old self.new) }
        ensures marked { OnOk result
            (NodeMarked procs.now types.now dets.now self.old (plain_node goal.old) (plain_node goal.new)) }
    {
        let det = self.mark_sched(alloc, &mut goal.goal, dets, procs, types)?;
        goal.det = goal_told(det, goal.pruned);
        Ok(())
    }

    /// Marks a goal's parts, and tells its determinism.
    #[tactic(auto, using(crate::proofs::Naming::conj_named, crate::proofs::Naming::disj_named, crate::proofs::Naming::arms_in_named, crate::proofs::Naming::condition_named, crate::proofs::Naming::then_named, crate::proofs::Naming::else_named, crate::proofs::Naming::not_named, crate::proofs::Naming::some_named, crate::proofs::Naming::ready_same))]
    #[cycle(mark)]
    fn mark_sched(
        &mut self,
        alloc: Global,
        goal: &mut Sched,
        dets: &[Det],
        procs: &Procs,
        types: &[Ty],
    ) -> Result<Det, Memory>
        requires ready { Ready procs.now types.now self.old.point }
        requires named { NamedIn (bounds_in procs.now (length types.now)) (plain_sched goal.old) }
        ensures stays { OnOk result (Stays self.old self.new) }
        ensures told { IfOk result
            (IsTold procs.now types.now dets.now self.old (plain_sched goal.old) (plain_sched goal.new)) }
    {
        match goal {
            Sched::Conj(goals) => self.mark_conj(alloc, goals, dets, procs, types),
            Sched::Disj(goals) => self.mark_disj(alloc, goals, dets, procs, types),
            Sched::Switch(x, arms) => self.mark_arms(alloc, arms, *x, dets, procs, types),
            Sched::Ite(_, condition, then_part, else_part) => {
                self.mark_then(alloc, then_part, condition, dets, procs, types)?;
                self.mark(alloc, condition, dets, procs, types)?;
                self.mark(alloc, else_part, dets, procs, types)?;
                Ok(condition.det.ite(then_part.det, else_part.det))
            }
            Sched::Not(inner) => {
                self.mark(alloc, inner, dets, procs, types)?;
                Ok(inner.det.negated())
            }
            Sched::Some(_, inner) => {
                self.mark(alloc, inner, dets, procs, types)?;
                Ok(row(inner.det))
            }
            Sched::Assign(_, _) => Ok(DET),
            Sched::Test(_, _) => Ok(SEMIDET),
            Sched::Build(_, _, _) => Ok(DET),
            Sched::Take(x, symbol, args) => {
                self.take_told(alloc, procs, types, *x, *symbol, args)
            }
            Sched::Const(_, _) => Ok(DET),
            Sched::TestConst(x, value) => Ok(self.test_told(*x, value)),
            Sched::Call(k, _, implied) => Ok(call_told(dets, *k, implied)),
            Sched::Apply(op, _, _) => Ok(builtin_determinism(*op)),
        }
    }

    /// Marks the goals of a conjunction. A goal's changes are entered before the next one, and at the end all of them are
    /// undone.
    #[cycle(mark)]
    fn mark_conj(
        &mut self,
        alloc: Global,
        goals: &mut Row<GoalNode>,
        dets: &[Det],
        procs: &Procs,
        types: &[Ty],
    ) -> Result<Det, Memory>
        requires ready { Ready procs.now types.now self.old.point }
        requires named { EachNamed (bounds_in procs.now (length types.now)) (nodes (map plain_node
            goals.old)) }
        ensures stays { OnOk result (Stays self.old self.new) }
        ensures told { IfOk result (IsTold procs.now types.now dets.now self.old
            (Conj (nodes (map plain_node goals.old))) (Conj (nodes (map plain_node goals.new)))) }
    {
        let mut nodes = taken(alloc, goals);
        let mut found = emptied(alloc, &mut self.found);
        for n in 0..nodes.len() {
            self.mark(alloc, &mut nodes[n], dets, procs, types)?;
            self.enter(&nodes[n], &mut found, procs, types)?;
        }
        self.point.undo_all(&mut found);
        self.found = found;
        let det = all_told(nodes.as_slice());
        *goals = Row::from_vec(nodes);
        Ok(det)
    }

    /// Marks the disjuncts of a disjunction.
    #[cycle(mark)]
    fn mark_disj(
        &mut self,
        alloc: Global,
        goals: &mut Row<GoalNode>,
        dets: &[Det],
        procs: &Procs,
        types: &[Ty],
    ) -> Result<Det, Memory>
        requires ready { Ready procs.now types.now self.old.point }
        requires named { EachNamed (bounds_in procs.now (length types.now)) (nodes (map plain_node
            goals.old)) }
        ensures stays { OnOk result (Stays self.old self.new) }
        ensures told { IfOk result (IsTold procs.now types.now dets.now self.old
            (Disj (nodes (map plain_node goals.old))) (Disj (nodes (map plain_node goals.new)))) }
    {
        let mut nodes = taken(alloc, goals);
        for n in 0..nodes.len() {
            self.mark(alloc, &mut nodes[n], dets, procs, types)?;
        }
        let det = any_told(nodes.as_slice());
        *goals = Row::from_vec(nodes);
        Ok(det)
    }

    /// Marks the arms of a switch: in each of them it is known what the variable is.
    #[cycle(mark)]
    fn mark_arms(
        &mut self,
        alloc: Global,
        arms: &mut Row<Arm>,
        x: u32,
        dets: &[Det],
        procs: &Procs,
        types: &[Ty],
    ) -> Result<Det, Memory>
        requires ready { Ready procs.now types.now self.old.point }
        requires there { x < length types.now }
        requires named { EachArmNamed (bounds_in procs.now (length types.now)) (arms_of (map
            plain_arm arms.old)) }
        ensures stays { OnOk result (Stays self.old self.new) }
        ensures told { IfOk result (IsTold procs.now types.now dets.now self.old
            (Switch x (arms_of (map plain_arm arms.old))) (Switch x (arms_of (map plain_arm arms.new)))) }
    {
        let is_missed = misses_symbol(alloc, procs, types, &self.point, x, arms.as_slice())?;
        let mut bodies = taken(alloc, arms);
        for n in 0..bodies.len() {
            let on = copy_on(alloc, &bodies[n].on)?;
            self.known.push(Fact { variable: x, on })?;
            self.mark(alloc, &mut bodies[n].body, dets, procs, types)?;
            last_fact(&mut self.known);
        }
        let told = arms_told(bodies.as_slice());
        *arms = Row::from_vec(bodies);
        Ok(switch_told(is_missed, told))
    }

    /// Marks a then part, which stands after the changes of its condition.
    #[cycle(mark)]
    fn mark_then(
        &mut self,
        alloc: Global,
        then_part: &mut GoalNode,
        condition: &GoalNode,
        dets: &[Det],
        procs: &Procs,
        types: &[Ty],
    ) -> Result<(), Memory>
        requires ready { Ready procs.now types.now self.old.point }
        requires named { Named (bounds_in procs.now (length types.now)) (plain_node then_part.old) }
        requires condition { Named (bounds_in procs.now (length types.now)) (plain_node
            condition.now) }
        ensures stays { OnOk result (Stays self.old self.new) }
        ensures marked { OnOk result (ThenMarked procs.now types.now dets.now self.old
            (plain_node condition.now) (plain_node then_part.old) (plain_node then_part.new)) }
    {
        let mut found = Vec::new(alloc);
        self.enter(condition, &mut found, procs, types)?;
        self.mark(alloc, then_part, dets, procs, types)?;
        self.point.undo(found);
        Ok(())
    }
}
