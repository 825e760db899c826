ghost use Rattle.std.specs.Prelude.{◌≡◌, ◌++◌, ◌∷◌, ◌<◌, [], length, map, false, if◌then◌else◌, IfOk, OnOk};
ghost use Rattle.mc_program.specs.Values.{plain_value};
ghost use Rattle.mc_source.specs.Determinism.{inferred, det, semidet};
ghost use Rattle.mc_model.specs.Scheduled.{nodes, Take};
ghost use Rattle.mc_model.specs.PlainGoals.{plain_node, plain_sched, plain_arm, arms_of};
ghost use Rattle.mc_accepted.specs.Determined.{take_determinism, builtin_determinism, knows_constant, allowed_in, misses, insts_after};
ghost use Rattle.mc_procs.specs.Named.{Named, NamedIn, EachNamed, EachArmNamed};
ghost use Rattle.mc_det_constraints.specs.declared.constraint.Step.TheVariants as T;
ghost use Rattle.mc_det.specs.Bodies.{fixed, constraint, constraint_in, constraint_all, constraint_any, constraint_arms};
ghost use Rattle.mc_det.specs.code.Points.{insts_in, undone};
ghost use Rattle.mc_det.specs.code.Facts.{known_in};
ghost use Rattle.mc_det.specs.code.Walks.{typed, bounds_in, Ready, IsAmong, missed, times, InSystems, PutSteps, Puts};

use crate::copies::copy_on;
use crate::facts::{Fact, has_constant, has_symbol, last_fact};
use crate::point::{Point, emptied};
use crate::symbols::{allows, is_alone, misses};
use crate::tested::is_tested;
use mc_base::Memory;
use mc_det_constraints::Step;
use mc_model::inst::InstId;
use mc_model::sched::{Arm, GoalNode, Sched};
use mc_procs::Procs;
use mc_program::builtin::Builtin;
use mc_program::ty::Ty;
use mc_program::value::Value;
use mc_source::det::{Det, Most};
use std::alloc::Global;

/// A walk over a body, which puts down its steps: the insts at the point where it is, what the arms around it tell, the
/// steps so far, and room for what changes found.
#[derive(Drop)]
pub(crate) struct Walk {
    pub(crate) point: Point,
    pub(crate) known: Vec<Fact>,
    pub(crate) steps: Vec<Step>,
    pub(crate) found: Vec<(u32, InstId)>,
}

pub(crate) const DET: Det = Det {
    can_fail: false,
    most: Most::One,
    committed: false,
};

pub(crate) const SEMIDET: Det = Det {
    can_fail: true,
    most: Most::One,
    committed: false,
};

pub(crate) const FAILURE: Det = Det {
    can_fail: true,
    most: Most::Zero,
    committed: false,
};

pub(crate) const ERRONEOUS: Det = Det {
    can_fail: false,
    most: Most::Zero,
    committed: false,
};

/// A determinism that isn't committed.
pub(crate) fn uncommitted(can_fail: bool, most: Most) -> Det
    ensures { result ≡ record { can_fail = can_fail; most = most; committed = false } }
{
    Det {
        can_fail,
        most,
        committed: false,
    }
}

/// The declared determinism of a builtin.
pub(crate) fn builtin_determinism(op: Builtin) -> Det
    ensures { result ≡ inferred (builtin_determinism op) }
{
    match op {
        Builtin::IntLess
        | Builtin::IntGreater
        | Builtin::IntAtMost
        | Builtin::IntAtLeast
        | Builtin::StringToInt
        | Builtin::CharFromInt
        | Builtin::CharIsDigit => uncommitted(true, Most::One),
        Builtin::Error => uncommitted(false, Most::Zero),
        _ => uncommitted(false, Most::One),
    }
}

/// The determinism of a deconstruction at a point.
pub(crate) fn take_determinism(
    alloc: Global,
    procs: &Procs,
    types: &[Ty],
    point: &Point,
    known: &[Fact],
    x: u32,
    symbol: u32,
    args: &[u32],
) -> Result<Det, Memory>
    requires ready { Ready procs.now types.now point.now }
    requires there { x < length types.now }
    ensures { IfOk result (λ d. InSystems procs.now (λ S. d ≡ inferred (take_determinism S (typed types.now)
        (insts_in point.now) (known_in known.now) x symbol args.now))) }
{
    let inst = point.get(x);
    let is_sure = has_symbol(known, x, symbol)
        || is_alone(alloc, procs, &types[x as usize], inst, symbol)?;
    let can_fail = is_tested(point, args) || !is_sure;
    if allows(alloc, procs, inst, symbol)? {
        return Ok(uncommitted(can_fail, Most::One));
    }
    Ok(uncommitted(can_fail, Most::Zero))
}

/// Whether a switch misses a symbol that type and inst allow at a point.
pub(crate) fn misses_symbol(
    alloc: Global,
    procs: &Procs,
    types: &[Ty],
    point: &Point,
    x: u32,
    arms: &[Arm],
) -> Result<bool, Memory>
    requires ready { Ready procs.now types.now point.now }
    requires there { x < length types.now }
    ensures { IfOk result (λ b. InSystems procs.now (λ S. b ≡ misses S (typed types.now)
        (allowed_in S (typed types.now) (typed types.now x) (insts_in point.now x)) (arms_of (map plain_arm arms.now)))) }
{
    misses(alloc, procs, &types[x as usize], point.get(x), arms)
}

/// That a goal of a list names what is there, where each of them does. It only says so.
pub(crate) fn is_named(procs: &Procs, types: &[Ty], goals: &[GoalNode], goal: &GoalNode)
    requires all { EachNamed (bounds_in procs.now (length types.now)) (nodes (map plain_node goals.now)) }
    requires among { IsAmong goals.now goal.now }
    ensures { Named (bounds_in procs.now (length types.now)) (plain_node goal.now) }
{
    let _ = (procs.count(), types.len(), goals.len(), goal.pruned);
}

/// That the goal of an arm of a list names what is there, where each of them does. It only says so.
pub(crate) fn arm_is_named(procs: &Procs, types: &[Ty], arms: &[Arm], arm: &Arm)
    requires all { EachArmNamed (bounds_in procs.now (length types.now)) (arms_of (map plain_arm arms.now)) }
    requires among { IsAmong arms.now arm.now }
    ensures { Named (bounds_in procs.now (length types.now)) (plain_node arm.now.body) }
{
    let _ = (procs.count(), types.len(), arms.len(), arm.body.pruned);
}

impl Walk {
    /// Puts a step.
    fn put(&mut self, step: Step) -> Result<(), Memory>
        ensures { OnOk result (PutSteps self.old self.new (step ∷ [])) }
    {
        self.steps.push(step)?;
        Ok(())
    }

    /// Puts a step so many times.
    fn put_times(&mut self, count: usize, step: Step) -> Result<(), Memory>
        ensures { OnOk result (PutSteps self.old self.new (times count step)) }
    {
        for _ in 0..count {
            self.steps.push(step)?;
        }
        Ok(())
    }

    /// Enters the changes of a goal; what each of them found is put behind what was found before.
    pub(crate) fn enter(
        &mut self,
        goal: &GoalNode,
        found: &mut Vec<(u32, InstId)>,
        procs: &Procs,
        types: &[Ty],
    ) -> Result<(), Memory>
        requires ready { Ready procs.now types.now self.old.point }
        requires named { Named (bounds_in procs.now (length types.now)) (plain_node goal.now) }
        ensures ready { OnOk result (Ready procs.now types.now self.new.point) }
        ensures insts { OnOk result (insts_in self.new.point ≡ insts_after (plain_node goal.now) (insts_in self.old.point)) }
        ensures found { OnOk result (undone found.new.items self.new.point ≡ undone found.old.items self.old.point) }
        ensures known { OnOk result (self.new.known.items ≡ self.old.known.items) }
        ensures steps { OnOk result (self.new.steps.items ≡ self.old.steps.items) }
    {
        self.point.enter(goal.changes.as_slice(), found)
    }

    /// Puts a fixed determinism.
    fn put_fixed(&mut self, d: Det) -> Result<(), Memory>
        ensures { OnOk result (PutSteps self.old self.new (T.Fixed d ∷ [])) }
    {
        self.put(Step::Fixed(d))
    }

    /// The steps of a deconstruction.
    fn take(
        &mut self,
        alloc: Global,
        procs: &Procs,
        types: &[Ty],
        x: u32,
        symbol: u32,
        args: &[u32],
    ) -> Result<(), Memory>
        requires ready { Ready procs.now types.now self.old.point }
        requires there { x < length types.now }
        ensures { OnOk result (Puts procs.now self.old self.new
            (λ S b known. constraint_in S (typed types.now) b known (Take x symbol args.now))) }
    {
        let known = self.known.as_slice();
        let d = take_determinism(alloc, procs, types, &self.point, known, x, symbol, args)?;
        self.put(Step::Fixed(d))
    }

    /// A switch that misses a symbol has a step more.
    fn put_misses(
        &mut self,
        alloc: Global,
        procs: &Procs,
        types: &[Ty],
        x: u32,
        arms: &[Arm],
    ) -> Result<(), Memory>
        requires ready { Ready procs.now types.now self.old.point }
        requires there { x < length types.now }
        ensures { OnOk result (Puts procs.now self.old self.new (λ S b known. missed S (typed types.now) b x (arms_of (map plain_arm arms.now)))) }
    {
        let is_missed = misses_symbol(alloc, procs, types, &self.point, x, arms)?;
        if is_missed {
            return self.put(Step::Misses);
        }
        Ok(())
    }

    /// The steps of a test of a constant.
    fn test_constant(&mut self, x: u32, value: &Value) -> Result<(), Memory>
        ensures { OnOk result (PutSteps self.old self.new
            (fixed (if knows_constant (known_in self.old.known.items x) (plain_value value.now) then det else semidet))) }
    {
        let can_fail = !has_constant(self.known.as_slice(), x, value);
        self.put(Step::Fixed(uncommitted(can_fail, Most::One)))
    }

    /// The steps of a goal.
    #[tactic(auto, using(crate::proofs::Naming::sched_named))]
    #[cycle(walk)]
    pub(crate) fn goal(
        &mut self,
        alloc: Global,
        goal: &GoalNode,
        procs: &Procs,
        types: &[Ty],
    ) -> Result<(), Memory>
        requires ready { Ready procs.now types.now self.old.point }
        requires named { Named (bounds_in procs.now (length types.now)) (plain_node goal.now) }
        ensures { OnOk result (Puts procs.now self.old self.new
            (λ S b known. constraint S (typed types.now) b known (plain_node goal.now))) }
    {
        self.sched(alloc, &goal.goal, procs, types)?;
        if goal.pruned {
            return self.put(Step::Pruned);
        }
        Ok(())
    }

    #[tactic(auto, using(crate::proofs::Naming::conj_named, crate::proofs::Naming::disj_named, crate::proofs::Naming::arms_in_named, crate::proofs::Naming::condition_named, crate::proofs::Naming::then_named, crate::proofs::Naming::else_named, crate::proofs::Naming::not_named, crate::proofs::Naming::some_named, crate::proofs::Naming::ready_same))]
    #[cycle(walk)]
    fn sched(
        &mut self,
        alloc: Global,
        goal: &Sched,
        procs: &Procs,
        types: &[Ty],
    ) -> Result<(), Memory>
        requires ready { Ready procs.now types.now self.old.point }
        requires named { NamedIn (bounds_in procs.now (length types.now)) (plain_sched goal.now) }
        ensures { OnOk result (Puts procs.now self.old self.new
            (λ S b known. constraint_in S (typed types.now) b known (plain_sched goal.now))) }
    {
        match goal {
            Sched::Conj(goals) => self.conj(alloc, goals.as_slice(), procs, types),
            Sched::Disj(goals) => self.disj(alloc, goals.as_slice(), procs, types),
            Sched::Switch(x, arms) => {
                self.arms(alloc, arms.as_slice(), *x, procs, types)?;
                self.put_misses(alloc, procs, types, *x, arms.as_slice())
            }
            Sched::Ite(_, condition, then_part, else_part) => {
                self.goal(alloc, condition, procs, types)?;
                self.then(alloc, then_part, condition, procs, types)?;
                self.goal(alloc, else_part, procs, types)?;
                self.put(Step::Ite)
            }
            Sched::Not(inner) => {
                self.goal(alloc, inner, procs, types)?;
                self.put(Step::Not)
            }
            Sched::Some(_, inner) => self.goal(alloc, inner, procs, types),
            Sched::Assign(_, _) => self.put_fixed(DET),
            Sched::Test(_, _) => self.put_fixed(SEMIDET),
            Sched::Build(_, _, _) => self.put_fixed(DET),
            Sched::Take(x, symbol, args) => {
                self.take(alloc, procs, types, *x, *symbol, args.as_slice())
            }
            Sched::Const(_, _) => self.put_fixed(DET),
            Sched::TestConst(x, value) => self.test_constant(*x, value),
            Sched::Call(k, _, implied) => self.put(Step::Call(*k, !implied.is_empty())),
            Sched::Apply(op, _, _) => self.put_fixed(builtin_determinism(*op)),
        }
    }

    /// The steps of a conjunction. A goal's changes are entered before the next one, and at the end all of them are undone.
    #[cycle(walk)]
    fn conj(
        &mut self,
        alloc: Global,
        goals: &[GoalNode],
        procs: &Procs,
        types: &[Ty],
    ) -> Result<(), Memory>
        requires ready { Ready procs.now types.now self.old.point }
        requires named { EachNamed (bounds_in procs.now (length types.now)) (nodes (map plain_node goals.now)) }
        ensures { OnOk result (Puts procs.now self.old self.new
            (λ S b known. constraint_all S (typed types.now) b known (nodes (map plain_node goals.now)))) }
    {
        let mut found = emptied(alloc, &mut self.found);
        for goal in goals {
            is_named(procs, types, goals, goal);
            self.goal(alloc, goal, procs, types)?;
            self.enter(goal, &mut found, procs, types)?;
        }
        self.point.undo_all(&mut found);
        self.found = found;
        self.put_fixed(DET)?;
        self.put_times(goals.len(), Step::Conj)
    }

    #[cycle(walk)]
    fn disj(
        &mut self,
        alloc: Global,
        goals: &[GoalNode],
        procs: &Procs,
        types: &[Ty],
    ) -> Result<(), Memory>
        requires ready { Ready procs.now types.now self.old.point }
        requires named { EachNamed (bounds_in procs.now (length types.now)) (nodes (map plain_node goals.now)) }
        ensures { OnOk result (Puts procs.now self.old self.new
            (λ S b known. constraint_any S (typed types.now) b known (nodes (map plain_node goals.now)))) }
    {
        for goal in goals {
            is_named(procs, types, goals, goal);
            self.goal(alloc, goal, procs, types)?;
        }
        self.put_fixed(FAILURE)?;
        self.put_times(goals.len(), Step::Disj)
    }

    /// The steps of arms: in each of them it is known what the variable is.
    #[cycle(walk)]
    fn arms(
        &mut self,
        alloc: Global,
        arms: &[Arm],
        x: u32,
        procs: &Procs,
        types: &[Ty],
    ) -> Result<(), Memory>
        requires ready { Ready procs.now types.now self.old.point }
        requires named { EachArmNamed (bounds_in procs.now (length types.now)) (arms_of (map plain_arm arms.now)) }
        ensures { OnOk result (Puts procs.now self.old self.new
            (λ S b known. constraint_arms S (typed types.now) b known x (arms_of (map plain_arm arms.now)))) }
    {
        for arm in arms {
            arm_is_named(procs, types, arms, arm);
            let on = copy_on(alloc, &arm.on)?;
            self.known.push(Fact { variable: x, on })?;
            self.goal(alloc, &arm.body, procs, types)?;
            last_fact(&mut self.known);
        }
        self.put_fixed(ERRONEOUS)?;
        self.put_times(arms.len(), Step::Arms)
    }

    /// The steps of a then part, which stands after the changes of its condition.
    #[cycle(walk)]
    fn then(
        &mut self,
        alloc: Global,
        then_part: &GoalNode,
        condition: &GoalNode,
        procs: &Procs,
        types: &[Ty],
    ) -> Result<(), Memory>
        requires ready { Ready procs.now types.now self.old.point }
        requires named { Named (bounds_in procs.now (length types.now)) (plain_node then_part.now) }
        requires condition { Named (bounds_in procs.now (length types.now)) (plain_node condition.now) }
        ensures { OnOk result (Puts procs.now self.old self.new
            (λ S b known. constraint S (typed types.now) (insts_after (plain_node condition.now) b) known (plain_node then_part.now))) }
    {
        let mut found = Vec::new(alloc);
        self.enter(condition, &mut found, procs, types)?;
        self.goal(alloc, then_part, procs, types)?;
        self.point.undo(found);
        Ok(())
    }
}
