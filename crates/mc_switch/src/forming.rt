ghost use Rattle.std.specs.Prelude.{◌≡◌, true, length, map, IfOk, OnOk};
ghost use Rattle.std.specs.List.{list_all};
ghost use Rattle.mc_model.specs.Scheduled.{nodes};
ghost use Rattle.mc_model.specs.PlainGoals.{plain_node, plain_sched, plain_arm, arms_of};
ghost use Rattle.mc_accepted.specs.Determined.{insts_after};
ghost use Rattle.mc_accepted.specs.Ordered.{change_at};
ghost use Rattle.mc_model.specs.Scheduled.{Disj};
ghost use Rattle.mc_procs.specs.Named.{Named, NamedIn, EachNamed, EachArmNamed, ChangesNamed};
ghost use Rattle.mc_det.specs.code.Points.{undone};
ghost use Rattle.mc_switch.specs.code.Grouping.{nodes_of};
ghost use Rattle.mc_switch.specs.Kept.{OnlyGrew};
ghost use Rattle.mc_switch.specs.Types.{inst_in, InstsFit};
ghost use Rattle.mc_det.specs.code.Walks.{bounds_in};
ghost use Rattle.mc_switch.specs.code.Forms.{Stands, Returns, Enters, IsGoal, IsNode, AreRun, EachIs, AreArms};

use crate::context::VariableContext;
use crate::formed::{Formed, disjunction_of};
use crate::grouping::switched;
use crate::merging::Merger;
use crate::parts::{
    FormedArms, FormedGoal, FormedNodes, apply_part, both, build_part, call_part, conj_part,
    constant_part, either, ite_part, not_part, reached, some_part, switch_part, take_part,
    test_part, with_changes,
};
use mc_base::{Memory, Row};
use mc_det::{Point, copy_changes, copy_on, emptied};
use mc_model::inst::InstId;
use mc_model::sched::{Arm, GoalNode, Sched};
use mc_procs::Procs;
use mc_program::ty::Ty;
use std::alloc::Global;

/// A walk over a body that makes its switch form: the insts at the point where it is, those that were merged, and room for
/// what changes found.
#[derive(Drop)]
pub(crate) struct SwitchDetection {
    pub(crate) point: Point,
    pub(crate) merger: Merger,
    pub(crate) found: Vec<(u32, InstId)>,
}

impl SwitchDetection {
    /// Enters the changes of a goal; what each of them found is put behind what was found before.
    fn enter(
        &mut self,
        changes: &Row<(u32, InstId)>,
        found: &mut Vec<(u32, InstId)>,
        procs: &Procs,
        types: &Row<Ty>,
    ) -> Result<(), Memory>
        requires ready { InstsFit procs.now types.now self.old.point }
        requires named { ChangesNamed (bounds_in procs.now (length types.now)) changes.now }
        ensures enters { OnOk result (Enters procs.now types.now self.old self.new) }
        ensures insts { OnOk result (inst_in self.new.point
            ≡ (λ x. change_at x changes.now (inst_in self.old.point x))) }
        ensures found { OnOk result (undone found.new.items self.new.point
            ≡ undone found.old.items self.old.point) }
        ensures room { self.new.found ≡ self.old.found }
    {
        self.point.enter(changes.as_slice(), found)
    }

    /// The insts after a goal that changes these.
    fn insts_after(
        &mut self,
        alloc: Global,
        changes: &Row<(u32, InstId)>,
        procs: &Procs,
        types: &Row<Ty>,
    ) -> Result<Vec<InstId>, Memory>
        requires ready { InstsFit procs.now types.now self.old.point }
        requires named { ChangesNamed (bounds_in procs.now (length types.now)) changes.now }
        ensures same { OnOk result (self.new ≡ self.old) }
        ensures fit { IfOk result (λ after. InstsFit procs.now types.now after.items) }
        ensures insts { IfOk result (λ after. inst_in after.items
            ≡ (λ x. change_at x changes.now (inst_in self.old.point x))) }
    {
        let mut found = Vec::new(alloc);
        self.enter(changes, &mut found, procs, types)?;
        let after = Vec::from_slice(alloc, self.point.as_slice())?;
        self.point.undo(found);
        Ok(after)
    }

    /// A disjunction whose disjuncts are in switch form, or the switch that it is.
    fn disjunction(
        &mut self,
        alloc: Global,
        sources: &[GoalNode],
        goals: Vec<Formed>,
        changes: &Row<(u32, InstId)>,
        procs: &mut Procs,
        types: &Row<Ty>,
    ) -> Result<FormedGoal, Memory>
        requires stands { Stands procs.old types.now self.old }
        requires changes { ChangesNamed (bounds_in procs.old (length types.now)) changes.now }
        requires named { EachNamed (bounds_in procs.old (length types.now)) (nodes (map plain_node sources.now)) }
        requires goals { EachIs procs.old self.old.merger.found types.now (inst_in self.old.point) true (map plain_node sources.now) goals.items }
        ensures returns { OnOk result (Returns procs.new types.now self.old self.new) }
        ensures formed { IfOk result (λ part. IsGoal procs.new self.new.merger.found types.now (inst_in self.old.point) true
            (λ x. change_at x changes.now (inst_in self.old.point x)) (Disj (nodes (map plain_node sources.now))) part) }
        ensures grew { OnlyGrew procs.old procs.new }
    {
        let never_ends = all_never_end(goals.as_slice());
        let after = self.insts_after(alloc, changes, procs, types)?;
        let around = VariableContext {
            types,
            before: self.point.as_slice(),
            after: after.as_slice(),
        };
        let goal = switched(alloc, procs, &mut self.merger, &around, sources, goals)?;
        Ok(FormedGoal { goal, never_ends })
    }
}

/// Whether the point after each of these goals is unreachable.
fn all_never_end(goals: &[Formed]) -> bool
    ensures { result ≡ list_all (λ f. f.never_ends) goals.now }
{
    for goal in goals {
        if !goal.never_ends {
            return false;
        }
    }
    true
}

/// A disjunction as it is.
fn plain_disjunction(alloc: Global, goals: Vec<Formed>) -> Result<FormedGoal, Memory>
    ensures goal { IfOk result (λ part. plain_sched part.goal ≡ Disj (nodes (nodes_of goals.items))) }
    ensures never { IfOk result (λ part. part.never_ends ≡ list_all (λ f. f.never_ends) goals.items) }
{
    let never_ends = all_never_end(goals.as_slice());
    let goal = disjunction_of(alloc, goals)?;
    Ok(FormedGoal { goal, never_ends })
}

impl SwitchDetection {
    /// A copy of a goal in switch form; as it is where it stands within a switch already.
    #[cycle(form)]
    pub(crate) fn formed(
        &mut self,
        alloc: Global,
        goal: &GoalNode,
        forms: bool,
        procs: &mut Procs,
        types: &Row<Ty>,
    ) -> Result<Formed, Memory>
        requires stands { Stands procs.old types.now self.old }
        requires named { Named (bounds_in procs.old (length types.now)) (plain_node goal.now) }
        ensures returns { OnOk result (Returns procs.new types.now self.old self.new) }
        ensures formed { IfOk result (λ part. IsNode procs.new self.new.merger.found types.now (inst_in self.old.point) forms
            (plain_node goal.now) part) }
        ensures grew { OnlyGrew procs.old procs.new }
    {
        let part = self.formed_goal(alloc, &goal.goal, &goal.changes, forms, procs, types)?;
        let changes = copy_changes(alloc, &goal.changes)?;
        Ok(with_changes(part, changes, goal.det, goal.pruned))
    }

    /// A copy of a goal without what is kept of it, after which these changes hold.
    #[tactic(auto, using(mc_det::proofs::Naming::conj_named, mc_det::proofs::Naming::disj_named, mc_det::proofs::Naming::arms_in_named, mc_det::proofs::Naming::condition_named, mc_det::proofs::Naming::then_named, mc_det::proofs::Naming::else_named, mc_det::proofs::Naming::not_named, mc_det::proofs::Naming::some_named))]
    #[cycle(form)]
    fn formed_goal(
        &mut self,
        alloc: Global,
        goal: &Sched,
        changes: &Row<(u32, InstId)>,
        forms: bool,
        procs: &mut Procs,
        types: &Row<Ty>,
    ) -> Result<FormedGoal, Memory>
        requires stands { Stands procs.old types.now self.old }
        requires changes { ChangesNamed (bounds_in procs.old (length types.now)) changes.now }
        requires named { NamedIn (bounds_in procs.old (length types.now)) (plain_sched goal.now) }
        ensures returns { OnOk result (Returns procs.new types.now self.old self.new) }
        ensures formed { IfOk result (λ part. IsGoal procs.new self.new.merger.found types.now (inst_in self.old.point) forms
            (λ x. change_at x changes.now (inst_in self.old.point x)) (plain_sched goal.now) part) }
        ensures grew { OnlyGrew procs.old procs.new }
    {
        match goal {
            Sched::Conj(goals) => {
                let parts = self.formed_conj(alloc, goals.as_slice(), forms, procs, types)?;
                Ok(conj_part(parts))
            }
            Sched::Disj(goals) => {
                let parts = self.formed_disj(alloc, goals.as_slice(), forms, procs, types)?;
                if forms {
                    self.disjunction(alloc, goals.as_slice(), parts, changes, procs, types)
                } else {
                    plain_disjunction(alloc, parts)
                }
            }
            Sched::Switch(x, arms) => {
                let parts = self.copied_arms(alloc, arms.as_slice(), procs, types)?;
                Ok(switch_part(*x, parts))
            }
            Sched::Ite(vars, condition, then_part, else_part) => {
                let first = self.formed(alloc, condition, forms, procs, types)?;
                let second = self.formed_then(alloc, then_part, condition, forms, procs, types)?;
                let third = self.formed(alloc, else_part, forms, procs, types)?;
                ite_part(alloc, vars, first, second, third)
            }
            Sched::Not(inner) => {
                let part = self.formed(alloc, inner, forms, procs, types)?;
                not_part(alloc, part)
            }
            Sched::Some(vars, inner) => {
                let part = self.formed(alloc, inner, forms, procs, types)?;
                some_part(alloc, vars, part)
            }
            Sched::Assign(x, y) => Ok(reached(Sched::Assign(*x, *y))),
            Sched::Test(x, y) => Ok(reached(Sched::Test(*x, *y))),
            Sched::Build(x, symbol, args) => build_part(alloc, *x, *symbol, args),
            Sched::Take(x, symbol, args) => {
                take_part(alloc, procs, self.point.get(*x), *x, *symbol, args)
            }
            Sched::Const(x, value) => constant_part(alloc, *x, value),
            Sched::TestConst(x, value) => { test_part(alloc, procs, self.point.get(*x), *x, value) }
            Sched::Call(k, args, implied) => call_part(alloc, procs, *k, args, implied),
            Sched::Apply(op, inputs, outputs) => apply_part(alloc, *op, inputs, outputs),
        }
    }

    /// The goals of a conjunction: each stands after those before it.
    #[cycle(form)]
    fn formed_conj(
        &mut self,
        alloc: Global,
        goals: &[GoalNode],
        forms: bool,
        procs: &mut Procs,
        types: &Row<Ty>,
    ) -> Result<FormedNodes, Memory>
        requires stands { Stands procs.old types.now self.old }
        requires named { EachNamed (bounds_in procs.old (length types.now)) (nodes (map plain_node goals.now)) }
        ensures returns { OnOk result (Returns procs.new types.now self.old self.new) }
        ensures formed { IfOk result (λ parts. AreRun procs.new self.new.merger.found types.now (inst_in self.old.point) forms
            (nodes (map plain_node goals.now)) parts) }
        ensures grew { OnlyGrew procs.old procs.new }
    {
        let mut found = emptied(alloc, &mut self.found);
        let mut nodes = Vec::with_capacity(alloc, goals.len())?;
        let mut never_end = false;
        for goal in goals {
            let part = self.formed(alloc, goal, forms, procs, types)?;
            self.enter(&goal.changes, &mut found, procs, types)?;
            never_end = either(never_end, part.never_ends);
            nodes.push(part.node)?;
        }
        self.point.undo_all(&mut found);
        self.found = found;
        Ok(FormedNodes {
            nodes: Row::of(nodes)?,
            never_end,
        })
    }

    /// The disjuncts of a disjunction, each from the same point.
    #[cycle(form)]
    fn formed_disj(
        &mut self,
        alloc: Global,
        goals: &[GoalNode],
        forms: bool,
        procs: &mut Procs,
        types: &Row<Ty>,
    ) -> Result<Vec<Formed>, Memory>
        requires stands { Stands procs.old types.now self.old }
        requires named { EachNamed (bounds_in procs.old (length types.now)) (nodes (map plain_node goals.now)) }
        ensures returns { OnOk result (Returns procs.new types.now self.old self.new) }
        ensures formed { IfOk result (λ parts. EachIs procs.new self.new.merger.found types.now (inst_in self.old.point) forms
            (map plain_node goals.now) parts.items) }
        ensures grew { OnlyGrew procs.old procs.new }
    {
        let mut parts = Vec::with_capacity(alloc, goals.len())?;
        for goal in goals {
            let part = self.formed(alloc, goal, forms, procs, types)?;
            parts.push(part)?;
        }
        Ok(parts)
    }

    /// The arms of a switch that stands already, as they are.
    #[cycle(form)]
    fn copied_arms(
        &mut self,
        alloc: Global,
        arms: &[Arm],
        procs: &mut Procs,
        types: &Row<Ty>,
    ) -> Result<FormedArms, Memory>
        requires stands { Stands procs.old types.now self.old }
        requires named { EachArmNamed (bounds_in procs.old (length types.now)) (arms_of (map plain_arm arms.now)) }
        ensures returns { OnOk result (Returns procs.new types.now self.old self.new) }
        ensures formed { IfOk result (λ parts. AreArms procs.new self.new.merger.found types.now (inst_in self.old.point)
            (arms_of (map plain_arm arms.now)) parts) }
        ensures grew { OnlyGrew procs.old procs.new }
    {
        let mut copies = Vec::with_capacity(alloc, arms.len())?;
        let mut never_end = true;
        for arm in arms {
            let part = self.formed(alloc, &arm.body, false, procs, types)?;
            never_end = both(never_end, part.never_ends);
            copies.push(Arm {
                on: copy_on(alloc, &arm.on)?,
                body: part.node,
            })?;
        }
        Ok(FormedArms {
            arms: Row::of(copies)?,
            never_end,
        })
    }

    /// A then part, which stands after the changes of its condition.
    #[cycle(form)]
    fn formed_then(
        &mut self,
        alloc: Global,
        then_part: &GoalNode,
        condition: &GoalNode,
        forms: bool,
        procs: &mut Procs,
        types: &Row<Ty>,
    ) -> Result<Formed, Memory>
        requires stands { Stands procs.old types.now self.old }
        requires named { Named (bounds_in procs.old (length types.now)) (plain_node then_part.now) }
        requires condition { Named (bounds_in procs.old (length types.now)) (plain_node condition.now) }
        ensures returns { OnOk result (Returns procs.new types.now self.old self.new) }
        ensures formed { IfOk result (λ part. IsNode procs.new self.new.merger.found types.now
            (insts_after (plain_node condition.now) (inst_in self.old.point)) forms (plain_node then_part.now) part) }
        ensures grew { OnlyGrew procs.old procs.new }
    {
        let mut found = Vec::new(alloc);
        self.enter(&condition.changes, &mut found, procs, types)?;
        let part = self.formed(alloc, then_part, forms, procs, types)?;
        self.point.undo(found);
        Ok(part)
    }
}
