ghost use Rattle.std.specs.Prelude.{◌≡◌, ◌↔◌, ◌+◌, [], false, length, map, All, IsTrue, IfOk, OnOk};
ghost use Rattle.mc_source.specs.Determinism.{inferred, det};
ghost use Rattle.mc_model.specs.PlainGoals.{plain_node, plain_sched, plain_arm, plain_label};
ghost use Rattle.mc_model.specs.Scheduled.{Disj, node};
ghost use Rattle.mc_accepted.specs.Switched.{goals_of, openings_of};
ghost use Rattle.mc_switch.specs.code.Grouping.{AroundFits, FormedEnds, IsGrouped, disjuncts_of, nodes_of, opened_first};
ghost use Rattle.mc_switch.specs.Kept.{AreMerged, Merges, OnlyGrew};
ghost use Rattle.mc_switch.specs.code.Ends.{KeepsEnd};
ghost use Rattle.mc_switch.specs.Openings.{plain_opening_label};
ghost use Rattle.mc_switch.specs.code.Choices.{MayBe};
ghost use Rattle.mc_switch.specs.code.Groups.{plain_group, plain_groups};
ghost use Rattle.mc_switch.specs.code.Labels.{KeepsFirst, plain_opened};
ghost use Rattle.mc_switch.specs.code.Parts.{KeepsGroup, KeepsEnds, AreKept, IsGroupedOf, IsPartOf, IsArmOf, AreArmsOf, IsChosenIn};

use crate::choice::chosen;
use crate::context::VariableContext;
use crate::disjunct::Opened;
use crate::formed::{Formed, disjunction_of};
use crate::groups::{Group, split};
use crate::merging::Merger;
use crate::opening::{OpeningLabel, openings};
use mc_base::{Memory, Row, Text};
use mc_model::inst::InstId;
use mc_model::sched::{Arm, GoalNode, On, Sched};
use mc_procs::Procs;
use mc_program::value::Value;
use mc_source::det::{Det, Most};
use mc_varset::VarSet;
use std::alloc::Global;

/// The disjunction of these goals, or the switch that it is, from the insts before it. Each goal is the switch form of its
/// source, which tells what it deconstructs. The one refusal is want of memory. (Manual: Determinism, switches.)
pub fn switched(
    alloc: Global,
    procs: &mut Procs,
    merger: &mut Merger,
    around: &VariableContext,
    sources: &[GoalNode],
    goals: Vec<Formed>,
) -> Result<Sched, Memory>
    requires merged { AreMerged procs.old around.now.types.now merger.old.found }
    requires around { AroundFits procs.old around.now }
    requires many { length goals.items ≡ length sources.now }
    requires ends { All (FormedEnds procs.old around.now.types.now around.now.before.now) goals.items }
    ensures grouped { IfOk result (λ s. IsGrouped procs.new merger.new.found around.now
        (map plain_node sources.now) (nodes_of goals.items) (plain_sched s)) }
    ensures merges { OnOk result (Merges procs.new around.now.types.now merger.old.found merger.new.found) }
    ensures grew { OnlyGrew procs.old procs.new }
{
    if none_opened(alloc, sources)? {
        return disjunction_of(alloc, goals);
    }
    let disjuncts = all_opened(alloc, sources, goals)?;
    let times = openings_of(disjuncts.as_slice())?;
    let mut out = VarSet::new(alloc, around.types.len())?;
    grouped(alloc, procs, merger, around, &mut out, times, disjuncts)
}

/// Whether the first of these goals deconstructs no variable, or there is none: then they are no switch.
fn none_opened(alloc: Global, sources: &[GoalNode]) -> Result<bool, Memory>
    ensures { IfOk result (λ none. IsTrue none ↔ opened_first (map plain_node sources.now) ≡ []) }
{
    if sources.is_empty() {
        return Ok(true);
    }
    let opens = openings(alloc, &sources[0])?;
    Ok(opens.is_empty())
}

/// Goals with what their sources deconstruct.
fn all_opened<'a>(
    alloc: Global,
    sources: &'a [GoalNode],
    goals: Vec<Formed>,
) -> Result<Vec<Opened<'a>>, Memory>
    requires { length goals.items ≡ length sources.now }
    ensures disjuncts { IfOk result (λ os. map plain_opened os.items
        ≡ disjuncts_of (map plain_node sources.now) (nodes_of goals.items)) }
    ensures first { IfOk result (λ os. All KeepsFirst os.items) }
    ensures ends { IfOk result (λ os. AreKept goals.items os.items) }
{
    let mut disjuncts = Vec::with_capacity(alloc, goals.len())?;
    for goal in goals {
        let k = disjuncts.len();
        let Formed { node, never_ends } = goal;
        disjuncts.push(Opened::of(alloc, &sources[k], node, never_ends)?)?;
    }
    Ok(disjuncts)
}

/// How often disjuncts deconstruct a variable. More often than there are numbers finds no room.
fn openings_of(disjuncts: &[Opened]) -> Result<usize, Memory>
    ensures { IfOk result (λ n. n ≡ openings_of (map plain_opened disjuncts.now)) }
{
    let mut count = 0;
    let mut n = disjuncts.len();
    while n > 0 {
        n -= 1;
        count = plus(disjuncts[n].opens.len(), count)?;
    }
    Ok(count)
}

fn plus(more: u32, count: usize) -> Result<usize, Memory>
    ensures { IfOk result (λ n. n ≡ more + count) }
{
    match count.checked_add(more as usize) {
        Some(n) => Ok(n),
        None => Err(Memory),
    }
}

/// Disjuncts as a disjunction, or as a switch where a variable is chosen; those that are left out are not, and no more than
/// so many are taken one behind another.
#[cycle(grouped)]
fn grouped(
    alloc: Global,
    procs: &mut Procs,
    merger: &mut Merger,
    around: &VariableContext,
    out: &mut VarSet,
    times: usize,
    disjuncts: Vec<Opened>,
) -> Result<Sched, Memory>
    requires merged { AreMerged procs.old around.now.types.now merger.old.found }
    requires around { AroundFits procs.old around.now }
    requires out { length out.old ≡ length around.now.before.now }
    requires first { All KeepsFirst disjuncts.items }
    requires ends { All (KeepsEnd procs.old around.now) disjuncts.items }
    ensures grouped { IfOk result (λ s. IsGroupedOf procs.new merger.new.found around.now out.old times
        disjuncts.entry.items (plain_sched s)) }
    ensures out { OnOk result (out.new ≡ out.old) }
    ensures merges { OnOk result (Merges procs.new around.now.types.now merger.old.found merger.new.found) }
    ensures grew { OnlyGrew procs.old procs.new }
{
    if times == 0 {
        return disjunction(alloc, disjuncts);
    }
    match chosen_around(alloc, procs, around, out, disjuncts.as_slice())? {
        Some(x) => {
            let groups = split(alloc, x, disjuncts)?;
            out.insert(x);
            let arms = arms(alloc, procs, merger, around, out, times - 1, groups)?;
            out.remove(x);
            Ok(Sched::Switch(x, arms))
        }
        None => disjunction(alloc, disjuncts),
    }
}

/// The variable on which disjuncts are switched there where these are left out.
fn chosen_around(
    alloc: Global,
    procs: &Procs,
    around: &VariableContext,
    out: &VarSet,
    disjuncts: &[Opened],
) -> Result<Option<u32>, Memory>
    requires around { AroundFits procs.now around.now }
    requires out { length out.now ≡ length around.now.before.now }
    requires first { All KeepsFirst disjuncts.now }
    ensures chosen { IfOk result (λ x. IsChosenIn procs.now around.now out.now disjuncts.now x) }
    ensures may_be { IfOk result (λ x. MayBe around.now.before.now out.now disjuncts.now x) }
{
    chosen(
        alloc,
        procs,
        around.types.as_slice(),
        around.before,
        out,
        disjuncts,
    )
}

/// The arms of groups.
#[cycle(grouped)]
fn arms(
    alloc: Global,
    procs: &mut Procs,
    merger: &mut Merger,
    around: &VariableContext,
    out: &mut VarSet,
    times: usize,
    groups: Vec<Group>,
) -> Result<Row<Arm>, Memory>
    requires merged { AreMerged procs.old around.now.types.now merger.old.found }
    requires around { AroundFits procs.old around.now }
    requires out { length out.old ≡ length around.now.before.now }
    requires first { All KeepsGroup groups.items }
    requires ends { All (KeepsEnds procs.old around.now) groups.items }
    ensures arms { IfOk result (λ row. AreArmsOf procs.new merger.new.found around.now out.old times
        (plain_groups groups.entry.items) (map plain_arm row)) }
    ensures out { OnOk result (out.new ≡ out.old) }
    ensures merges { OnOk result (Merges procs.new around.now.types.now merger.old.found merger.new.found) }
    ensures grew { OnlyGrew procs.old procs.new }
{
    let mut arms = Vec::with_capacity(alloc, groups.len())?;
    for group in groups {
        let arm = arm(alloc, procs, merger, around, out, times, group)?;
        arms.push(arm)?;
    }
    Row::of(arms)
}

/// The arm of a group.
#[cycle(grouped)]
fn arm(
    alloc: Global,
    procs: &mut Procs,
    merger: &mut Merger,
    around: &VariableContext,
    out: &mut VarSet,
    times: usize,
    group: Group,
) -> Result<Arm, Memory>
    requires merged { AreMerged procs.old around.now.types.now merger.old.found }
    requires around { AroundFits procs.old around.now }
    requires out { length out.old ≡ length around.now.before.now }
    requires first { KeepsGroup group }
    requires ends { KeepsEnds procs.old around.now group }
    ensures arm { IfOk result (λ arm. IsArmOf procs.new merger.new.found around.now out.old times
        (plain_group group.entry) (plain_arm arm)) }
    ensures out { OnOk result (out.new ≡ out.old) }
    ensures merges { OnOk result (Merges procs.new around.now.types.now merger.old.found merger.new.found) }
    ensures grew { OnlyGrew procs.old procs.new }
{
    let Group { label, disjuncts } = group;
    let on = on(alloc, label)?;
    let body = part(alloc, procs, merger, around, out, times, disjuncts)?;
    Ok(Arm { on, body })
}

/// An arm's goal: the one disjunct as it is, or several, looked at again.
#[cycle(grouped)]
fn part(
    alloc: Global,
    procs: &mut Procs,
    merger: &mut Merger,
    around: &VariableContext,
    out: &mut VarSet,
    times: usize,
    mut disjuncts: Vec<Opened>,
) -> Result<GoalNode, Memory>
    requires merged { AreMerged procs.old around.now.types.now merger.old.found }
    requires around { AroundFits procs.old around.now }
    requires out { length out.old ≡ length around.now.before.now }
    requires first { All KeepsFirst disjuncts.items }
    requires ends { All (KeepsEnd procs.old around.now) disjuncts.items }
    ensures part { IfOk result (λ goal. IsPartOf procs.new merger.new.found around.now out.old times
        disjuncts.entry.items (plain_node goal)) }
    ensures out { OnOk result (out.new ≡ out.old) }
    ensures merges { OnOk result (Merges procs.new around.now.types.now merger.old.found merger.new.found) }
    ensures grew { OnlyGrew procs.old procs.new }
{
    if disjuncts.len() == 1 {
        let only = disjuncts.remove(0);
        return Ok(only.into_goal());
    }
    let changes = merger.changes(alloc, procs, around, disjuncts.as_slice())?;
    let goal = grouped(alloc, procs, merger, around, out, times, disjuncts)?;
    Ok(of_several(goal, changes))
}

/// The goal of an arm of several disjuncts. Its determinism is told later.
fn of_several(goal: Sched, changes: Row<(u32, InstId)>) -> GoalNode
    ensures { plain_node result ≡ node (plain_sched goal) changes (inferred det) false }
{
    GoalNode {
        goal,
        changes,
        det: Det {
            can_fail: false,
            most: Most::One,
            committed: false,
        },
        pruned: false,
    }
}

/// Disjuncts as a disjunction.
fn disjunction(alloc: Global, disjuncts: Vec<Opened>) -> Result<Sched, Memory>
    ensures { IfOk result (λ s. plain_sched s ≡ Disj (goals_of (map plain_opened disjuncts.entry.items))) }
{
    let mut goals = Vec::with_capacity(alloc, disjuncts.len())?;
    for disjunct in disjuncts {
        goals.push(disjunct.into_goal())?;
    }
    let goals = Row::of(goals)?;
    Ok(Sched::Disj(goals))
}

/// What an arm of this label is for.
fn on(alloc: Global, label: OpeningLabel) -> Result<On, Memory>
    ensures { IfOk result (λ on. plain_label on ≡ plain_opening_label label.entry) }
{
    match label {
        OpeningLabel::Symbol(symbol) => Ok(On::Symbol(symbol)),
        OpeningLabel::Int(n) => Ok(On::Const(Value::Int(n))),
        OpeningLabel::Char(c) => Ok(On::Const(Value::Char(c))),
        OpeningLabel::Str(bytes) => {
            let text = Text::new(alloc, bytes)?;
            Ok(On::Const(Value::Str(text)))
        }
    }
}
