ghost use Rattle.std.specs.Prelude.{◌≡◌, ◌++◌, ◌∷◌, ℕ, List, [], length, map, not, true, IfOk, OnOk, if◌then◌else◌, OnErr};
ghost use Rattle.mc_program.specs.Programs.{TypeTerm, Source};
ghost use Rattle.mc_model.specs.Scheduled.{nodes, no_nodes, Conj, Ite, Not, Exists};
ghost use Rattle.mc_model.specs.PlainGoals.{plain_node, plain_sched};
ghost use Rattle.mc_model.specs.Stream.{is_bound};
ghost use Rattle.mc_accepted.specs.Arranged.{Point, Declared, ascending, binds};
ghost use Rattle.mc_accepted.specs.NodeOracle.{NodeOracle, of_nodes};
ghost use Rattle.mc_accepted.specs.Unmarked.{unmarked};
ghost use Rattle.mc_insts.specs.Graphs.{count_of};
ghost use Rattle.mc_procs.specs.Named.{NumbersBelow};
ghost use Rattle.mc_mode_state.specs.States.{point_of, is_outside, TrailWithin};
ghost use Rattle.mc_mode_state.specs.Agreeing.{StateInvariant, OnlyGrown};
ghost use Rattle.mc_mode_state.specs.Answers.{end_of};
ghost use Rattle.mc_mode_state.specs.Merged.{RowsFit};
ghost use Rattle.mc_modes.specs.code.Parts.{OneSince, AloneSince, MergedAs, ChosenAs};

use mc_base::{Copied, Memory, Row};
use mc_mode_state::{Failed, ModeFault, Part, State, unmarked};
use mc_model::inst::InstId;
use mc_model::sched::{GoalNode, Sched};
use mc_procs::Procs;
use std::alloc::Global;

/// A condition in its order, whether the point after it is reachable, and the least variable that it binds and must not.
#[derive(Drop)]
pub struct Condition {
    pub goal: GoalNode,
    pub reachable: bool,
    pub bound: Option<u32>,
}

/// A condition and a then part in their order.
#[derive(Drop)]
pub struct Begun {
    pub condition: GoalNode,
    pub bound: Option<u32>,
    pub then_part: GoalNode,
}

/// A part's goals as one goal, with what it changed since the trail had this length.
pub fn as_one(alloc: Global, state: &State, part: Part, trail: usize) -> Result<GoalNode, Memory>
    requires { TrailWithin (length state.now.insts.items) state.now.trail.items }
    ensures { IfOk result (AloneSince trail state.now part) }
{
    let Part {
        goals,
        reachable,
        freshened: _,
    } = part;
    state.alone(alloc, goals, trail, reachable)
}

/// A branch's goals as one, and the insts of the variables that occur outside at its end, where it is reachable.
pub fn ended(
    alloc: Global,
    state: &State,
    seen: &Row<u32>,
    part: Part,
    trail: usize,
    ends: &mut Vec<Row<InstId>>,
) -> Result<GoalNode, Memory>
    requires seen { NumbersBelow (length state.now.insts.items) seen.now }
    requires trail { TrailWithin (length state.now.insts.items) state.now.trail.items }
    ensures goal { IfOk result (AloneSince trail state.now part) }
    ensures ends { OnOk result (ends.new.items ≡ (if part.reachable
        then ends.old.items ++ map (point_of state.now.insts.items) seen.now ∷ []
        else ends.old.items)) }
{
    note_end(alloc, state, seen, part.reachable, ends)?;
    as_one(alloc, state, part, trail)
}

/// Notes the insts of variables at the end of a branch, where it is reachable.
fn note_end(
    alloc: Global,
    state: &State,
    seen: &Row<u32>,
    reachable: bool,
    ends: &mut Vec<Row<InstId>>,
) -> Result<(), Memory>
    requires { NumbersBelow (length state.now.insts.items) seen.now }
    ensures { OnOk result (ends.new.items ≡ (if reachable
        then ends.old.items ++ map (point_of state.now.insts.items) seen.now ∷ []
        else ends.old.items)) }
{
    if reachable {
        let insts = state.insts_at(alloc, seen.as_slice())?;
        ends.push(Row::of(insts)?)?;
        return Ok(());
    }
    Ok(())
}

/// What stands for a then part that is never run.
pub fn nothing(alloc: Global) -> GoalNode
    ensures { plain_node result ≡ unmarked (Conj no_nodes) }
{
    unmarked(alloc, Sched::Conj(Row::new(alloc)))
}

/// A condition that runs.
pub fn condition_of(
    alloc: Global,
    state: &State,
    part: Part,
    trail: usize,
    bound: Option<u32>,
) -> Result<Condition, Memory>
    requires { TrailWithin (length state.now.insts.items) state.now.trail.items }
    ensures goal { IfOk result (λ c. AloneSince trail state.now part c.goal) }
    ensures reachable { IfOk result (λ c. c.reachable ≡ part.reachable) }
    ensures bound { IfOk result (λ c. c.bound ≡ bound) }
{
    let reachable = part.reachable;
    let goal = as_one(alloc, state, part, trail)?;
    Ok(Condition {
        goal,
        reachable,
        bound,
    })
}

/// The first of these variables that is bound, where the point is reachable.
pub fn first_bound(state: &State, vars: &Row<u32>, reachable: bool) -> Option<u32>
    requires { NumbersBelow (length state.now.insts.items) vars.now }
    ensures { (b : Point ℕ) (xs : List ℕ) → vars.now ≡ ascending (λ x. not (is_bound (b x))) xs
        → (C : NodeOracle) (P : Source) (declared : ℕ → List Declared) (T : ℕ → TypeTerm)
        → binds (of_nodes C) P declared T xs b (end_of reachable state.now) ≡ result }
{
    if reachable {
        state.first_bound(vars.as_slice())
    } else {
        None
    }
}

/// A goal whose branches all run, at the insts before them: the ends are merged.
#[tactic(auto, using(mc_mode_state::proofs::Growths::refused_here, mc_mode_state::proofs::Growths::refused_by, mc_mode_state::proofs::Growths::refused_stepped, crate::proofs::Refusals::refused_moved, mc_mode_state::proofs::Growths::refused_after, crate::proofs::Refusals::refused_moved_after, crate::proofs::Refusals::refused_after_two))]
pub fn merged(
    alloc: Global,
    procs: &mut Procs,
    state: &mut State,
    own: &[u32],
    seen: &Row<u32>,
    ends: &[Row<InstId>],
    goal: Sched,
) -> Result<Part, Failed>
    requires stands { StateInvariant procs.old state.old }
    requires own { NumbersBelow (length state.old.insts.items) own.now }
    requires seen { seen.now ≡ ascending (is_outside state.old.outside.items) own.now }
    requires rows { RowsFit (length seen.now) (count_of procs.old.insts) ends.now }
    ensures merged { MergedAs (plain_sched goal) own.now seen.now ends.now procs.old procs.new
        state.old state.new result }
    ensures count { OnOk result (length state.new.insts.items ≡ length state.old.insts.items) }
    ensures kept { OnErr result (OnlyGrown procs.old procs.new) }
{
    let mark = state.mark();
    match state.join(alloc, procs, own, seen, ends) {
        Ok(reachable) => {
            let part = state.one(alloc, goal, mark.trail, reachable)?;
            Ok(part)
        }
        Err(failed) => Err(failed),
    }
}

/// An if-then-else whose parts all run, at the insts before it.
#[tactic(auto, using(mc_mode_state::proofs::Growths::refused_here, mc_mode_state::proofs::Growths::refused_by, mc_mode_state::proofs::Growths::refused_stepped, crate::proofs::Refusals::refused_moved, mc_mode_state::proofs::Growths::refused_after, crate::proofs::Refusals::refused_moved_after, crate::proofs::Refusals::refused_after_two))]
pub fn chosen(
    alloc: Global,
    procs: &mut Procs,
    state: &mut State,
    own: &[u32],
    seen: &Row<u32>,
    vars: &Row<u32>,
    begun: Begun,
    else_part: GoalNode,
    ends: &[Row<InstId>],
) -> Result<Part, Failed>
    requires stands { StateInvariant procs.old state.old }
    requires own { NumbersBelow (length state.old.insts.items) own.now }
    requires seen { seen.now ≡ ascending (is_outside state.old.outside.items) own.now }
    requires rows { RowsFit (length seen.now) (count_of procs.old.insts) ends.now }
    ensures chosen { ChosenAs begun.bound (Ite vars.now (plain_node begun.condition)
        (plain_node begun.then_part) (plain_node else_part)) own.now seen.now ends.now procs.old
        procs.new state.old state.new result }
    ensures count { OnOk result (length state.new.insts.items ≡ length state.old.insts.items) }
    ensures kept { OnErr result (OnlyGrown procs.old procs.new) }
{
    let Begun {
        condition,
        bound,
        then_part,
    } = begun;
    match bound {
        Some(x) => Err(Failed::Fault(ModeFault::NegatedBinds(x))),
        None => {
            let goal = choice(alloc, vars, condition, then_part, else_part)?;
            merged(alloc, procs, state, own, seen, ends, goal)
        }
    }
}

/// A goal in a box.
fn boxed(alloc: Global, goal: GoalNode) -> Result<Box<GoalNode>, Memory>
    ensures { IfOk result (λ made. made.value ≡ goal) }
{
    let made = Box::new(alloc, goal)?;
    Ok(made)
}

/// An if-then-else of these goals. One after the other is boxed, each in a function of its own: trees in hand across a `?`
/// are dear to prove.
fn choice(
    alloc: Global,
    vars: &Row<u32>,
    condition: GoalNode,
    then_part: GoalNode,
    else_part: GoalNode,
) -> Result<Sched, Memory>
    ensures { IfOk result (λ goal. plain_sched goal ≡ Ite vars.now (plain_node condition)
        (plain_node then_part) (plain_node else_part)) }
{
    let condition = boxed(alloc, condition)?;
    choice_behind(alloc, vars, condition, then_part, else_part)
}

/// The same, where the condition is boxed.
fn choice_behind(
    alloc: Global,
    vars: &Row<u32>,
    condition: Box<GoalNode>,
    then_part: GoalNode,
    else_part: GoalNode,
) -> Result<Sched, Memory>
    ensures { IfOk result (λ goal. plain_sched goal ≡ Ite vars.now (plain_node condition.value)
        (plain_node then_part) (plain_node else_part)) }
{
    let then_part = boxed(alloc, then_part)?;
    choice_with(alloc, vars, condition, then_part, else_part)
}

/// The same, where the then part is boxed too.
fn choice_with(
    alloc: Global,
    vars: &Row<u32>,
    condition: Box<GoalNode>,
    then_part: Box<GoalNode>,
    else_part: GoalNode,
) -> Result<Sched, Memory>
    ensures { IfOk result (λ goal. plain_sched goal ≡ Ite vars.now (plain_node condition.value)
        (plain_node then_part.value) (plain_node else_part)) }
{
    let else_part = boxed(alloc, else_part)?;
    let vars = vars.copied(alloc)?;
    Ok(Sched::Ite(vars, condition, then_part, else_part))
}

/// The negation of a goal, back at the point before it, where the trail had this length.
pub fn negated(alloc: Global, state: &State, goal: GoalNode, trail: usize) -> Result<Part, Memory>
    requires { TrailWithin (length state.now.insts.items) state.now.trail.items }
    ensures goal { IfOk result (OneSince trail state.now true (Not (plain_node goal))) }
    ensures reachable { IfOk result (λ whole. whole.reachable ≡ true) }
{
    let goal = Box::new(alloc, goal)?;
    state.one(alloc, Sched::Not(goal), trail, true)
}

/// A goal with variables quantified around it, with what it changed since the trail had this length.
pub fn quantified_over(
    alloc: Global,
    state: &State,
    vars: &Row<u32>,
    goal: GoalNode,
    trail: usize,
    reachable: bool,
) -> Result<Part, Memory>
    requires { TrailWithin (length state.now.insts.items) state.now.trail.items }
    ensures goal { IfOk result (OneSince trail state.now reachable
        (Exists vars.now (plain_node goal))) }
    ensures reachable { IfOk result (λ whole. whole.reachable ≡ reachable) }
{
    let goal = Box::new(alloc, goal)?;
    state.one(
        alloc,
        Sched::Some(vars.copied(alloc)?, goal),
        trail,
        reachable,
    )
}
