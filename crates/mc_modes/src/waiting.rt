ghost use Rattle.std.specs.Prelude.{◌≡◌, ◌<◌, ◌+◌, ◌++◌, ◌^◌, ℕ, length, get_or, slice_index_or, map, IfOk, OnOk};
ghost use Rattle.mc_model.specs.Scheduled.{nodes, Conj};
ghost use Rattle.mc_model.specs.PlainGoals.{plain_node};
ghost use Rattle.mc_accepted.specs.Ordered.{times_in};
ghost use Rattle.mc_procs.specs.Named.{NumbersBelow};
ghost use Rattle.mc_mode_state.specs.States.{point_of, snapshot_of, TrailWithin, SameState, Later, SameLengths};
ghost use Rattle.mc_mode_state.specs.declared.state.State.{State};
ghost use Rattle.mc_modes.specs.Tries.{OnFault};
ghost use Rattle.mc_modes.specs.code.Frames.{Entered};
ghost use Rattle.mc_modes.specs.code.Parts.{OneSince};
ghost use Rattle.mc_modes.specs.code.Waiting.{goals_at, variables_of_each, noted, IsStuck};

use crate::places::Places;
use crate::variables::push_variables;
use mc_base::{Memory, Row};
use mc_mode_state::{Failed, ModeFault, Part, Snapshot, State};
use mc_model::flat::Flat;
use mc_model::sched::{GoalNode, Sched};
use std::alloc::Global;

/// What a pass over the waiting goals of a conjunction finds: the place of the first that runs, with what it is then; or
/// none, with the first fault of one that isn't only waiting itself.
#[derive(Drop)]
pub enum Found {
    Ready(usize, Part),
    NoneReady(Option<ModeFault>),
}

/// Notes the first fault that is of more than waiting goals.
pub fn note(first: &mut Option<ModeFault>, fault: ModeFault)
    ensures { first.new ≡ noted first.old fault }
{
    if first.is_some() || matches!(&fault, ModeFault::Waits(_, _)) {
        return;
    }
    *first = Some(fault);
}

/// The waiting goal in this place.
pub fn goal_at<'a>(goals: &'a [Flat], waiting: &Places, place: usize) -> &'a Flat
    requires place { place < length waiting.now }
    requires waiting { NumbersBelow (length goals.now) waiting.now }
    ensures { result.now ≡ slice_index_or goals.now (get_or waiting.now place 0) result.now }
{
    &goals[waiting.get(place)]
}

/// The variables of the waiting goals.
fn variables_at(alloc: Global, goals: &[Flat], waiting: &Places) -> Result<Vec<u32>, Memory>
    requires { NumbersBelow (length goals.now) waiting.now }
    ensures { IfOk result (λ list. list.items
        ≡ variables_of_each (goals_at goals.now waiting.now)) }
{
    let mut list = Vec::new(alloc);
    for place in 0..waiting.len() {
        push_variables(&mut list, goal_at(goals, waiting, place))?;
    }
    Ok(list)
}

/// The fault of a conjunction none of whose waiting goals runs: the first that was found, else that they wait.
pub fn stuck(
    alloc: Global,
    state: &State,
    goals: &[Flat],
    waiting: &Places,
    found: Option<ModeFault>,
) -> Result<ModeFault, Memory>
    requires places { NumbersBelow (length goals.now) waiting.now }
    requires few { length waiting.now < 2 ^ 32 }
    requires variables { NumbersBelow (length state.now.insts.items)
        (variables_of_each (goals_at goals.now waiting.now)) }
    ensures { IfOk result (λ fault. IsStuck (point_of state.now.insts.items)
        (goals_at goals.now waiting.now) found fault) }
{
    match found {
        Some(fault) => Ok(fault),
        None => {
            let vars = variables_at(alloc, goals, waiting)?;
            let free = state.free(alloc, &vars)?;
            Ok(ModeFault::Waits(waiting.len() as u32, free))
        }
    }
}

/// A conjunction's goals as one goal, with what it changed since the trail had this length.
pub fn conjunction_of(
    alloc: Global,
    state: &State,
    part: Part,
    trail: usize,
) -> Result<Part, Memory>
    requires { TrailWithin (length state.now.insts.items) state.now.trail.items }
    ensures goals { IfOk result (OneSince trail state.now part.reachable
        (Conj (nodes (map plain_node part.goals.items)))) }
    ensures reachable { IfOk result (λ whole. whole.reachable ≡ part.reachable) }
{
    let Part {
        goals,
        reachable,
        freshened: _,
    } = part;
    state.one(alloc, Sched::Conj(Row::of(goals)?), trail, reachable)
}

/// Fresh variables occur outside too, and are noted.
fn enter_fresh(state: &mut State, fresh: &mut Vec<u32>, freshened: &[u32]) -> Result<(), Memory>
    requires { NumbersBelow (length state.old.outside.items) freshened.now }
    ensures fresh { OnOk result (fresh.new.items ≡ fresh.old.items ++ freshened.now) }
    ensures entered { OnOk result (Entered freshened.now state.old state.new) }
{
    if freshened.is_empty() {
        return Ok(());
    }
    state.enter(freshened)?;
    fresh.extend_from_slice(freshened)?;
    Ok(())
}

/// Puts a part's goals behind those that ran, and its fresh variables outside; whether its end is reachable.
pub fn taken(
    state: &mut State,
    done: &mut Vec<GoalNode>,
    fresh: &mut Vec<u32>,
    part: Part,
) -> Result<bool, Memory>
    requires { NumbersBelow (length state.old.outside.items) part.freshened.items }
    ensures reachable { IfOk result (λ reachable. reachable ≡ part.reachable) }
    ensures done { OnOk result (done.new.items ≡ done.old.items ++ part.goals.items) }
    ensures fresh { OnOk result (fresh.new.items ≡ fresh.old.items ++ part.freshened.items) }
    ensures entered { OnOk result (Entered part.freshened.items state.old state.new) }
{
    let Part {
        goals,
        reachable,
        freshened,
    } = part;
    enter_fresh(state, fresh, &freshened)?;
    let mut goals = goals;
    done.append(&mut goals)?;
    Ok(reachable)
}

/// Goes back to a moment where a rule is broken.
pub fn settled(
    state: &mut State,
    mark: Snapshot,
    tried: Result<Part, Failed>,
) -> Result<Part, Failed>
    requires { OnFault tried (TrailWithin (length state.old.insts.items) state.old.trail.items
        × SameLengths state.old) }
    ensures same { result ≡ tried }
    ensures kept { OnOk result (state.new ≡ state.old) }
    ensures undone { OnFault result ((s : State) → Later s state.old → SameLengths s
        → mark ≡ snapshot_of s → SameState s state.new) }
    ensures nodes { OnFault result (state.new.nodes ≡ state.old.nodes) }
{
    match tried {
        Ok(part) => Ok(part),
        Err(Failed::Fault(fault)) => {
            state.undo(mark);
            Err(Failed::Fault(fault))
        }
        Err(Failed::Memory) => Err(Failed::Memory),
    }
}
