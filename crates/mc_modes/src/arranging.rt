ghost use Rattle.std.specs.Prelude.{◌≡◌, ◌<◌, length, map, IfOk, OnErr};
ghost use Rattle.mc_model.specs.Flat.{variables_of};
ghost use Rattle.mc_model.specs.PlainGoals.{plain_flat};
ghost use Rattle.mc_insts.specs.Graphs.{count_of};
ghost use Rattle.mc_procs.specs.Named.{NumbersBelow};
ghost use Rattle.mc_modes.specs.Signatures.{SigsFit};
ghost use Rattle.mc_modes.specs.Fitting.{Known};
ghost use Rattle.mc_mode_state.specs.Agreeing.{StateInvariant, OnlyGrown};
ghost use Rattle.mc_modes.specs.Arrangements.{Arranges};
ghost use Rattle.mc_modes.specs.code.Judging.{IsBeginning, IsUnmet, Judges, JudgesGoal};

use crate::ending::as_one;
use crate::order::try_goal;
use mc_base::{Memory, Row};
use mc_mode_state::{Failed, ModeFault, Nodes, Part, State};
use mc_model::flat::Flat;
use mc_model::inst::{InstId, Sig};
use mc_model::sched::GoalNode;
use mc_procs::Procs;
use mc_program::ty::Ty;
use std::alloc::{AllocError, AllocFailed, Global};

/// A goal in its order, and the types of its variables, the fresh ones of implied outputs last.
#[derive(Drop)]
pub struct Arrangement {
    pub body: GoalNode,
    pub types: Vec<Ty>,
}

/// Why a goal has no order: it breaks a rule, or the final inst of an argument, which is counted from 0, isn't met; or
/// memory is wanted.
#[derive(Debug, PartialEq, Eq, Drop)]
pub enum Refusal {
    Fault(ModeFault),
    Unmet(u32),
    Memory,
}

impl From<Memory> for Refusal {
    ghost use Rattle.std.specs.Prelude.{◌≡◌};
    ghost use Rattle.mc_modes.specs.declared.arranging.Refusal.TheVariants as refusal;

    ghost from_gives = { λ _ answer. answer ≡ refusal.Memory };

    fn from(_: Memory) -> Refusal {
        Refusal::Memory
    }
}

/// A goal over variables of these types in its order, from the initial insts of a head to its final ones; every other
/// variable is free at its beginning.
pub fn arrange(
    alloc: Global,
    procs: &mut Procs,
    sigs: &[Sig],
    types: Vec<Ty>,
    head: &Row<u32>,
    first: &Row<InstId>,
    last: &Row<InstId>,
    body: &Flat,
) -> Result<Arrangement, Refusal>
    requires sigs { SigsFit (count_of procs.old.insts) sigs.now }
    requires head { NumbersBelow (length types.items) head.now }
    requires first { NumbersBelow (count_of procs.old.insts) first.now }
    requires last { NumbersBelow (count_of procs.old.insts) last.now }
    requires firsts { length first.now ≡ length head.now }
    requires lasts { length last.now ≡ length head.now }
    requires variables { NumbersBelow (length types.items) (variables_of (plain_flat body.now)) }
    requires known { Known procs.old.program (plain_flat body.now) }
    ensures { Arranges sigs.now types.items head.now first.now last.now (plain_flat body.now)
        procs.old procs.new result }
{
    let mut state = beginning(alloc, procs, types, head, first)?;
    let mark = state.mark();
    match try_goal(alloc, procs, sigs, &mut state, body) {
        Ok(part) => ended(alloc, procs, state, head, last, part, mark.trail),
        Err(Failed::Fault(fault)) => Err(Refusal::Fault(fault)),
        Err(Failed::Memory) => Err(Refusal::Memory),
    }
}

/// The beginning of a clause, before any node of the graph was looked for.
fn beginning(
    alloc: Global,
    procs: &Procs,
    types: Vec<Ty>,
    head: &Row<u32>,
    first: &Row<InstId>,
) -> Result<State, Memory>
    requires head { NumbersBelow (length types.items) head.now }
    requires first { NumbersBelow (count_of procs.now.insts) first.now }
    requires firsts { length first.now ≡ length head.now }
    ensures { IfOk result (IsBeginning types.items head.now first.now procs.now) }
{
    procs.fit();
    let nodes = Nodes::new(alloc);
    State::begin(alloc, nodes, types, head.as_slice(), first.as_slice())
}

/// A goal that runs, at its end: each argument must meet its final inst, where that point is reachable.
fn ended(
    alloc: Global,
    procs: &mut Procs,
    state: State,
    head: &Row<u32>,
    last: &Row<InstId>,
    part: Part,
    trail: usize,
) -> Result<Arrangement, Refusal>
    requires stands { StateInvariant procs.old state }
    requires head { NumbersBelow (length state.insts.items) head.now }
    requires last { NumbersBelow (count_of procs.old.insts) last.now }
    requires lasts { length last.now ≡ length head.now }
    ensures { Judges head.now last.now part trail procs.old procs.new state result }
{
    match judged(alloc, procs, &state, head, last, part, trail) {
        Ok(body) => Ok(Arrangement {
            body,
            types: types_in(state),
        }),
        Err(refusal) => Err(refusal),
    }
}

/// The types of a state's variables.
fn types_in(state: State) -> Vec<Ty>
    ensures { result ≡ state.types }
{
    state.types
}

/// The goal itself. The state is lent: one in hand across a `?` is dear to prove.
fn judged(
    alloc: Global,
    procs: &mut Procs,
    state: &State,
    head: &Row<u32>,
    last: &Row<InstId>,
    part: Part,
    trail: usize,
) -> Result<GoalNode, Refusal>
    requires stands { StateInvariant procs.old state.now }
    requires head { NumbersBelow (length state.now.insts.items) head.now }
    requires last { NumbersBelow (count_of procs.old.insts) last.now }
    requires lasts { length last.now ≡ length head.now }
    ensures { JudgesGoal head.now last.now part trail procs.old procs.new state.now result }
{
    match unmet(alloc, procs, state, head, last, part.reachable)? {
        Some(place) => Err(Refusal::Unmet(place)),
        None => {
            let body = as_one(alloc, state, part, trail)?;
            Ok(body)
        }
    }
}

/// The place of the first argument whose final inst isn't met at this point, where it is reachable.
#[tactic(auto, using(mc_mode_state::proofs::Growths::refused_here, mc_mode_state::proofs::Growths::refused_by, mc_mode_state::proofs::Growths::refused_stepped, crate::proofs::Refusals::refused_moved, mc_mode_state::proofs::Growths::refused_after, crate::proofs::Refusals::refused_moved_after, crate::proofs::Refusals::refused_after_two))]
fn unmet(
    alloc: Global,
    procs: &mut Procs,
    state: &State,
    head: &Row<u32>,
    last: &Row<InstId>,
    reachable: bool,
) -> Result<Option<u32>, Memory>
    requires stands { StateInvariant procs.old state.now }
    requires head { NumbersBelow (length state.now.insts.items) head.now }
    requires last { NumbersBelow (count_of procs.old.insts) last.now }
    requires lasts { length last.now ≡ length head.now }
    ensures unmet { IfOk result (IsUnmet head.now last.now reachable procs.old procs.new state.now) }
    ensures kept { OnErr result (OnlyGrown procs.old procs.new) }
{
    if reachable {
        state.unmet(alloc, procs, head, last)
    } else {
        Ok(None)
    }
}
