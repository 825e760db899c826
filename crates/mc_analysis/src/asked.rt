ghost use Rattle.std.specs.Prelude.{◌≡◌, ◌↔◌, ◌<◌, true, length, map, get_or, IsTrue, IfOk};
ghost use Rattle.mc_program.specs.PlainPrograms.{plain_program, plain_type};
ghost use Rattle.mc_model.specs.Flat.{flats};
ghost use Rattle.mc_model.specs.PlainGoals.{plain_flat};
ghost use Rattle.mc_insts.specs.Graphs.{graph_of, count_of};
ghost use Rattle.mc_insts.specs.Kept.{AreOf};
ghost use Rattle.mc_mode_state.specs.Modes.{ModesFit};
ghost use Rattle.mc_modes.specs.Signatures.{SigsFit};
ghost use Rattle.mc_modes.specs.Numbering.{IsMode, mode_ids};
ghost use Rattle.mc_analysis.specs.Untidy.{AllTidy, OverTidy, AreAsked};
ghost use Rattle.mc_analysis.specs.code.Asked.{MarksTidy, CallsMarked, AllCallMarked};

use crate::untidy::{mode_is_tidy, types_of};
use mc_base::Memory;
use mc_insts::Insts;
use mc_model::flat::{Flat, Normal};
use mc_model::inst::{ModeDecl, Sig};
use mc_modes::{ModeId, mode_ids, modes_at};
use mc_program::program::Program;
use mc_program::ty::Ty;
use std::alloc::Global;

/// The modes whose goals are tried where some mode breaks the rule of unique modes, in order: those that are tidy, of
/// predicates whose goals call only predicates whose modes are all tidy.
pub(crate) fn asked_modes(
    alloc: Global,
    program: &Program,
    insts: &mut Insts,
    sigs: &[Sig],
    goals: &[Normal],
) -> Result<Vec<ModeId>, Memory>
    requires program { AreOf (plain_program program.now) insts.old }
    requires sigs { SigsFit (count_of insts.old) sigs.now }
    requires goals { length goals.now ≡ length program.now.preds }
    ensures asked { IfOk result
        (λ ids.
        AreAsked (plain_program program.now) (graph_of insts.old) sigs.now goals.now
        (mode_ids program.now sigs.now) ids.items) }
    ensures program { AreOf (plain_program program.now) insts.new }
    ensures graph { graph_of insts.new ≡ graph_of insts.old }
    ensures count { count_of insts.new ≡ count_of insts.old }
{
    let tidy = tidy_predicates(alloc, program, insts, sigs)?;
    let ids = mode_ids(alloc, program, sigs)?;
    let mut asked = Vec::new(alloc);
    for id in &ids {
        if is_asked(alloc, program, insts, sigs, goals, tidy.as_slice(), *id)? {
            asked.push(*id)?;
        }
    }
    Ok(asked)
}

/// Whether a mode is tidy, and its predicate's goal calls only predicates whose modes all are.
fn is_asked(
    alloc: Global,
    program: &Program,
    insts: &mut Insts,
    sigs: &[Sig],
    goals: &[Normal],
    tidy: &[bool],
    id: ModeId,
) -> Result<bool, Memory>
    requires program { AreOf (plain_program program.now) insts.old }
    requires sigs { SigsFit (count_of insts.old) sigs.now }
    requires goals { length goals.now ≡ length program.now.preds }
    requires tidy { MarksTidy (plain_program program.now) (graph_of insts.old) sigs.now tidy.now }
    requires id { IsMode program.now sigs.now id }
    ensures asked { IfOk result
        (λ b. IsTrue b ↔ OverTidy (plain_program program.now) (graph_of insts.old) sigs.now goals.now id) }
    ensures program { AreOf (plain_program program.now) insts.new }
    ensures graph { graph_of insts.new ≡ graph_of insts.old }
    ensures count { count_of insts.new ≡ count_of insts.old }
{
    if !calls_tidy(tidy, &goals[id.pred as usize].body) {
        return Ok(false);
    }
    let types = types_of(program, id.pred);
    mode_is_tidy(
        alloc,
        program,
        insts,
        types,
        &modes_at(sigs, id.pred)[id.mode as usize],
    )
}

/// For each predicate whether its modes are tidy.
fn tidy_predicates(
    alloc: Global,
    program: &Program,
    insts: &mut Insts,
    sigs: &[Sig],
) -> Result<Vec<bool>, Memory>
    requires program { AreOf (plain_program program.now) insts.old }
    requires sigs { SigsFit (count_of insts.old) sigs.now }
    ensures tidy { IfOk result
        (λ list. MarksTidy (plain_program program.now) (graph_of insts.old) sigs.now list.items) }
    ensures program { AreOf (plain_program program.now) insts.new }
    ensures graph { graph_of insts.new ≡ graph_of insts.old }
    ensures count { count_of insts.new ≡ count_of insts.old }
{
    let mut tidy = Vec::new(alloc);
    for pred in 0..program.preds.len() {
        let types = types_of(program, pred);
        tidy.push(all_tidy(alloc, program, insts, types, modes_at(sigs, pred))?)?;
    }
    Ok(tidy)
}

/// Whether each of these modes is tidy at these types.
fn all_tidy(
    alloc: Global,
    program: &Program,
    insts: &mut Insts,
    types: &[Ty],
    modes: &[ModeDecl],
) -> Result<bool, Memory>
    requires program { AreOf (plain_program program.now) insts.old }
    requires modes { ModesFit (count_of insts.old) modes.now }
    ensures tidy { IfOk result
        (λ b. IsTrue b
        ↔ AllTidy (plain_program program.now) (graph_of insts.old) (map plain_type types.now) modes.now) }
    ensures program { AreOf (plain_program program.now) insts.new }
    ensures graph { graph_of insts.new ≡ graph_of insts.old }
    ensures count { count_of insts.new ≡ count_of insts.old }
{
    for mode in modes {
        if !mode_is_tidy(alloc, program, insts, types, mode)? {
            return Ok(false);
        }
    }
    Ok(true)
}

/// Whether a goal calls only predicates that are marked.
#[cycle(flat)]
fn calls_tidy(tidy: &[bool], goal: &Flat) -> bool
    ensures { IsTrue result ↔ CallsMarked tidy.now (plain_flat goal.now) }
{
    match goal {
        Flat::True => true,
        Flat::Conj(goals) => all_call_tidy(tidy, goals.as_slice()),
        Flat::Disj(goals) => all_call_tidy(tidy, goals.as_slice()),
        Flat::Ite(_, condition, then_part, else_part) => {
            calls_tidy(tidy, condition)
                && calls_tidy(tidy, then_part)
                && calls_tidy(tidy, else_part)
        }
        Flat::Not(inner) => calls_tidy(tidy, inner),
        Flat::Some(_, inner) => calls_tidy(tidy, inner),
        Flat::Same(_, _) => true,
        Flat::Made(_, _, _) => true,
        Flat::Const(_, _) => true,
        Flat::Call(pred, _) => is_marked(tidy, *pred),
    }
}

#[cycle(flat)]
fn all_call_tidy(tidy: &[bool], goals: &[Flat]) -> bool
    ensures { IsTrue result ↔ AllCallMarked tidy.now (flats (map plain_flat goals.now)) }
{
    for goal in goals {
        if !calls_tidy(tidy, goal) {
            return false;
        }
    }
    true
}

/// Whether a predicate is marked; one that isn't there is.
fn is_marked(tidy: &[bool], pred: u32) -> bool
    ensures { result ≡ get_or tidy.now pred true }
{
    let k = pred as usize;
    if k < tidy.len() { tidy[k] } else { true }
}
