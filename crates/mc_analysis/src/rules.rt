ghost use Rattle.std.specs.Prelude.{◌≡◌, Bool, List, [], map, IfOk, OnOk};
ghost use Rattle.mc_program.specs.PlainPrograms.{plain_program};
ghost use Rattle.mc_modes.specs.Numbering.{mode_ids};
ghost use Rattle.mc_modes.specs.declared.modes.ModeId.{ModeId};
ghost use Rattle.mc_accepted.specs.Fits.{FitsTypes};
ghost use Rattle.mc_accepted.specs.InstRules.{PlainInstDef};
ghost use Rattle.mc_insts.specs.Defining.{plain_definitions, DefinitionsFit};
ghost use Rattle.mc_insts.specs.Graphs.{graph_of, count_of};
ghost use Rattle.mc_insts.specs.Kept.{AreOf};
ghost use Rattle.mc_modes.specs.Signatures.{SigsFit};
ghost use Rattle.mc_procs.specs.Procedures.{parameters_in};
ghost use Rattle.mc_accepted.specs.NormalGoals.{HasNormalGoals};
ghost use Rattle.mc_analysis.specs.Premises.{HasInsts};
ghost use Rattle.mc_analysis.specs.Untidy.{AreUntidy};
ghost use Rattle.mc_analysis.specs.Rules.{AnalysisGives};
ghost use Rattle.mc_analysis.specs.code.Fitting.{ProgramIsFit};

use crate::analysis::analyse;
use crate::asked::asked_modes;
use crate::premises::check_preconditions;
use crate::signatures::signatures_fit;
use crate::untidy::untidy_modes;
use mc_base::{Memory, Row};
use mc_insts::{InstDef, Insts};
use mc_model::flat::Normal;
use mc_model::inst::Sig;
use mc_modes::{list_faults, mode_ids};
use mc_procs::Procs;
use mc_program::program::Program;
use mc_self_check::{constructors_fit, library_fits, self_check, types_fit};
use mc_source::rule::Broken;
use mc_source::sort_by_place;
use std::alloc::Global;

/// What comes of a program and its declared modes.
#[derive(Drop)]
pub enum AnalysisResult {
    /// No rule is broken: the procedures of all modes, in the order of their numbers.
    Procs(Procs),
    /// The rules that are broken, in the order of places; at least one.
    Broken(Vec<Broken>),
}

/// The procedures of a program in its declared modes: their goals in order, in switch form and pruned, their determinisms
/// inferred. Or the rules that they break: those of modes (M1 to M4, M8) where there are any, else those of determinism and
/// of io (E1 to E4, U1). Where some mode breaks that of unique modes (M8), a goal is tried only in modes that keep it, and only
/// where it calls no predicate with a mode that breaks it. The insts of modes are the builtin ones and those that the
/// definitions define behind them. Signatures, goals and what is exported go by the numbers of predicates; `runs` tells
/// whether `main` is asked for.
///
/// # Errors
///
/// `Memory` where memory is wanting. What else is asked of a program, its modes and its goals is tested as the program
/// runs; `Memory` too where it didn't hold, which no test has met.
pub fn procedures(
    alloc: Global,
    program: Program,
    defs: &Row<InstDef>,
    sigs: &[Sig],
    goals: &[Normal],
    exported: &[bool],
    runs: bool,
) -> Result<AnalysisResult, Memory>
    requires goals { HasNormalGoals program goals.now }
    requires defs { DefinitionsFit 4 (plain_definitions defs.now) }
    ensures { IfOk result
        (AnalysisGives program (plain_definitions defs.now) sigs.now goals.now exported.now runs) }
{
    check_fits(alloc, &program)?;
    let insts = defined_insts(alloc, &program, defs)?;
    over_insts(alloc, program, insts, sigs, goals, exported, runs)
}

/// The insts of a program with those that definitions define. (A definition that breaks a rule ends the call: items that
/// break M6 or M7 are told before this.)
fn defined_insts(alloc: Global, program: &Program, defs: &Row<InstDef>) -> Result<Insts, Memory>
    requires fits { ProgramIsFit program.now }
    requires defs { DefinitionsFit 4 (plain_definitions defs.now) }
    ensures { IfOk result (HasInsts program.now (plain_definitions defs.now)) }
{
    let mut insts = Insts::new(alloc, program)?;
    match insts.define(alloc, defs, program) {
        Ok(_) => Ok(insts),
        Err(_) => Err(Memory),
    }
}

/// What comes of a program that fits, with its insts.
fn over_insts(
    alloc: Global,
    program: Program,
    insts: Insts,
    sigs: &[Sig],
    goals: &[Normal],
    exported: &[bool],
    runs: bool,
) -> Result<AnalysisResult, Memory>
    requires fits { ProgramIsFit program }
    requires goals { HasNormalGoals program goals.now }
    requires program { AreOf (plain_program program) insts }
    ensures { IfOk result
        (λ ruled. (ds : List PlainInstDef) → HasInsts program ds insts
        → AnalysisGives program ds sigs.now goals.now exported.now runs ruled) }
{
    self_check(signatures_fit(insts.count(), sigs))?;
    let mut insts = insts;
    let untidy = untidy_modes(alloc, &program, &mut insts, sigs)?;
    if untidy.is_empty() {
        return of_tidy(alloc, program, insts, sigs, goals, exported, runs);
    }
    of_untidy(alloc, program, insts, sigs, goals, exported, untidy)
}

/// The rules that are broken where some modes break that of unique modes: theirs, and those of goals that are over tidy
/// modes alone.
fn of_untidy(
    alloc: Global,
    program: Program,
    insts: Insts,
    sigs: &[Sig],
    goals: &[Normal],
    exported: &[bool],
    untidy: Vec<Broken>,
) -> Result<AnalysisResult, Memory>
    requires fits { ProgramIsFit program }
    requires goals { HasNormalGoals program goals.now }
    requires program { AreOf (plain_program program) insts }
    requires sigs { SigsFit (count_of insts) sigs.now }
    requires untidy { AreUntidy (plain_program program) (graph_of insts) sigs.now untidy.items }
    requires some { untidy.items ≡ [] → ⊥ }
    ensures { IfOk result
        (λ ruled. (runs : Bool) (ds : List PlainInstDef) → HasInsts program ds insts
        → AnalysisGives program ds sigs.now goals.now exported.now runs ruled) }
{
    let mut insts = insts;
    let asked = asked_modes(alloc, &program, &mut insts, sigs, goals)?;
    let mut procs = first_procs(alloc, program, insts, sigs)?;
    check_preconditions(alloc, &procs, sigs, goals, exported)?;
    let mut faults = untidy;
    list_faults(
        alloc,
        &mut procs,
        sigs,
        goals,
        asked.as_slice(),
        &mut faults,
    )?;
    sort_by_place(&mut faults)?;
    Ok(AnalysisResult::Broken(faults))
}

/// What comes of a program that fits, with its insts, over which its modes are tidy.
fn of_tidy(
    alloc: Global,
    program: Program,
    insts: Insts,
    sigs: &[Sig],
    goals: &[Normal],
    exported: &[bool],
    runs: bool,
) -> Result<AnalysisResult, Memory>
    requires fits { ProgramIsFit program }
    requires goals { HasNormalGoals program goals.now }
    requires program { AreOf (plain_program program) insts }
    requires sigs { SigsFit (count_of insts) sigs.now }
    requires tidy { AreUntidy (plain_program program) (graph_of insts) sigs.now [] }
    ensures { IfOk result
        (λ ruled. (ds : List PlainInstDef) → HasInsts program ds insts
        → AnalysisGives program ds sigs.now goals.now exported.now runs ruled) }
{
    let procs = first_procs(alloc, program, insts, sigs)?;
    let ruled = analyse(alloc, procs, sigs, goals, exported, runs)?;
    Ok(ruled)
}

/// Sees that a program's types and constructors fit, and that it has the library.
fn check_fits(alloc: Global, program: &Program) -> Result<(), Memory>
    ensures { OnOk result (ProgramIsFit program.now) }
{
    self_check(types_fit(program))?;
    self_check(constructors_fit(alloc, program)?)?;
    self_check(library_fits(program))?;
    Ok(())
}

/// The program with its insts, and with no procedure of its modes yet.
fn first_procs(alloc: Global, program: Program, insts: Insts, sigs: &[Sig]) -> Result<Procs, Memory>
    requires types { FitsTypes (plain_program program) (parameters_in program) }
    requires program { AreOf (plain_program program) insts }
    ensures { IfOk result
        (λ procs.
        procs
        ≡ record { program = program; insts = insts; preds = map (λ (m : ModeId). m.pred) (mode_ids program sigs.now); added = [] }) }
{
    let preds = preds_of_modes(alloc, &program, sigs)?;
    Ok(Procs::new(alloc, program, insts, preds))
}

/// The predicate of each mode's procedure, in the order of their numbers.
fn preds_of_modes(alloc: Global, program: &Program, sigs: &[Sig]) -> Result<Row<u32>, Memory>
    ensures { IfOk result
        (λ preds. preds ≡ map (λ (m : ModeId). m.pred) (mode_ids program.now sigs.now)) }
{
    let ids = mode_ids(alloc, program, sigs)?;
    let mut preds = Vec::new(alloc);
    for id in &ids {
        preds.push(id.pred)?;
    }
    Row::of(preds)
}
