ghost use Rattle.std.specs.Prelude.{◌≡◌, List, [], map, IfOk};
ghost use Rattle.mc_accepted.specs.InstRules.{PlainInstDef};
ghost use Rattle.mc_insts.specs.Graphs.{count_of};
ghost use Rattle.mc_modes.specs.Signatures.{SigsFit};
ghost use Rattle.mc_modes.specs.Numbering.{mode_ids};
ghost use Rattle.mc_modes.specs.declared.modes.ModeId.{ModeId};
ghost use Rattle.mc_accepted.specs.NormalGoals.{HasNormalGoals};
ghost use Rattle.mc_analysis.specs.Premises.{InitialProcedures, Preconditions};
ghost use Rattle.mc_analysis.specs.Rules.{AnalysisGives, Determined};
ghost use Rattle.mc_analysis.specs.code.Judged.{ByDeterminism};

use crate::premises::check_preconditions;
use crate::rules::AnalysisResult;
use mc_base::Memory;
use mc_det::{infer, prune_goals};
use mc_det_rules::faults;
use mc_model::flat::Normal;
use mc_model::inst::Sig;
use mc_modes::{Orders, order_goals};
use mc_procs::Procs;
use mc_switch::switches;
use std::alloc::Global;

/// Sees that what is asked of declared modes and goals holds, lets the procedures come, and judges them.
pub(crate) fn analyse(
    alloc: Global,
    procs: Procs,
    sigs: &[Sig],
    goals: &[Normal],
    exported: &[bool],
    runs: bool,
) -> Result<AnalysisResult, Memory>
    requires sigs { SigsFit (count_of procs.insts) sigs.now }
    requires goals { HasNormalGoals procs.program goals.now }
    requires preds { procs.preds ≡ map (λ (m : ModeId). m.pred) (mode_ids procs.program sigs.now) }
    requires none { procs.added ≡ [] }
    ensures { IfOk result
        (λ ruled. (ds : List PlainInstDef) → InitialProcedures procs.program ds sigs.now [] procs
        → AnalysisGives procs.program ds sigs.now goals.now exported.now runs ruled) }
{
    check_preconditions(alloc, &procs, sigs, goals, exported)?;
    by_order(alloc, procs, sigs, goals, exported, runs)
}

/// Puts the goals of all modes in order, and judges the procedures that come.
fn by_order(
    alloc: Global,
    procs: Procs,
    sigs: &[Sig],
    goals: &[Normal],
    exported: &[bool],
    runs: bool,
) -> Result<AnalysisResult, Memory>
    requires asked { Preconditions procs sigs.now goals.now exported.now }
    requires goals { HasNormalGoals procs.program goals.now }
    requires preds { procs.preds ≡ map (λ (m : ModeId). m.pred) (mode_ids procs.program sigs.now) }
    requires none { procs.added ≡ [] }
    ensures { IfOk result
        (λ ruled. (ds : List PlainInstDef) → InitialProcedures procs.program ds sigs.now [] procs
        → AnalysisGives procs.program ds sigs.now goals.now exported.now runs ruled) }
{
    let mut procs = procs;
    match order_goals(alloc, &mut procs, sigs, goals, exported)? {
        Orders::All => {
            let ruled = by_determinism(alloc, procs, runs)?;
            Ok(ruled)
        }
        Orders::Broken(list) => Ok(AnalysisResult::Broken(list)),
    }
}

/// Judges procedures whose goals are in order by their determinisms.
fn by_determinism(alloc: Global, procs: Procs, runs: bool) -> Result<AnalysisResult, Memory>
    ensures { IfOk result (ByDeterminism runs procs) }
{
    let procs = determine(alloc, procs)?;
    let found = faults(alloc, &procs, runs)?;
    procs.fit();
    if found.is_empty() {
        Ok(AnalysisResult::Procs(procs))
    } else {
        Ok(AnalysisResult::Broken(found))
    }
}

/// Puts the goals of procedures in switch form, prunes them and infers their determinisms.
fn determine(alloc: Global, procs: Procs) -> Result<Procs, Memory>
    ensures { IfOk result (Determined procs) }
{
    let mut procs = procs;
    switches(alloc, &mut procs)?;
    let pruned = prune_goals(alloc, procs)?;
    let made = infer(alloc, pruned)?;
    Ok(made)
}
