ghost use Rattle.std.specs.Prelude.{◌≡◌, ◌↔◌, IsTrue, IfOk, OnOk, length};
ghost use Rattle.mc_insts.specs.Graphs.{count_of};
ghost use Rattle.mc_modes.specs.Signatures.{SigsFit};
ghost use Rattle.mc_analysis.specs.Premises.{Preconditions, TellNumbers};
ghost use Rattle.mc_analysis.specs.code.Tests.{FollowOn, number_in};

use crate::determinisms::committed_are_many;
use crate::goals::goals_fit;
use crate::typed::goals_are_typed;
use mc_base::Memory;
use mc_model::flat::Normal;
use mc_model::inst::Sig;
use mc_modes::{ModeId, mode_ids, modes_at};
use mc_procs::Procs;
use mc_self_check::self_check;
use std::alloc::Global;

/// Sees that what is asked of declared modes, whose insts are there, and of goals holds.
pub(crate) fn check_preconditions(
    alloc: Global,
    procs: &Procs,
    sigs: &[Sig],
    goals: &[Normal],
    exported: &[bool],
) -> Result<(), Memory>
    requires as_many { length goals.now ≡ length procs.now.program.preds }
    requires sigs { SigsFit (count_of procs.now.insts) sigs.now }
    ensures { OnOk result (Preconditions procs.now sigs.now goals.now exported.now) }
{
    let preds = procs.program().preds.len() as usize;
    self_check(exported.len() == preds)?;
    self_check(sigs.len() <= preds)?;
    self_check(committed_are_many(sigs))?;
    self_check(tell_numbers(alloc, procs, sigs)?)?;
    self_check(goals_fit(procs, sigs, goals))?;
    self_check(goals_are_typed(alloc, procs.program(), goals)?)?;
    Ok(())
}

/// Whether each mode tells the number of its procedure.
fn tell_numbers(alloc: Global, procs: &Procs, sigs: &[Sig]) -> Result<bool, Memory>
    ensures { IfOk result (λ b. IsTrue b ↔ TellNumbers procs.now sigs.now) }
{
    let ids = mode_ids(alloc, procs.program(), sigs)?;
    if ids.len() != procs.preds().len() as usize {
        return Ok(false);
    }
    Ok(follow_on(sigs, ids.as_slice()))
}

/// Whether modes tell numbers one behind another, from 0 on.
fn follow_on(sigs: &[Sig], ids: &[ModeId]) -> bool
    ensures { IsTrue result ↔ FollowOn sigs.now 0 ids.now }
{
    for (place, id) in ids.iter().enumerate() {
        if number_in(sigs, *id) as usize != place {
            return false;
        }
    }
    true
}

/// The number that a mode tells; 0 where there is none.
fn number_in(sigs: &[Sig], id: ModeId) -> u32
    ensures { result ≡ number_in sigs.now id }
{
    let modes = modes_at(sigs, id.pred);
    let k = id.mode as usize;
    if k < modes.len() { modes[k].proc } else { 0 }
}
