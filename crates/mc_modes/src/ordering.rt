ghost use Rattle.std.specs.Prelude.{◌≡◌, [], length, All, IfOk, OnOk};
ghost use Rattle.mc_insts.specs.Graphs.{count_of};
ghost use Rattle.mc_modes.specs.Signatures.{SigsFit};
ghost use Rattle.mc_modes.specs.Numbering.{IsMode, IsNumbered};
ghost use Rattle.mc_modes.specs.NormalGoals.{AreNormal};
ghost use Rattle.mc_modes.specs.Outcomes.{GrownFrom, ListsBehind, ModesGive};

use crate::modes::{ModeId, mode_ids};
use crate::trying::try_mode;
use mc_base::Memory;
use mc_model::flat::Normal;
use mc_model::inst::Sig;
use mc_procs::Procs;
use mc_source::rule::Broken;
use mc_source::sort_by_place;
use std::alloc::Global;

/// What became of the goals of all declared modes.
#[derive(Drop)]
pub enum Orders {
    /// Each procedure came, in the order of their numbers.
    All,
    /// The rules that are broken, in the order of places; at least one.
    Broken(Vec<Broken>),
}

/// Puts the goals of all declared modes in their order. Their procedures come in the order of their numbers, each exported
/// where its predicate is; or the rules are listed that leave goals without an order. Behind the first of these no procedure
/// comes, but the other goals are tried. Signatures, goals and what is exported go by the numbers of predicates. That each
/// procedure fits is tested, and the call ends where one didn't.
pub fn order_goals(
    alloc: Global,
    procs: &mut Procs,
    sigs: &[Sig],
    goals: &[Normal],
    exported: &[bool],
) -> Result<Orders, Memory>
    requires none { procs.old.added ≡ [] }
    requires sigs { SigsFit (count_of procs.old.insts) sigs.now }
    requires numbered { IsNumbered procs.old sigs.now }
    requires goals { AreNormal procs.old sigs.now goals.now }
    requires exported { length exported.now ≡ length procs.old.program.preds }
    ensures became { IfOk result
        (ModesGive sigs.now goals.now exported.now procs.old procs.new) }
    ensures others { IfOk result (λ _. GrownFrom procs.old procs.new) }
{
    let ids = mode_ids(alloc, procs.program(), sigs)?;
    let mut faults = Vec::new(alloc);
    for id in &ids {
        let pred = id.pred as usize;
        try_mode(
            alloc,
            procs,
            sigs,
            &goals[pred],
            id.mode,
            exported[pred],
            &mut faults,
        )?;
    }
    if faults.is_empty() {
        return Ok(Orders::All);
    }
    sort_by_place(&mut faults)?;
    Ok(Orders::Broken(faults))
}

/// Tries the goals of these modes where some rule is listed already. The rules that leave goals without an order come behind
/// it, in the order of the modes; no procedure comes.
pub fn list_faults(
    alloc: Global,
    procs: &mut Procs,
    sigs: &[Sig],
    goals: &[Normal],
    ids: &[ModeId],
    faults: &mut Vec<Broken>,
) -> Result<(), Memory>
    requires some { faults.old.items ≡ [] → ⊥ }
    requires sigs { SigsFit (count_of procs.old.insts) sigs.now }
    requires ids { All (IsMode procs.old.program sigs.now) ids.now }
    requires goals { AreNormal procs.old sigs.now goals.now }
    ensures { OnOk result
        (ListsBehind sigs.now goals.now procs.old procs.new ids.now faults.old.items faults.new.items) }
{
    for id in ids {
        let goal = &goals[id.pred as usize];
        try_mode(alloc, procs, sigs, goal, id.mode, false, faults)?;
    }
    Ok(())
}
