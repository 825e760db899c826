ghost use Rattle.std.specs.Prelude.{◌≡◌, ◌<◌, [], length, OnOk};
ghost use Rattle.mc_modes.specs.code.Steps.{IsNext, CanTry, IsBody, Steps, Adds};

use crate::faults::rule_of;
use crate::{modes_at, schedule};
use mc_base::Memory;
use mc_model::flat::Normal;
use mc_model::inst::Sig;
use mc_model::sched::Proc;
use mc_procs::Procs;
use mc_self_check::{procedure_fits, self_check};
use mc_source::rule::Broken;
use std::alloc::Global;

/// Tries a predicate's goal in one of its modes: the rule that it breaks is listed, or, where none was listed before, its
/// procedure comes.
pub(crate) fn try_mode(
    alloc: Global,
    procs: &mut Procs,
    sigs: &[Sig],
    goal: &Normal,
    mode: u32,
    exported: bool,
    faults: &mut Vec<Broken>,
) -> Result<(), Memory>
    requires stands { CanTry sigs.now mode procs.old goal.now }
    requires next { faults.old.items ≡ [] → IsNext procs.old goal.now }
    ensures { OnOk result (Steps sigs.now goal.now mode exported procs.old procs.new
        faults.old.items faults.new.items) }
{
    match schedule(alloc, procs, sigs, goal, mode) {
        Ok(proc) => {
            if !faults.is_empty() {
                return Ok(());
            }
            add(alloc, procs, goal, exported, proc)
        }
        Err(refusal) => {
            let (rule, what) = rule_of(alloc, goal, refusal)?;
            let at = modes_at(sigs, goal.pred)[mode as usize].at;
            faults.push(Broken { rule, at, what })?;
            Ok(())
        }
    }
}

/// The next procedure comes, exported or not.
fn add(
    alloc: Global,
    procs: &mut Procs,
    goal: &Normal,
    exported: bool,
    proc: Proc,
) -> Result<(), Memory>
    requires pred { proc.pred ≡ goal.now.pred }
    requires there { goal.now.pred < length procs.old.program.preds }
    requires next { IsNext procs.old goal.now }
    requires body { IsBody procs.old goal.now }
    ensures { OnOk result (Adds exported proc procs.old procs.new) }
{
    let mut proc = proc;
    proc.exported = exported;
    self_check(procedure_fits(alloc, procs, &proc, &goal.body)?)?;
    let _ = procs.add(proc)?;
    Ok(())
}
