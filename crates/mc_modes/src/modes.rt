ghost use Rattle.std.specs.Prelude.{◌≡◌, ◌++◌, length, IfOk, OnOk};
ghost use Rattle.mc_model.specs.Lists.{from};
ghost use Rattle.mc_modes.specs.Signatures.{modes_at};
ghost use Rattle.mc_modes.specs.Numbering.{ids_of, mode_ids};

use mc_base::Memory;
use mc_model::inst::Sig;
use mc_program::program::Program;
use std::alloc::Global;

/// A declared mode: the number of its predicate, and its own among the modes of that one.
#[derive(Clone, Copy, Debug, PartialEq, Eq)]
pub struct ModeId {
    pub pred: u32,
    pub mode: u32,
}

/// The declared modes of a program, in the order in which their procedures are numbered.
pub fn mode_ids(alloc: Global, program: &Program, sigs: &[Sig]) -> Result<Vec<ModeId>, Memory>
    ensures { IfOk result (λ ids. ids.items ≡ mode_ids program.now sigs.now) }
{
    let mut ids = Vec::new(alloc);
    for pred in 0..program.preds.len() {
        if program.preds.get(pred).builtin.is_none() {
            add_ids(&mut ids, pred, mode_count(sigs, pred))?;
        }
    }
    Ok(ids)
}

/// How many modes a predicate has; none where it has no signature.
fn mode_count(sigs: &[Sig], pred: u32) -> u32
    ensures { result ≡ length (modes_at sigs.now pred) }
{
    let k = pred as usize;
    if k < sigs.len() {
        sigs[k].modes.len()
    } else {
        0
    }
}

/// The modes of a predicate that has so many come behind those that are there.
fn add_ids(ids: &mut Vec<ModeId>, pred: u32, count: u32) -> Result<(), Memory>
    ensures { OnOk result (ids.new.items ≡ ids.old.items ++ ids_of pred (from 0 count)) }
{
    for mode in 0..count {
        ids.push(ModeId { pred, mode })?;
    }
    Ok(())
}
