ghost use Rattle.std.specs.Prelude.{◌≡◌, ◌<◌, ℕ, List, length, IfOk, OnErr};
ghost use Rattle.mc_model.specs.Flat.{Call};
ghost use Rattle.mc_insts.specs.Graphs.{count_of};
ghost use Rattle.mc_procs.specs.Named.{NumbersBelow};
ghost use Rattle.mc_mode_state.specs.Agreeing.{StateInvariant, OnlyGrown};
ghost use Rattle.mc_mode_state.specs.Answers.{tried, Answers, FreshAlike};
ghost use Rattle.mc_modes.specs.Signatures.{modes_at, declared_in, SigsFit};

use mc_mode_state::{Failed, Part, State};
use mc_model::inst::{ModeDecl, Sig};
use mc_procs::Procs;
use std::alloc::Global;

/// The modes of a predicate; none where it has no signature.
pub fn modes_at(sigs: &[Sig], pred: u32) -> &[ModeDecl]
    ensures { result.now ≡ modes_at sigs.now pred }
{
    let k = pred as usize;
    if k < sigs.len() {
        sigs[k].modes.as_slice()
    } else {
        &[]
    }
}

/// A call: of a builtin, or of a predicate in one of its modes.
#[tactic(auto, using(mc_mode_state::proofs::Growths::refused_here, mc_mode_state::proofs::Growths::refused_by, mc_mode_state::proofs::Growths::refused_stepped, crate::proofs::Refusals::refused_moved, mc_mode_state::proofs::Growths::refused_after, crate::proofs::Refusals::refused_moved_after, crate::proofs::Refusals::refused_after_two))]
pub fn call(
    alloc: Global,
    procs: &mut Procs,
    sigs: &[Sig],
    state: &mut State,
    pred: u32,
    xs: &[u32],
) -> Result<Part, Failed>
    requires stands { StateInvariant procs.old state.old }
    requires sigs { SigsFit (count_of procs.old.insts) sigs.now }
    requires variables { NumbersBelow (length state.old.insts.items) xs.now }
    requires pred { pred < length procs.old.program.preds }
    ensures answer { (O : List ℕ) → Answers (tried (declared_in sigs.now) (Call pred xs.now) O
        procs.old state.old) procs.old procs.new state.old state.new result }
    ensures alike { IfOk result (FreshAlike (Call pred xs.now) state.new) }
    ensures kept { OnErr result (OnlyGrown procs.old procs.new) }
{
    let builtin = procs.program().preds.get(pred).builtin;
    match builtin {
        Some(op) => state.apply(alloc, procs, pred, op, xs),
        None => state.call(alloc, procs, pred, modes_at(sigs, pred), xs),
    }
}
