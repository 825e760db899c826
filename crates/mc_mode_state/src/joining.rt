ghost use Rattle.std.specs.Prelude.{◌≡◌, ◌<◌, ◌&&◌, ℕ, Some, length, get_or, not, IfOk, OnOk, OnErr};
ghost use Rattle.std.specs.List.{list_any};
ghost use Rattle.mc_program.specs.Programs.{TypeTerm};
ghost use Rattle.mc_model.specs.Stream.{is_bound};
ghost use Rattle.mc_accepted.specs.NodeOracle.{NodeOracle};
ghost use Rattle.mc_insts.specs.Graphs.{count_of};
ghost use Rattle.mc_mode_state.specs.Agreeing.{OracleAgrees, StateInvariant, LaterByTrail, OnlyGrown};

use crate::asking::is_bound;
use crate::state::State;
use mc_base::Memory;
use mc_model::inst::InstId;
use mc_procs::Procs;
use std::alloc::Global;

fn one_is_free(insts: &[InstId]) -> bool
    ensures { result ≡ list_any (λ i. not (is_bound i)) insts.now }
{
    for inst in insts {
        if !is_bound(*inst) {
            return true;
        }
    }
    false
}

fn one_is_bound(insts: &[InstId]) -> bool
    ensures { result ≡ list_any (λ i. is_bound i) insts.now }
{
    for inst in insts {
        if is_bound(*inst) {
            return true;
        }
    }
    false
}

/// Whether some ends of branches bind a variable, of which these are the insts there, and some don't.
pub fn differs(insts: &[InstId]) -> bool
    ensures { result ≡ (list_any (λ i. not (is_bound i)) insts.now
        && list_any (λ i. is_bound i) insts.now) }
{
    one_is_free(insts) && one_is_bound(insts)
}

impl State {
    /// What one of these insts, which a variable has at ends of branches, allows.
    #[tactic(auto, using(crate::proofs::Growths::refused_here, crate::proofs::Growths::refused_by, crate::proofs::Growths::refused_stepped, crate::proofs::Growths::refused_after))]
    pub fn joined(
        &mut self,
        alloc: Global,
        procs: &mut Procs,
        x: u32,
        insts: &[InstId],
    ) -> Result<InstId, Memory>
        requires stands { StateInvariant procs.old self.old }
        requires variable { x < length self.old.types.items }
        requires some { 0 < length insts.now }
        requires insts { (n : ℕ) → n < length insts.now → get_or insts.now n 0 < count_of procs.old.insts }
        ensures found { IfOk result (λ node. (C : NodeOracle) (T : ℕ → TypeTerm)
            → OracleAgrees procs.new self.new C T → C.joined (T x) insts.now ≡ Some node) }
        ensures there { IfOk result (λ node. node < count_of procs.new.insts) }
        ensures insts { OnOk result (self.new.insts ≡ self.old.insts) }
        ensures stepped { OnOk result (LaterByTrail procs.old procs.new self.old self.new) }
        ensures kept { OnErr result (OnlyGrown procs.old procs.new) }
    {
        let node = self
            .nodes
            .joined(alloc, procs, &self.types[x as usize], insts)?;
        Ok(node)
    }
}
