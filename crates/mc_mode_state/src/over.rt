ghost use Rattle.std.specs.Prelude.{◌≡◌, ◌<◌, ℕ, Some, length, get_or, IfOk, OnOk, OnErr};
ghost use Rattle.mc_program.specs.Programs.{TypeTerm};
ghost use Rattle.mc_accepted.specs.NodeOracle.{NodeOracle};
ghost use Rattle.mc_insts.specs.Graphs.{count_of};
ghost use Rattle.mc_procs.specs.Procedures.{source_of};
ghost use Rattle.mc_mode_state.specs.Agreeing.{OracleAgrees, StateInvariant, LaterByTrail, OnlyGrown};

use crate::state::State;
use mc_base::Memory;
use mc_model::inst::InstId;
use mc_procs::Procs;
use std::alloc::Global;

impl State {
    /// The inst of one symbol over insts, none of which is free.
    #[tactic(auto, using(crate::proofs::Growths::refused_here, crate::proofs::Growths::refused_by, crate::proofs::Growths::refused_stepped, crate::proofs::Growths::refused_after))]
    pub(crate) fn over(
        &mut self,
        alloc: Global,
        procs: &mut Procs,
        symbol: u32,
        insts: &[InstId],
    ) -> Result<InstId, Memory>
        requires stands { StateInvariant procs.old self.old }
        requires symbol { symbol < length procs.old.program.symbols }
        requires arity { length insts.now ≡ ((source_of procs.old).symbols symbol).name.arity }
        requires insts { (n : ℕ) → n < length insts.now → get_or insts.now n 0 < count_of procs.old.insts }
        ensures found { IfOk result (λ node. (C : NodeOracle) (T : ℕ → TypeTerm)
            → OracleAgrees procs.new self.new C T → C.over symbol insts.now ≡ Some node) }
        ensures there { IfOk result (λ node. node < count_of procs.new.insts) }
        ensures insts { OnOk result (self.new.insts ≡ self.old.insts) }
        ensures stepped { OnOk result (LaterByTrail procs.old procs.new self.old self.new) }
        ensures kept { OnErr result (OnlyGrown procs.old procs.new) }
    {
        let node = self.nodes.over(alloc, procs, symbol, insts)?;
        Ok(node)
    }
}
