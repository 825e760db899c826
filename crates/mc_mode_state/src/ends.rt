ghost use Rattle.std.specs.Prelude.{◌≡◌, ◌<◌, ℕ, false, length, get_or, nat_eq, Some, None, IfOk, OnOk, IfNone, OnErr};
ghost use Rattle.mc_program.specs.Programs.{TypeTerm};
ghost use Rattle.mc_accepted.specs.Arranged.{ascending};
ghost use Rattle.mc_accepted.specs.NodeOracle.{NodeOracle};
ghost use Rattle.mc_insts.specs.Graphs.{count_of};
ghost use Rattle.mc_procs.specs.Named.{NumbersBelow};
ghost use Rattle.mc_procs.specs.Procedures.{PlainProcs};
ghost use Rattle.mc_mode_state.specs.States.{point_of, is_outside, SameLengths};
ghost use Rattle.mc_mode_state.specs.Agreeing.{OracleAgrees, StateInvariant, LaterByTrail, OnlyGrown};
ghost use Rattle.mc_mode_state.specs.Merged.{RowsFit, Merged};
ghost use Rattle.mc_mode_state.specs.code.Columns.{column, LongerThan, FirstDiffering, JoinedSoFar, freed_one, freed};

use crate::asking::{FREE, is_bound};
use crate::fault::{Failed, ModeFault};
use crate::joining::differs;
use crate::state::State;
use mc_base::{Memory, Row};
use mc_model::inst::InstId;
use mc_procs::Procs;
use std::alloc::Global;

/// The insts of one variable at the ends of branches.
fn column(alloc: Global, ends: &[Row<InstId>], k: u32) -> Result<Vec<InstId>, Memory>
    requires { LongerThan k ends.now }
    ensures { IfOk result (λ insts. insts.items ≡ column k ends.now) }
{
    let mut insts = Vec::with_capacity(alloc, ends.len())?;
    for end in ends {
        insts.push(*end.get(k))?;
    }
    Ok(insts)
}

impl State {
    /// The variable gets what one of these insts allows.
    #[tactic(auto, using(crate::proofs::Growths::refused_here, crate::proofs::Growths::refused_by, crate::proofs::Growths::refused_stepped, crate::proofs::Growths::refused_after))]
    fn join_one(
        &mut self,
        alloc: Global,
        procs: &mut Procs,
        x: u32,
        insts: &[InstId],
    ) -> Result<(), Memory>
        requires stands { StateInvariant procs.old self.old }
        requires variable { x < length self.old.insts.items }
        requires some { 0 < length insts.now }
        requires insts { (n : ℕ) → n < length insts.now → get_or insts.now n 0 < count_of procs.old.insts }
        ensures found { OnOk result ((C : NodeOracle) (T : ℕ → TypeTerm) → OracleAgrees procs.new self.new C T
            → C.joined (T x) insts.now ≡ Some (point_of self.new.insts.items x)) }
        ensures others { OnOk result ((y : ℕ) → nat_eq y x ≡ false
            → point_of self.new.insts.items y ≡ point_of self.old.insts.items y) }
        ensures count { OnOk result (length self.new.insts.items ≡ length self.old.insts.items) }
        ensures stepped { OnOk result (LaterByTrail procs.old procs.new self.old self.new) }
        ensures kept { OnErr result (OnlyGrown procs.old procs.new) }
    {
        let node = self.joined(alloc, procs, x, insts)?;
        self.set(x, node)?;
        Ok(())
    }

    /// Each of these variables gets what one of its insts at the ends allows, up to the first that only some of the ends
    /// bind.
    #[tactic(auto, using(crate::proofs::Growths::refused_here, crate::proofs::Growths::refused_by, crate::proofs::Growths::refused_stepped, crate::proofs::Growths::refused_after))]
    fn join_seen(
        &mut self,
        alloc: Global,
        procs: &mut Procs,
        seen: &Row<u32>,
        ends: &[Row<InstId>],
    ) -> Result<Option<u32>, Memory>
        requires stands { StateInvariant procs.old self.old }
        requires seen { NumbersBelow (length self.old.insts.items) seen.now }
        requires some { 0 < length ends.now }
        requires rows { RowsFit (length seen.now) (count_of procs.old.insts) ends.now }
        ensures differing { IfOk result (λ found. FirstDiffering seen.now ends.now found) }
        ensures joined { IfOk result (λ found. IfNone found
            (JoinedSoFar seen.now seen.now ends.now procs.new self.old self.new)) }
        ensures count { OnOk result (length self.new.insts.items ≡ length self.old.insts.items) }
        ensures stepped { OnOk result (LaterByTrail procs.old procs.new self.old self.new) }
        ensures kept { OnErr result (OnlyGrown procs.old procs.new) }
    {
        for k in 0..seen.len() {
            let x = *seen.get(k);
            let insts = column(alloc, ends, k)?;
            if differs(&insts) {
                return Ok(Some(x));
            }
            self.join_one(alloc, procs, x, &insts)?;
        }
        Ok(None)
    }

    /// Frees a variable that doesn't occur outside.
    fn free_one(&mut self, x: u32) -> Result<(), Memory>
        requires variable { x < length self.old.insts.items }
        requires outside { x < length self.old.outside.items }
        ensures point { OnOk result (point_of self.new.insts.items
            ≡ freed_one (is_outside self.old.outside.items) x (point_of self.old.insts.items)) }
        ensures count { OnOk result (length self.new.insts.items ≡ length self.old.insts.items) }
        ensures outside { OnOk result (self.new.outside ≡ self.old.outside) }
        ensures stepped { OnOk result ((q : PlainProcs) → StateInvariant q self.old
            → LaterByTrail q q self.old self.new) }
    {
        if self.is_outside(x) {
            return Ok(());
        }
        if !is_bound(self.inst(x)) {
            return Ok(());
        }
        self.set(x, FREE)?;
        Ok(())
    }

    /// Frees those of these variables that don't occur outside.
    fn free_inner(&mut self, own: &[u32]) -> Result<(), Memory>
        requires variables { NumbersBelow (length self.old.insts.items) own.now }
        requires even { SameLengths self.old }
        ensures point { OnOk result (point_of self.new.insts.items
            ≡ freed (is_outside self.old.outside.items) own.now (point_of self.old.insts.items)) }
        ensures count { OnOk result (length self.new.insts.items ≡ length self.old.insts.items) }
        ensures stepped { OnOk result ((q : PlainProcs) → StateInvariant q self.old
            → LaterByTrail q q self.old self.new) }
    {
        for x in own {
            self.free_one(*x)?;
        }
        Ok(())
    }

    /// What branches of a goal over these variables leave, as the seen ones have these insts at each reachable end: they
    /// get what one of these allows, and the goal's other variables are free. Answers whether an end is reachable.
    #[tactic(auto, using(crate::proofs::Growths::refused_here, crate::proofs::Growths::refused_by, crate::proofs::Growths::refused_stepped, crate::proofs::Growths::refused_after))]
    pub fn join(
        &mut self,
        alloc: Global,
        procs: &mut Procs,
        own: &[u32],
        seen: &Row<u32>,
        ends: &[Row<InstId>],
    ) -> Result<bool, Failed>
        requires stands { StateInvariant procs.old self.old }
        requires own { NumbersBelow (length self.old.insts.items) own.now }
        requires seen { seen.now ≡ ascending (is_outside self.old.outside.items) own.now }
        requires rows { RowsFit (length seen.now) (count_of procs.old.insts) ends.now }
        ensures merged { Merged own.now seen.now ends.now procs.old procs.new self.old self.new result }
        ensures count { OnOk result (length self.new.insts.items ≡ length self.old.insts.items) }
        ensures kept { OnErr result (OnlyGrown procs.old procs.new) }
    {
        if ends.is_empty() {
            return Ok(false);
        }
        match self.join_seen(alloc, procs, seen, ends)? {
            Some(x) => Err(Failed::Fault(ModeFault::BranchesDiffer(x))),
            None => {
                self.free_inner(own)?;
                Ok(true)
            }
        }
    }
}
