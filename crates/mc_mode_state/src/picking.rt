ghost use Rattle.std.specs.Prelude.{◌≡◌, ◌<◌, ℕ, List, Option, Some, None, length, get_or, map, IfOk, OnOk, if◌then◌else◌, OnErr};
ghost use Rattle.mc_program.specs.Programs.{TypeTerm};
ghost use Rattle.mc_model.specs.declared.inst.ModeDecl.{ModeDecl};
ghost use Rattle.mc_accepted.specs.Arranged.{Declared, best, better, usable};
ghost use Rattle.mc_accepted.specs.NodeOracle.{NodeOracle, of_nodes};
ghost use Rattle.mc_insts.specs.Graphs.{count_of};
ghost use Rattle.mc_procs.specs.Named.{NumbersBelow};
ghost use Rattle.mc_procs.specs.Procedures.{source_of};
ghost use Rattle.mc_mode_state.specs.States.{point_of};
ghost use Rattle.mc_mode_state.specs.Agreeing.{OracleAgrees, StateInvariant, LaterByTrail, OnlyGrown};
ghost use Rattle.mc_mode_state.specs.Modes.{declared_mode, ModeFits, ModesFit};
ghost use Rattle.mc_mode_state.specs.code.Picking.{better_pick, PickFits, IsPicked};

use crate::state::State;
use mc_base::{Memory, Row};
use mc_model::inst::ModeDecl;
use mc_procs::Procs;
use std::alloc::Global;

/// The mode that a call takes, by its place among the declared ones, with the places of its implied arguments.
#[derive(Drop)]
pub(crate) struct Pick {
    pub place: usize,
    pub implied: Row<u32>,
}

/// The better of the mode in a place and of one that was found behind it: the one with fewer implied arguments, the
/// earlier of two with as many.
fn better(place: usize, implied: Row<u32>, found: Option<Pick>) -> Pick
    ensures { result ≡ better_pick place implied found }
{
    match found {
        None => Pick { place, implied },
        Some(other) => {
            if other.implied.len() < implied.len() {
                other
            } else {
                Pick { place, implied }
            }
        }
    }
}

impl State {
    /// Of the usable modes the one with the fewest implied arguments, the earliest of these.
    #[tactic(auto, using(crate::proofs::Growths::refused_here, crate::proofs::Growths::refused_by, crate::proofs::Growths::refused_stepped, crate::proofs::Growths::refused_after))]
    pub(crate) fn best(
        &self,
        alloc: Global,
        procs: &mut Procs,
        modes: &[ModeDecl],
        xs: &[u32],
    ) -> Result<Option<Pick>, Memory>
        requires stands { StateInvariant procs.old self.now }
        requires variables { NumbersBelow (length self.now.insts.items) xs.now }
        requires modes { ModesFit (count_of procs.old.insts) modes.now }
        ensures best { IfOk result (λ found. (declared : ℕ → List Declared) (C : NodeOracle) (T : ℕ → TypeTerm)
            → OracleAgrees procs.new self.now C T
            → IsPicked modes.now xs.now (point_of self.now.insts.items) found
            (best (of_nodes C) (source_of procs.old) declared T (map declared_mode modes.now) xs.now
            (point_of self.now.insts.items))) }
        ensures fits { IfOk result (PickFits modes.now xs.now (point_of self.now.insts.items)) }
        ensures stepped { OnOk result (LaterByTrail procs.old procs.new self.now self.now) }
        ensures kept { OnErr result (OnlyGrown procs.old procs.new) }
    {
        let mut found = None;
        let mut k = modes.len();
        while k > 0 {
            k -= 1;
            let better = self.pick(alloc, procs, &modes[k], k, xs, found)?;
            found = better;
        }
        Ok(found)
    }

    /// The mode in a place where it is usable and better than what was found behind it; else what was found.
    #[tactic(auto, using(crate::proofs::Growths::refused_here, crate::proofs::Growths::refused_by, crate::proofs::Growths::refused_stepped, crate::proofs::Growths::refused_after))]
    fn pick(
        &self,
        alloc: Global,
        procs: &mut Procs,
        mode: &ModeDecl,
        place: usize,
        xs: &[u32],
        found: Option<Pick>,
    ) -> Result<Option<Pick>, Memory>
        requires stands { StateInvariant procs.old self.now }
        requires variables { NumbersBelow (length self.now.insts.items) xs.now }
        requires mode { ModeFits (count_of procs.old.insts) mode.now }
        ensures picked { IfOk result (λ picked. (declared : ℕ → List Declared) (C : NodeOracle) (T : ℕ → TypeTerm)
            (modes : List ModeDecl) (o : Option Declared)
            → OracleAgrees procs.new self.now C T
            → place < length modes → ((m : ModeDecl) → get_or modes place m ≡ mode.now)
            → IsPicked modes xs.now (point_of self.now.insts.items) found o
            → IsPicked modes xs.now (point_of self.now.insts.items) picked
            (if usable (of_nodes C) (source_of procs.old) declared T xs.now (declared_mode mode.now).modes xs.now
            (point_of self.now.insts.items)
            then Some (better (of_nodes C) (source_of procs.old) declared T xs.now
            (point_of self.now.insts.items) (declared_mode mode.now) o)
            else o)) }
        ensures fits { IfOk result (λ picked. (modes : List ModeDecl)
            → place < length modes → ((m : ModeDecl) → get_or modes place m ≡ mode.now)
            → PickFits modes xs.now (point_of self.now.insts.items) found
            → PickFits modes xs.now (point_of self.now.insts.items) picked) }
        ensures stepped { OnOk result (LaterByTrail procs.old procs.new self.now self.now) }
        ensures kept { OnErr result (OnlyGrown procs.old procs.new) }
    {
        let usable = self.usable(alloc, procs, mode, xs)?;
        if usable {
            let implied = self.implied(alloc, mode, xs)?;
            return Ok(Some(better(place, implied, found)));
        }
        Ok(found)
    }
}
