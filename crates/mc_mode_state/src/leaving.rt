ghost use Rattle.std.specs.Prelude.{◌≡◌, ◌<◌, ◌∷◌, [], ◌&&◌, ◌||◌, ℕ, List, length, map, get_or, not, IfOk, OnOk, if◌then◌else◌, OnErr};
ghost use Rattle.mc_program.specs.Programs.{TypeTerm};
ghost use Rattle.mc_model.specs.Lists.{is_in};
ghost use Rattle.mc_model.specs.Stream.{is_bound};
ghost use Rattle.mc_accepted.specs.Arranged.{Declared, input_after, after};
ghost use Rattle.mc_accepted.specs.NodeOracle.{NodeOracle, of_nodes};
ghost use Rattle.mc_accepted.specs.Ordered.{zipped};
ghost use Rattle.mc_insts.specs.Graphs.{count_of};
ghost use Rattle.mc_procs.specs.Named.{NumbersBelow};
ghost use Rattle.mc_procs.specs.Procedures.{source_of};
ghost use Rattle.mc_mode_state.specs.States.{point_of};
ghost use Rattle.mc_mode_state.specs.Agreeing.{OracleAgrees, StateInvariant, LaterByTrail, OnlyGrown};
ghost use Rattle.mc_mode_state.specs.Modes.{ModeFits};
ghost use Rattle.mc_mode_state.specs.code.Leaving.{left_by};

use crate::asking::{DEAD, is_bound};
use crate::calls::{has, is_output};
use crate::state::State;
use mc_base::Memory;
use mc_model::inst::{InstId, ModeDecl};
use mc_procs::Procs;
use std::alloc::Global;

/// Notes that a variable is given by an output that isn't implied.
fn give(given: &mut Vec<u32>, x: u32, is_output: bool, is_there: bool) -> Result<(), Memory>
    ensures { OnOk result (given.new.items
        ≡ (if is_output && not is_there then x ∷ given.old.items else given.old.items)) }
{
    if is_output && !is_there {
        given.insert(0, x)?;
        return Ok(());
    }
    Ok(())
}

/// Whether a variable was given by an earlier output, or had a bound inst before the call.
fn was_there(given: &[u32], x: u32, before: InstId) -> bool
    ensures { result ≡ (is_in x given.now || is_bound before) }
{
    has(given, x) || is_bound(before)
}

/// Whether an argument that is no input keeps its inst.
fn stays(last: InstId, is_there: bool) -> bool
    ensures { result ≡ (not (is_bound last) || is_there) }
{
    !is_bound(last) || is_there
}

impl State {
    /// What a call in a mode leaves of its arguments.
    #[tactic(auto, using(crate::proofs::Growths::refused_here, crate::proofs::Growths::refused_by, crate::proofs::Growths::refused_stepped, crate::proofs::Growths::refused_after))]
    pub fn leave_arguments(
        &mut self,
        alloc: Global,
        procs: &mut Procs,
        mode: &ModeDecl,
        xs: &[u32],
    ) -> Result<(), Memory>
        requires stands { StateInvariant procs.old self.old }
        requires variables { NumbersBelow (length self.old.insts.items) xs.now }
        requires mode { ModeFits (count_of procs.old.insts) mode.now }
        requires arguments { length mode.now.first ≡ length xs.now }
        ensures after { OnOk result ((declared : ℕ → List Declared) (C : NodeOracle) (T : ℕ → TypeTerm)
            → OracleAgrees procs.new self.new C T
            → after (of_nodes C) (source_of procs.old) declared T
            (zipped mode.now.first mode.now.last) xs.now (point_of self.old.insts.items)
            ≡ point_of self.new.insts.items) }
        ensures count { OnOk result (length self.new.insts.items ≡ length self.old.insts.items) }
        ensures stepped { OnOk result (LaterByTrail procs.old procs.new self.old self.new) }
        ensures kept { OnErr result (OnlyGrown procs.old procs.new) }
    {
        let insts = self.insts_at(alloc, xs)?;
        let before = insts.as_slice();
        let mut given = Vec::new(alloc);
        for k in 0..mode.first.len() {
            let x = xs[k as usize];
            let (first, last) = (*mode.first.get(k), *mode.last.get(k));
            let is_there = was_there(&given, x, before[k as usize]);
            self.leave_one(alloc, procs, x, first, last, is_there)?;
            give(&mut given, x, is_output(first, last), is_there)?;
        }
        Ok(())
    }

    /// What a call leaves of one argument.
    #[tactic(auto, using(crate::proofs::Growths::refused_here, crate::proofs::Growths::refused_by, crate::proofs::Growths::refused_stepped, crate::proofs::Growths::refused_after))]
    fn leave_one(
        &mut self,
        alloc: Global,
        procs: &mut Procs,
        x: u32,
        first: InstId,
        last: InstId,
        is_there: bool,
    ) -> Result<(), Memory>
        requires stands { StateInvariant procs.old self.old }
        requires variable { x < length self.old.insts.items }
        requires inst { last < count_of procs.old.insts }
        ensures left { OnOk result ((declared : ℕ → List Declared) (C : NodeOracle) (T : ℕ → TypeTerm)
            → OracleAgrees procs.new self.new C T
            → left_by (of_nodes C) (source_of procs.old) declared T (first, last) is_there x
            (point_of self.old.insts.items) ≡ point_of self.new.insts.items) }
        ensures count { OnOk result (length self.new.insts.items ≡ length self.old.insts.items) }
        ensures stepped { OnOk result (LaterByTrail procs.old procs.new self.old self.new) }
        ensures kept { OnErr result (OnlyGrown procs.old procs.new) }
    {
        if is_bound(first) {
            self.leave_input(alloc, procs, x, first, last)?;
            return Ok(());
        }
        if stays(last, is_there) {
            return Ok(());
        }
        self.set(x, last)?;
        Ok(())
    }

    /// An input becomes dead where its final inst is; any other keeps its inst where the final inst includes it, else
    /// has the final inst.
    #[tactic(auto, using(crate::proofs::Growths::refused_here, crate::proofs::Growths::refused_by, crate::proofs::Growths::refused_stepped, crate::proofs::Growths::refused_after))]
    fn leave_input(
        &mut self,
        alloc: Global,
        procs: &mut Procs,
        x: u32,
        first: InstId,
        last: InstId,
    ) -> Result<(), Memory>
        requires stands { StateInvariant procs.old self.old }
        requires variable { x < length self.old.insts.items }
        requires inst { last < count_of procs.old.insts }
        ensures left { OnOk result ((declared : ℕ → List Declared) (C : NodeOracle) (T : ℕ → TypeTerm)
            → OracleAgrees procs.new self.new C T
            → input_after (of_nodes C) (source_of procs.old) declared T (first, last) x
            (point_of self.old.insts.items) ≡ point_of self.new.insts.items) }
        ensures count { OnOk result (length self.new.insts.items ≡ length self.old.insts.items) }
        ensures stepped { OnOk result (LaterByTrail procs.old procs.new self.old self.new) }
        ensures kept { OnErr result (OnlyGrown procs.old procs.new) }
    {
        let _ = first;
        if last == DEAD {
            self.set(x, last)?;
            return Ok(());
        }
        let fits = self.fits(alloc, procs, x, last)?;
        if fits {
            return Ok(());
        }
        self.set(x, last)?;
        Ok(())
    }
}
