ghost use Rattle.std.specs.Prelude.{◌≡◌, ◌<◌, ◌∷◌, [], ◌||◌, ◌&&◌, nat_eq, IsTrue, ℕ, List, Some, None, length, map, not, IfOk, OnOk, IfSome, OnErr};
ghost use Rattle.mc_program.specs.Programs.{TypeTerm};
ghost use Rattle.mc_model.specs.Flat.{Call};
ghost use Rattle.mc_model.specs.Stream.{is_bound};
ghost use Rattle.mc_accepted.specs.Arranged.{Declared, is_input, usable};
ghost use Rattle.mc_accepted.specs.NodeOracle.{NodeOracle, of_nodes};
ghost use Rattle.mc_accepted.specs.Ordered.{times_in, zipped};
ghost use Rattle.mc_insts.specs.Graphs.{count_of};
ghost use Rattle.mc_procs.specs.Named.{NumbersBelow};
ghost use Rattle.mc_procs.specs.Procedures.{source_of};
ghost use Rattle.mc_program.specs.PlainPrograms.{plain_type};
ghost use Rattle.mc_mode_state.specs.Nodes.{type_in};
ghost use Rattle.mc_mode_state.specs.States.{point_of};
ghost use Rattle.mc_mode_state.specs.Agreeing.{OracleAgrees, StateInvariant, LaterByTrail, OnlyGrown};
ghost use Rattle.mc_mode_state.specs.Modes.{ModeFits};

use crate::asking::{DEAD, is_bound};
use crate::state::State;
use mc_base::Memory;
use mc_model::inst::{InstId, ModeDecl};
use mc_procs::Procs;
use mc_program::ty::Ty;
use std::alloc::Global;

/// How often a variable stands in a list.
fn times_in(xs: &[u32], x: u32) -> usize
    ensures { result ≡ times_in x xs.now }
{
    let mut times = 0;
    for y in xs {
        if x == *y {
            times += 1;
        }
    }
    times
}

impl State {
    /// The type of a variable.
    pub(crate) fn type_of(&self, x: u32) -> &Ty
        requires { x < length self.now.types.items }
        ensures { plain_type result.now ≡ type_in self.now.types.items x }
    {
        &self.types[x as usize]
    }

    /// Whether a variable's inst is included in another at its type.
    #[tactic(auto, using(crate::proofs::Growths::refused_here, crate::proofs::Growths::refused_by, crate::proofs::Growths::refused_stepped, crate::proofs::Growths::refused_after))]
    pub(crate) fn fits(
        &self,
        alloc: Global,
        procs: &mut Procs,
        x: u32,
        inst: InstId,
    ) -> Result<bool, Memory>
        requires stands { StateInvariant procs.old self.now }
        requires variable { x < length self.now.insts.items }
        requires inst { inst < count_of procs.old.insts }
        ensures fits { IfOk result (λ t. (C : NodeOracle) (T : ℕ → TypeTerm)
            → OracleAgrees procs.new self.now C T → C.fits (point_of self.now.insts.items x) inst (T x) ≡ t) }
        ensures stepped { OnOk result (LaterByTrail procs.old procs.new self.now self.now) }
        ensures kept { OnErr result (OnlyGrown procs.old procs.new) }
    {
        let fits = procs.includes(alloc, self.inst(x), inst, self.type_of(x))?;
        procs.fit();
        Ok(fits)
    }

    /// Whether a variable can't be at an input: it is free, or the input dies and it stands at another place too.
    fn is_barred(&self, all: &[u32], x: u32, last: InstId) -> bool
        requires { x < length self.now.insts.items }
        ensures { result ≡ (not (is_bound (point_of self.now.insts.items x))
            || (nat_eq last 3 && not (nat_eq (times_in x all.now) 1))) }
    {
        !is_bound(self.inst(x)) || (last == DEAD && times_in(all, x) != 1)
    }

    /// Whether a variable can be at an input with these insts.
    #[tactic(auto, using(crate::proofs::Growths::refused_here, crate::proofs::Growths::refused_by, crate::proofs::Growths::refused_stepped, crate::proofs::Growths::refused_after))]
    fn takes_input(
        &self,
        alloc: Global,
        procs: &mut Procs,
        all: &[u32],
        x: u32,
        first: InstId,
        last: InstId,
    ) -> Result<bool, Memory>
        requires stands { StateInvariant procs.old self.now }
        requires variable { x < length self.now.insts.items }
        requires first { first < count_of procs.old.insts }
        requires last { last < count_of procs.old.insts }
        ensures takes { IfOk result (λ t. (declared : ℕ → List Declared) (C : NodeOracle) (T : ℕ → TypeTerm)
            → OracleAgrees procs.new self.now C T
            → is_input (of_nodes C) (source_of procs.old) declared T all.now (first, last) x
            (point_of self.now.insts.items) ≡ t) }
        ensures stepped { OnOk result (LaterByTrail procs.old procs.new self.now self.now) }
        ensures kept { OnErr result (OnlyGrown procs.old procs.new) }
    {
        if self.is_barred(all, x, last) {
            return Ok(false);
        }
        let fits = self.fits(alloc, procs, x, first)?;
        Ok(fits)
    }

    /// Whether a mode takes an argument as it is: at an input, or anywhere else.
    #[tactic(auto, using(crate::proofs::Growths::refused_here, crate::proofs::Growths::refused_by, crate::proofs::Growths::refused_stepped, crate::proofs::Growths::refused_after))]
    fn takes(
        &self,
        alloc: Global,
        procs: &mut Procs,
        all: &[u32],
        x: u32,
        first: InstId,
        last: InstId,
    ) -> Result<bool, Memory>
        requires stands { StateInvariant procs.old self.now }
        requires variable { x < length self.now.insts.items }
        requires first { first < count_of procs.old.insts }
        requires last { last < count_of procs.old.insts }
        ensures takes { IfOk result (λ t. (declared : ℕ → List Declared) (C : NodeOracle) (T : ℕ → TypeTerm)
            → OracleAgrees procs.new self.now C T
            → (not (is_bound first) || is_input (of_nodes C) (source_of procs.old) declared T all.now
            (first, last) x (point_of self.now.insts.items)) ≡ t) }
        ensures stepped { OnOk result (LaterByTrail procs.old procs.new self.now self.now) }
        ensures kept { OnErr result (OnlyGrown procs.old procs.new) }
    {
        if is_bound(first) {
            let takes = self.takes_input(alloc, procs, all, x, first, last)?;
            return Ok(takes);
        }
        Ok(true)
    }

    /// Whether a mode is usable.
    #[tactic(auto, using(crate::proofs::Growths::refused_here, crate::proofs::Growths::refused_by, crate::proofs::Growths::refused_stepped, crate::proofs::Growths::refused_after))]
    pub fn usable(
        &self,
        alloc: Global,
        procs: &mut Procs,
        mode: &ModeDecl,
        xs: &[u32],
    ) -> Result<bool, Memory>
        requires stands { StateInvariant procs.old self.now }
        requires variables { NumbersBelow (length self.now.insts.items) xs.now }
        requires mode { ModeFits (count_of procs.old.insts) mode.now }
        ensures usable { IfOk result (λ t. (declared : ℕ → List Declared) (C : NodeOracle) (T : ℕ → TypeTerm)
            → OracleAgrees procs.new self.now C T
            → usable (of_nodes C) (source_of procs.old) declared T xs.now
            (zipped mode.now.first mode.now.last) xs.now (point_of self.now.insts.items) ≡ t) }
        ensures many { IfOk result (λ t. IsTrue t → length mode.now.first ≡ length xs.now) }
        ensures stepped { OnOk result (LaterByTrail procs.old procs.new self.now self.now) }
        ensures kept { OnErr result (OnlyGrown procs.old procs.new) }
    {
        if mode.first.len() as usize != xs.len() {
            return Ok(false);
        }
        for k in 0..mode.first.len() {
            let (first, last) = (*mode.first.get(k), *mode.last.get(k));
            if !self.takes(alloc, procs, xs, xs[k as usize], first, last)? {
                return Ok(false);
            }
        }
        Ok(true)
    }
}
