ghost use Rattle.std.specs.Prelude.{◌≡◌, ◌<◌, ℕ, List, Some, None, length, IfOk, OnErr};
ghost use Rattle.mc_source.specs.Determinism.{is_zero};
ghost use Rattle.mc_model.specs.Flat.{Call};
ghost use Rattle.mc_model.specs.Stream.{is_bound};
ghost use Rattle.mc_accepted.specs.Arranged.{Declared, applied_to, applied_freshly, applied_with, fresh_at, tests_at};
ghost use Rattle.mc_accepted.specs.NodeOracle.{of_nodes};
ghost use Rattle.mc_accepted.specs.Ordered.{builtin_most, implied_places, modes_of, zipped};
ghost use Rattle.mc_insts.specs.Graphs.{count_of};
ghost use Rattle.mc_procs.specs.Named.{NumbersBelow};
ghost use Rattle.mc_procs.specs.Procedures.{source_of};
ghost use Rattle.mc_mode_state.specs.States.{point_of};
ghost use Rattle.mc_mode_state.specs.Agreeing.{StateInvariant, OnlyGrown};
ghost use Rattle.mc_mode_state.specs.Answers.{tried, Ran, Answers, FreshAlike};
ghost use Rattle.mc_mode_state.specs.code.Applying.{TestsAgree};
ghost use Rattle.mc_mode_state.specs.Modes.{ModeFits};

use crate::applied::{apply_goal, with_tests};
use crate::builtin_modes::builtin_mode;
use crate::fault::Failed;
use crate::fresh::Freshened;
use crate::part::Part;
use crate::state::State;
use mc_base::{Memory, Row};
use mc_model::inst::ModeDecl;
use mc_procs::Procs;
use mc_program::builtin::Builtin;
use std::alloc::Global;

/// Whether a builtin never comes back.
fn never_returns(op: Builtin) -> bool
    ensures { result ≡ is_zero (builtin_most op) }
{
    matches!(op, Builtin::Error)
}

impl State {
    /// A call of a predicate that is a builtin. Where an output is implied, a fresh variable stands for it and is tested
    /// directly afterwards.
    #[tactic(auto, using(crate::proofs::Growths::refused_here, crate::proofs::Growths::refused_by, crate::proofs::Growths::refused_stepped, crate::proofs::Growths::refused_after))]
    pub fn apply(
        &mut self,
        alloc: Global,
        procs: &mut Procs,
        pred: u32,
        op: Builtin,
        xs: &[u32],
    ) -> Result<Part, Failed>
        requires stands { StateInvariant procs.old self.old }
        requires variables { NumbersBelow (length self.old.insts.items) xs.now }
        ensures answer { (declared : ℕ → List Declared) (outside : List ℕ)
            → ((source_of procs.old).preds pred).builtin ≡ Some op
            → Answers (tried declared (Call pred xs.now) outside procs.old self.old) procs.old
            procs.new self.old self.new result }
        ensures alike { IfOk result (FreshAlike (Call pred xs.now) self.new) }
        ensures kept { OnErr result (OnlyGrown procs.old procs.new) }
    {
        let _ = pred;
        if self.one_is_dead(xs) {
            return Err(self.waiting(alloc, xs));
        }
        let mode = builtin_mode(alloc, op)?;
        let usable = self.usable(alloc, procs, &mode, xs)?;
        if !usable {
            return Err(self.waiting(alloc, xs));
        }
        let part = self.apply_in(alloc, procs, op, &mode, xs)?;
        Ok(part)
    }

    /// A builtin in its mode, which is usable.
    #[tactic(auto, using(crate::proofs::Growths::refused_here, crate::proofs::Growths::refused_by, crate::proofs::Growths::refused_stepped, crate::proofs::Growths::refused_after))]
    fn apply_in(
        &mut self,
        alloc: Global,
        procs: &mut Procs,
        op: Builtin,
        mode: &ModeDecl,
        xs: &[u32],
    ) -> Result<Part, Memory>
        requires stands { StateInvariant procs.old self.old }
        requires variables { NumbersBelow (length self.old.insts.items) xs.now }
        requires mode { ModeFits (count_of procs.old.insts) mode.now }
        requires modes { zipped mode.now.first mode.now.last ≡ modes_of op }
        requires arguments { length mode.now.first ≡ length xs.now }
        ensures ran { IfOk result (λ part. (declared : ℕ → List Declared)
            → Ran (λ C T. applied_with (of_nodes C) (source_of procs.old) declared T
            (implied_places 0 (modes_of op) xs.now (λ x. is_bound (point_of self.old.insts.items x)))
            op xs.now (length self.old.insts.items) (point_of self.old.insts.items)) procs.old
            procs.new self.old self.new part) }
        ensures alike { IfOk result (TestsAgree self.new) }
        ensures kept { OnErr result (OnlyGrown procs.old procs.new) }
    {
        let implied = self.implied(alloc, mode, xs)?;
        if implied.is_empty() {
            let part = self.apply_plainly(alloc, procs, op, mode, xs)?;
            return Ok(part);
        }
        let part = self.apply_freshly(alloc, procs, op, mode, &implied, xs)?;
        Ok(part)
    }

    /// A builtin that has no implied outputs.
    #[tactic(auto, using(crate::proofs::Growths::refused_here, crate::proofs::Growths::refused_by, crate::proofs::Growths::refused_stepped, crate::proofs::Growths::refused_after))]
    fn apply_plainly(
        &mut self,
        alloc: Global,
        procs: &mut Procs,
        op: Builtin,
        mode: &ModeDecl,
        xs: &[u32],
    ) -> Result<Part, Memory>
        requires stands { StateInvariant procs.old self.old }
        requires variables { NumbersBelow (length self.old.insts.items) xs.now }
        requires mode { ModeFits (count_of procs.old.insts) mode.now }
        requires modes { zipped mode.now.first mode.now.last ≡ modes_of op }
        requires arguments { length mode.now.first ≡ length xs.now }
        ensures ran { IfOk result (λ part. (declared : ℕ → List Declared)
            → Ran (λ C T. applied_to (of_nodes C) (source_of procs.old) declared T op xs.now
            (length self.old.insts.items) (point_of self.old.insts.items)) procs.old procs.new
            self.old self.new part) }
        ensures alike { IfOk result (TestsAgree self.new) }
        ensures kept { OnErr result (OnlyGrown procs.old procs.new) }
    {
        let trail = self.trail.len();
        let goal = apply_goal(alloc, op, mode, xs)?;
        self.leave_arguments(alloc, procs, mode, xs)?;
        let part = self.one(alloc, goal, trail, !never_returns(op))?;
        Ok(part)
    }

    /// A builtin of which these outputs are implied.
    #[tactic(auto, using(crate::proofs::Growths::refused_here, crate::proofs::Growths::refused_by, crate::proofs::Growths::refused_stepped, crate::proofs::Growths::refused_after))]
    fn apply_freshly(
        &mut self,
        alloc: Global,
        procs: &mut Procs,
        op: Builtin,
        mode: &ModeDecl,
        implied: &Row<u32>,
        xs: &[u32],
    ) -> Result<Part, Memory>
        requires stands { StateInvariant procs.old self.old }
        requires variables { NumbersBelow (length self.old.insts.items) xs.now }
        requires mode { ModeFits (count_of procs.old.insts) mode.now }
        requires modes { zipped mode.now.first mode.now.last ≡ modes_of op }
        requires arguments { length mode.now.first ≡ length xs.now }
        ensures ran { IfOk result (λ part. (declared : ℕ → List Declared)
            → Ran (λ C T. applied_freshly (of_nodes C) (source_of procs.old) declared T op
            (fresh_at 0 implied.now xs.now (length self.old.insts.items))
            (tests_at 0 implied.now xs.now (length self.old.insts.items))
            (length self.old.insts.items) (point_of self.old.insts.items)) procs.old procs.new
            self.old self.new part) }
        ensures alike { IfOk result (TestsAgree self.new) }
        ensures kept { OnErr result (OnlyGrown procs.old procs.new) }
    {
        let trail = self.trail.len();
        let Freshened { args, tests } = self.freshen(alloc, mode, implied, xs)?;
        let goal = apply_goal(alloc, op, mode, args.as_slice())?;
        self.leave_arguments(alloc, procs, mode, args.as_slice())?;
        let node = self.keeping(alloc, goal, trail, true)?;
        let goals = with_tests(alloc, node, tests.as_slice())?;
        Ok(Part {
            goals,
            reachable: true,
            freshened: args,
        })
    }
}
