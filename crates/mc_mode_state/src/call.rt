ghost use Rattle.std.specs.Prelude.{◌≡◌, ◌<◌, ℕ, List, None, Some, length, map, IfOk, OnErr};
ghost use Rattle.mc_model.specs.Flat.{Call};
ghost use Rattle.mc_model.specs.Stream.{is_bound};
ghost use Rattle.mc_accepted.specs.Arranged.{Declared, called};
ghost use Rattle.mc_accepted.specs.NodeOracle.{of_nodes};
ghost use Rattle.mc_accepted.specs.Ordered.{implied_places, zipped};
ghost use Rattle.mc_insts.specs.Graphs.{count_of};
ghost use Rattle.mc_procs.specs.Named.{NumbersBelow};
ghost use Rattle.mc_procs.specs.Procedures.{source_of};
ghost use Rattle.mc_mode_state.specs.States.{point_of};
ghost use Rattle.mc_mode_state.specs.Agreeing.{StateInvariant, OnlyGrown};
ghost use Rattle.mc_mode_state.specs.Answers.{tried, Ran, Answers, FreshAlike};
ghost use Rattle.mc_mode_state.specs.code.Applying.{TestsAgree};
ghost use Rattle.mc_mode_state.specs.Modes.{declared_mode, never_answers, ModeFits, ModesFit};

use crate::fault::Failed;
use crate::made::row_of;
use crate::part::Part;
use crate::picking::Pick;
use crate::state::State;
use mc_base::{Memory, Row};
use mc_model::inst::ModeDecl;
use mc_model::sched::Sched;
use mc_procs::Procs;
use mc_source::det::{Det, Most};
use std::alloc::Global;

/// Whether a call never comes back.
fn never_answers(det: Option<Det>) -> bool
    ensures { result ≡ never_answers det }
{
    match det {
        None => false,
        Some(det) => det.most == Most::Zero,
    }
}

impl State {
    /// A call of a predicate that has these modes. The usable mode with the fewest implied arguments is taken, the
    /// earliest of these.
    #[tactic(auto, using(crate::proofs::Growths::refused_here, crate::proofs::Growths::refused_by, crate::proofs::Growths::refused_stepped, crate::proofs::Growths::refused_after))]
    pub fn call(
        &mut self,
        alloc: Global,
        procs: &mut Procs,
        pred: u32,
        modes: &[ModeDecl],
        xs: &[u32],
    ) -> Result<Part, Failed>
        requires stands { StateInvariant procs.old self.old }
        requires variables { NumbersBelow (length self.old.insts.items) xs.now }
        requires modes { ModesFit (count_of procs.old.insts) modes.now }
        ensures answer { (declared : ℕ → List Declared) (outside : List ℕ)
            → declared pred ≡ map declared_mode modes.now
            → ((source_of procs.old).preds pred).builtin ≡ None
            → Answers (tried declared (Call pred xs.now) outside procs.old self.old) procs.old
            procs.new self.old self.new result }
        ensures alike { IfOk result (FreshAlike (Call pred xs.now) self.new) }
        ensures kept { OnErr result (OnlyGrown procs.old procs.new) }
    {
        let _ = pred;
        if self.one_is_dead(xs) {
            return Err(self.waiting(alloc, xs));
        }
        match self.best(alloc, procs, modes, xs)? {
            None => Err(self.waiting(alloc, xs)),
            Some(pick) => {
                let Pick { place, implied } = pick;
                let part = self.run(alloc, procs, &modes[place], implied, xs)?;
                Ok(part)
            }
        }
    }

    /// A call in this mode, with these implied arguments.
    #[tactic(auto, using(crate::proofs::Growths::refused_here, crate::proofs::Growths::refused_by, crate::proofs::Growths::refused_stepped, crate::proofs::Growths::refused_after))]
    fn run(
        &mut self,
        alloc: Global,
        procs: &mut Procs,
        mode: &ModeDecl,
        implied: Row<u32>,
        xs: &[u32],
    ) -> Result<Part, Memory>
        requires stands { StateInvariant procs.old self.old }
        requires variables { NumbersBelow (length self.old.insts.items) xs.now }
        requires mode { ModeFits (count_of procs.old.insts) mode.now }
        requires arguments { length mode.now.first ≡ length xs.now }
        ensures ran { IfOk result (λ part. (declared : ℕ → List Declared)
            → implied ≡ implied_places 0 (zipped mode.now.first mode.now.last) xs.now
            (λ x. is_bound (point_of self.old.insts.items x))
            → Ran (λ C T. called (of_nodes C) (source_of procs.old) declared T
            (Some (declared_mode mode.now)) xs.now (length self.old.insts.items)
            (point_of self.old.insts.items)) procs.old procs.new self.old self.new part) }
        ensures alike { IfOk result (TestsAgree self.new) }
        ensures kept { OnErr result (OnlyGrown procs.old procs.new) }
    {
        let trail = self.trail.len();
        let goal = Sched::Call(mode.proc, row_of(alloc, xs)?, implied);
        self.leave_arguments(alloc, procs, mode, xs)?;
        let part = self.one(alloc, goal, trail, !never_answers(mode.det))?;
        Ok(part)
    }
}
