ghost use Rattle.std.specs.Prelude.{◌≡◌, Some, None, IfOk, OnOk};
ghost use Rattle.mc_plain.specs.code.RunState.{IsRunContext, IsReady, Moves, Stepped, Came, IsAt};

use crate::atoms::Shown;
use crate::control::widen_all;
use crate::state::{Continuation, NextAction, RunContext, RunState};
use crate::{Application, answer};
use mc_base::{Copied, Memory};
use mc_flat_code::code::{Instr, Span};
use mc_model::run::{Exception, Step, Stop};
use mc_program::builtin::Builtin;
use std::alloc::Global;

/// A copy of why a run stopped.
fn copied_stop(alloc: Global, stop: &Stop) -> Result<Stop, Memory>
    ensures { IfOk result (λ copy. copy ≡ stop.now) }
{
    match stop {
        Stop::Budget => Ok(Stop::Budget),
        Stop::TooDeep => Ok(Stop::TooDeep),
        Stop::Throw(Exception::ZeroDivide) => Ok(Stop::Throw(Exception::ZeroDivide)),
        Stop::Throw(Exception::Error(text)) => {
            let text = text.copied(alloc)?;
            Ok(Stop::Throw(Exception::Error(text)))
        }
    }
}

/// What a step did: it went on, it showed something of the run, or there is none, since an unbound variable would be read.
#[derive(Drop)]
pub enum StepResult {
    Moved,
    Showed(Step),
    Stuck,
}

impl RunState {
    /// What comes next of the run, or nothing where an unbound variable would be read.
    pub fn next(&mut self, alloc: Global, t: &RunContext<'_>) -> Result<Option<Step>, Memory>
        requires setting { IsRunContext t.now }
        requires ready { IsReady t.now self.old }
        ensures { IfOk result (λ step. Came t.now self.old step self.new) }
    {
        loop {
            let took = self.step(alloc, t)?;
            match took {
                StepResult::Moved => {}
                StepResult::Showed(step) => return Ok(Some(step)),
                StepResult::Stuck => return Ok(None),
            }
        }
    }

    /// One step of the run.
    fn step(&mut self, alloc: Global, t: &RunContext<'_>) -> Result<StepResult, Memory>
        requires setting { IsRunContext t.now }
        requires ready { IsReady t.now self.old }
        ensures { IfOk result (λ took. Stepped t.now self.old took self.new) }
    {
        match &self.control.now {
            NextAction::At(place) => {
                let place = *place;
                let took = self.at(alloc, t, place)?;
                Ok(took)
            }
            NextAction::Failing => {
                let took = self.fail(t)?;
                Ok(took)
            }
            NextAction::Ended => Ok(StepResult::Showed(Step::End)),
            NextAction::Stuck => Ok(StepResult::Stuck),
            NextAction::Stopped(stop) => {
                let copy = copied_stop(alloc, stop)?;
                Ok(StepResult::Showed(Step::Stopped(copy)))
            }
        }
    }
}

impl RunState {
    /// What is done at a place.
    fn at(&mut self, alloc: Global, t: &RunContext<'_>, place: u32) -> Result<StepResult, Memory>
        requires setting { IsRunContext t.now }
        requires ready { IsReady t.now self.old }
        requires now { self.old.control.now ≡ NextAction.At place }
        ensures { IfOk result (λ took. Stepped t.now self.old took self.new) }
    {
        match t.flat.code.goal(place) {
            None => {
                self.control.now = NextAction::Stuck;
                Ok(StepResult::Moved)
            }
            Some(goal) => {
                let took = self.run(alloc, t, place, goal)?;
                Ok(took)
            }
        }
    }

    /// Runs a goal.
    fn run(
        &mut self,
        alloc: Global,
        t: &RunContext<'_>,
        place: u32,
        goal: Instr,
    ) -> Result<StepResult, Memory>
        requires { IsAt t.now self.old place goal }
        ensures { IfOk result (λ took. Stepped t.now self.old took self.new) }
    {
        match goal {
            Instr::Done => {
                let took = self.answer(alloc, t, place)?;
                Ok(took)
            }
            Instr::Fail => {
                self.control.now = NextAction::Failing;
                Ok(StepResult::Moved)
            }
            Instr::Same(x, y, next) => {
                self.control.equate(&self.heap, x, y, next)?;
                Ok(StepResult::Moved)
            }
            Instr::Made(x, symbol, args, next) => {
                self.make(t, place, x, symbol, args, next)?;
                Ok(StepResult::Moved)
            }
            Instr::Constant(x, k, next) => {
                self.constant(t, place, x, k, next)?;
                Ok(StepResult::Moved)
            }
            Instr::Or(first, second) => {
                self.control.either(alloc, first, second)?;
                Ok(StepResult::Moved)
            }
            Instr::If(condition, then_place, else_place) => {
                self.control.apart(
                    alloc,
                    condition,
                    Continuation::Condition(then_place, else_place),
                )?;
                Ok(StepResult::Moved)
            }
            Instr::Not(goal, next) => {
                self.control
                    .apart(alloc, goal, Continuation::Negated(next))?;
                Ok(StepResult::Moved)
            }
            Instr::Once(goal, next) => {
                self.control.apart(alloc, goal, Continuation::Pruned(next))?;
                Ok(StepResult::Moved)
            }
            Instr::Call(number, args, is_last, _) => {
                self.control
                    .call(alloc, &t.flat, place, number, args, is_last)?;
                Ok(StepResult::Moved)
            }
            Instr::Apply(op, inputs, outputs, next) => {
                let took = self.apply(alloc, t, place, op, inputs, outputs, next)?;
                Ok(took)
            }
            Instr::Case(x, branches, other) => {
                self.control
                    .choose(&self.heap, &t.flat.code, &t.constants, x, branches, other)?;
                Ok(StepResult::Moved)
            }
        }
    }

    /// A variable meets a constructor over others.
    fn make(
        &mut self,
        t: &RunContext<'_>,
        _place: u32,
        x: u32,
        symbol: u32,
        args: Span,
        next: u32,
    ) -> Result<(), Memory>
        requires { IsAt t.now self.old _place (Instr.Made x symbol args next) }
        ensures { OnOk result (Moves t.now self.old self.new) }
    {
        let variables = t.flat.code.variables(args);
        self.control
            .make(&mut self.heap, &mut self.refs, x, symbol, variables, next)?;
        Ok(())
    }

    /// A variable meets a constant.
    fn constant(
        &mut self,
        t: &RunContext<'_>,
        _place: u32,
        x: u32,
        k: u32,
        next: u32,
    ) -> Result<(), Memory>
        requires { IsAt t.now self.old _place (Instr.Constant x k next) }
        ensures { OnOk result (Moves t.now self.old self.new) }
    {
        match t.constants.get(k as usize) {
            None => {
                self.control.now = NextAction::Stuck;
                Ok(())
            }
            Some(constant) => {
                let value = *constant;
                self.control.constant(&self.heap, x, value, next)?;
                Ok(())
            }
        }
    }

    /// A builtin, whose outputs meet what it gives.
    fn apply(
        &mut self,
        alloc: Global,
        t: &RunContext<'_>,
        _place: u32,
        op: Builtin,
        inputs: Span,
        outputs: Span,
        next: u32,
    ) -> Result<StepResult, Memory>
        requires { IsAt t.now self.old _place (Instr.Apply op inputs outputs next) }
        ensures { IfOk result (λ took. Stepped t.now self.old took self.new) }
    {
        let given = t.flat.code.variables(inputs);
        let taken = t.flat.code.variables(outputs);
        let call = Application {
            op,
            inputs: given,
            outputs: taken,
        };
        let (heap, refs) = (&mut self.heap, &mut self.refs);
        let shown = self
            .control
            .apply(alloc, &call, heap, &t.library, refs, next)?;
        match shown {
            Shown::Nothing => Ok(StepResult::Moved),
            Shown::Wrote(text) => Ok(StepResult::Showed(Step::Wrote(text))),
            Shown::Wants(from) => Ok(StepResult::Showed(Step::Wants(from))),
        }
    }

    /// An answer of what is run now, which may be the run's own.
    fn answer(
        &mut self,
        alloc: Global,
        t: &RunContext<'_>,
        _place: u32,
    ) -> Result<StepResult, Memory>
        requires { IsAt t.now self.old _place Instr.Done }
        ensures { IfOk result (λ took. Stepped t.now self.old took self.new) }
    {
        let apart = self.control.exit(alloc, &self.heap, &t.flat)?;
        if apart {
            return Ok(StepResult::Moved);
        }
        let head = t.flat.code.variables(t.head);
        let last = t.flat.code.variables(t.last);
        widen_all(&mut self.control.frame, head)?;
        let values = answer(alloc, &self.heap, head, last, &self.control.frame)?;
        self.control.now = NextAction::Failing;
        Ok(StepResult::Showed(Step::Answer(values)))
    }

    /// What is run now has no more answer; the run may end.
    fn fail(&mut self, t: &RunContext<'_>) -> Result<StepResult, Memory>
        requires setting { IsRunContext t.now }
        requires ready { IsReady t.now self.old }
        requires now { self.old.control.now ≡ NextAction.Failing }
        ensures { IfOk result (λ took. Stepped t.now self.old took self.new) }
    {
        let goes_on = self.control.fail()?;
        if goes_on {
            return Ok(StepResult::Moved);
        }
        Ok(StepResult::Showed(Step::End))
    }
}
