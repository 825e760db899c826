ghost use Rattle.std.specs.Prelude.{◌≡◌, ◌<◌, ◌≤◌, ◌∷◌, ◌++◌, [], ℕ, List, Some, All, IfOk, OnOk, Vec, length, true, false};
ghost use Rattle.std.specs.Global.{Global as TheGlobal};
ghost use Rattle.mc_values.specs.declared.heap.Heap.{Heap as TheHeap};
ghost use Rattle.mc_program.specs.Values.{Val};
ghost use Rattle.mc_program.specs.declared.builtin.Builtin.{Builtin};
ghost use Rattle.mc_program.specs.declared.program.Program.{Program};
ghost use Rattle.mc_model.specs.Outcomes.{Outcome};
ghost use Rattle.mc_flat_code.specs.Running.{instr_at};
ghost use Rattle.mc_flat_code.specs.declared.code.FlatProgram.{FlatProgram as TheProgram};
ghost use Rattle.mc_plain.specs.Frames.{bindings};
ghost use Rattle.mc_plain.specs.Values.{AreLive, AreHeld};
ghost use Rattle.mc_plain.specs.code.Machine.{go, back, said, is_ended};
ghost use Rattle.mc_plain.specs.code.Views.{plain_now};
ghost use Rattle.mc_plain.specs.code.Held.{AllHeld};
ghost use Rattle.mc_plain.specs.declared.state.Segment.{Segment as TheSegment};
ghost use Rattle.mc_plain.specs.code.RunState.{Steps, StepsIn, HasEnded, IsAtAnswer};

use crate::control::widen_all;
use crate::state::{Continuation, Control, NextAction, Segment};
use crate::{Frame, enter, ready, returned};
use mc_base::Memory;
use mc_flat_code::code::{FlatProgram, Instr, Span};
use mc_model::run::Stop;
use mc_values::Heap;
use std::alloc::Global;
use std::mem::replace;

/// So many, or as many more as these variables need.
pub fn room(count: usize, variables: &[u32]) -> usize
    ensures { All (λ x. x < result) variables.now }
{
    let mut room = count;
    for variable in variables {
        room = room.max(*variable as usize + 1);
    }
    room
}

/// Whether a call finds no height.
fn is_too_deep(height: u32, is_last: bool) -> bool
    ensures yes { result ≡ true → (is_last ≡ false) × (height ≡ 0) }
    ensures no { result ≡ false → is_last ≡ false → 0 < height }
{
    if is_last { false } else { height == 0 }
}

/// How many frames that are done with are kept at most.
const MOST_SPARE: usize = 4096;

/// Keeps a frame that is done with, for a later call.
fn keep_spare(spare: &mut Vec<Frame>, done: Frame) -> Result<(), Memory> {
    if spare.len() < MOST_SPARE {
        spare.push(done)?;
    }
    Ok(())
}

/// The room of a frame that is done with, if there is one.
fn spare_frame(alloc: Global, spare: &mut Vec<Frame>) -> Frame {
    match spare.pop() {
        Some(frame) => frame,
        None => Vec::new(alloc),
    }
}

impl Control {
    /// A call of a procedure, by its number, with arguments. It stops where there is no height, and else where the budget
    /// is used up.
    pub fn call(
        &mut self,
        alloc: Global,
        flat: &FlatProgram,
        place: u32,
        number: u32,
        args: Span,
        is_last: bool,
    ) -> Result<(), Memory>
        requires { self.old.now ≡ NextAction.At place }
        ensures steps { OnOk result ((next : ℕ)
            → instr_at flat.now.code place ≡ Some (Instr.Call number args is_last next)
            → Steps flat.now self.old self.new) }
        ensures held { OnOk result ((P : Program) (h : TheHeap)
            → AllHeld P h self.old → AllHeld P h self.new) }
    {
        if is_too_deep(self.height, is_last) {
            self.now = NextAction::Stopped(Stop::TooDeep);
            return Ok(());
        }
        // Never so: the levels are more than what is left of the budget, since a call takes one of each and its end gives
        // back levels alone. The test is what lets `enter` take one.
        if self.level == 0 {
            self.now = NextAction::Stopped(Stop::Budget);
            return Ok(());
        }
        if self.budget == 0 {
            self.now = NextAction::Stopped(Stop::Budget);
            return Ok(());
        }
        let body = flat.body(number);
        let variables = flat.code.variables(args);
        let head = flat.code.variables(body.head);
        let first = flat.code.variables(body.first);
        widen_all(&mut self.frame, variables)?;
        let is_ready = ready(first, variables, &self.frame);
        if is_ready {
            let size = room(body.size as usize, head);
            let spare = spare_frame(alloc, &mut self.spare);
            let inner = enter(spare, size, head, first, variables, &self.frame)?;
            self.enter(inner, body.entry, place, is_last)?;
            return Ok(());
        }
        self.now = NextAction::Stuck;
        Ok(())
    }

    /// An answer of what is run now. Answers whether that was run apart: else the answer is the run's own.
    pub fn exit(&mut self, alloc: Global, heap: &Heap, flat: &FlatProgram) -> Result<bool, Memory>
        requires base { self.old.base ≤ length self.old.points.items }
        requires held { (P : Program) × AllHeld P heap.now self.old }
        ensures steps { IfOk result (λ apart. apart ≡ true → IsAtAnswer flat.now self.old
            → StepsIn heap.now flat.now self.old self.new) }
        ensures stays { IfOk result (λ apart. apart ≡ false
            → (self.old.segments.items ≡ []) × (self.new ≡ self.old)) }
        ensures held { OnOk result ((P : Program)
            → AllHeld P heap.now self.old → AllHeld P heap.now self.new) }
    {
        if self.segments.is_empty() {
            return Ok(false);
        }
        match self.segments.pop() {
            None => unreachable!(),
            Some(segment) => {
                self.answered(alloc, heap, flat, segment)?;
                Ok(true)
            }
        }
    }

    /// An answer of a goal that was run apart, which is no longer around.
    fn answered(
        &mut self,
        alloc: Global,
        heap: &Heap,
        flat: &FlatProgram,
        segment: Segment,
    ) -> Result<(), Memory>
        requires base { self.old.base ≤ length self.old.points.items }
        requires frame { AreLive heap.now self.old.frame.items }
        requires outer { AreLive heap.now segment.frame.items }
        ensures steps { OnOk result ((segments : Vec TheSegment TheGlobal)
            → segments.items ≡ self.old.segments.items ++ segment ∷ []
            → IsAtAnswer flat.now (record self.old { segments = segments })
            → StepsIn heap.now flat.now (record self.old { segments = segments }) self.new) }
        ensures held { OnOk result ((P : Program) → AreHeld P heap.now segment.frame.items
            → AllHeld P heap.now self.old → AllHeld P heap.now self.new) }
    {
        let Segment {
            around,
            frame,
            level,
            height,
            below,
        } = segment;
        match around {
            Continuation::Condition(next, _) => {
                let none = Vec::new(alloc);
                self.keep(
                    alloc,
                    Continuation::Answered(next),
                    &none,
                    level,
                    height,
                    below,
                    NextAction::At(next),
                )?;
                Ok(())
            }
            Continuation::Answered(next) => {
                let none = Vec::new(alloc);
                self.keep(
                    alloc,
                    around,
                    &none,
                    level,
                    height,
                    below,
                    NextAction::At(next),
                )?;
                Ok(())
            }
            Continuation::Negated(_) => {
                self.give_up(level, height, below, NextAction::Failing);
                Ok(())
            }
            Continuation::Pruned(next) => {
                self.give_up(level, height, below, NextAction::At(next));
                Ok(())
            }
            Continuation::Called(place) => {
                let mut outer = frame;
                self.keep(
                    alloc,
                    around,
                    &outer,
                    level,
                    height,
                    below,
                    NextAction::Failing,
                )?;
                let now = came_back(heap, flat, place, &mut self.frame, &mut outer)?;
                let done = replace(&mut self.frame, outer);
                self.now = now;
                keep_spare(&mut self.spare, done)?;
                Ok(())
            }
        }
    }

    /// There is no more answer of what is run now. Answers whether the run goes on.
    pub fn fail(&mut self) -> Result<bool, Memory>
        requires { self.old.now ≡ NextAction.Failing }
        ensures steps { IfOk result (λ goes_on. goes_on ≡ true
            → (f : TheProgram) → Steps f self.old self.new) }
        ensures ends { IfOk result (λ goes_on. goes_on ≡ false
            → (self.new ≡ record self.old { now = NextAction.Ended })
            × ((f : TheProgram) → HasEnded f self.old)) }
        ensures held { OnOk result ((P : Program) (h : TheHeap)
            → AllHeld P h self.old → AllHeld P h self.new) }
    {
        if self.points.len() > self.base {
            self.resume()?;
            return Ok(true);
        }
        if self.segments.is_empty() {
            self.now = NextAction::Ended;
            return Ok(false);
        }
        self.leave();
        Ok(true)
    }
}

/// The answer of a call comes to the variables of its caller: what is done next.
fn came_back(
    heap: &Heap,
    flat: &FlatProgram,
    place: u32,
    callee: &mut Frame,
    caller: &mut Frame,
) -> Result<NextAction, Memory>
    requires callee { AreLive heap.now callee.old.items }
    requires caller { AreLive heap.now caller.old.items }
    ensures going { IfOk result (λ now. is_ended (plain_now now) ≡ false) }
    ensures says { IfOk result (λ now.
        (outcome : Builtin → List Val → Outcome) (m height : ℕ)
        → back outcome flat.now m height (instr_at flat.now.code place)
        (bindings heap.now caller.old.items) (bindings heap.now callee.old.items)
        ≡ said outcome flat.now (go outcome flat.now m height) (plain_now now)
        (bindings heap.now caller.new.items)) }
    ensures held { OnOk result ((P : Program) → AreHeld P heap.now callee.old.items
        → AreHeld P heap.now caller.old.items → AreHeld P heap.now caller.new.items) }
{
    match flat.code.goal(place) {
        Some(Instr::Call(number, args, _, next)) => {
            let body = flat.body(number);
            let args = flat.code.variables(args);
            let head = flat.code.variables(body.head);
            let last = flat.code.variables(body.last);
            widen_all(caller, args)?;
            widen_all(callee, head)?;
            let met = returned(heap, args, head, last, callee, caller)?;
            if met {
                Ok(NextAction::At(next))
            } else {
                Ok(NextAction::Failing)
            }
        }
        _ => Ok(NextAction::Stuck),
    }
}
