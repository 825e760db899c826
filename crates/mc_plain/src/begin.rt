ghost use Rattle.std.specs.Prelude.{◌≡◌, ◌<◌, ◌∷◌, [], Some, None, All, IfOk, OnOk, length, map};
ghost use Rattle.mc_program.specs.Values.{state, plain_value};
ghost use Rattle.mc_program.specs.declared.program.Program.{Program};
ghost use Rattle.mc_values.specs.Heap.{IsLive, values_at, Extends};
ghost use Rattle.mc_values.specs.declared.heap.Heap.{Heap as TheHeap};
ghost use Rattle.mc_plain.specs.Frames.{bindings, seen_at};
ghost use Rattle.mc_plain.specs.Values.{IsConstant, AreHeld};
ghost use Rattle.mc_plain.specs.code.Held.{AllHeld};
ghost use Rattle.mc_plain.specs.code.Views.{machine, plain_now};
ghost use Rattle.mc_plain.specs.code.Beginnings.{first_machine, called_machine, first_now};

use crate::state::{Control, NextAction};
use crate::{Frame, constant};
use mc_base::{Memory, Text};
use mc_model::run::{Limits, Stop};
use mc_program::value::Value;
use mc_values::{Heap, Ref};
use std::alloc::Global;

impl Control {
    /// A run that begins, with so many levels of calls.
    pub fn begin(
        alloc: Global,
        frame: Frame,
        limits: Limits,
        level: u64,
        now: NextAction,
    ) -> Control
        ensures begins { (h : TheHeap) → machine h result
            ≡ first_machine limits.budget limits.depth level (bindings h frame.items)
            (plain_now now) }
        ensures held { (P : Program) (h : TheHeap) → AreHeld P h frame.items
            → AllHeld P h result }
    {
        Control {
            segments: Vec::new(alloc),
            points: Vec::new(alloc),
            frame,
            base: 0,
            level,
            height: limits.depth,
            budget: limits.budget,
            now,
            spare: Vec::new(alloc),
        }
    }

    /// A run that begins with a call, and goes on so once it is made.
    pub fn begin_call(alloc: Global, frame: Frame, limits: Limits, now: NextAction) -> Control
        ensures begins { (h : TheHeap) → machine h result
            ≡ called_machine limits.budget limits.depth (bindings h frame.items)
            (plain_now now) }
        ensures held { (P : Program) (h : TheHeap) → AreHeld P h frame.items
            → AllHeld P h result }
    {
        if limits.depth == 0 {
            return Control::begin(alloc, frame, limits, 0, NextAction::Stopped(Stop::TooDeep));
        }
        if limits.budget == 0 {
            return Control::begin(alloc, frame, limits, 0, NextAction::Stopped(Stop::Budget));
        }
        let inner = Limits {
            budget: limits.budget - 1,
            depth: limits.depth - 1,
        };
        Control::begin(alloc, frame, inner, limits.budget as u64, now)
    }
}

/// Where a body begins whose inputs are there or not.
pub fn first_now(entry: u32, is_ready: bool) -> NextAction
    ensures { plain_now result ≡ first_now entry is_ready }
{
    if is_ready {
        NextAction::At(entry)
    } else {
        NextAction::Stuck
    }
}

/// The variables of a caller that has io's first state, and one that is unbound.
pub fn first_caller(alloc: Global, heap: &mut Heap) -> Result<Frame, Memory>
    ensures size { IfOk result (λ frame. length frame.items ≡ 2) }
    ensures values { IfOk result (λ frame. seen_at heap.new frame.items (0 ∷ 1 ∷ [])
        ≡ Some (state [] 0) ∷ None ∷ []) }
    ensures held { IfOk result (λ frame. (P : Program) → AreHeld P heap.new frame.items) }
    ensures keeps { OnOk result (Extends heap.old heap.new) }
{
    let before = heap.io(&Text::empty(alloc), 0)?;
    let mut frame = Vec::with_capacity(alloc, 2)?;
    frame.push(Some(before))?;
    frame.push(None)?;
    Ok(frame)
}

/// Refs of constants.
pub fn constants_of(alloc: Global, values: &Vec<Value>, heap: &mut Heap) -> Result<Vec<Ref>, Memory>
    requires { All (λ v. IsConstant (plain_value v)) values.now.items }
    ensures live { IfOk result (λ refs. All (IsLive heap.new) refs.items) }
    ensures values { IfOk result (λ refs. values_at heap.new refs.items
        ≡ map plain_value values.now.items) }
{
    let mut refs = Vec::with_capacity(alloc, values.len())?;
    for value in values {
        let found = constant(heap, value)?;
        refs.push(found)?;
    }
    Ok(refs)
}
