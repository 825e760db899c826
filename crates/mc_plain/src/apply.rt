ghost use Rattle.std.specs.Prelude.{◌≡◌, ◌<◌, All, IfOk, IfSome, Some, length, map};
ghost use Rattle.mc_program.specs.declared.program.Program.{Program};
ghost use Rattle.mc_values.specs.Heap.{IsLive, Extends};
ghost use Rattle.mc_model.specs.Builtins.{outcome};
ghost use Rattle.mc_model.specs.EventList.{of_option};
ghost use Rattle.mc_model.specs.Stream.{apply_items, gather, unify};
ghost use Rattle.mc_builtins.specs.Answers.{known, output_at};
ghost use Rattle.mc_plain.specs.Values.{HasLists, IsHeld, AreLive, AreHeld};
ghost use Rattle.mc_plain.specs.Frames.{bindings};
ghost use Rattle.mc_plain.specs.Atoms.{went_items, ActedItems, WaitsToRead};

use crate::frame::{Frame, gather, unify_refs};
use crate::results::{AtomResult, BuiltinResult};
use mc_base::Memory;
use mc_builtins::{Applied, Library, apply};
use mc_model::builtin::Builtin;
use mc_values::{Heap, Ref};
use std::alloc::Global;

/// A builtin with the variables of its inputs and outputs.
#[derive(Clone, Copy)]
pub struct Application<'c> {
    pub op: Builtin,
    pub inputs: &'c [u32],
    pub outputs: &'c [u32],
}

/// A builtin at the values of its inputs, whose outputs meet what it gives. `refs` is room to work in.
pub fn applied(
    alloc: Global,
    call: &Application<'_>,
    heap: &mut Heap,
    library: &Library<'_>,
    refs: &mut Vec<Ref>,
    frame: &mut Frame,
) -> Result<BuiltinResult, Memory>
    requires inputs { All (λ x. x < length frame.old.items) call.now.inputs.now }
    requires outputs { All (λ x. x < length frame.old.items) call.now.outputs.now }
    requires frame { AreHeld library.now.program.now heap.old frame.old.items }
    ensures does { IfOk result (λ acted. ActedItems
        (λ input. apply_items (outcome (known library.now) input call.now.op) call.now.outputs.now
        (bindings heap.old frame.old.items)
        (gather call.now.inputs.now (bindings heap.old frame.old.items)))
        acted (bindings heap.new frame.new.items)) }
    ensures waits { IfOk result
        (λ acted. WaitsToRead acted frame.old.items frame.new.items) }
    ensures size { length frame.new.items ≡ length frame.old.items }
    ensures live { AreLive heap.new frame.new.items }
    ensures held { HasLists library.now call.now.op
        → AreHeld library.now.program.now heap.new frame.new.items }
    ensures keeps { Extends heap.old heap.new }
{
    if !gather(call.inputs, frame, refs)? {
        return Ok(BuiltinResult::Went(AtomResult::Stuck));
    }
    match apply(alloc, call.op, refs.as_slice(), heap, library)? {
        Applied::Gives(output) => Ok(BuiltinResult::Went(gave(heap, call.outputs, output, frame)?)),
        Applied::Fails => Ok(BuiltinResult::Went(AtomResult::Fails)),
        Applied::Throws(exception) => Ok(BuiltinResult::Throws(exception)),
        Applied::Wrote(text, after) => {
            let went = gave(heap, call.outputs, Some(after), frame)?;
            Ok(BuiltinResult::Wrote(text, went))
        }
        Applied::Reads(from) => Ok(BuiltinResult::Reads(from)),
    }
}

/// The variables of the outputs meet the output of a builtin, which has at most one.
fn gave(
    heap: &Heap,
    vars: &[u32],
    output: Option<Ref>,
    frame: &mut Frame,
) -> Result<AtomResult, Memory>
    requires variables { All (λ x. x < length frame.old.items) vars.now }
    requires frame { AreLive heap.now frame.old.items }
    requires output { IfSome output (IsLive heap.now) }
    ensures does { IfOk result (λ went.
        of_option (unify vars.now (map Some (output_at heap.now output))
        (bindings heap.now frame.old.items))
        ≡ went_items went (bindings heap.now frame.new.items)) }
    ensures size { length frame.new.items ≡ length frame.old.items }
    ensures live { AreLive heap.now frame.new.items }
    ensures held { (P : Program) → IfSome output (IsHeld P heap.now)
        → AreHeld P heap.now frame.old.items → AreHeld P heap.now frame.new.items }
{
    match output {
        None => Ok(AtomResult::of(unify_refs(heap, vars, &[], frame)?)),
        Some(r) => Ok(AtomResult::of(unify_refs(heap, vars, &[r], frame)?)),
    }
}
