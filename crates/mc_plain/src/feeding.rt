ghost use Rattle.std.specs.Prelude.{◌≡◌, ◌<◌, ℕ, List, [], ◌∷◌, All, IfOk, drop, length};
ghost use Rattle.mc_values.specs.Heap.{IsLive, value_at, Extends};
ghost use Rattle.mc_model.specs.Builtins.{outcome};
ghost use Rattle.mc_model.specs.EventList.{Read};
ghost use Rattle.mc_model.specs.Stream.{apply_items, gather, outcome_items};
ghost use Rattle.mc_builtins.specs.Answers.{known};
ghost use Rattle.mc_builtins.specs.Reading.{IsNext, GivesResult};
ghost use Rattle.mc_plain.specs.Values.{HasResults, AreLive, AreHeld};
ghost use Rattle.mc_plain.specs.Frames.{bindings};
ghost use Rattle.mc_plain.specs.Atoms.{ReadsFrom, IsUnread, fed_items};
ghost use Rattle.mc_plain.specs.code.Steps.{got_items};

use crate::frame::{Frame, gather, unify_refs};
use crate::results::{AtomResult, ReadLineResult};
use mc_base::Memory;
use mc_builtins::{Library, ReadResult, read_line};
use mc_model::builtin::Builtin;
use mc_model::run::Input;
use mc_values::{Heap, Ref};
use std::alloc::Global;

/// `read_line_as_string` with the variables of its inputs and outputs, where it is fed what comes next in the input: the
/// outputs meet what it gives. Where it reads nothing at its inputs, it goes as it goes without. `refs` is room to work in.
pub fn feed(
    alloc: Global,
    inputs: &[u32],
    outputs: &[u32],
    line: &Input,
    heap: &mut Heap,
    library: &Library<'_>,
    refs: &mut Vec<Ref>,
    frame: &mut Frame,
) -> Result<ReadLineResult, Memory>
    requires inputs { All (λ x. x < length frame.old.items) inputs.now }
    requires outputs { All (λ x. x < length frame.old.items) outputs.now }
    requires frame { AreHeld library.now.program.now heap.old frame.old.items }
    ensures does { IfOk result (λ fed. (input : List ℕ) (from : ℕ)
        → let e = bindings heap.old frame.old.items in
        let items = apply_items (outcome (known library.now) input Builtin.ReadLine)
        outputs.now e (gather inputs.now e) in
        ReadsFrom from items → IsNext (drop from input) line.now
        → items ≡ Read from (fed_items fed (bindings heap.new frame.new.items))) }
    ensures unread { IfOk result (λ fed. (input : List ℕ)
        → let e = bindings heap.old frame.old.items in
        let items = apply_items (outcome (known library.now) input Builtin.ReadLine)
        outputs.now e (gather inputs.now e) in
        IsUnread items → items ≡ fed_items fed (bindings heap.new frame.new.items)) }
    ensures size { length frame.new.items ≡ length frame.old.items }
    ensures live { AreLive heap.new frame.new.items }
    ensures held { HasResults library.now
        → AreHeld library.now.program.now heap.new frame.new.items }
    ensures keeps { Extends heap.old heap.new }
{
    if !gather(inputs, frame, refs)? {
        return Ok(ReadLineResult::Went(AtomResult::Stuck));
    }
    match refs.as_slice() {
        [] => Ok(ReadLineResult::Went(AtomResult::Fails)),
        [before] => {
            let fed = fed_at(alloc, *before, outputs, line, heap, library, frame)?;
            Ok(fed)
        }
        [_, _, ..] => Ok(ReadLineResult::Went(AtomResult::Fails)),
    }
}

/// `read_line_as_string` at its one input; where that is no state of io, nothing is read.
fn fed_at(
    alloc: Global,
    before: Ref,
    outputs: &[u32],
    line: &Input,
    heap: &mut Heap,
    library: &Library<'_>,
    frame: &mut Frame,
) -> Result<ReadLineResult, Memory>
    requires before { IsLive heap.old before }
    requires outputs { All (λ x. x < length frame.old.items) outputs.now }
    requires frame { AreHeld library.now.program.now heap.old frame.old.items }
    ensures does { IfOk result (λ fed. (input : List ℕ) (from : ℕ)
        → let items = outcome_items outputs.now (bindings heap.old frame.old.items)
        (outcome (known library.now) input Builtin.ReadLine
        (value_at heap.old before ∷ [])) in
        ReadsFrom from items → IsNext (drop from input) line.now
        → items ≡ Read from (fed_items fed (bindings heap.new frame.new.items))) }
    ensures unread { IfOk result (λ fed. (input : List ℕ)
        → let items = outcome_items outputs.now (bindings heap.old frame.old.items)
        (outcome (known library.now) input Builtin.ReadLine
        (value_at heap.old before ∷ [])) in
        IsUnread items → items ≡ fed_items fed (bindings heap.new frame.new.items)) }
    ensures size { length frame.new.items ≡ length frame.old.items }
    ensures live { AreLive heap.new frame.new.items }
    ensures held { HasResults library.now
        → AreHeld library.now.program.now heap.new frame.new.items }
    ensures keeps { Extends heap.old heap.new }
{
    match heap.taken_at(before) {
        None => Ok(ReadLineResult::Went(AtomResult::Fails)),
        Some(_) => {
            let answer = read_line(alloc, line, before, heap, library)?;
            let fed = met(answer, outputs, heap, library, frame)?;
            Ok(fed)
        }
    }
}

/// The outputs of a builtin that reads meet what it gives.
fn met(
    answer: ReadResult,
    outputs: &[u32],
    heap: &Heap,
    library: &Library<'_>,
    frame: &mut Frame,
) -> Result<ReadLineResult, Memory>
    requires variables { All (λ x. x < length frame.old.items) outputs.now }
    requires frame { AreLive heap.now frame.old.items }
    requires gives { GivesResult (known library.now) heap.now answer }
    ensures does { IfOk result (λ fed.
        got_items heap.now outputs.now (bindings heap.now frame.old.items) answer
        ≡ fed_items fed (bindings heap.now frame.new.items)) }
    ensures size { length frame.new.items ≡ length frame.old.items }
    ensures live { AreLive heap.now frame.new.items }
    ensures held { HasResults library.now
        → AreHeld library.now.program.now heap.now frame.old.items
        → AreHeld library.now.program.now heap.now frame.new.items }
{
    match answer {
        ReadResult::Throws(exception) => Ok(ReadLineResult::Throws(exception)),
        ReadResult::Gives(read, after) => {
            let met = unify_refs(heap, outputs, &[read, after], frame)?;
            Ok(ReadLineResult::Went(AtomResult::of(met)))
        }
    }
}
