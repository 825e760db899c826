ghost use Rattle.std.specs.Prelude.{◌≡◌, ◌<◌, ℕ, List, IfOk, OnOk, length, drop};
ghost use Rattle.mc_program.specs.declared.program.Program.{Program};
ghost use Rattle.mc_values.specs.Heap.{IsLive, value_at, Extends};
ghost use Rattle.mc_model.specs.EventList.{of_option};
ghost use Rattle.mc_model.specs.Stream.{meet as meet_of, same_items, made_items, apply_items, gather};
ghost use Rattle.mc_model.specs.Builtins.{outcome};
ghost use Rattle.mc_builtins.specs.Answers.{known};
ghost use Rattle.mc_plain.specs.Frames.{bindings};
ghost use Rattle.mc_plain.specs.Values.{HasLists, HasResults, IsHeld, AreLive};
ghost use Rattle.mc_plain.specs.code.Held.{AllHeld};
ghost use Rattle.mc_plain.specs.code.Views.{machine, plain_now};
ghost use Rattle.mc_plain.specs.code.Atoms.{Acted as ActedSo, ActedAfter, Applied, now_of};
ghost use Rattle.mc_flat_code.specs.Ticked.{Read};
ghost use Rattle.mc_plain.specs.Atoms.{ReadsFrom};
ghost use Rattle.mc_builtins.specs.Reading.{IsNext};

use crate::control::{widen, widen_all};
use crate::state::{Control, NextAction};
use crate::{
    Application, AtomResult, BuiltinResult, ReadLineResult, applied, feed, made, met, same,
};
use mc_base::{Memory, Text};
use mc_builtins::Library;
use mc_model::builtin::Builtin;
use mc_model::run::{Input, Stop};
use mc_values::{Heap, Ref};
use std::alloc::Global;

/// What the application of a builtin shows of a run: nothing, a text that is written, or that a line of the input is
/// wanted from a byte on.
#[derive(Drop)]
pub enum Shown {
    Nothing,
    Wrote(Text),
    Wants(u64),
}

/// What is done next after an atom.
fn went_on(went: AtomResult, next: u32) -> NextAction
    ensures { plain_now result ≡ now_of went next }
{
    match went {
        AtomResult::On => NextAction::At(next),
        AtomResult::Fails => NextAction::Failing,
        AtomResult::Stuck => NextAction::Stuck,
    }
}

impl Control {
    /// An equation of two variables.
    pub fn equate(&mut self, heap: &Heap, x: u32, y: u32, next: u32) -> Result<(), Memory>
        requires { AreLive heap.now self.old.frame.items }
        ensures acted { OnOk result (let e = bindings heap.now self.old.frame.items in
            ActedSo (same_items x y e (e x) (e y)) next
            (machine heap.now self.old) (machine heap.now self.new)) }
        ensures held { OnOk result ((P : Program)
            → AllHeld P heap.now self.old → AllHeld P heap.now self.new) }
    {
        widen(&mut self.frame, x)?;
        widen(&mut self.frame, y)?;
        let went = same(heap, x, y, &mut self.frame)?;
        self.now = went_on(went, next);
        Ok(())
    }

    /// An equation of a variable and a constant, which stands in the heap.
    pub fn constant(&mut self, heap: &Heap, x: u32, value: Ref, next: u32) -> Result<(), Memory>
        requires frame { AreLive heap.now self.old.frame.items }
        requires value { IsLive heap.now value }
        ensures acted { OnOk result (let e = bindings heap.now self.old.frame.items in
            ActedSo (of_option (meet_of x (value_at heap.now value) e (e x))) next
            (machine heap.now self.old) (machine heap.now self.new)) }
        ensures held { OnOk result ((P : Program) → IsHeld P heap.now value
            → AllHeld P heap.now self.old → AllHeld P heap.now self.new) }
    {
        widen(&mut self.frame, x)?;
        let went = met(heap, x, value, &mut self.frame)?;
        self.now = went_on(went, next);
        Ok(())
    }

    /// An equation of a variable and a constructor over variables. `refs` is room to work in.
    pub fn make(
        &mut self,
        heap: &mut Heap,
        refs: &mut Vec<Ref>,
        x: u32,
        symbol: u32,
        args: &[u32],
        next: u32,
    ) -> Result<(), Memory>
        requires { AreLive heap.old self.old.frame.items }
        ensures acted { OnOk result ((P : Program) → AllHeld P heap.old self.old →
            let e = bindings heap.old self.old.frame.items in
            ActedSo (made_items x symbol args.now e (e x)) next
            (machine heap.old self.old) (machine heap.new self.new)) }
        ensures held { OnOk result ((P : Program) → symbol < length P.symbols
            → AllHeld P heap.old self.old → AllHeld P heap.new self.new) }
        ensures keeps { Extends heap.old heap.new }
    {
        widen(&mut self.frame, x)?;
        widen_all(&mut self.frame, args)?;
        let went = made(heap, x, symbol, args, refs, &mut self.frame)?;
        self.now = went_on(went, next);
        Ok(())
    }

    /// A builtin with the variables of its inputs and outputs. Where it wants a line of the input, nothing is done yet.
    /// `refs` is room to work in.
    pub fn apply(
        &mut self,
        alloc: Global,
        call: &Application<'_>,
        heap: &mut Heap,
        library: &Library<'_>,
        refs: &mut Vec<Ref>,
        next: u32,
    ) -> Result<Shown, Memory>
        requires { AllHeld library.now.program.now heap.old self.old }
        ensures applied { IfOk result (λ shown.
            let e = bindings heap.old self.old.frame.items in
            Applied (λ input. apply_items (outcome (known library.now) input call.now.op)
            call.now.outputs.now e (gather call.now.inputs.now e)) next
            (machine heap.old self.old) shown (machine heap.new self.new)) }
        ensures held { OnOk result (HasLists library.now call.now.op
            → AllHeld library.now.program.now heap.new self.new) }
        ensures keeps { Extends heap.old heap.new }
    {
        widen_all(&mut self.frame, call.inputs)?;
        widen_all(&mut self.frame, call.outputs)?;
        match applied(alloc, call, heap, library, refs, &mut self.frame)? {
            BuiltinResult::Went(went) => {
                self.now = went_on(went, next);
                Ok(Shown::Nothing)
            }
            BuiltinResult::Throws(exception) => {
                self.now = NextAction::Stopped(Stop::Throw(exception));
                Ok(Shown::Nothing)
            }
            BuiltinResult::Wrote(text, went) => {
                self.now = went_on(went, next);
                Ok(Shown::Wrote(text))
            }
            BuiltinResult::Reads(from) => Ok(Shown::Wants(from)),
        }
    }

    /// `read_line_as_string` with the variables of its inputs and outputs, where a line was wanted: it is fed what comes
    /// next in the input. `refs` is room to work in.
    pub fn feed(
        &mut self,
        alloc: Global,
        inputs: &[u32],
        outputs: &[u32],
        line: &Input,
        heap: &mut Heap,
        library: &Library<'_>,
        refs: &mut Vec<Ref>,
        next: u32,
    ) -> Result<(), Memory>
        requires { AllHeld library.now.program.now heap.old self.old }
        ensures fed { OnOk result ((input : List ℕ) (from : ℕ) →
            let e = bindings heap.old self.old.frame.items in
            let items = apply_items (outcome (known library.now) input Builtin.ReadLine)
            outputs.now e (gather inputs.now e) in
            ReadsFrom from items → IsNext (drop from input) line.now →
            ActedAfter (Read from) items next
            (machine heap.old self.old) (machine heap.new self.new)) }
        ensures kept { OnOk result (machine heap.new self.new
            ≡ record (machine heap.old self.old) {
              bindings = bindings heap.new self.new.frame.items;
              now = plain_now self.new.now;
            }) }
        ensures held { OnOk result (HasResults library.now
            → AllHeld library.now.program.now heap.new self.new) }
        ensures keeps { Extends heap.old heap.new }
    {
        widen_all(&mut self.frame, inputs)?;
        widen_all(&mut self.frame, outputs)?;
        let frame = &mut self.frame;
        match feed(alloc, inputs, outputs, line, heap, library, refs, frame)? {
            ReadLineResult::Went(went) => {
                self.now = went_on(went, next);
                Ok(())
            }
            ReadLineResult::Throws(exception) => {
                self.now = NextAction::Stopped(Stop::Throw(exception));
                Ok(())
            }
        }
    }
}
