ghost use Rattle.std.specs.Prelude.{◌≡◌, ◌↔◌, IsTrue, All, IfOk, IfSome, OnOk, option_map};
ghost use Rattle.mc_values.specs.Heap.{IsLive, value_at};
ghost use Rattle.mc_values.specs.declared.heap.Heap.{Heap as TheHeap};
ghost use Rattle.mc_values.specs.Parts.{symbol_of};
ghost use Rattle.mc_plain.specs.Frames.{bindings};
ghost use Rattle.mc_plain.specs.Values.{AreLive};
ghost use Rattle.mc_flat_code.specs.Running.{part_of, fitting, fits_label, label_of};
ghost use Rattle.mc_flat_code.specs.declared.code.Code.{Code as TheCode};
ghost use Rattle.mc_plain.specs.code.Constants.{AreConstants};
ghost use Rattle.mc_plain.specs.code.Views.{machine, plain_now};
ghost use Rattle.mc_plain.specs.code.Cases.{case_now, only_of};

use crate::Frame;
use crate::state::{Control, NextAction};
use mc_base::Memory;
use mc_flat_code::code::{Branch, Code, Key, Span};
use mc_values::{Heap, Ref};

impl Control {
    /// Goes on at the branch of a switch that is for the value of its variable. Where the variable is unbound, or its
    /// value fits several branches, it goes on at the other place. `constants` are those of the code.
    pub fn choose(
        &mut self,
        heap: &Heap,
        code: &Code,
        constants: &[Ref],
        variable: u32,
        branches: Span,
        other: u32,
    ) -> Result<(), Memory>
        requires frame { AreLive heap.now self.old.frame.items }
        requires constants { AreConstants heap.now code.now constants.now }
        ensures others { OnOk result (self.new ≡ record self.old { now = self.new.now }) }
        ensures goes_on { OnOk result (machine heap.now self.new
            ≡ record (machine heap.now self.old) {
              now = case_now code.now other (part_of code.now.branches.items branches)
                  (bindings heap.now self.old.frame.items variable);
            }) }
    {
        self.now = match bound(&self.frame, variable) {
            None => NextAction::At(other),
            Some(value) => chosen(heap, code, constants, value, code.branches(branches), other)?,
        };
        Ok(())
    }
}

/// What a variable is bound to; one beyond the frame's end is unbound.
fn bound(frame: &Frame, variable: u32) -> Option<Ref>
    ensures value { (h : TheHeap)
        → option_map (value_at h) result ≡ bindings h frame.now.items variable }
    ensures live { (h : TheHeap) → AreLive h frame.now.items → IfSome result (IsLive h) }
{
    match frame.get(variable as usize) {
        Some(value) => *value,
        None => None,
    }
}

/// Where it goes on from a value by branches.
fn chosen(
    heap: &Heap,
    code: &Code,
    constants: &[Ref],
    value: Ref,
    branches: &[Branch],
    other: u32,
) -> Result<NextAction, Memory>
    requires value { IsLive heap.now value }
    requires constants { AreConstants heap.now code.now constants.now }
    ensures { IfOk result (λ now. plain_now now
        ≡ only_of other (fitting code.now (value_at heap.now value) branches.now)) }
{
    let top = heap.top_symbol(value);
    let mut only = None;
    for branch in branches {
        if fits(heap, constants, value, top, branch.key)? {
            match only {
                None => only = Some(branch.place),
                Some(_) => return Ok(NextAction::At(other)),
            }
        }
    }
    match only {
        None => Ok(NextAction::Failing),
        Some(place) => Ok(NextAction::At(place)),
    }
}

/// Whether a value, whose top symbol is handed in, is what a branch is for.
fn fits(
    heap: &Heap,
    constants: &[Ref],
    value: Ref,
    top: Option<u32>,
    key: Key,
) -> Result<bool, Memory>
    requires value { IsLive heap.now value }
    requires top { top ≡ symbol_of (value_at heap.now value) }
    requires constants { All (IsLive heap.now) constants.now }
    ensures { IfOk result (λ fits. (code : TheCode) → AreConstants heap.now code constants.now
        → fits_label (value_at heap.now value) (label_of code key) ≡ fits) }
{
    match key {
        Key::Symbol(symbol) => match top {
            Some(found) => Ok(found == symbol),
            None => Ok(false),
        },
        Key::Constant(k) => match constants.get(k as usize) {
            Some(constant) => {
                let same = is_constant(heap, value, *constant)?;
                Ok(same)
            }
            None => Ok(false),
        },
    }
}

/// Whether a value is that of a constant. Of integers there can be a branch for each of a thousand facts, so that they
/// are compared at once.
fn is_constant(heap: &Heap, value: Ref, constant: Ref) -> Result<bool, Memory>
    requires value { IsLive heap.now value }
    requires constant { IsLive heap.now constant }
    ensures { IfOk result (λ same. IsTrue same
        ↔ (value_at heap.now value ≡ value_at heap.now constant)) }
{
    match heap.int_at(constant) {
        Some(wanted) => match heap.int_at(value) {
            Some(found) => Ok(found == wanted),
            None => Ok(false),
        },
        None => heap.equal(value, constant),
    }
}
