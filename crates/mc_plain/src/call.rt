ghost use Rattle.std.specs.Prelude.{◌≡◌, ◌<◌, [], ◌∷◌, ◌++◌, All, IfOk, IfSome, OnOk, length, map};
ghost use Rattle.mc_program.specs.Values.{plain_value};
ghost use Rattle.mc_program.specs.declared.program.Program.{Program};
ghost use Rattle.mc_values.specs.Heap.{IsLive};
ghost use Rattle.mc_values.specs.declared.heap.Heap.{Heap as TheHeap};
ghost use Rattle.mc_model.specs.Events.{bound_values};
ghost use Rattle.mc_model.specs.Stream.{ready, enter, leave, unify, nothing_bound};
ghost use Rattle.mc_plain.specs.Values.{AreLive, AreHeld};
ghost use Rattle.mc_plain.specs.Frames.{bindings, seen, seen_at, given};
ghost use Rattle.mc_plain.specs.code.Steps.{lacks, kept};

use crate::frame::{Frame, meet_if};
use mc_base::{Memory, Row};
use mc_model::inst::InstId;
use mc_program::value::Value;
use mc_values::{Heap, Ref};
use std::alloc::Global;

/// Whether each input of a call is bound. `first` has the insts of the callee's arguments at a call.
pub fn ready(first: &[InstId], args: &[u32], caller: &Frame) -> bool
    requires { All (λ x. x < length caller.now.items) args.now }
    ensures { (h : TheHeap) → result ≡ ready first.now (seen_at h caller.now.items args.now) }
{
    if first.len() != args.len() {
        return false;
    }
    for k in 0..args.len() {
        if lacks(first[k], caller[args[k] as usize]) {
            return false;
        }
    }
    true
}

/// A frame of so many unbound variables.
pub fn unbound(alloc: Global, size: usize) -> Result<Frame, Memory>
    ensures size { IfOk result (λ frame. length frame.items ≡ size) }
    ensures nothing { IfOk result (λ frame. (h : TheHeap)
        → bindings h frame.items ≡ nothing_bound) }
    ensures live { IfOk result (λ frame. (h : TheHeap) → AreLive h frame.items) }
    ensures held { IfOk result (λ frame. (P : Program) (h : TheHeap) → AreHeld P h frame.items) }
{
    let frame = cleared(Vec::new(alloc), size)?;
    Ok(frame)
}

/// The same in the room of a frame that is done with.
fn cleared(spare: Frame, size: usize) -> Result<Frame, Memory>
    ensures size { IfOk result (λ frame. length frame.items ≡ size) }
    ensures nothing { IfOk result (λ frame. (h : TheHeap)
        → bindings h frame.items ≡ nothing_bound) }
    ensures live { IfOk result (λ frame. (h : TheHeap) → AreLive h frame.items) }
    ensures held { IfOk result (λ frame. (P : Program) (h : TheHeap) → AreHeld P h frame.items) }
{
    let mut frame = spare;
    frame.clear();
    frame.reserve(size)?;
    while frame.len() < size {
        frame.push(None)?;
    }
    Ok(frame)
}

/// The variables of a called body: its head variables are bound to the inputs among the arguments, which are variables
/// of the caller. They stand in the room of a frame that is done with.
pub fn enter(
    spare: Frame,
    size: usize,
    head: &[u32],
    first: &[InstId],
    args: &[u32],
    caller: &Frame,
) -> Result<Frame, Memory>
    requires head { All (λ y. y < size) head.now }
    requires arguments { All (λ x. x < length caller.now.items) args.now }
    ensures size { IfOk result (λ frame. length frame.items ≡ size) }
    ensures enters { IfOk result (λ frame. (h : TheHeap)
        → bindings h frame.items ≡ enter head.now first.now (seen_at h caller.now.items args.now)) }
    ensures live { IfOk result (λ frame. (h : TheHeap)
        → AreLive h caller.now.items → AreLive h frame.items) }
    ensures held { IfOk result (λ frame. (P : Program) (h : TheHeap)
        → AreHeld P h caller.now.items → AreHeld P h frame.items) }
{
    let mut frame = cleared(spare, size)?;
    let mut k = head.len().min(first.len()).min(args.len());
    while k > 0 {
        k -= 1;
        frame[head[k] as usize] = kept(first[k], caller[args[k] as usize]);
    }
    Ok(frame)
}

/// Whether an argument isn't there that is an input, by its inst at the call.
fn lacks(inst: InstId, arg: Option<Ref>) -> bool
    ensures { result ≡ lacks inst arg }
{
    match arg {
        None => inst != 0,
        Some(_) => false,
    }
}

/// An argument, where its inst isn't `free`.
fn kept(inst: InstId, arg: Option<Ref>) -> Option<Ref>
    ensures { result ≡ kept inst arg }
{
    if inst == 0 { None } else { arg }
}

/// The arguments of a call meet those of an answer: the values that the callee's head variables have, where their final
/// insts aren't `free`. Answers whether they are one.
pub fn returned(
    heap: &Heap,
    args: &[u32],
    head: &[u32],
    last: &[InstId],
    callee: &Frame,
    caller: &mut Frame,
) -> Result<bool, Memory>
    requires arguments { All (λ x. x < length caller.old.items) args.now }
    requires head { All (λ y. y < length callee.now.items) head.now }
    requires caller { AreLive heap.now caller.old.items }
    requires callee { AreLive heap.now callee.now.items }
    ensures unifies { IfOk result (λ met.
        unify args.now (leave head.now last.now (bindings heap.now callee.now.items))
        (bindings heap.now caller.old.items)
        ≡ given met (bindings heap.now caller.new.items)) }
    ensures size { length caller.new.items ≡ length caller.old.items }
    ensures live { AreLive heap.now caller.new.items }
    ensures held { (P : Program) → AreHeld P heap.now callee.now.items
        → AreHeld P heap.now caller.old.items → AreHeld P heap.now caller.new.items }
{
    if args.len() != head.len().min(last.len()) {
        return Ok(false);
    }
    for k in 0..args.len() {
        let value = kept(last[k], callee[head[k] as usize]);
        if !meet_if(heap, args[k], value, caller)? {
            return Ok(false);
        }
    }
    Ok(true)
}

/// The values of the arguments of an answer that are bound.
pub fn answer(
    alloc: Global,
    heap: &Heap,
    head: &[u32],
    last: &[InstId],
    frame: &Frame,
) -> Result<Row<Value>, Memory>
    requires head { All (λ y. y < length frame.now.items) head.now }
    requires frame { AreLive heap.now frame.now.items }
    ensures { IfOk result (λ row. map plain_value row
        ≡ bound_values (leave head.now last.now (bindings heap.now frame.now.items))) }
{
    let count = head.len().min(last.len());
    let mut values = Vec::new(alloc);
    for k in 0..count {
        put_value(heap, kept(last[k], frame[head[k] as usize]), &mut values)?;
    }
    Row::of(values)
}

/// Puts a copy of a value behind others, where it is there.
fn put_value(heap: &Heap, value: Option<Ref>, values: &mut Vec<Value>) -> Result<(), Memory>
    requires { IfSome value (IsLive heap.now) }
    ensures { OnOk result (map plain_value values.new.items
        ≡ map plain_value values.old.items ++ bound_values (seen heap.now value ∷ [])) }
{
    match value {
        None => Ok(()),
        Some(r) => {
            values.push(heap.value(r)?)?;
            Ok(())
        }
    }
}
