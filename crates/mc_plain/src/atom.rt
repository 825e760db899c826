ghost use Rattle.std.specs.Prelude.{◌≡◌, ◌<◌, ℕ, All, IfOk, OnErr, Some, length};
ghost use Rattle.mc_program.specs.Values.{plain_value};
ghost use Rattle.mc_program.specs.declared.program.Program.{Program};
ghost use Rattle.mc_values.specs.Heap.{IsLive, value_at, Extends, StandsFor};
ghost use Rattle.mc_model.specs.EventList.{of_option};
ghost use Rattle.mc_model.specs.Stream.{meet, same_items, made_items, build_items, gather};
ghost use Rattle.mc_plain.specs.Values.{IsConstant, IsHeld, AreLive, AreHeld};
ghost use Rattle.mc_plain.specs.Frames.{bindings};
ghost use Rattle.mc_plain.specs.Atoms.{went_items};

use crate::frame::{Frame, gather, meet, unify_refs};
use crate::results::AtomResult;
use mc_base::Memory;
use mc_program::value::Value;
use mc_values::{Heap, Ref};

/// An equation of two variables.
pub fn same(heap: &Heap, x: u32, y: u32, frame: &mut Frame) -> Result<AtomResult, Memory>
    requires left { x < length frame.old.items }
    requires right { y < length frame.old.items }
    requires frame { AreLive heap.now frame.old.items }
    ensures does { IfOk result (λ went.
        same_items x y (bindings heap.now frame.old.items)
        (bindings heap.now frame.old.items x) (bindings heap.now frame.old.items y)
        ≡ went_items went (bindings heap.now frame.new.items)) }
    ensures size { length frame.new.items ≡ length frame.old.items }
    ensures live { AreLive heap.now frame.new.items }
    ensures held { (P : Program) → AreHeld P heap.now frame.old.items
        → AreHeld P heap.now frame.new.items }
{
    match (frame[x as usize], frame[y as usize]) {
        (None, None) => Ok(AtomResult::Stuck),
        (None, Some(w)) => {
            frame[x as usize] = Some(w);
            Ok(AtomResult::On)
        }
        (Some(v), None) => {
            frame[y as usize] = Some(v);
            Ok(AtomResult::On)
        }
        (Some(v), Some(w)) => Ok(AtomResult::of(heap.equal(v, w)?)),
    }
}

/// An equation of a variable and a value.
pub fn met(heap: &Heap, x: u32, r: Ref, frame: &mut Frame) -> Result<AtomResult, Memory>
    requires variable { x < length frame.old.items }
    requires frame { AreLive heap.now frame.old.items }
    requires value { IsLive heap.now r }
    ensures does { IfOk result (λ went.
        of_option (meet x (value_at heap.now r) (bindings heap.now frame.old.items)
        (bindings heap.now frame.old.items x))
        ≡ went_items went (bindings heap.now frame.new.items)) }
    ensures size { length frame.new.items ≡ length frame.old.items }
    ensures live { AreLive heap.now frame.new.items }
    ensures held { (P : Program) → IsHeld P heap.now r → AreHeld P heap.now frame.old.items
        → AreHeld P heap.now frame.new.items }
{
    Ok(AtomResult::of(meet(heap, x, r, frame)?))
}

/// An equation of a variable and a constructor over variables: it is built where the variable is unbound, else taken
/// apart. `refs` is room to work in.
pub fn made(
    heap: &mut Heap,
    x: u32,
    symbol: u32,
    args: &[u32],
    refs: &mut Vec<Ref>,
    frame: &mut Frame,
) -> Result<AtomResult, Memory>
    requires variable { x < length frame.old.items }
    requires arguments { All (λ y. y < length frame.old.items) args.now }
    requires frame { AreLive heap.old frame.old.items }
    ensures does { IfOk result (λ went.
        made_items x symbol args.now (bindings heap.old frame.old.items)
        (bindings heap.old frame.old.items x)
        ≡ went_items went (bindings heap.new frame.new.items)) }
    ensures size { length frame.new.items ≡ length frame.old.items }
    ensures live { AreLive heap.new frame.new.items }
    ensures held { (P : Program) → symbol < length P.symbols → AreHeld P heap.old frame.old.items
        → AreHeld P heap.new frame.new.items }
    ensures keeps { Extends heap.old heap.new }
    ensures err { OnErr result (heap.new ≡ heap.old) }
{
    match frame[x as usize] {
        None => built(heap, x, symbol, args, refs, frame),
        Some(r) => taken(heap, r, symbol, args, frame),
    }
}

/// An unbound variable gets a constructor over the values of others.
fn built(
    heap: &mut Heap,
    x: u32,
    symbol: u32,
    args: &[u32],
    refs: &mut Vec<Ref>,
    frame: &mut Frame,
) -> Result<AtomResult, Memory>
    requires variable { x < length frame.old.items }
    requires arguments { All (λ y. y < length frame.old.items) args.now }
    requires frame { AreLive heap.old frame.old.items }
    ensures does { IfOk result (λ went.
        build_items x symbol (bindings heap.old frame.old.items)
        (gather args.now (bindings heap.old frame.old.items))
        ≡ went_items went (bindings heap.new frame.new.items)) }
    ensures size { length frame.new.items ≡ length frame.old.items }
    ensures live { AreLive heap.new frame.new.items }
    ensures held { (P : Program) → symbol < length P.symbols → AreHeld P heap.old frame.old.items
        → AreHeld P heap.new frame.new.items }
    ensures keeps { Extends heap.old heap.new }
    ensures err { OnErr result (heap.new ≡ heap.old) }
{
    if !gather(args, frame, refs)? {
        return Ok(AtomResult::Stuck);
    }
    let r = heap.con(symbol, refs.as_slice())?;
    frame[x as usize] = Some(r);
    Ok(AtomResult::On)
}

/// A value is taken apart as a constructor over variables.
fn taken(
    heap: &Heap,
    r: Ref,
    symbol: u32,
    args: &[u32],
    frame: &mut Frame,
) -> Result<AtomResult, Memory>
    requires value { IsLive heap.now r }
    requires arguments { All (λ y. y < length frame.old.items) args.now }
    requires frame { AreLive heap.now frame.old.items }
    ensures does { IfOk result (λ went. (x : ℕ) →
        made_items x symbol args.now (bindings heap.now frame.old.items)
        (Some (value_at heap.now r))
        ≡ went_items went (bindings heap.now frame.new.items)) }
    ensures size { length frame.new.items ≡ length frame.old.items }
    ensures live { AreLive heap.now frame.new.items }
    ensures held { (P : Program) → IsHeld P heap.now r → AreHeld P heap.now frame.old.items
        → AreHeld P heap.now frame.new.items }
{
    match heap.top_symbol(r) {
        Some(top) if top == symbol => Ok(AtomResult::of(unify_refs(
            heap,
            args,
            heap.args(r),
            frame,
        )?)),
        _ => Ok(AtomResult::Fails),
    }
}

/// A Ref of a constant: an integer, a character or a string.
pub fn constant(heap: &mut Heap, v: &Value) -> Result<Ref, Memory>
    requires { IsConstant (plain_value v.now) }
    ensures ok { IfOk result (λ r. StandsFor heap.new r (plain_value v.now)) }
    ensures keeps { Extends heap.old heap.new }
    ensures err { OnErr result (heap.new ≡ heap.old) }
{
    match v {
        Value::Int(i) => heap.int(*i),
        Value::Char(c) => heap.char(*c),
        Value::Str(text) => heap.text(text),
        _ => unreachable!(),
    }
}
