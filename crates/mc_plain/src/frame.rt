ghost use Rattle.std.specs.Prelude.{◌≡◌, ◌<◌, ◌↔◌, IsTrue, All, Some, None, IfOk, IfSome, length, map};
ghost use Rattle.mc_program.specs.declared.program.Program.{Program};
ghost use Rattle.mc_values.specs.Heap.{IsLive, value_at, values_at};
ghost use Rattle.mc_values.specs.declared.heap.Heap.{Heap as TheHeap};
ghost use Rattle.mc_model.specs.Stream.{meet, unify, gather};
ghost use Rattle.mc_plain.specs.Values.{IsHeld, AreLive, AreHeld};
ghost use Rattle.mc_plain.specs.Frames.{bindings, seen, given};
ghost use Rattle.mc_plain.specs.code.Steps.{meet_if};

use mc_base::Memory;
use mc_values::{Heap, Ref};

/// The variables of a body, by their numbers: the Ref of the value that each is bound to.
pub type Frame = Vec<Option<Ref>>;

/// A variable meets a value: it is bound where it is unbound, else the two are compared. Answers whether they are one.
pub fn meet(heap: &Heap, x: u32, r: Ref, frame: &mut Frame) -> Result<bool, Memory>
    requires variable { x < length frame.old.items }
    requires frame { AreLive heap.now frame.old.items }
    requires value { IsLive heap.now r }
    ensures meets { IfOk result (λ met.
        meet x (value_at heap.now r) (bindings heap.now frame.old.items)
        (bindings heap.now frame.old.items x)
        ≡ given met (bindings heap.now frame.new.items)) }
    ensures size { length frame.new.items ≡ length frame.old.items }
    ensures live { AreLive heap.now frame.new.items }
    ensures held { (P : Program) → IsHeld P heap.now r → AreHeld P heap.now frame.old.items
        → AreHeld P heap.now frame.new.items }
{
    match frame[x as usize] {
        None => {
            frame[x as usize] = Some(r);
            Ok(true)
        }
        Some(bound) => equal(heap, bound, r),
    }
}

/// Whether two Refs stand for equal values. An input of a call that comes back is the same Ref: the heap needn't be asked.
fn equal(heap: &Heap, a: Ref, b: Ref) -> Result<bool, Memory>
    requires left { IsLive heap.now a }
    requires right { IsLive heap.now b }
    ensures { IfOk result
        (λ same. IsTrue same ↔ (value_at heap.now a ≡ value_at heap.now b)) }
{
    if a == b {
        return Ok(true);
    }
    heap.equal(a, b)
}

/// A variable meets a value that may be there. Answers whether they are one.
pub fn meet_if(heap: &Heap, x: u32, value: Option<Ref>, frame: &mut Frame) -> Result<bool, Memory>
    requires variable { x < length frame.old.items }
    requires frame { AreLive heap.now frame.old.items }
    requires value { IfSome value (IsLive heap.now) }
    ensures meets { IfOk result (λ met.
        meet_if x (seen heap.now value) (bindings heap.now frame.old.items)
        ≡ given met (bindings heap.now frame.new.items)) }
    ensures size { length frame.new.items ≡ length frame.old.items }
    ensures live { AreLive heap.now frame.new.items }
    ensures held { (P : Program) → IfSome value (IsHeld P heap.now)
        → AreHeld P heap.now frame.old.items → AreHeld P heap.now frame.new.items }
{
    match value {
        None => Ok(true),
        Some(r) => meet(heap, x, r, frame),
    }
}

/// Variables meet those of the values that are there, in order. Answers whether they are one.
pub fn unify(
    heap: &Heap,
    vars: &[u32],
    values: &[Option<Ref>],
    frame: &mut Frame,
) -> Result<bool, Memory>
    requires variables { All (λ x. x < length frame.old.items) vars.now }
    requires frame { AreLive heap.now frame.old.items }
    requires values { AreLive heap.now values.now }
    ensures unifies { IfOk result (λ met.
        unify vars.now (map (seen heap.now) values.now) (bindings heap.now frame.old.items)
        ≡ given met (bindings heap.now frame.new.items)) }
    ensures size { length frame.new.items ≡ length frame.old.items }
    ensures live { AreLive heap.now frame.new.items }
    ensures held { (P : Program) → AreHeld P heap.now values.now
        → AreHeld P heap.now frame.old.items → AreHeld P heap.now frame.new.items }
{
    if vars.len() != values.len() {
        return Ok(false);
    }
    for k in 0..vars.len() {
        if !meet_if(heap, vars[k], values[k], frame)? {
            return Ok(false);
        }
    }
    Ok(true)
}

/// Variables meet the values of these Refs, in order. Answers whether they are one.
pub fn unify_refs(
    heap: &Heap,
    vars: &[u32],
    refs: &[Ref],
    frame: &mut Frame,
) -> Result<bool, Memory>
    requires variables { All (λ x. x < length frame.old.items) vars.now }
    requires frame { AreLive heap.now frame.old.items }
    requires values { All (IsLive heap.now) refs.now }
    ensures unifies { IfOk result (λ met.
        unify vars.now (map Some (values_at heap.now refs.now)) (bindings heap.now frame.old.items)
        ≡ given met (bindings heap.now frame.new.items)) }
    ensures size { length frame.new.items ≡ length frame.old.items }
    ensures live { AreLive heap.now frame.new.items }
    ensures held { (P : Program) → All (IsHeld P heap.now) refs.now
        → AreHeld P heap.now frame.old.items → AreHeld P heap.now frame.new.items }
{
    if vars.len() != refs.len() {
        return Ok(false);
    }
    for k in 0..vars.len() {
        if !meet(heap, vars[k], refs[k], frame)? {
            return Ok(false);
        }
    }
    Ok(true)
}

/// Puts the Refs of variables' values into a row, in place of what it held. Answers whether all are bound; where one
/// isn't, the row holds some of them.
pub fn gather(vars: &[u32], frame: &Frame, refs: &mut Vec<Ref>) -> Result<bool, Memory>
    requires { All (λ x. x < length frame.now.items) vars.now }
    ensures gathers { IfOk result (λ all. (h : TheHeap)
        → gather vars.now (bindings h frame.now.items) ≡ given all (values_at h refs.new.items)) }
    ensures live { (h : TheHeap) → AreLive h frame.now.items → All (IsLive h) refs.new.items }
    ensures held { (P : Program) (h : TheHeap)
        → AreHeld P h frame.now.items → All (IsHeld P h) refs.new.items }
{
    refs.clear();
    for x in vars {
        match frame[*x as usize] {
            Some(r) => refs.push(r)?,
            None => return Ok(false),
        }
    }
    Ok(true)
}
