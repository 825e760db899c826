ghost use Rattle.std.specs.Prelude.{◌≡◌, ◌<◌, ◌^◌, IfOk, All, length};
ghost use Rattle.mc_values.specs.Heap.{height, IsLive, value_at};
ghost use Rattle.mc_values.specs.Parts.{arguments};

use mc_base::{Memory, Row, Text};
use mc_program::same::same_value;
use mc_program::value::Value;
use mc_values::{Heap, Ref};
use std::alloc::Global;
use std::process::Abort;
use std::test::Fail;

#[tactic(auto, unfolding(mc_values::specs::Heap::IsLive, mc_values::specs::Heap::height))]
fn live(rt: &impl Abort, heap: &Heap, r: Ref) -> Ref
    ensures { IsLive heap.now result }
{
    assert!(rt; r < heap.mark());
    r
}

fn all_live(rt: &impl Abort, alloc: Global, heap: &Heap, refs: &[Ref]) -> Result<Row<Ref>, Memory>
    ensures { IfOk result (λ row. All (IsLive heap.now) row) }
{
    let mut row = Row::new(alloc);
    assert!(rt; refs.len() < 100);
    for r in refs {
        row.push(live(rt, heap, *r))?;
    }
    Ok(row)
}

fn arity(heap: &Heap, r: Ref) -> Result<u32, Memory>
    requires { IsLive heap.now r }
    ensures { IfOk result (λ n. n ≡ length (arguments (value_at heap.now r))) }
{
    let v = heap.value(r)?;
    match &v {
        Value::Con(_, args) => Ok(args.len()),
        _ => Ok(0),
    }
}

#[test]
fn constants_are_made_and_looked_at(rt: HostRuntime) -> Result<(), Fail> {
    let alloc = rt.alloc();
    let mut heap = Heap::new(alloc);
    let number = heap.int(i64::MIN)?;
    assert_eq!(rt; heap.int_at(number), Some(i64::MIN));
    let letter = heap.char('é')?;
    assert_eq!(rt; heap.char_at(letter), Some('é'));
    let word = Text::new(alloc, b"out")?;
    let text = heap.text(&word)?;
    assert!(rt; heap.text_at(text).is_some_and(|found| found.same(&word)));
    assert_eq!(rt; heap.taken_at(text), None);
    Ok(())
}

#[test]
fn constructors_are_made_and_taken_apart(rt: HostRuntime) -> Result<(), Fail> {
    let alloc = rt.alloc();
    let mut heap = Heap::new(alloc);
    let seven = heap.int(7)?;
    let letter = heap.char('x')?;
    let args = all_live(&rt, alloc, &heap, &[seven, letter])?;
    let pair = heap.con(3, args.as_slice())?;
    assert_eq!(rt; heap.top_symbol(pair), Some(3));
    let count = arity(&heap, pair)?;
    assert!(rt; count == 2);
    let last = heap.arg(pair, count - 1);
    assert_eq!(rt; heap.char_at(last), Some('x'));
    assert!(rt; heap.equal(last, live(&rt, &heap, letter))?);
    assert!(rt; !heap.equal(last, pair)?);
    assert!(rt; same_value(&heap.value(last)?, &Value::Char('x')));
    Ok(())
}

#[test]
fn states_grow(rt: HostRuntime) -> Result<(), Fail> {
    let alloc = rt.alloc();
    let mut heap = Heap::new(alloc);
    let start = heap.io(&Text::new(alloc, b"a")?, 7)?;
    assert!(rt; heap.taken_at(start).is_some());
    let written = heap.io_after(start, &Text::new(alloc, b"b")?)?;
    match heap.taken_at(written) {
        Some(taken) => {
            assert!(rt; taken < 1000);
            let after = heap.io_took(written, 3)?;
            let wanted = Value::Io(Text::new(alloc, b"ab")?, 10);
            assert!(rt; same_value(&heap.value(after)?, &wanted));
        }
        None => assert!(rt; false),
    }
    Ok(())
}

#[test]
fn a_heap_is_released_to_a_mark(rt: HostRuntime) -> Result<(), Fail> {
    let mut heap = Heap::new(rt.alloc());
    let kept = heap.int(1)?;
    let mark = heap.mark();
    heap.int(2)?;
    assert!(rt; mark < heap.mark());
    heap.release(mark);
    assert!(rt; heap.mark() == mark);
    assert_eq!(rt; heap.int_at(live(&rt, &heap, kept)), Some(1));
    Ok(())
}
