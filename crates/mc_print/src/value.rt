ghost use Rattle.std.specs.Prelude.{◌≡◌, ◌<◌, ◌++◌, ◌∷◌, [], ℕ, length, map, slice_index_or, OnOk, IfOk, MatchOption};
ghost use Rattle.mc_program.specs.Values.{plain_value};
ghost use Rattle.mc_program.specs.Printed.{Names, names_of, name_at, printed};
ghost use Rattle.mc_values.specs.Heap.{IsLive, value_at};
ghost use Rattle.mc_print.specs.code.Splits.{IsSplit};
ghost use Rattle.mc_print.specs.code.Places.{lead, at_place, opening, last_place, last_constant, IsEnd, is_list_front};
ghost use Rattle.mc_print.specs.code.Tasks.{IsNamed, Writes, Opens, PutFront, separators, closings};

use crate::name::{is_nil, write_constant, write_name, write_quoted};
use itoa::Buffer;
use mc_base::{Memory, Text};
use mc_program::program::Program;
use mc_program::value::Value;
use mc_values::{Heap, Ref};
use std::alloc::Global;

/// Where a value stands: by itself, or as the tail of a list whose elements before it are written.
#[derive(Clone, Copy)]
pub enum Place {
    Whole,
    Tail,
}

/// The text of the value that a Ref stands for.
pub fn value_text(alloc: Global, heap: &Heap, v: Ref, program: &Program) -> Result<Text, Memory>
    requires live { IsLive heap.now v }
    requires named { Names program.now (value_at heap.now v) }
    ensures { IfOk result (λ text. text ≡ printed (names_of program.now) (value_at heap.now v)) }
{
    let value = heap.value(v)?;
    printed(alloc, &value, program)
}

/// The text of a value.
pub fn printed(alloc: Global, v: &Value, program: &Program) -> Result<Text, Memory>
    requires { Names program.now (plain_value v.now) }
    ensures { IfOk result (λ text. text ≡ printed (names_of program.now) (plain_value v.now)) }
{
    let mut out = Text::empty(alloc);
    let mut tasks = Vec::new(alloc);
    tasks.push(Task::Value(Place::Whole, v))?;
    while let Some(task) = tasks.pop() {
        write_task(&mut out, task, &mut tasks, program)?;
    }
    Ok(out)
}

/// What is still to be written: a value where it stands, what stands between two arguments, or what closes them.
#[derive(Clone, Copy)]
enum Task<'v> {
    Value(Place, &'v Value),
    Separator,
    Close(u8),
}

/// Writes what is to be written next, of a value its front; the rest of it is put before what is still to be written.
fn write_task<'v>(
    out: &mut Text,
    task: Task<'v>,
    tasks: &mut Vec<Task<'v>>,
    program: &Program,
) -> Result<(), Memory>
    requires { IsNamed (length program.now.symbols) task }
    ensures { OnOk result
        (Writes program.now out.old out.new task.entry tasks.old.items tasks.new.items) }
{
    match task {
        Task::Value(place, v) => write_front(out, place, v, tasks, program),
        Task::Separator => out.extend(b", "),
        Task::Close(byte) => out.push(byte),
    }
}

/// Writes what stands before the first argument of a value, and puts the rest before what is still to be written. So no
/// value takes stack for its depth.
fn write_front<'v>(
    out: &mut Text,
    place: Place,
    v: &'v Value,
    tasks: &mut Vec<Task<'v>>,
    program: &Program,
) -> Result<(), Memory>
    requires { Names program.now (plain_value v.now) }
    ensures { OnOk result
        (Opens program.now out.old out.new place (plain_value v.now) tasks.old.items tasks.new.items) }
{
    match split(v) {
        None => write_end(out, place, v, program),
        Some((symbol, front, last)) => {
            let name = symbol_name(program, symbol);
            let is_list = is_list_front(name, front);
            write_opening(out, place, name, is_list)?;
            put_closing(tasks, place, is_list)?;
            tasks.push(Task::Value(last_place(is_list), last))?;
            put_front(tasks, front, is_list)?;
            Ok(())
        }
    }
}

/// Puts arguments, each with what stands after it, before what is still to be written.
fn put_front<'v>(tasks: &mut Vec<Task<'v>>, front: &'v [Value], is_list: bool) -> Result<(), Memory>
    ensures { OnOk result
        (PutFront is_list (map plain_value front.now) tasks.old.items tasks.new.items) }
{
    let mut k = front.len();
    'front: while k > 0 {
        k -= 1;
        put_separator(tasks, is_list)?;
        tasks.push(Task::Value(Place::Whole, &front[k]))?;
    }
    Ok(())
}

/// Puts what stands after an argument that isn't the last before what is still to be written.
fn put_separator<'v>(tasks: &mut Vec<Task<'v>>, is_list: bool) -> Result<(), Memory>
    ensures { OnOk result (tasks.new.items ≡ tasks.old.items ++ separators is_list) }
{
    if !is_list {
        tasks.push(Task::Separator)?;
    }
    Ok(())
}

/// A constructor that has arguments, as its symbol, the arguments before the last one, and the last one.
fn split(v: &Value) -> Option<(u32, &[Value], &Value)>
    ensures { MatchOption result (IsEnd (plain_value v.now))
        (λ p. IsSplit v.now p.0 p.1.now p.2.now) }
{
    match v {
        Value::Con(symbol, args) => match args.as_slice() {
            [front @ .., last] => Some((*symbol, front, last)),
            [] => None,
        },
        _ => None,
    }
}

fn symbol_name(program: &Program, symbol: u32) -> &[u8]
    requires { symbol < length program.now.symbols }
    ensures { result.now ≡ name_at (names_of program.now) symbol }
{
    program.symbols.get(symbol).name.name.bytes()
}

/// Whether a constructor over these arguments and one more is a list's.
fn is_list_front(name: &[u8], front: &[Value]) -> bool
    ensures { result ≡ is_list_front name.now (map plain_value front.now) }
{
    match front {
        [_] => name == b"[|]".as_slice(),
        _ => false,
    }
}

/// Writes what stands before the first argument.
fn write_opening(out: &mut Text, place: Place, name: &[u8], is_list: bool) -> Result<(), Memory>
    ensures { OnOk result (out.new ≡ out.old ++ opening place name.now is_list) }
{
    if is_list {
        return match place {
            Place::Whole => out.push(b'['),
            Place::Tail => out.extend(b", "),
        };
    }
    write_lead(out, place)?;
    write_name(out, name)?;
    out.push(b'(')
}

/// Puts what stands after the last argument before what is still to be written; of a list's tail nothing, so that a long
/// list takes no room for each element.
fn put_closing<'v>(tasks: &mut Vec<Task<'v>>, place: Place, is_list: bool) -> Result<(), Memory>
    ensures { OnOk result (tasks.new.items ≡ tasks.old.items ++ closings place is_list) }
{
    match place {
        Place::Tail if is_list => Ok(()),
        _ => {
            tasks.push(Task::Close(if is_list { b']' } else { b')' }))?;
            Ok(())
        }
    }
}

/// Where the last argument stands.
fn last_place(is_list: bool) -> Place
    ensures { result ≡ last_place is_list }
{
    if is_list { Place::Tail } else { Place::Whole }
}

/// Writes a value that has no arguments.
fn write_end(out: &mut Text, place: Place, v: &Value, program: &Program) -> Result<(), Memory>
    requires ends { IsEnd (plain_value v.now) }
    requires named { Names program.now (plain_value v.now) }
    ensures { OnOk result
        (out.new ≡ out.old ++ at_place (names_of program.now) place (plain_value v.now)) }
{
    match v {
        Value::Con(symbol, _) => write_last_constant(out, place, symbol_name(program, *symbol)),
        Value::Int(i) => {
            write_lead(out, place)?;
            out.extend(Buffer::new().format(*i).as_bytes())
        }
        Value::Char(c) => {
            write_lead(out, place)?;
            write_quoted(out, b'\'', c.encode_utf8(&mut [0; 4]).as_bytes())
        }
        Value::Str(text) => {
            write_lead(out, place)?;
            write_quoted(out, b'"', text.bytes())
        }
        Value::Io(_, _) => {
            write_lead(out, place)?;
            out.extend(b"state")
        }
    }
}

/// Writes a constructor without arguments; the end of a list is not written.
fn write_last_constant(out: &mut Text, place: Place, name: &[u8]) -> Result<(), Memory>
    ensures { OnOk result (out.new ≡ out.old ++ last_constant place name.now) }
{
    match place {
        Place::Tail if is_nil(name) => Ok(()),
        _ => {
            write_lead(out, place)?;
            write_constant(out, name)
        }
    }
}

/// Writes what stands before a value that is no list.
fn write_lead(out: &mut Text, place: Place) -> Result<(), Memory>
    ensures { OnOk result (out.new ≡ out.old ++ lead place) }
{
    match place {
        Place::Whole => Ok(()),
        Place::Tail => out.extend(b" | "),
    }
}
