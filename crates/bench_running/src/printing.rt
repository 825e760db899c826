//! Answer lines `X = f(I).`, as a run would print them: a value in the heap, its text, its line.

ghost use Rattle.std.specs.Prelude.{◌≡◌, IfOk, length};

use mc_base::{Memory, Row, Text};
use mc_print::{answer_line, value_text};
use mc_program::program::{Program, Symbol};
use mc_source::name::Name;
use mc_values::Heap;
use std::alloc::{AllocError, Global};
use std::io::{self, BufWriter, Write};

/// A program with one symbol, `f`.
fn program(alloc: Global) -> Result<Program, Memory>
    ensures { IfOk result (λ program. length program.symbols ≡ 1) }
{
    let name = Name {
        module: Text::new(alloc, b"m")?,
        name: Text::new(alloc, b"f")?,
        arity: 1,
    };
    let mut symbols = Row::new(alloc);
    symbols.push(Symbol {
        name,
        of_type: 0,
        args: Row::new(alloc),
    })?;
    Ok(Program {
        types: Row::new(alloc),
        symbols,
        preds: Row::new(alloc),
    })
}

fn one(alloc: Global, text: Text) -> Result<Row<Text>, Memory>
    ensures { IfOk result (λ row. length row ≡ 1) }
{
    let mut row = Row::new(alloc);
    row.push(text)?;
    Ok(row)
}

/// The text of `f(I)`, whose cells are given up again.
fn text(alloc: Global, heap: &mut Heap, program: &Program, i: i64) -> Result<Text, Memory>
    requires { length program.now.symbols ≡ 1 }
{
    let mark = heap.mark();
    let number = heap.int(i)?;
    let value = heap.con(0, &[number])?;
    let text = value_text(alloc, heap, value, program)?;
    heap.release(mark);
    Ok(text)
}

fn line(
    alloc: Global,
    heap: &mut Heap,
    program: &Program,
    names: &Row<Text>,
    i: i64,
) -> Result<Text, Memory>
    requires symbols { length program.now.symbols ≡ 1 }
    requires names { length names.now ≡ 1 }
{
    let values = one(alloc, text(alloc, heap, program, i)?)?;
    answer_line(alloc, names, &values)
}

fn write_lines<W: Write>(alloc: Global, out: &mut W, count: i64) -> io::Result<()> {
    let program = program(alloc).map_err(no_room)?;
    let names = one(alloc, Text::new(alloc, b"X").map_err(no_room)?).map_err(no_room)?;
    let mut heap = Heap::new(alloc);
    for i in 0..count {
        let line = line(alloc, &mut heap, &program, &names, i).map_err(no_room)?;
        out.write_all(line.bytes())?;
    }
    out.flush()
}

fn no_room(_memory: Memory) -> io::Error {
    io::Error::from(AllocError)
}

pub fn print_lines(rt: &HostRuntime, count: i64) -> io::Result<()> {
    let mut out = BufWriter::new(rt.alloc(), io::writer(rt))?;
    write_lines(rt.alloc(), &mut out, count)
}
