ghost use Rattle.std.specs.Prelude.{All};
ghost use Rattle.mc_values.specs.Heap.{IsLive, values_at};
ghost use Rattle.mc_builtins.specs.Answers.{IsOf};

use mc_base::{Memory, Row, Text};
use mc_builtins::{Applied, Library, apply};
use mc_model::builtin::Builtin;
use mc_model::program::Program;
use mc_values::{Heap, Ref};
use std::alloc::Global;
use std::test::Fail;

/// What a builtin did, as far as the tables tell it apart.
#[derive(Clone, Copy, Debug, PartialEq, Eq)]
enum Did {
    Int(i64),
    Char(char),
    Length(u32),
    /// A constructor with so many arguments.
    Cell(usize),
    Holds,
    Fails,
    Throws,
    /// A text of so many bytes is written.
    Wrote(u32),
    /// A line is wanted from this byte of the input on.
    Reads(u64),
}

/// A program without symbols.
fn no_program(alloc: Global) -> Program {
    Program {
        types: Row::new(alloc),
        symbols: Row::new(alloc),
        preds: Row::new(alloc),
    }
}

/// What an output is: a number, a character, a text by its length, or a constructor.
fn told(heap: &Heap, output: Ref) -> Did
    requires { IsLive heap.now output }
{
    if let Some(i) = heap.int_at(output) {
        return Did::Int(i);
    }
    if let Some(c) = heap.char_at(output) {
        return Did::Char(c);
    }
    match heap.text_at(output) {
        Some(text) => Did::Length(text.len()),
        None => Did::Cell(heap.args(output).len()),
    }
}

fn answered(
    alloc: Global,
    op: Builtin,
    args: &[Ref],
    heap: &mut Heap,
    library: &Library<'_>,
) -> Result<Did, Memory>
    requires live { All (IsLive heap.old) args.now }
    requires values { All (IsOf library.now.program.now) (values_at heap.old args.now) }
{
    match apply(alloc, op, args, heap, library)? {
        Applied::Gives(None) => Ok(Did::Holds),
        Applied::Gives(Some(output)) => Ok(told(heap, output)),
        Applied::Fails => Ok(Did::Fails),
        Applied::Throws(_) => Ok(Did::Throws),
        Applied::Wrote(text, _) => Ok(Did::Wrote(text.len())),
        Applied::Reads(from) => Ok(Did::Reads(from)),
    }
}

fn at_integer(alloc: Global, op: Builtin, a: i64) -> Result<Did, Memory> {
    let program = no_program(alloc);
    let mut heap = Heap::new(alloc);
    let x = heap.int(a)?;
    answered(alloc, op, &[x], &mut heap, &Library::of(&program))
}

fn at_integers(alloc: Global, op: Builtin, a: i64, b: i64) -> Result<Did, Memory> {
    let program = no_program(alloc);
    let mut heap = Heap::new(alloc);
    let x = heap.int(a)?;
    let y = heap.int(b)?;
    answered(alloc, op, &[x, y], &mut heap, &Library::of(&program))
}

fn at_character(alloc: Global, op: Builtin, c: char) -> Result<Did, Memory> {
    let program = no_program(alloc);
    let mut heap = Heap::new(alloc);
    let x = heap.char(c)?;
    answered(alloc, op, &[x], &mut heap, &Library::of(&program))
}

fn at_text(alloc: Global, op: Builtin, text: &str) -> Result<Did, Memory> {
    let program = no_program(alloc);
    let mut heap = Heap::new(alloc);
    let bytes = Text::new(alloc, text.as_bytes())?;
    let x = heap.text(&bytes)?;
    answered(alloc, op, &[x], &mut heap, &Library::of(&program))
}

fn at_texts(alloc: Global, op: Builtin, s: &str, t: &str) -> Result<Did, Memory> {
    let program = no_program(alloc);
    let mut heap = Heap::new(alloc);
    let left = Text::new(alloc, s.as_bytes())?;
    let right = Text::new(alloc, t.as_bytes())?;
    let x = heap.text(&left)?;
    let y = heap.text(&right)?;
    answered(alloc, op, &[x, y], &mut heap, &Library::of(&program))
}

/// What stands before the state of io among the inputs.
#[derive(Clone, Copy)]
enum Before {
    Nothing,
    Int(i64),
    Text(&'static str),
}

/// At a state of io at which three bytes of the input are taken, behind another input or alone.
fn at_state(alloc: Global, op: Builtin, before: Before) -> Result<Did, Memory> {
    match before {
        Before::Nothing => state_alone(alloc, op),
        Before::Int(a) => integer_written(alloc, op, a),
        Before::Text(text) => text_written(alloc, op, text),
    }
}

fn state_alone(alloc: Global, op: Builtin) -> Result<Did, Memory> {
    let program = no_program(alloc);
    let mut heap = Heap::new(alloc);
    let state = heap.io(&Text::empty(alloc), 3)?;
    answered(alloc, op, &[state], &mut heap, &Library::of(&program))
}

fn integer_written(alloc: Global, op: Builtin, a: i64) -> Result<Did, Memory> {
    let program = no_program(alloc);
    let mut heap = Heap::new(alloc);
    let x = heap.int(a)?;
    let state = heap.io(&Text::empty(alloc), 3)?;
    answered(alloc, op, &[x, state], &mut heap, &Library::of(&program))
}

fn text_written(alloc: Global, op: Builtin, text: &str) -> Result<Did, Memory> {
    let program = no_program(alloc);
    let mut heap = Heap::new(alloc);
    let bytes = Text::new(alloc, text.as_bytes())?;
    let x = heap.text(&bytes)?;
    let state = heap.io(&Text::empty(alloc), 3)?;
    answered(alloc, op, &[x, state], &mut heap, &Library::of(&program))
}

/// Sums, differences and products wrap at 64 bits; quotients are rounded toward zero, `div` is rounded down.
#[test]
fn two_integers(rt: HostRuntime) -> Result<(), Fail> {
    let alloc = rt.alloc();
    let table = [
        (Builtin::IntPlus, i64::MAX, 1, Did::Int(i64::MIN)),
        (Builtin::IntMinus, i64::MIN, 1, Did::Int(i64::MAX)),
        (Builtin::IntTimes, i64::MIN, -1, Did::Int(i64::MIN)),
        (Builtin::IntQuotient, -7, 2, Did::Int(-3)),
        (Builtin::IntQuotient, i64::MIN, -1, Did::Int(i64::MIN)),
        (Builtin::IntQuotient, 1, 0, Did::Throws),
        (Builtin::IntDiv, -7, 2, Did::Int(-4)),
        (Builtin::IntDiv, 7, -2, Did::Int(-4)),
        (Builtin::IntDiv, i64::MIN, -1, Did::Int(i64::MIN)),
        (Builtin::IntDiv, 1, 0, Did::Throws),
        (Builtin::IntMod, -7, 2, Did::Int(1)),
        (Builtin::IntMod, 7, -2, Did::Int(-1)),
        (Builtin::IntMod, i64::MIN, -1, Did::Int(0)),
        (Builtin::IntMod, 1, 0, Did::Throws),
        (Builtin::IntRem, -7, 2, Did::Int(-1)),
        (Builtin::IntRem, i64::MIN, -1, Did::Int(0)),
        (Builtin::IntRem, 1, 0, Did::Throws),
        (Builtin::IntRem, 7, -2, Did::Int(1)),
        (Builtin::IntQuotient, 7, -2, Did::Int(-3)),
        (Builtin::IntTimes, i64::MAX, 2, Did::Int(-2)),
        (Builtin::IntLess, i64::MIN, i64::MAX, Did::Holds),
        (Builtin::IntLess, 3, 3, Did::Fails),
        (Builtin::StringJoin, 1, 2, Did::Fails),
        (Builtin::IntGreater, 3, 3, Did::Fails),
        (Builtin::IntAtMost, 3, 3, Did::Holds),
        (Builtin::IntAtLeast, i64::MIN, i64::MAX, Did::Fails),
    ];
    for (op, a, b, wanted) in &table {
        assert_eq!(rt; at_integers(alloc, *op, *a, *b)?, *wanted);
    }
    Ok(())
}

/// A code that is no character's gives none; the least integer is its own negation.
#[test]
fn one_integer(rt: HostRuntime) -> Result<(), Fail> {
    let alloc = rt.alloc();
    let table = [
        (Builtin::IntNegate, i64::MIN, Did::Int(i64::MIN)),
        (Builtin::IntToString, i64::MIN, Did::Length(20)),
        (Builtin::CharFromInt, 0xD7FF, Did::Char('\u{D7FF}')),
        (Builtin::CharFromInt, 0xD800, Did::Fails),
        (Builtin::CharFromInt, 0xDFFF, Did::Fails),
        (Builtin::CharFromInt, 0xE000, Did::Char('\u{E000}')),
        (Builtin::CharFromInt, 0x10_FFFF, Did::Char('\u{10FFFF}')),
        (Builtin::CharFromInt, 0x11_0000, Did::Fails),
        (Builtin::CharFromInt, -1, Did::Fails),
    ];
    for (op, a, wanted) in &table {
        assert_eq!(rt; at_integer(alloc, *op, *a)?, *wanted);
    }
    Ok(())
}

/// A string's length is in bytes; a number is read where it has 64 bits.
#[test]
fn one_text(rt: HostRuntime) -> Result<(), Fail> {
    let alloc = rt.alloc();
    let table = [
        (Builtin::StringLength, "a\u{E4}\u{1F600}", Did::Int(7)),
        (Builtin::StringCodePoints, "a\u{E4}\u{1F600}", Did::Int(3)),
        (
            Builtin::StringToInt,
            "9223372036854775807",
            Did::Int(i64::MAX),
        ),
        (Builtin::StringToInt, "9223372036854775808", Did::Fails),
        (
            Builtin::StringToInt,
            "-9223372036854775808",
            Did::Int(i64::MIN),
        ),
        (Builtin::StringToInt, "-9223372036854775809", Did::Fails),
        (Builtin::StringToInt, "+7", Did::Int(7)),
        (Builtin::StringToInt, "007", Did::Int(7)),
        (Builtin::StringToInt, "+", Did::Fails),
        (Builtin::StringToInt, "", Did::Fails),
        (Builtin::StringToInt, " 7", Did::Fails),
        (Builtin::ToCharList, "", Did::Cell(0)),
        (Builtin::ToCharList, "\u{1F600}b", Did::Cell(2)),
        (Builtin::Error, "no", Did::Throws),
    ];
    for (op, text, wanted) in &table {
        assert_eq!(rt; at_text(alloc, *op, *text)?, *wanted);
    }
    Ok(())
}

/// Characters of one to four bytes; only the decimal digits are digits.
#[test]
fn one_character(rt: HostRuntime) -> Result<(), Fail> {
    let alloc = rt.alloc();
    let table = [
        (Builtin::CharToString, 'a', Did::Length(1)),
        (Builtin::CharToString, '\u{E4}', Did::Length(2)),
        (Builtin::CharToString, '\u{20AC}', Did::Length(3)),
        (Builtin::CharToString, '\u{1F600}', Did::Length(4)),
        (Builtin::CharToInt, '\u{10FFFF}', Did::Int(0x10_FFFF)),
        (Builtin::CharIsDigit, '9', Did::Holds),
        (Builtin::CharIsDigit, ':', Did::Fails),
        (Builtin::CharIsDigit, '/', Did::Fails),
    ];
    for (op, c, wanted) in &table {
        assert_eq!(rt; at_character(alloc, *op, *c)?, *wanted);
    }
    Ok(())
}

/// Two strings are joined by their bytes.
#[test]
fn two_texts(rt: HostRuntime) -> Result<(), Fail> {
    let alloc = rt.alloc();
    let table = [
        (Builtin::StringJoin, "\u{E4}", "\u{1F600}", Did::Length(6)),
        (Builtin::StringJoin, "", "", Did::Length(0)),
        (Builtin::IntPlus, "1", "2", Did::Fails),
    ];
    for (op, s, t, wanted) in &table {
        assert_eq!(rt; at_texts(alloc, *op, *s, *t)?, *wanted);
    }
    Ok(())
}

/// A line is read behind the bytes that are taken; integers are written in decimal, and strings in UTF-8 or in quotes.
#[test]
fn states(rt: HostRuntime) -> Result<(), Fail> {
    let alloc = rt.alloc();
    let table = [
        (Builtin::ReadLine, Before::Nothing, Did::Reads(3)),
        (Builtin::Nl, Before::Nothing, Did::Wrote(1)),
        (Builtin::WriteInt, Before::Int(i64::MIN), Did::Wrote(20)),
        (Builtin::Write, Before::Int(i64::MIN), Did::Wrote(20)),
        (Builtin::WriteString, Before::Int(7), Did::Fails),
        (
            Builtin::WriteString,
            Before::Text("\u{E4}\n"),
            Did::Wrote(3),
        ),
        (Builtin::Write, Before::Text("\u{E4}\n"), Did::Wrote(6)),
        (Builtin::WriteInt, Before::Text("7"), Did::Fails),
    ];
    for (op, before, wanted) in &table {
        assert_eq!(rt; at_state(alloc, *op, *before)?, *wanted);
    }
    Ok(())
}
