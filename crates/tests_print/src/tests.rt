ghost use Rattle.std.specs.Prelude.{◌≡◌, [], ◌∷◌, length, map, IfOk};
ghost use Rattle.std.specs.Bool.{OnTrue};
ghost use Rattle.mc_program.specs.Values.{plain_value, vals};
ghost use Rattle.mc_program.specs.Printed.{SymbolsBelow, AllSymbolsBelow};
ghost use Rattle.mc_program.specs.declared.value.Value.{Con};

use laws_print::read_back;
use mc_base::{Memory, Row, Text};
use mc_print::{answer_line, broken_line, printed, value_text, write_constant};
use mc_program::copy::copy_value;
use mc_program::program::{Program, Symbol};
use mc_program::same::same_value;
use mc_program::value::Value;
use mc_source::name::Name;
use mc_source::place::Place;
use mc_source::rule::{Broken, Rule};
use mc_term_data::{Node, Term};
use mc_values::Heap;
use std::alloc::Global;
use std::process::Abort;
use std::test::Fail;

/// The symbols of the program, by their numbers.
const NAMES: [&str; 16] = [
    "[|]", "[]", "f", "end", "-", "mod", ":-", ",", "not", "a b", "it's", "x\ny\\", "", "Abc",
    "żółw", "|",
];

const CELL: u32 = 0;

const NIL: u32 = 1;

const F: u32 = 2;

const END: u32 = 3;

const MINUS: u32 = 4;

const MOD: u32 = 5;

const RULE: u32 = 6;

const COMMA: u32 = 7;

const NOT: u32 = 8;

const SPACE: u32 = 9;

const QUOTE: u32 = 10;

const LINE: u32 = 11;

const EMPTY: u32 = 12;

const UPPER: u32 = 13;

const TURTLE: u32 = 14;

const BAR: u32 = 15;

fn symbol(alloc: Global, name: &str) -> Result<Symbol, Memory> {
    let name = Name {
        module: Text::new(alloc, b"m")?,
        name: Text::new(alloc, name.as_bytes())?,
        arity: 0,
    };
    Ok(Symbol {
        name,
        of_type: 0,
        args: Row::new(alloc),
    })
}

fn program(alloc: Global) -> Result<Program, Memory> {
    let mut symbols = Row::new(alloc);
    for name in &NAMES {
        symbols.push(symbol(alloc, name)?)?;
    }
    Ok(Program {
        types: Row::new(alloc),
        symbols,
        preds: Row::new(alloc),
    })
}

/// Whether each symbol of a value is below n.
#[cycle(named)]
fn is_named(v: &Value, n: u32) -> bool
    ensures { OnTrue result (SymbolsBelow n (plain_value v.now)) }
{
    match v {
        Value::Con(symbol, args) => *symbol < n && are_named(args.as_slice(), n),
        _ => true,
    }
}

#[cycle(named)]
fn are_named(values: &[Value], n: u32) -> bool
    ensures { OnTrue result (AllSymbolsBelow n (vals (map plain_value values.now))) }
{
    for v in values {
        if !is_named(v, n) {
            return false;
        }
    }
    true
}

fn constant(alloc: Global, symbol: u32) -> Value
    ensures { result ≡ Con symbol [] }
{
    Value::Con(symbol, Row::new(alloc))
}

fn over(alloc: Global, symbol: u32, a: Value) -> Result<Value, Memory> {
    let mut args = Row::new(alloc);
    args.push(a)?;
    Ok(Value::Con(symbol, args))
}

fn over_two(alloc: Global, symbol: u32, a: Value, b: Value) -> Result<Value, Memory>
    ensures { IfOk result (λ v. v ≡ Con symbol (a ∷ b ∷ [])) }
{
    let mut args = Row::new(alloc);
    args.push(a)?;
    args.push(b)?;
    Ok(Value::Con(symbol, args))
}

fn string(alloc: Global, text: &str) -> Result<Value, Memory> {
    Ok(Value::Str(Text::new(alloc, text.as_bytes())?))
}

/// The list of the integers from `first` to `last`, with a tail.
fn numbers(alloc: Global, first: i64, last: i64, tail: Value) -> Result<Value, Memory> {
    let mut list = tail;
    for i in (first..=last).rev() {
        list = over_two(alloc, CELL, Value::Int(i), list)?;
    }
    Ok(list)
}

/// A list of so many integers, whose symbols are the program's.
fn long_list(alloc: Global, count: i64) -> Result<Value, Memory>
    ensures { IfOk result (λ v. SymbolsBelow 16 (plain_value v)) }
{
    let mut list = constant(alloc, NIL);
    for i in 0..count {
        list = over_two(alloc, CELL, Value::Int(i), list)?;
    }
    Ok(list)
}

/// A value of so many cells of lists, each in the first argument of another, whose symbols are the program's.
fn nested_first(alloc: Global, count: u32) -> Result<Value, Memory>
    ensures { IfOk result (λ v. SymbolsBelow 16 (plain_value v)) }
{
    let mut v = constant(alloc, NIL);
    'levels: for _ in 0..count {
        v = over_two(alloc, CELL, v, Value::Int(0))?;
    }
    Ok(v)
}

/// A value under so many constructors of one argument.
fn nested(alloc: Global, levels: u32, inside: Value) -> Result<Value, Memory> {
    let mut v = inside;
    for _ in 0..levels {
        v = over(alloc, F, v)?;
    }
    Ok(v)
}

/// Writes the terms with a comma between them.
#[cycle(shown)]
fn write_all(alloc: Global, out: &mut Text, terms: &[Term]) -> Result<(), Memory> {
    let mut first = true;
    for term in terms {
        if !first {
            out.push(b',')?;
        }
        first = false;
        write_term(alloc, out, term)?;
    }
    Ok(())
}

fn write_name(out: &mut Text, parts: &[Text]) -> Result<(), Memory> {
    for part in parts {
        out.push(b'<')?;
        out.extend(part.bytes())?;
        out.push(b'>')?;
    }
    Ok(())
}

/// Writes a term: each name in angle brackets, a string in double quotes, and `?` for what no value is printed as.
#[cycle(shown)]
fn write_term(alloc: Global, out: &mut Text, term: &Term) -> Result<(), Memory> {
    if term.line != 1 {
        return out.push(b'?');
    }
    match &term.node {
        Node::Int(value) => out.extend(format!(in alloc; "{value}")?.as_bytes()),
        Node::Str(bytes) => {
            out.push(b'"')?;
            out.extend(bytes.bytes())?;
            out.push(b'"')
        }
        Node::App(name, args) => {
            write_name(out, name.as_slice())?;
            out.push(b'(')?;
            write_all(alloc, out, args.as_slice())?;
            out.push(b')')
        }
        Node::List(items, tail) => {
            out.push(b'[')?;
            write_all(alloc, out, items.as_slice())?;
            if let Some(tail) = tail {
                out.push(b'|')?;
                write_term(alloc, out, tail)?;
            }
            out.push(b']')
        }
        _ => out.push(b'?'),
    }
}

/// A value's printed text, ` ~ `, and the term that it is read back as; `none` where it isn't read.
fn both_ways(rt: &impl Abort, alloc: Global, v: &Value, program: &Program) -> Result<Text, Memory> {
    assert!(rt; is_named(v, program.symbols.len()));
    let mut out = printed(alloc, v, program)?;
    out.extend(b" ~ ")?;
    match read_back(alloc, v, program)? {
        Some(term) => write_term(alloc, &mut out, &term)?,
        None => out.extend(b"none")?,
    }
    Ok(out)
}

fn check(
    rt: &impl Abort,
    alloc: Global,
    v: Value,
    program: &Program,
    wanted: &str,
) -> Result<(), Memory> {
    let text = both_ways(rt, alloc, &v, program)?;
    assert!(rt; text.bytes() == wanted.as_bytes(), "{wanted}");
    Ok(())
}

#[test]
fn constants(rt: HostRuntime) -> Result<(), Fail> {
    let alloc = rt.alloc();
    let program = program(alloc)?;
    for (i, wanted) in [
        (i64::MIN, "-9223372036854775808 ~ -9223372036854775808"),
        (i64::MAX, "9223372036854775807 ~ 9223372036854775807"),
        (-1, "-1 ~ -1"),
        (0, "0 ~ 0"),
    ] {
        check(&rt, alloc, Value::Int(i), &program, wanted)?;
    }
    for (c, wanted) in [
        ('a', "'a' ~ <a>()"),
        ('\'', "'\\'' ~ <'>()"),
        ('\u{7f}', "'\\x7f\\' ~ <\u{7f}>()"),
        ('é', "'é' ~ <é>()"),
    ] {
        check(&rt, alloc, Value::Char(c), &program, wanted)?;
    }
    for (text, wanted) in [
        ("", "\"\" ~ \"\""),
        ("a\"\\\n\tż'", "\"a\\\"\\\\\\n\\tż'\" ~ \"a\"\\\n\tż'\""),
    ] {
        check(&rt, alloc, string(alloc, text)?, &program, wanted)?;
    }
    let state = Value::Io(Text::new(alloc, b"out")?, 3);
    check(&rt, alloc, state, &program, "state ~ <state>()")?;
    Ok(())
}

#[test]
fn names(rt: HostRuntime) -> Result<(), Fail> {
    let alloc = rt.alloc();
    let program = program(alloc)?;
    for (symbol, wanted) in [
        (END, "end ~ <end>()"),
        (NIL, "[] ~ []"),
        (CELL, "'[|]' ~ <[|]>()"),
        (MINUS, "'-' ~ <->()"),
        (MOD, "mod ~ <mod>()"),
        (RULE, "':-' ~ <:->()"),
        (COMMA, "',' ~ <,>()"),
        (NOT, "not ~ <not>()"),
        (SPACE, "'a b' ~ <a b>()"),
        (QUOTE, "'it\\'s' ~ <it's>()"),
        (LINE, "'x\\ny\\\\' ~ <x\ny\\>()"),
        (EMPTY, "'' ~ <>()"),
        (UPPER, "'Abc' ~ <Abc>()"),
        (TURTLE, "'żółw' ~ <żółw>()"),
        (BAR, "'|' ~ <|>()"),
    ] {
        check(&rt, alloc, constant(alloc, symbol), &program, wanted)?;
    }
    Ok(())
}

#[test]
fn constructors(rt: HostRuntime) -> Result<(), Fail> {
    let alloc = rt.alloc();
    let program = program(alloc)?;
    let minus = over_two(alloc, MINUS, Value::Int(1), Value::Int(-2))?;
    check(&rt, alloc, minus, &program, "'-'(1, -2) ~ <->(1,-2)")?;
    let operators = over_two(alloc, MOD, constant(alloc, MINUS), constant(alloc, NOT))?;
    check(
        &rt,
        alloc,
        over(alloc, RULE, operators)?,
        &program,
        "':-'(mod('-', not)) ~ <:->(<mod>(<->(),<not>()))",
    )?;
    let nil = over(alloc, NIL, constant(alloc, COMMA))?;
    check(&rt, alloc, nil, &program, "'[]'(',') ~ <[]>(<,>())")?;
    let cell = over(alloc, CELL, string(alloc, "x, y")?)?;
    check(
        &rt,
        alloc,
        cell,
        &program,
        "'[|]'(\"x, y\") ~ <[|]>(\"x, y\")",
    )?;
    Ok(())
}

#[test]
fn lists(rt: HostRuntime) -> Result<(), Fail> {
    let alloc = rt.alloc();
    let program = program(alloc)?;
    let ended = numbers(alloc, 1, 2, constant(alloc, END))?;
    check(&rt, alloc, ended, &program, "[1, 2 | end] ~ [1,2|<end>()]")?;
    let negative = numbers(alloc, -1, -1, Value::Int(-2))?;
    check(&rt, alloc, negative, &program, "[-1 | -2] ~ [-1|-2]")?;
    let minus = numbers(alloc, 1, 1, over(alloc, MINUS, Value::Int(2))?)?;
    check(&rt, alloc, minus, &program, "[1 | '-'(2)] ~ [1|<->(2)]")?;
    let inner = numbers(alloc, 1, 2, constant(alloc, NIL))?;
    let outer = over_two(alloc, CELL, constant(alloc, NIL), constant(alloc, NIL))?;
    let both = over_two(alloc, CELL, inner, outer)?;
    check(&rt, alloc, both, &program, "[[1, 2], []] ~ [[1,2],[]]")?;
    Ok(())
}

fn is_read_back(
    rt: &impl Abort,
    alloc: Global,
    v: Value,
    program: &Program,
) -> Result<bool, Memory> {
    assert!(rt; is_named(&v, program.symbols.len()));
    Ok(read_back(alloc, &v, program)?.is_some())
}

/// A term 256 deep reads back, and a deeper one doesn't; a long list is no deep term.
#[test]
fn depths(rt: HostRuntime) -> Result<(), Fail> {
    let alloc = rt.alloc();
    let program = program(alloc)?;
    for (levels, wanted) in [(254, true), (255, false)] {
        let list = numbers(alloc, 1, 300, constant(alloc, NIL))?;
        let v = nested(alloc, levels, list)?;
        assert_eq!(&rt; is_read_back(&rt, alloc, v, &program)?, wanted);
        let v = nested(alloc, levels, over(alloc, NOT, Value::Int(-1))?)?;
        assert_eq!(&rt; is_read_back(&rt, alloc, v, &program)?, wanted);
    }
    Ok(())
}

#[test]
fn values_of_a_heap(rt: HostRuntime) -> Result<(), Fail> {
    let alloc = rt.alloc();
    let program = program(alloc)?;
    let mut heap = Heap::new(alloc);
    let r = heap.int(7)?;
    let v = heap.value(r)?;
    assert!(rt; is_named(&v, program.symbols.len()));
    let text = value_text(alloc, &heap, r, &program)?;
    assert_eq!(rt; text.bytes(), b"7".as_slice());
    Ok(())
}

#[test]
fn lines(rt: HostRuntime) -> Result<(), Fail> {
    let alloc = rt.alloc();
    let mut names = Row::new(alloc);
    let mut values = Row::new(alloc);
    let none = answer_line(alloc, &names, &values)?;
    assert_eq!(rt; none.bytes(), b"true.\n".as_slice());
    names.push(Text::new(alloc, b"X")?)?;
    values.push(Text::new(alloc, b"ann")?)?;
    let one = answer_line(alloc, &names, &values)?;
    assert_eq!(rt; one.bytes(), b"X = ann.\n".as_slice());
    names.push(Text::new(alloc, b"Y")?)?;
    values.push(Text::new(alloc, b"bob")?)?;
    let two = answer_line(alloc, &names, &values)?;
    assert_eq!(rt; two.bytes(), b"X = ann, Y = bob.\n".as_slice());
    let broken = Broken {
        rule: Rule::E1,
        at: Place { file: 0, line: 4 },
        what: Text::new(alloc, b"declared det, inferred semidet")?,
    };
    let mut line = broken_line(alloc, &Text::new(alloc, b"h.m")?, &broken)?;
    assert_eq!(rt;
        line.bytes(),
        b"h.m:4: E1 declared det, inferred semidet\n".as_slice()
    );
    write_constant(&mut line, b"it's")?;
    assert_eq!(rt;
        line.bytes(),
        b"h.m:4: E1 declared det, inferred semidet\n'it\\'s'".as_slice()
    );
    Ok(())
}

/// A list of 1,000,000 elements is copied, compared, printed and dropped with no stack for each of them.
#[test]
fn a_long_list(rt: HostRuntime) -> Result<(), Fail> {
    let alloc = rt.alloc();
    let program = program(alloc)?;
    assert!(rt; program.symbols.len() == 16);
    let list = long_list(alloc, 1_000_000)?;
    let copy = copy_value(alloc, &list)?;
    assert!(rt; same_value(&copy, &list));
    let text = printed(alloc, &list, &program)?;
    assert_eq!(rt; text.len(), 7_888_890);
    Ok(())
}

/// A value of 1,000,000 cells, each in the first argument of another, is printed and dropped with no stack for each.
#[test]
fn deep_first_arguments(rt: HostRuntime) -> Result<(), Fail> {
    let alloc = rt.alloc();
    let program = program(alloc)?;
    assert!(rt; program.symbols.len() == 16);
    let value = nested_first(alloc, 1_000_000)?;
    let text = printed(alloc, &value, &program)?;
    assert_eq!(rt; text.len(), 6_000_002);
    Ok(())
}
