//! A run that reads the lines of its input.

ghost use Rattle.mc_plain.specs.Rest.{WantsLine};
ghost use Rattle.mc_plain.specs.Running.{IsRun, run_of};

use crate::shown::show;
use itoa::Buffer;
use mc_base::{Memory, Row, Text};
use mc_model::run::{Input, Limits, Step};
use mc_plain::{Plain, names_all};
use mc_program::builtin::Builtin;
use mc_program::program::{Name, Program, Symbol};
use std::alloc::Global;
use test_support::{Word, Written, flat_query};

/// What a run is given that wants a line: nothing, so that it wants one again, or what comes next in its input.
#[derive(Clone, Copy)]
pub enum Given {
    Nothing,
    Line(&'static str),
    End,
    TooLong,
}

/// What `echo` is given, its budget, and what it shows: each wish for a line as the byte from which it is wanted.
pub const ECHOES: &[(&[Given], u32, &str)] = &[
    (&[Given::End], 100, "<0> a state a state;end"),
    (
        &[Given::Line("a\n"), Given::Line("b"), Given::End],
        100,
        "<0>a\n<2>b<3> a state a state;end",
    ),
    (
        &[Given::Line("\n"), Given::Line("\u{e4}\n")],
        100,
        "<0>\n<1>\u{e4}\n<4>",
    ),
    (
        &[Given::Line("a\n"), Given::TooLong],
        100,
        "<0>a\n<2>input line is too long",
    ),
    (
        &[Given::Line("a\n"), Given::Line("b")],
        2,
        "<0>a\n<2>bbudget",
    ),
    (
        &[
            Given::Nothing,
            Given::Nothing,
            Given::Line("a\n"),
            Given::Nothing,
            Given::End,
        ],
        100,
        "<0><0><0>a\n<2><2> a state a state;end",
    ),
];

/// `echo(!IO)`: io.read_line_as_string(Result, !IO), if Result = ok(Line) then io.write_string(Line, !IO), echo(!IO) else
/// true.
const ECHO: &[Written] = &[Written {
    variables: 6,
    head: &[0, 1],
    inputs: &[1, 0],
    body: &[
        Word::Apply(Builtin::ReadLine, &[0], &[2, 3]),
        Word::Made(2, 0, &[4]),
        Word::Apply(Builtin::WriteString, &[4, 3], &[5]),
        Word::Call(0, &[5, 1]),
        Word::All(2),
        Word::Same(1, 3),
        Word::If,
        Word::All(2),
    ],
}];

/// What `echo` shows within a budget.
pub fn echoed(alloc: Global, given: &[Given], budget: u32) -> Result<Vec<u8>, Memory> {
    let flat = flat_query(alloc, ECHO, 0, &[], &[])?;
    let program = program(alloc)?;
    if !names_all(&program, &flat.program.code) {
        return Ok(Vec::new(alloc));
    }
    let limits = Limits { budget, depth: 100 };
    let run = Plain::call(alloc, &program, flat.program, 0, limits)?;
    fed(alloc, run, given)
}

/// The program of what io gives for a line, by its symbols.
fn program(alloc: Global) -> Result<Program, Memory> {
    let mut symbols = Vec::new(alloc);
    symbols.push(symbol(alloc, "ok", 1)?)?;
    symbols.push(symbol(alloc, "eof", 0)?)?;
    Ok(Program {
        types: Row::new(alloc),
        symbols: Row::of(symbols)?,
        preds: Row::new(alloc),
    })
}

fn symbol(alloc: Global, name: &str, arity: u32) -> Result<Symbol, Memory> {
    Ok(Symbol {
        name: Name {
            module: Text::new(alloc, b"io")?,
            name: Text::new(alloc, name.as_bytes())?,
            arity,
        },
        of_type: 0,
        args: Row::new(alloc),
    })
}

/// What a run shows, at most a hundred steps of it. It ends where a line is wanted and nothing more is given.
fn fed(alloc: Global, mut run: Plain<'_>, given: &[Given]) -> Result<Vec<u8>, Memory>
    requires { IsRun run }
{
    let mut left = Vec::new(alloc);
    for next in given.iter().rev() {
        left.push(*next)?;
    }
    let mut text = Vec::new(alloc);
    for _ in 0..100 {
        if !goes_on(alloc, &mut run, &mut left, &mut text)? {
            return Ok(text);
        }
    }
    Ok(text)
}

/// Shows what comes next of a run, and gives it the last of what is left where it wants a line. Answers whether the run
/// goes on.
fn goes_on(
    alloc: Global,
    run: &mut Plain<'_>,
    left: &mut Vec<Given>,
    text: &mut Vec<u8>,
) -> Result<bool, Memory>
    requires { IsRun run.old }
    ensures { IsRun run.new }
{
    match run.next_if_bound()? {
        Some(Step::Wants(from)) => {
            show_wish(text, from)?;
            match left.pop() {
                Some(given) => {
                    give(alloc, run, given)?;
                    Ok(true)
                }
                None => Ok(false),
            }
        }
        step => {
            let ends = show(alloc, text, step)?;
            Ok(!ends)
        }
    }
}

fn give(alloc: Global, run: &mut Plain<'_>, given: Given) -> Result<(), Memory>
    requires is_run { IsRun run.old }
    requires wants { WantsLine (run_of run.old) }
    ensures { IsRun run.new }
{
    match input(alloc, &given)? {
        Some(input) => run.feed(input),
        None => Ok(()),
    }
}

fn show_wish(text: &mut Vec<u8>, from: u64) -> Result<(), Memory> {
    text.push(b'<')?;
    text.extend_from_slice(Buffer::new().format(from).as_bytes())?;
    text.push(b'>')?;
    Ok(())
}

/// What comes next in the input, where it is given.
fn input(alloc: Global, given: &Given) -> Result<Option<Input>, Memory> {
    match given {
        Given::Nothing => Ok(None),
        Given::Line(line) => Ok(Some(Input::Line(Text::new(alloc, line.as_bytes())?))),
        Given::End => Ok(Some(Input::End)),
        Given::TooLong => Ok(Some(Input::TooLong)),
    }
}
