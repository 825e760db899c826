ghost use Rattle.mc_plain.specs.Running.{IsRun};

use crate::runs::{Query, Run};
use crate::words::{MAIN_NUMBER, PROCEDURES, SYMBOLS};
use itoa::Buffer;
use mc_base::{Memory, Row};
use mc_model::run::{Exception, Limits, Step, Stop};
use mc_plain::{Plain, names_all};
use mc_program::value::Value;
use std::alloc::Global;
use test_support::{flat_query, program};

/// Very great limits.
const GREAT: Limits = Limits {
    budget: 100_000_000,
    depth: 10_000_000,
};

/// What the run of a query shows.
pub fn shown(alloc: Global, query: &Query, limits: Limits) -> Result<Vec<u8>, Memory> {
    let flat = flat_query(alloc, PROCEDURES, query.variables, query.head, query.goal)?;
    let program = program(alloc, SYMBOLS)?;
    if !names_all(&program, &flat.program.code) {
        return Ok(Vec::new(alloc));
    }
    let run = Plain::query(alloc, &program, flat, limits)?;
    written_down(alloc, run)
}

/// What the run of `main` shows.
pub fn main_shown(alloc: Global, limits: Limits) -> Result<Vec<u8>, Memory> {
    let flat = flat_query(alloc, PROCEDURES, 0, &[], &[])?;
    let program = program(alloc, SYMBOLS)?;
    if !names_all(&program, &flat.program.code) {
        return Ok(Vec::new(alloc));
    }
    let run = Plain::call(alloc, &program, flat.program, MAIN_NUMBER, limits)?;
    written_down(alloc, run)
}

/// What a run shows, at most a hundred steps of it.
fn written_down(alloc: Global, mut run: Plain<'_>) -> Result<Vec<u8>, Memory>
    requires { IsRun run }
{
    let mut text = Vec::new(alloc);
    for _ in 0..100 {
        let step = run.next_if_bound()?;
        if show(alloc, &mut text, step)? {
            return Ok(text);
        }
    }
    Ok(text)
}

/// Shows a step. Answers whether it is an end.
pub fn show(alloc: Global, text: &mut Vec<u8>, step: Option<Step>) -> Result<bool, Memory> {
    match step {
        Some(Step::Answer(values)) => {
            show_answer(alloc, text, &values)?;
            Ok(false)
        }
        Some(Step::Wrote(bytes)) => {
            text.extend_from_slice(bytes.bytes())?;
            Ok(false)
        }
        Some(Step::Stopped(stop)) => {
            text.extend_from_slice(why(&stop))?;
            Ok(true)
        }
        Some(Step::End) => {
            text.extend_from_slice(b"end")?;
            Ok(true)
        }
        Some(Step::Wants(_)) => {
            text.extend_from_slice(b"a line is wanted")?;
            Ok(true)
        }
        None => {
            text.extend_from_slice(b"stuck")?;
            Ok(true)
        }
    }
}

/// Why a run stopped, as the tables name it: an error by its text.
fn why(stop: &Stop) -> &[u8] {
    match stop {
        Stop::Budget => b"budget",
        Stop::TooDeep => b"depth",
        Stop::Throw(Exception::ZeroDivide) => b"zero divisor",
        Stop::Throw(Exception::Error(message)) => message.bytes(),
    }
}

/// Shows the values of an answer, with a semicolon behind them.
fn show_answer(alloc: Global, text: &mut Vec<u8>, values: &Row<Value>) -> Result<(), Memory> {
    for value in values.as_slice() {
        show_value(alloc, text, value)?;
    }
    text.push(b';')?;
    Ok(())
}

/// Shows the numbers and constants in a value, with a blank before each, at most a hundred of its parts.
fn show_value(alloc: Global, text: &mut Vec<u8>, value: &Value) -> Result<(), Memory> {
    let mut parts = Vec::new(alloc);
    parts.push(value)?;
    for _ in 0..100 {
        match parts.pop() {
            None => return Ok(()),
            Some(Value::Con(symbol, args)) => {
                if args.len() == 0 {
                    text.push(b' ')?;
                    text.extend_from_slice(name(*symbol).as_bytes())?;
                }
                for part in args.as_slice().iter().rev() {
                    parts.push(part)?;
                }
            }
            Some(Value::Int(number)) => {
                text.push(b' ')?;
                text.extend_from_slice(Buffer::new().format(*number).as_bytes())?;
            }
            Some(_) => text.extend_from_slice(b" a state")?,
        }
    }
    Ok(())
}

/// The name of a symbol.
fn name(symbol: u32) -> &'static str {
    match SYMBOLS.get(symbol as usize) {
        Some((name, _)) => name,
        None => "no symbol",
    }
}

/// Whether a run shows what it is to show, with every budget from 0 to its calls.
pub fn agrees(alloc: Global, run: &Run) -> Result<bool, Memory> {
    for budget in 0..=run.calls {
        let limits = Limits {
            budget,
            depth: 10_000,
        };
        let text = shown(alloc, &run.query, limits)?;
        let wanted = expected(alloc, run, budget)?;
        if text.as_slice() != wanted.as_slice() {
            return Ok(false);
        }
    }
    Ok(true)
}

/// What a run shows within a budget.
pub fn expected(alloc: Global, run: &Run, budget: u32) -> Result<Vec<u8>, Memory> {
    let mut text = Vec::new(alloc);
    for (calls, part) in run.shown {
        if *calls <= budget {
            text.extend_from_slice(part.as_bytes())?;
        }
    }
    let end = if budget < run.calls {
        "budget"
    } else {
        run.end
    };
    text.extend_from_slice(end.as_bytes())?;
    Ok(text)
}

/// How many constructors stand one in another in the last value of the first answer of a query.
pub fn nesting(alloc: Global, query: &Query) -> Result<u32, Memory> {
    let flat = flat_query(alloc, PROCEDURES, query.variables, query.head, query.goal)?;
    let program = program(alloc, SYMBOLS)?;
    if !names_all(&program, &flat.program.code) {
        return Ok(0);
    }
    let mut run = Plain::query(alloc, &program, flat, GREAT)?;
    match run.next_if_bound()? {
        Some(Step::Answer(values)) => Ok(depth(values)),
        _ => Ok(0),
    }
}

/// How many constructors stand one in another in the last of some values, at most 10,000,000.
fn depth(mut values: Row<Value>) -> u32 {
    for depth in 0..10_000_000u32 {
        let args = match values.pop() {
            Some(value) => value.into_args(),
            None => None,
        };
        match args {
            Some(args) => values = args,
            None => return depth,
        }
    }
    10_000_000
}
