ghost use Rattle.std.specs.Prelude.{IfOk};
ghost use Rattle.mc_flat_code.specs.Running.{IsCode};

use crate::goals::{DET, goal_of, numbers};
use crate::word::{Word, Written};
use mc_base::{Memory, Row, Text};
use mc_flat_code::FlatQuery;
use mc_flat_code::code::FlatProgram;
use mc_model::sched::Proc;
use mc_program::program::{Name, Place, Program, Symbol};
use mc_program::ty::Ty;
use std::alloc::Global;

/// The inst of an argument that isn't bound.
const FREE: u32 = 0;

/// The inst of an argument that is bound.
const BOUND: u32 = 1;

/// Flat code of procedures, which are called by their places in the list, and of a query over them: a goal with so many
/// variables, of which those of `head` are answered.
pub fn flat_query(
    alloc: Global,
    procedures: &[Written],
    variables: u32,
    head: &[u32],
    goal: &[Word],
) -> Result<FlatQuery, Memory>
    ensures { IfOk result (λ flat. IsCode flat.program.code) }
{
    let mut made = Vec::new(alloc);
    for written in procedures {
        made.push(procedure(alloc, written)?)?;
    }
    let flat = FlatProgram::of(alloc, &made)?;
    let first = insts(alloc, head.len(), FREE)?;
    let query = with_body(alloc, variables, numbers(alloc, head)?, first, goal)?;
    let whole = FlatQuery::over(alloc, flat, &query)?;
    Ok(whole)
}

fn procedure(alloc: Global, written: &Written) -> Result<Proc, Memory> {
    let head = numbers(alloc, written.head)?;
    let first = numbers(alloc, written.inputs)?;
    with_body(alloc, written.variables, head, first, written.body)
}

/// A procedure of a body, whose arguments are all bound at an answer.
fn with_body(
    alloc: Global,
    variables: u32,
    head: Row<u32>,
    first: Row<u32>,
    body: &[Word],
) -> Result<Proc, Memory> {
    let last = insts(alloc, head.as_slice().len(), BOUND)?;
    Ok(Proc {
        pred: 0,
        mode: 0,
        head,
        var_types: integers(alloc, variables)?,
        first,
        last,
        body: goal_of(alloc, body)?,
        declared: None,
        det: DET,
        exported: false,
        at: Place { file: 0, line: 0 },
    })
}

/// Types of so many variables, of which runs ask only how many they are.
fn integers(alloc: Global, count: u32) -> Result<Row<Ty>, Memory> {
    let mut types = Vec::new(alloc);
    for _ in 0..count {
        types.push(Ty::Int)?;
    }
    Row::of(types)
}

/// So many times the same inst.
fn insts(alloc: Global, count: usize, inst: u32) -> Result<Row<u32>, Memory> {
    let mut insts = Vec::new(alloc);
    for _ in 0..count {
        insts.push(inst)?;
    }
    Row::of(insts)
}

/// The program of symbols by their names and arities, of which those of lists have the module that the library gives them.
pub fn program(alloc: Global, symbols: &[(&str, u32)]) -> Result<Program, Memory> {
    let mut made = Vec::new(alloc);
    for (name, arity) in symbols {
        made.push(symbol(alloc, name, *arity)?)?;
    }
    Ok(Program {
        types: Row::new(alloc),
        symbols: Row::of(made)?,
        preds: Row::new(alloc),
    })
}

fn symbol(alloc: Global, name: &str, arity: u32) -> Result<Symbol, Memory> {
    Ok(Symbol {
        name: Name {
            module: Text::new(alloc, b"list")?,
            name: Text::new(alloc, name.as_bytes())?,
            arity,
        },
        of_type: 0,
        args: Row::new(alloc),
    })
}
