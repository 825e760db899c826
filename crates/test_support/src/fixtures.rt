//! Programs and definitions of insts, made piece by piece.

use mc_base::{Memory, Row, Text};
use mc_insts::InstDef;
use mc_model::inst::{Choice, InstRef};
use mc_program::program::{Name, Program, Symbol, TypeDef};
use mc_program::ty::Ty;
use std::alloc::Global;

/// A program without types.
pub fn empty_program(alloc: Global) -> Program {
    Program {
        types: Row::new(alloc),
        symbols: Row::new(alloc),
        preds: Row::new(alloc),
    }
}

fn name(alloc: Global, bytes: &[u8], arity: u32) -> Result<Name, Memory> {
    Ok(Name {
        module: Text::empty(alloc),
        name: Text::new(alloc, bytes)?,
        arity,
    })
}

/// Puts one more at the end of a row, of which 2^32 find no room.
fn push<T: Drop>(row: &mut Row<T>, item: T) -> Result<(), Memory> {
    if row.len() == u32::MAX {
        return Err(Memory);
    }
    row.push(item)
}

/// Adds a type of so many parameters, without constructors yet.
pub fn add_type(
    alloc: Global,
    program: &mut Program,
    bytes: &[u8],
    params: u32,
) -> Result<(), Memory> {
    let def = TypeDef {
        name: name(alloc, bytes, params)?,
        params,
        symbols: Row::new(alloc),
    };
    push(&mut program.types, def)
}

/// Adds a constructor to the last type, over these types.
pub fn add_constructor(
    alloc: Global,
    program: &mut Program,
    bytes: &[u8],
    args: Vec<Ty>,
) -> Result<(), Memory> {
    let Some(mut last) = program.types.pop() else {
        return Ok(());
    };
    let args = Row::of(args)?;
    push(&mut last.symbols, program.symbols.len())?;
    let symbol = Symbol {
        name: name(alloc, bytes, args.len())?,
        of_type: program.types.len(),
        args,
    };
    push(&mut program.symbols, symbol)?;
    push(&mut program.types, last)
}

/// The program of lists: `[]` is its first constructor, `[|]` its second.
pub fn list_program(alloc: Global) -> Result<Program, Memory> {
    let mut program = empty_program(alloc);
    add_type(alloc, &mut program, b"list", 1)?;
    add_constructor(alloc, &mut program, b"[]", Vec::new(alloc))?;
    let rest = Ty::Union(0, Row::one(alloc, Ty::Var(0))?);
    add_constructor(
        alloc,
        &mut program,
        b"[|]",
        vec![in alloc; Ty::Var(0), rest]?,
    )?;
    Ok(program)
}

/// A constructor over these insts.
pub fn choice(alloc: Global, bytes: &[u8], args: &[InstRef]) -> Result<Choice, Memory> {
    let args = Row::of(Vec::from_slice(alloc, args)?)?;
    Ok(Choice {
        name: Text::new(alloc, bytes)?,
        arity: args.len(),
        args,
    })
}

/// What lists one constructor over these insts.
pub fn bound(alloc: Global, bytes: &[u8], args: &[InstRef]) -> Result<InstDef, Memory> {
    Ok(InstDef::Bound(Row::one(alloc, choice(alloc, bytes, args)?)?))
}

/// Another name of the definition in a place.
pub fn named(k: u32) -> InstDef {
    InstDef::Is(InstRef::New(k))
}

/// Another name of an inst that is there.
pub fn old(i: u32) -> InstDef {
    InstDef::Is(InstRef::Old(i))
}
