use mc_base::{Memory, Row, Text};
use mc_program::builtin::Builtin;
use mc_program::program::{Name, Pred, Program, Symbol, TypeDef};
use mc_program::ty::Ty;
use mc_self_check::library_fits;
use std::alloc::Global;
use std::test::Fail;

const LIST: u32 = 0;

const RESULT: u32 = 1;

/// How a program differs from one whose library is right.
#[derive(Clone, Copy, Debug, PartialEq, Eq)]
enum Change {
    Nothing,
    /// `to_char_list` gives a list of integers.
    Type,
    /// `to_char_list` is called otherwise.
    Name,
    /// `cons` takes a list before an item.
    Order,
    /// The type of results doesn't list `eof`.
    Unlisted,
    /// There is no `eof`.
    NoEnd,
    /// There is no `eof`, and nothing that reads.
    NoReading,
}

fn named(alloc: Global, of_module: &[u8], name: &[u8], arity: u32) -> Result<Name, Memory> {
    Ok(Name {
        module: Text::new(alloc, of_module)?,
        name: Text::new(alloc, name)?,
        arity,
    })
}

fn list_of(alloc: Global, item: Ty) -> Result<Ty, Memory> {
    Ok(Ty::Union(LIST, Row::one(alloc, item)?))
}

fn symbol(name: Name, of_type: u32, args: Vec<Ty>) -> Result<Symbol, Memory> {
    Ok(Symbol {
        name,
        of_type,
        args: Row::of(args)?,
    })
}

fn symbols(alloc: Global, change: Change) -> Result<Row<Symbol>, Memory> {
    let items = list_of(alloc, Ty::Var(0))?;
    let parts = if change == Change::Order {
        vec![in alloc; items, Ty::Var(0)]?
    } else {
        vec![in alloc; Ty::Var(0), items]?
    };
    let mut symbols = Vec::new(alloc);
    symbols.push(symbol(named(alloc, b"list", b"[]", 0)?, LIST, Vec::new(alloc))?)?;
    symbols.push(symbol(named(alloc, b"list", b"[|]", 2)?, LIST, parts)?)?;
    let got = vec![in alloc; Ty::Var(0)]?;
    symbols.push(symbol(named(alloc, b"io", b"ok", 1)?, RESULT, got)?)?;
    if !matches!(change, Change::NoEnd | Change::NoReading) {
        symbols.push(symbol(named(alloc, b"io", b"eof", 0)?, RESULT, Vec::new(alloc))?)?;
    }
    Row::of(symbols)
}

fn types(alloc: Global, change: Change) -> Result<Row<TypeDef>, Memory> {
    let results = match change {
        Change::Unlisted | Change::NoEnd | Change::NoReading => vec![in alloc; 2]?,
        _ => vec![in alloc; 2, 3]?,
    };
    let list = TypeDef {
        name: named(alloc, b"list", b"list", 1)?,
        params: 1,
        symbols: Row::of(vec![in alloc; 0, 1]?)?,
    };
    let result = TypeDef {
        name: named(alloc, b"io", b"result", 1)?,
        params: 1,
        symbols: Row::of(results)?,
    };
    Row::of(vec![in alloc; list, result]?)
}

fn to_char_list(alloc: Global, change: Change) -> Result<Pred, Memory> {
    let name: &[u8] = if change == Change::Name {
        b"to_chars"
    } else {
        b"to_char_list"
    };
    let item = if change == Change::Type {
        Ty::Int
    } else {
        Ty::Char
    };
    Ok(Pred {
        name: named(alloc, b"string", name, 1)?,
        is_func: true,
        types: Row::of(vec![in alloc; Ty::Str, list_of(alloc, item)?]?)?,
        clauses: Row::new(alloc),
        builtin: Some(Builtin::ToCharList),
    })
}

fn read_line(alloc: Global) -> Result<Pred, Memory> {
    let line = Ty::Union(RESULT, Row::one(alloc, Ty::Str)?);
    Ok(Pred {
        name: named(alloc, b"io", b"read_line_as_string", 3)?,
        is_func: false,
        types: Row::of(vec![in alloc; line, Ty::Io, Ty::Io]?)?,
        clauses: Row::new(alloc),
        builtin: Some(Builtin::ReadLine),
    })
}

fn program(alloc: Global, change: Change) -> Result<Program, Memory> {
    let mut preds = Vec::new(alloc);
    preds.push(to_char_list(alloc, change)?)?;
    if change != Change::NoReading {
        preds.push(read_line(alloc)?)?;
    }
    Ok(Program {
        types: types(alloc, change)?,
        symbols: symbols(alloc, change)?,
        preds: Row::of(preds)?,
    })
}

#[test]
fn one_change(rt: HostRuntime) -> Result<(), Fail> {
    let rows = [
        (Change::Nothing, true),
        (Change::Type, false),
        (Change::Name, false),
        (Change::Order, false),
        (Change::Unlisted, false),
        (Change::NoEnd, false),
        (Change::NoReading, true),
    ];
    for (change, fits) in rows {
        let program = program(rt.alloc(), change)?;
        assert_eq!(rt; library_fits(&program), fits, "at {change:?}");
    }
    Ok(())
}
