//! Sources, and what typing says of them.

use mc_base::{Memory, Row, Text};
use mc_compile::{CompileFault, Given, Named, Query, Read, Typed};
use mc_names::Names;
use mc_program::program::{Name, Resolved};
use mc_program::ty::Ty;
use mc_source::rule::Broken;
use mc_type_phase::{TypecheckResult, typecheck};
use std::alloc::Global;

/// What stands in front of a text that is no module of its own, on the text's first line.
const HEADER: &str = ":- module m. :- interface. :- implementation. ";

/// A text in which `@` stands for a line's end and `#` for the beginning of a declaration.
fn with_lines(alloc: Global, text: &str) -> Result<Text, Memory> {
    let mut out = Text::empty(alloc);
    if !text.starts_with("#module") {
        out.extend(HEADER.as_bytes())?;
    }
    for byte in text.as_bytes() {
        match *byte {
            b'@' => out.push(b'\n')?,
            b'#' => out.extend(b":- ")?,
            other => out.push(other)?,
        }
    }
    Ok(out)
}

/// The files of a row, between whose texts a backquote stands.
fn files_of(alloc: Global, texts: &str) -> Result<Row<Given>, Memory> {
    let mut files = Vec::new(alloc);
    for text in texts.split('`') {
        let bytes = with_lines(alloc, text)?;
        let name = Text::empty(alloc);
        files.push(Given { name, bytes })?;
    }
    Row::of(files)
}

/// The query of a goal.
fn query_of(alloc: Global, goal: &str) -> Result<Query, Memory> {
    let mut text = Text::new(alloc, goal.as_bytes())?;
    text.push(b'.')?;
    Ok(Query { text, first: false })
}

/// Sources with the table of their types.
fn typed(alloc: Global, row: &str) -> Result<Typed, CompileFault> {
    let (texts, goal) = match row.split_once(" ? ") {
        Some((texts, goal)) => (texts, Some(goal)),
        None => (row, None),
    };
    let query = match goal {
        Some(goal) => Some(query_of(alloc, goal)?),
        None => None,
    };
    let read = Read::of(alloc, &files_of(alloc, texts)?, query.as_ref())?;
    Typed::of(alloc, Named::of(alloc, read)?)
}

/// What typing says of the given files and the query.
fn judged(alloc: Global, named: Named) -> Result<(Names, TypecheckResult), Memory> {
    let Named {
        files,
        given,
        names,
        goal,
    } = named;
    let mut files = files.into_vec();
    files.truncate(given as usize);
    let files = Row::of(files)?;
    let judgement = typecheck(alloc, &names, files, given, goal.as_ref())?;
    Ok((names, judgement.judged))
}

/// What typing says of the sources of a row, behind whose files ` ? ` and the goal of a query may stand: the types of
/// each clause's variables, or the rules that are broken, each as FILE:LINE RULE TEXT.
pub fn shown(alloc: Global, row: &str) -> Result<Vec<u8>, Memory> {
    let mut out = Vec::new(alloc);
    match typed(alloc, row) {
        Ok(typed) => put_judged(alloc, &mut out, typed.named)?,
        Err(CompileFault::Rejected(broken)) => put_rules(alloc, &mut out, broken.as_slice())?,
        Err(CompileFault::Memory) => out.extend_from_slice(b"memory")?,
    }
    Ok(out)
}

/// Whether sources break no rule up to typing.
pub fn is_typed(alloc: Global, row: &str) -> Result<bool, Memory> {
    match typed(alloc, row) {
        Ok(typed) => Ok(judged(alloc, typed.named)?.1.broken.is_empty()),
        Err(CompileFault::Memory) => Err(Memory),
        Err(_) => Ok(false),
    }
}

/// Puts what typing says of sources behind a text.
fn put_judged(alloc: Global, out: &mut Vec<u8>, named: Named) -> Result<(), Memory> {
    let (names, judged) = match judged(alloc, named) {
        Ok(made) => made,
        Err(Memory) => {
            out.extend_from_slice(b"memory")?;
            return Ok(());
        }
    };
    if !judged.broken.is_empty() {
        return put_rules(alloc, out, judged.broken.as_slice());
    }
    for clause in &judged.clauses {
        put_clause(alloc, out, &names, &clause.resolved)?;
    }
    Ok(())
}

/// Puts rules that are broken behind a text.
fn put_rules(alloc: Global, out: &mut Vec<u8>, broken: &[Broken]) -> Result<(), Memory> {
    for broken in broken {
        let at = broken.at;
        let rule = broken.rule;
        let place = format!(in alloc; "{}:{} {rule:?} ", at.file, at.line)?;
        out.extend_from_slice(place.as_bytes())?;
        out.extend_from_slice(broken.what.bytes())?;
        out.push(b';')?;
    }
    Ok(())
}

/// Puts the types of a clause's variables behind a text; a variable without a name is `_`.
fn put_clause(
    alloc: Global,
    out: &mut Vec<u8>,
    names: &Names,
    clause: &Resolved,
) -> Result<(), Memory> {
    for (place, ty) in clause.var_types.as_slice().iter().enumerate() {
        match clause.var_names.as_slice().get(place) {
            Some(name) if !name.bytes().is_empty() => out.extend_from_slice(name.bytes())?,
            _ => out.push(b'_')?,
        }
        out.push(b':')?;
        put_type(alloc, out, names, ty)?;
        out.push(b' ')?;
    }
    out.push(b';')?;
    Ok(())
}

/// Puts a type behind a text.
#[cycle(types)]
fn put_type(alloc: Global, out: &mut Vec<u8>, names: &Names, ty: &Ty) -> Result<(), Memory> {
    match ty {
        Ty::Int => out.extend_from_slice(b"int")?,
        Ty::Char => out.extend_from_slice(b"char")?,
        Ty::Str => out.extend_from_slice(b"string")?,
        Ty::Io => out.extend_from_slice(b"io")?,
        Ty::Var(number) => out.extend_from_slice(format!(in alloc; "T{number}")?.as_bytes())?,
        Ty::Union(number, args) => {
            put_name(out, names, *number)?;
            put_types(alloc, out, names, args.as_slice())?;
        }
    }
    Ok(())
}

/// Puts types in brackets behind a text, nothing where there are none.
#[cycle(types)]
fn put_types(alloc: Global, out: &mut Vec<u8>, names: &Names, types: &[Ty]) -> Result<(), Memory> {
    let mut before = b'(';
    for ty in types {
        out.push(before)?;
        put_type(alloc, out, names, ty)?;
        before = b',';
    }
    if !types.is_empty() {
        out.push(b')')?;
    }
    Ok(())
}

/// Puts the name of the type of a number behind a text.
fn put_name(out: &mut Vec<u8>, names: &Names, number: u32) -> Result<(), Memory> {
    let unnamed: &[u8] = b"no type";
    let name = match names.types.as_slice().get(number as usize) {
        Some(named) => name_bytes(&named.name),
        None => unnamed,
    };
    out.extend_from_slice(name)?;
    Ok(())
}

fn name_bytes(name: &Name) -> &[u8] {
    name.name.bytes()
}
